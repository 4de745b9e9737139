//! Tests of configurations, served networks, journals and comparisons, by what `host_config`, `live_network`,
//! `host_journal` and `host_compare` show to anybody: they stand here so that those crates are proved once. It holds
//! nothing else.
#![tactic(auto)]

#[cfg(test)]
mod fixtures;
#[cfg(test)]
mod of_comparisons;
#[cfg(test)]
mod of_configuration;
#[cfg(test)]
mod of_journals;
#[cfg(test)]
mod of_served_networks;
