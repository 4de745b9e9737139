//! Tests of values, words, runs of lines, bytes, slices and live hosts, by what `scp_types`, `line_script`,
//! `scp_codec`, `scp_federation` and `live_feed` show to anybody: they stand here so that those crates are proved once.
//! It holds nothing else.
#![tactic(auto)]

pub mod deeds;
#[cfg(test)]
mod of_codec;
#[cfg(test)]
mod of_feed;
#[cfg(test)]
mod of_running;
#[cfg(test)]
mod of_scripts;
#[cfg(test)]
mod of_slices;
#[cfg(test)]
mod of_types;
