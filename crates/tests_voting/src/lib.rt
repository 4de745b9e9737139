//! Tests of what judges statements, from quorums and tables of rows to a node's steps, by what those crates show to
//! anybody: they stand here so that those crates are proved once. It holds nothing else.
//!
//! What they answer is said by their contracts, and tried through the program. That they answer if there is memory is
//! shown here, and what they keep, which no contract says.
#![tactic(auto)]

#[cfg(test)]
mod fixtures;
#[cfg(test)]
mod of_archives;
#[cfg(test)]
mod of_listeners;
#[cfg(test)]
mod of_nodes;
#[cfg(test)]
mod of_quorum;
#[cfg(test)]
mod of_tables;
#[cfg(test)]
mod of_view;
