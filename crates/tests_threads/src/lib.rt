//! Tests of stores, queues, watches, cells and workers, most of them with several threads, by what those crates show to
//! anybody: they stand here so that those crates are proved once. It holds nothing else.
#![tactic(auto)]

#[cfg(test)]
mod fixtures;
#[cfg(test)]
mod of_archives;
#[cfg(test)]
mod of_cells;
#[cfg(test)]
mod of_decisions;
#[cfg(test)]
mod of_queues;
#[cfg(test)]
mod of_tasks;
#[cfg(test)]
mod of_workers;
