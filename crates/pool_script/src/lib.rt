//! A script of networks whose events are jobs of workers.
//!
//! [`run_pool`] takes what the lines of a script give to workers: networks, slots that are opened first, and jobs. A
//! worker takes one network after the other: it opens a cell for it, runs its jobs, and closes it. So a network stays
//! with one worker, and what it took is given back before the next one. What is printed is the same for any number of
//! workers.
#![tactic(auto)]

mod dealing;
mod decided;
mod errand;
mod gate;
mod lines;
mod opening;
mod pool;
mod running;

pub use pool::run_pool;
