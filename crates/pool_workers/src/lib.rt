//! Workers: threads that take jobs from one queue and apply them to the networks of a host (this host's profile).
//!
//! A [`Host`] has networks, each a cell with all its seats. [`offer`] puts jobs into the queue, and a [`Crew`] is room
//! for workers, made before they begin. In a [`run`] each worker has a seat at each network and a pass of the queue. It
//! takes a job, and applies the event by its seat at the job's network. Then it goes through the receipts that the seat
//! has gained. For each emission, each other hosted node of that network hears it, by a job that the worker applies at
//! once. That goes on until no receipt is left, and only then the worker takes the next job from the queue. If it finds
//! the job's network taken, it puts the job back, behind the others. A [`Gate`] sees each application begin and end.
//!
//! Networks know nothing of one another, and each has a lock of its own. In which order jobs are taken is open. What is
//! proved is the sum: each job of the queue, and each hearing that follows from an emission, was applied or refused,
//! and is counted so in the [`Report`].
#![tactic(auto)]

mod alone;
mod applying;
mod crew;
mod deal;
mod gate;
mod host;
mod host_state;
mod not_joined;
mod pool;
mod running;
mod shared;
mod worker;
mod workplace;

pub use alone::run_alone;
pub use crew::Crew;
pub use gate::Gate;
pub use host::{Host, MAX_NETWORKS};
pub use not_joined::NotJoined;
pub use running::{Report, offer, run};
