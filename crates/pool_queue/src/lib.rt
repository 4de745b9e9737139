//! What threads share out among themselves: jobs in a bounded queue, and tasks (this host's profile).
//!
//! Each job that is put is taken once, or left at the end. [`Queue::new`] makes a queue and its passes, one for each
//! thread. A thread puts and takes by its pass, and only contracts see which jobs went by it. Each job is handed back
//! at once, or lies in the queue until one pass has it. [`Queue::close`] asks for all passes and hands over what is
//! left. What is put goes to whoever takes next: nothing is said of the order of two threads' calls, nor that a thread
//! runs.
//!
//! Each [`Task`] is done once, by the thread that comes to it first ([`do_all`]). So a thread that is held up by others
//! of the machine leaves the rest to those that are not.
#![tactic(auto)]

mod calls;
mod closing;
mod doing;
mod line;
mod opening;
mod rule;
mod task;

pub use doing::do_all;
pub use line::Queue;
pub use rule::{Job, Pass};
pub use task::Task;
