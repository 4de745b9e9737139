//! The command line of the host: which words are which call, and what is answered to words that are none.
//!
//! A command stands with its name in `command`, its options in `options`, its operands in `call`, and all that is told
//! about it in `form`. The words are read once, by these.
#![tactic(auto)]

mod call;
mod command;
mod fault;
mod form;
mod help;
mod operands;
mod options;
mod pages;
mod pool_size;
mod replay;
mod subject;
mod word;

pub use call::{
    Call, ClosureCall, EncodeCall, PairCall, RunCall, ServeCall, TableCall, Usage, read_call,
};
pub use pool_size::{MAX_WORKERS, PoolSize};
pub use replay::ReplayFrom;
pub use subject::Format;
pub use word::Word;
