//! Scripts and table files: reading a file, its lines and their fields, running them one by one, and the
//! words in them.
//!
//! What runs the lines of one kind of script implements [`LineRunner`]. [`run_script`] reads a script whole before it
//! runs the first line, [`run_stream`] runs each line as it comes. Each word has a reading function, which answers
//! `None` for what is no such word, and a printing one, which adds the shortest form to a text. An error of either says
//! that it is out of memory. What is printed of a name, a value, slices or a statement is read back as the same.
#![tactic(auto)]

mod hexadecimal;
mod input;
mod name;
mod number;
mod remaining;
mod run;
mod script;
mod slices;
mod splitting;
mod statement;
mod stream;
mod value;

pub use hexadecimal::{bytes_of, digits_of};
pub use input::{LONGEST_SCRIPT, ReadError, read_whole};
pub use name::{name_of, names_read_back, push_name};
pub use number::{counter_of, number_of};
pub use run::{LineRunner, Stop, run_script};
pub use script::{Line, LineError, Lines, fields_of};
pub use slices::{push_slices, slices_of, slices_read_back, slices_spelled_once};
pub use statement::{push_statement, statement_of, statements_read_back};
pub use stream::run_stream;
pub use value::{ballot_of, push_ballot, push_value, value_of, values_read_back};
