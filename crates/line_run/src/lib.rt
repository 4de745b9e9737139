//! Scripts of networks: their lines declare networks with their nodes, put events to them, hand emissions on, and take
//! served networks back.
//!
//! A [`HostRun`] runs the lines of one script over the journals of the networks that it declares, each with an archive
//! of its own. It prints what each line is answered, and of a declaration nothing. An [`UnprintedRun`] does that in
//! silence, and ends if an event is refused because it is out of memory. A [`SubmissionRun`] takes what lines submit.
//! All three are [`line_script::LineRunner`]s, to be run by `line_script::run_script` and its kin.
//!
//! Commands that compare two scripts run them to their ends before they print: as far as the scripts concern one node,
//! by what became of their networks ([`answer_compare`]), or by what they submit ([`answer_crowd`]). A script is read
//! whole and run without printing ([`FinishedScript`]), or read for what it submits ([`read_submission`]).
#![tactic(auto)]

mod answer;
mod comparing;
mod crowding;
mod explaining;
mod finished_script;
mod hearings;
mod host_run;
mod nets;
mod networks;
mod outcome;
mod replies;
mod settled_lines;
mod submission_run;
mod trace;
mod unheard;
mod unprinted_run;

pub use answer::Answer;
pub use comparing::{Side, Sides, answer_compare};
pub use crowding::{answer_crowd, read_submission};
pub use finished_script::{FinishedScript, scripts_have_one_end};
pub use host_run::{HostRun, marks_name_emissions, waiting_emissions_are_found};
pub use replies::line_of_reply;
pub use submission_run::SubmissionRun;
pub use unprinted_run::{UnprintedRun, lines_do_one_thing, scripts_have_histories};
