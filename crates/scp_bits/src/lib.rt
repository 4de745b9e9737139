//! Slices compiled against a list of nodes. Each name is a place in the list, and a set of nodes is a list of words
//! with a bit for each place. So a test of slices is a few words for each of their sets.
#![tactic(auto)]

mod answers;
mod asking;
mod compiling;
mod few;
mod form;
mod mask;
mod moving;
mod places;
mod search;
mod set;

pub use asking::{Passing, is_met_by};
pub use compiling::{compile, has_places, place_in_nodes, place_near};
pub use form::Form;
pub use places::{add_place, clear_place, has_place, no_places};
pub use search::in_quorum;
pub use set::{CompiledSet, is_met};
