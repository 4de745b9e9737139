//! Where envelopes lie: a place reads as what was put there, whatever came after it.
#![tactic(auto)]

mod archive;
mod box_shelf;
mod filed;
mod held;
mod shared;
mod shelf;
mod slice_numbers;

pub use archive::Archive;
pub use box_shelf::BoxShelf;
pub use filed::Filed;
pub use held::Held;
pub use shared::SharedHandle;
pub use shelf::{Places, Shelf};
