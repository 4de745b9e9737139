//! Envelopes as bytes and back. Each envelope has exactly one spelling, of at most 65,536 bytes. More bytes are refused
//! by their length, and others that spell none by the fault that comes first from left to right.
//!
//! `specs/Spelling.antt` has the spelling, `specs/Grammar.antt` what shows which fault; the decoder
//! and the encoder are proved against these two.
#![tactic(auto)]

mod decoder;
mod encoder;
mod error;
mod reader;
mod seen;
mod statements;
mod trees;
mod versions;

pub use decoder::{MAX_BYTES, decode, one_answer, one_spelling, round_trip};
pub use encoder::encode;
pub use error::{CodecError, Fault};
