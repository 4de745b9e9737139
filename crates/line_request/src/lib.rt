//! Reads the lines of networks: what each of them declares or asks for, whatever runs it.
//!
//! [`request_of`] reads a line's fields as a [`Request`], and [`ask_of`] as what they ask of a live host. [`order_of`]
//! reads them as what they order in a script, if some networks are served and others are not. [`Waiting`] and [`Named`]
//! say at which stage each network is, and so which declarations are taken. [`line_of_outs`] and [`line_of_refusal`]
//! print what an event is answered.
//!
//! [`encode_words`] says the bytes of the envelope that four words of a line spell, and [`decode_digits`] the words of
//! the envelope that bytes spell, or which fault they have. Each is the other's way back.
#![tactic(auto)]

mod ask;
mod decoding;
mod encoding;
mod events;
mod faults;
mod form;
mod named;
mod order;
mod outlines;
mod refusals;
mod replies;
mod request;
mod verbs;
mod waiting;

pub use ask::{Ask, ask_of};
pub use decoding::{Decoded, decode_digits};
pub use encoding::encode_words;
pub use form::Form;
pub use named::Named;
pub use order::{Order, order_of};
pub use outlines::Outline;
pub use replies::{line_of_outs, line_of_refusal, push_out, push_outs, push_refusal};
pub use request::{Declaration, Request, asked_by, request_of};
pub use verbs::{EventVerb, Verb, is_word};
pub use waiting::Waiting;
