//! How much room values take: a host keeps many of them, and moves them with each event.

use crate::{Ballot, Envelope, Inputs, Out, Statement, Value, Votes};

const _: () = prove!(size_of::<Value>() <= 16);

const _: () = prove!(size_of::<Ballot>() <= 24);

const _: () = prove!(size_of::<Statement>() <= 64);

const _: () = prove!(size_of::<Envelope>() <= 160);

const _: () = prove!(size_of::<Votes>() <= 176);

const _: () = prove!(size_of::<Out>() <= 160);

const _: () = prove!(size_of::<Inputs>() <= 64);
