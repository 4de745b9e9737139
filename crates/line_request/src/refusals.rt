//! Numbers and names of refusals, as they are printed.

ghost use Rattle.std.specs.Prelude.{◌≡◌};
ghost use Rattle.line_request.specs.Replies.{refusal_name, refusal_number};

use scp_types::Refusal;

pub(crate) fn number_of(refusal: Refusal) -> u8
    ensures { result ≡ refusal_number refusal }
{
    match refusal {
        Refusal::NoSuchNetwork => 1,
        Refusal::NoSuchNode => 2,
        Refusal::SlotNotOpen => 3,
        Refusal::SlotOpenAlready => 4,
        Refusal::TooManySlots => 5,
        Refusal::BadEnvelope(_) => 6,
        Refusal::HostedSender => 7,
        Refusal::NotEmitted => 8,
        Refusal::JournalFull => 9,
        Refusal::BytesFull => 10,
        Refusal::BadValue => 11,
        Refusal::ProposedAlready => 12,
        Refusal::NoMemory => 13,
        Refusal::ShareFull => 15,
        Refusal::ShareBytesFull => 16,
    }
}

pub(crate) fn name_of(refusal: Refusal) -> &'static str
    ensures { result.now ≡ refusal_name refusal }
{
    match refusal {
        Refusal::NoSuchNetwork => "NoSuchNetwork",
        Refusal::NoSuchNode => "NoSuchNode",
        Refusal::SlotNotOpen => "SlotNotOpen",
        Refusal::SlotOpenAlready => "SlotOpenAlready",
        Refusal::TooManySlots => "TooManySlots",
        Refusal::BadEnvelope(_) => "BadEnvelope",
        Refusal::HostedSender => "HostedSender",
        Refusal::NotEmitted => "NotEmitted",
        Refusal::JournalFull => "JournalFull",
        Refusal::BytesFull => "BytesFull",
        Refusal::BadValue => "BadValue",
        Refusal::ProposedAlready => "ProposedAlready",
        Refusal::NoMemory => "NoMemory",
        Refusal::ShareFull => "ShareFull",
        Refusal::ShareBytesFull => "ShareBytesFull",
    }
}
