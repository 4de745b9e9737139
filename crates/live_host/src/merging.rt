//! Laws on hosts that are put together from their networks.

ghost use Rattle.live_host.specs.Merging.{LinesAloneAreServed, LinesAloneInTurn, LinesAreAnsweredWhereRoomIs, LinesMayBeMerged, OwnLinesRunAlone};

/// A law: what a line may be answered by a host that has only its network, it may be answered next to others. Only a
/// line that declares a new network needs room.
pub fn lines_are_answered_where_room_is()
    ensures { LinesAreAnsweredWhereRoomIs }
{}

/// A law: lines that each do something to one network are served in turn, with any numbers, and all of them are kept.
/// The lines of a network in a run, without the others, are such lines.
pub fn lines_run_alone()
    ensures served { LinesAloneAreServed }
    ensures in_turn { LinesAloneInTurn }
    ensures own { OwnLinesRunAlone }
{}

/// A law: the lines of several networks, at most 4,096, which each may be answered by themselves, may be answered
/// together. Any order will do in which those of each network stay in theirs.
pub fn lines_may_be_merged()
    ensures { LinesMayBeMerged }
{}
