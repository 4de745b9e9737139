//! Laws on journals that are made shorter.

ghost use Rattle.live_host.specs.Compacted.{CompactedFilesLeadToAlikeHosts, DeclarationsAreSmall, DeclarationsMayBeLowered, NamingLinesBegin, RefusedLinesStayAlike, ShorterJournalsLeadToAlikeHosts, SlotsMayBeErased};

/// A law: the shorter journal of a host leads to one that is alike, if no block said that it was out of memory.
pub fn shorter_journals_follow()
    ensures small { DeclarationsAreSmall }
    ensures lowered { DeclarationsMayBeLowered }
    ensures erased { SlotsMayBeErased }
    ensures refused { RefusedLinesStayAlike }
    ensures naming { NamingLinesBegin }
    ensures law { ShorterJournalsLeadToAlikeHosts }
    ensures files { CompactedFilesLeadToAlikeHosts }
{}
