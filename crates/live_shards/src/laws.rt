//! Laws on hosts in parts.

ghost use Rattle.live_shards.specs.Asked.{AskedNetworksAreNamed, NetsDeclareNetworks, OnlyNetsDeclareNetworks};
ghost use Rattle.live_shards.specs.Parts.{JoinedHostsHaveAllNetworks, PartsAnswerForTheWhole, PartsAnswerLinesForTheWhole};

/// A law: what a line asks for, it asks of the network whose number is its second field. Only lines that begin with
/// `net` declare a network, and they ask for nothing else.
#[tactic(auto, using(crate::proofs::Words::asked_networks_are_named, crate::proofs::Words::only_nets_declare_networks, crate::proofs::Nets::nets_declare_networks))]
pub fn lines_name_their_networks()
    ensures named { AskedNetworksAreNamed }
    ensures only { OnlyNetsDeclareNetworks }
    ensures nothing_else { NetsDeclareNetworks }
{}

/// A law: let networks be shared out by their numbers among the parts of a host. Then what a part answers to a line of
/// its networks the whole host may answer. Both must have room for the network that the line may declare. So it is of
/// many lines that declare none, whichever part is first. A host has as many networks as its parts together.
pub fn parts_answer_for_the_whole()
    ensures line { PartsAnswerForTheWhole }
    ensures lines { PartsAnswerLinesForTheWhole }
    ensures networks { JoinedHostsHaveAllNetworks }
{}
