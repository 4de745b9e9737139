//! Laws on hosts whose networks have as much left of their budgets, though not as much was declared and used up.

ghost use Rattle.live_host.specs.Futures.{AlikeBothWays, AlikeHostsAnswerAlike, AlikeInTurn, FuturesAreAlike, FuturesAreAlikeButForNumbers, MovedIsAlike, MovedMachinesServeAlike, MovedMachinesServeNoMore, MovedNetsStepAlike, NumbersStandInFront, ReachedHostsAreAlike, StandingIsAlike};

/// A law: if more is declared of a network, and as much more is used up, then a step is answered alike, and so are all
/// that follow.
#[tactic(auto, using(crate::proofs::MovedNets::moved_nets_step_alike))]
pub fn moved_nets_step_alike()
    ensures { MovedNetsStepAlike }
{}

/// A law: what an event comes to, with all that the others hear, is the same if more is declared and as much more is
/// used up.
pub fn moved_machines_serve_alike()
    ensures more { MovedMachinesServeAlike }
    ensures no_more { MovedMachinesServeNoMore }
{}

/// A law: two hosts whose networks have the same open slots, and as much left of their budgets, answer each line alike,
/// and so all that follow. What is told of them and what a journal keeps of them is the same.
pub fn alike_hosts_answer_alike()
    ensures line { AlikeHostsAnswerAlike }
    ensures lines { FuturesAreAlike }
{}

/// A law: which hosts are alike. A host that lines lead to is alike itself. It is also alike a host of whose networks
/// more was declared, and as much more used up. It goes both ways, and in turn.
pub fn alike_hosts()
    ensures both_ways { AlikeBothWays }
    ensures in_turn { AlikeInTurn }
    ensures reached { ReachedHostsAreAlike }
    ensures standing { StandingIsAlike }
    ensures moved { MovedIsAlike }
{}

/// A law: the number of a line stands in front of each line of its block, and nothing else depends on it. So hosts that
/// are alike, of which one has had fewer lines, answer all further lines alike but for these numbers.
pub fn numbers_stand_in_front()
    ensures line { NumbersStandInFront }
    ensures lines { FuturesAreAlikeButForNumbers }
{}
