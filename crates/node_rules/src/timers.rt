//! When a timer acts, and how far a ballot counter may be raised. Timers are numbers: the round of
//! nomination or the ballot counter for which they were armed. Nothing here knows of time.

ghost use Rattle.std.specs.Prelude.{◌≡◌};
ghost use Rattle.scp_spec.specs.Timers.{is_nomination_timer_live, is_ballot_timer_live, cap};

/// How far above the number of fired ballot timers a ballot counter may be raised.
pub const FREE_RAISE: u32 = 1_000;

/// Whether a nomination timer acts: it is the timer of the round, a round has begun (rounds count from 1), no ballot is
/// confirmed as prepared yet, and there is a next round, the last one being 4,294,967,295 (this host's profile).
pub fn nomination_is_live(timer: u32, round: u32, confirmed_prepared: bool) -> bool
    ensures { result ≡ is_nomination_timer_live timer round confirmed_prepared }
{
    timer == round && timer > 0 && !confirmed_prepared && timer < u32::MAX
}

/// Whether a ballot timer acts: the node has not externalized, the timer is the one that was armed last and that of the
/// current ballot's counter, and there is a next counter, the last one being 4,294,967,295 (this host's profile).
/// `counter` is the current ballot's, `None` if there is no ballot yet.
pub fn ballot_is_live(timer: u32, armed: u32, counter: Option<u32>, externalized: bool) -> bool
    ensures { result ≡ is_ballot_timer_live timer armed counter externalized }
{
    let of_ballot = match counter {
        Some(number) => number == timer,
        None => false,
    };
    !externalized && timer == armed && of_ballot && timer < u32::MAX
}

/// The greatest counter to which the ballots of other nodes may raise a node's own: 1,000 more than
/// its ballot timers that have fired, and at most 4,294,967,295 (this host's profile).
pub fn cap(ballot_timeouts: u32) -> u32
    ensures { result ≡ cap ballot_timeouts }
{
    ballot_timeouts.saturating_add(FREE_RAISE)
}
