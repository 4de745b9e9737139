//! The least member that fails a test.

ghost use Rattle.std.specs.Prelude.{◌≡◌, MatchOption, false, true};
ghost use Rattle.std.specs.Fn.{FnReturnsAt};
ghost use Rattle.host_closure.specs.Announcing.{member_names};
ghost use Rattle.host_closure.specs.Least.{AreAll, IsLeast, lesser_name};

use crate::closure_list::ClosureList;
use scp_types::NodeId;

/// The least member that fails a test; none if all pass it. Each member is tested once.
pub fn least_failing<F: Fn(&NodeId) -> bool>(members: &ClosureList, test: F) -> Option<NodeId>
    requires { F.IsAlwaysCallable test }
    ensures { MatchOption result (AreAll (λ u. FnReturnsAt F.Fn test u true) (member_names members.now)) (IsLeast (λ u. FnReturnsAt F.Fn test u false) (λ u. FnReturnsAt F.Fn test u true) (member_names members.now)) }
{
    let mut least = None;
    for place in 0..members.len() {
        if let Some(name) = members.name(place) {
            if !test(&name) {
                least = lesser(least, name);
            }
        }
    }
    least
}

fn lesser(best: Option<NodeId>, name: NodeId) -> Option<NodeId>
    ensures { result ≡ lesser_name best name }
{
    match best {
        Some(best) if best < name => Some(best),
        _ => Some(name),
    }
}
