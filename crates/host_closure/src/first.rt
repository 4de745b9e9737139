//! The first place at which two lists part.

ghost use Rattle.std.specs.Prelude.{MatchOption, false, true};
ghost use Rattle.std.specs.Fn.{FnReturnsAtPair};
ghost use Rattle.std.specs.List.{AllZip};
ghost use Rattle.host_closure.specs.Parting.{IsPartedAt};

/// The number of elements that are the same before the first difference of two lists, if there is one. A list differs
/// from a longer one where it ends. Each list is gone through once.
pub fn first_difference<T, F: Fn(&T, &T) -> bool>(
    one: &[T],
    other: &[T],
    is_same: F,
) -> Option<usize>
    requires { F.IsAlwaysCallable is_same }
    ensures { MatchOption result (AllZip (λ x y. FnReturnsAtPair F.Fn is_same x y true) one.now other.now) (IsPartedAt (λ x y. FnReturnsAtPair F.Fn is_same x y true) (λ x y. FnReturnsAtPair F.Fn is_same x y false) one.now other.now) }
{
    let both = one.len().min(other.len());
    for place in 0..both {
        if !is_same(&one[place], &other[place]) {
            return Some(place);
        }
    }
    if one.len() == other.len() {
        None
    } else {
        Some(both)
    }
}
