//! Whether two networks host a node alike.

ghost use Rattle.std.specs.Prelude.{◌≡◌, ◌↔◌, IsTrue, option_map};

use scp_types::Nested;

/// Whether two networks host a node alike: neither does, or both with the same slices. The parameters are its slices in
/// each, none if it is not hosted.
pub fn is_hosted_alike(one: Option<&Nested>, other: Option<&Nested>) -> bool
    ensures { IsTrue result ↔ option_map (λ q. q.now) one.entry ≡ option_map (λ q. q.now) other.entry }
{
    match (one, other) {
        (None, None) => true,
        (Some(one), Some(other)) => one.is_same(other),
        _ => false,
    }
}
