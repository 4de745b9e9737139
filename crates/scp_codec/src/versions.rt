//! The versions of envelopes: which slices each of them spells.

ghost use Rattle.std.specs.Prelude.{◌≡◌, ◌≤◌};
ghost use Rattle.scp_types.specs.Trees.{most_levels};
ghost use Rattle.scp_codec.specs.Grammar.{levels_in};
ghost use Rattle.scp_codec.specs.Spelling.{version_of};

use scp_types::{MAX_INNER_LEVELS, Nested};

/// The first byte of an envelope whose slices have at most two levels of inner sets (this host's
/// profile).
pub(crate) const FIRST_VERSION: u8 = 1;

/// The first byte of an envelope whose slices have more (this host's profile).
pub(crate) const SECOND_VERSION: u8 = 2;

/// The most levels of inner sets that the first version spells.
const FIRST_LEVELS: usize = 2;

/// The version in which an envelope with these slices is spelled.
pub(crate) fn version_of(slices: &Nested) -> u8
    ensures { result ≡ version_of slices.now }
{
    if slices.has_levels(FIRST_LEVELS) {
        FIRST_VERSION
    } else {
        SECOND_VERSION
    }
}

/// The most levels of inner sets that a version has.
pub(crate) fn levels_in(version: u8) -> usize
    ensures levels { result ≡ levels_in version }
    ensures few { result ≤ most_levels }
{
    if version == FIRST_VERSION {
        FIRST_LEVELS
    } else {
        MAX_INNER_LEVELS
    }
}
