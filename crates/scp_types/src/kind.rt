//! The two kinds of statements.

/// What a statement is about. A node has at most one newest statement of each kind.
#[derive(Clone, Copy, Debug, PartialEq, Eq, PartialOrd, Ord)]
pub enum Kind {
    /// Which values may be balloted on: NOMINATE.
    Nomination,
    /// Which ballot is prepared and committed: PREPARE, COMMIT, EXTERNALIZE.
    Ballot,
}
