//! Laws of the senders of a table.

ghost use Rattle.std.specs.Prelude.{◌≡◌, ◌<◌, ◌==◌, ◌||◌, List, ℕ, is_some};
ghost use Rattle.std.specs.List.{AllPairs, list_any};
ghost use Rattle.node_table.specs.Senders.{senders};
ghost use Rattle.scp_spec.specs.Rows.{row};
ghost use Rattle.scp_types.specs.Statements.{Sent};
ghost use Rattle.scp_types.specs.declared.kind.Kind.{Kind};

/// The senders of a table are in ascending order, without repetition, and they are exactly those with
/// a row.
pub fn senders_are_those_with_a_row()
    ensures ascending { (table : List Sent) → AllPairs (λ u w. u < w) (senders table) }
    ensures exactly { (table : List Sent) (u : ℕ) → list_any (λ w. w == u) (senders table) ≡ (is_some (row table u Kind.Nomination) || is_some (row table u Kind.Ballot)) }
{}
