//! Laws of the newest statements of nodes, and of tables of rows. Which statement is newer than which follows the
//! Stellar Consensus Protocol draft. What a table of rows is, is this host's profile.

ghost use Rattle.std.specs.Prelude.{◌≡◌, ◌++◌, ◌∷◌, [], List, ℕ, Some, if◌then◌else◌, false, true};
ghost use Rattle.std.specs.Cmp.{IsTotalOrder};
ghost use Rattle.std.specs.declared.cmp.Ordering.TheVariants.{Equal};
ghost use Rattle.scp_types.specs.Statements.{Sent, kind_of};
ghost use Rattle.scp_types.specs.declared.kind.Kind.{Kind};
ghost use Rattle.scp_types.specs.declared.statement.Statement.{Statement};
ghost use Rattle.scp_spec.specs.Newer.{statement_cmp, is_newer};
ghost use Rattle.scp_spec.specs.Rows.{has_single_rows, is_row_of, is_taken, table_with_offer, table_with_offers, row, table_after};
ghost use Rattle.scp_spec.specs.History.{is_externalize, row_of};

/// Statements are in one order, in which each two ballot statements that tie are one statement.
pub fn statements_are_ordered()
    ensures order { IsTotalOrder statement_cmp }
    ensures ties { (s t : Statement) → kind_of s ≡ Kind.Ballot → statement_cmp s t ≡ Equal → s ≡ t }
{}

/// Newer is a strict order: no statement is newer than itself, and what is newer than a newer
/// statement is newer.
pub fn newer_is_strict()
    ensures itself { (s : Statement) → is_newer s s ≡ false }
    ensures along { (s t r : Statement) → is_newer s t ≡ true → is_newer t r ≡ true → is_newer s r ≡ true }
{}

/// If a sender's row is an EXTERNALIZE, no offers change it.
pub fn externalize_stays()
    ensures { (offers table : List Sent) (u : ℕ) (k : Kind) (e : Sent) → is_externalize e.body ≡ true → row table u k ≡ Some e → row (table_with_offers table offers) u k ≡ Some e }
{}

/// An offer changes at most the row of its own sender and kind. There the envelope stands after it exactly if the table
/// takes it.
pub fn offers_change_one_row()
    ensures own { (table : List Sent) (e : Sent) → row (table_with_offer table e) e.sender (kind_of e.body) ≡ (if is_taken table e then Some e else row table e.sender (kind_of e.body)) }
    ensures other { (table : List Sent) (e : Sent) (u : ℕ) (k : Kind) → is_row_of u k e ≡ false → row (table_with_offer table e) u k ≡ row table u k }
{}

/// A table has at most one row of each sender and kind.
pub fn rows_are_single()
    ensures { (taken : List Sent) → has_single_rows (table_after taken) ≡ true }
{}

/// The rows of a table follow from the whole list of envelopes that were offered to it. For ballots, it is the sender's
/// first EXTERNALIZE, else the first of its greatest statements. For nominations, it is the last that was newer than
/// the row before it.
pub fn rows_follow_from_all_offers()
    ensures rows { (taken : List Sent) (u : ℕ) (k : Kind) → row (table_after taken) u k ≡ row_of taken u k }
    ensures one_more { (taken : List Sent) (e : Sent) → table_after (taken ++ e ∷ []) ≡ table_with_offer (table_after taken) e }
{}
