//! The protocol's own words, as definitions in `specs/`: sets of names, satisfaction, quorums and blocking sets, newer
//! statements and the rows of a table. The theorems here speak only of them.
//!
//! There is no program here. Each function is a law: it does nothing, and its contract is a theorem
//! about the definitions that every crate above cites.
#![tactic(auto)]

mod closures;
mod extremes;
mod headline;
mod limits;
mod node;
mod quorums;
mod rosters;
mod rows;
mod values;

pub use closures::{
    closures_are_derived, closures_are_least, reach_follows_chains, reach_holds_names,
    reach_is_least, reach_stays,
};
pub use extremes::extremes_are_exact;
pub use headline::{
    agree, calm_nodes_are_quiet, closures_are_the_same, isolation, journals_are_runs,
    members_stay_within_closures, networks_agree, prefix, verdicts_are_determined,
};
pub use limits::{four_passes_are_enough, rows_stir_their_kind};
pub use node::{
    last_emitted_is_sent, nodes_send_well_formed, slices_follow_events, strangers_add_rows,
};
pub use quorums::{blocking_is_counted, nested_quorum_cut, quorum_cut, quorums_are_found};
pub use rosters::{
    crowds_are_determined, lengths_follow_from_envelopes, members_are_never_crowded_out,
    room_is_counted, without_roster_nothing_changes,
};
pub use rows::{
    externalize_stays, newer_is_strict, offers_change_one_row, rows_are_single,
    rows_follow_from_all_offers, statements_are_ordered,
};
pub use values::value_sets_are_exact;
