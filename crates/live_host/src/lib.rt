//! What a live host answers to each line (this host's profile).
//!
//! A [`LiveHost`] reads a line, does what it asks for, and answers a block: some lines on what nodes gave out, and one
//! that closes it. It goes on after bad lines. It keeps no journal, and answers which lines one keeps, and what each of
//! them did.
#![tactic(auto)]

mod alike;
mod all;
mod apart;
mod block;
mod compacted;
mod deeds;
mod erasing;
mod host;
mod lowering;
mod merging;

pub use alike::{
    alike_hosts, alike_hosts_answer_alike, moved_machines_serve_alike, moved_nets_step_alike,
    numbers_stand_in_front,
};
pub use apart::{
    alike_networks_are_answered_alike, answers_are_local, hosts_are_alike_by_networks,
    hosts_are_ordered, lines_are_answered_next_to_others, lines_are_local, networks_are_apart,
    networks_follow_their_own_lines, order_among_networks_does_not_count,
};
pub use compacted::shorter_journals_follow;
pub use erasing::{
    closed_slots_are_erased, erased_machines_serve_alike, erased_machines_serve_all_alike,
    erased_nets_serve_alike, erased_nets_step_alike, steps_there_are_erased,
};
pub use host::{LiveHost, MOST_NETWORKS};
pub use lowering::{
    less_is_configured, lowered_declarations_declare_less, lowered_lines_declare_less,
};
pub use merging::{lines_are_answered_where_room_is, lines_may_be_merged, lines_run_alone};
