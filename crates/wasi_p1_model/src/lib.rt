//! What each call of `wasi_snapshot_preview1` answers and does, as specifications over the states of a guest; what a call
//! leaves over any host; runs of calls; and the laws of all these. Nothing in it runs: each function of it is a law, whose
//! contract says it.
#![tactic(auto)]

mod laws;

pub use laws::{
    append_only_runs_keep, append_only_turns_add, bytes_put_are_got, descriptor_numbers,
    live_handles_stay, methods_are_complete, other_errors_never_come, pages_list_each_entry_once,
    permissions_stem, positions, quotas_are_counted, read_only_runs_leave_the_tree,
    read_only_turns_leave_the_tree, records_and_pages_have_lengths, runs_agree, runs_are_functions,
    runs_stay_valid, runs_stay_within_quotas, turns_agree, turns_are_confined,
    valid_calls_are_answered, writes_are_whole,
};
