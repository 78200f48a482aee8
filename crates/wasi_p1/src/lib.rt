//! The calls of `wasi_snapshot_preview1` over any host: the context of a guest with a method for each call, and runs of
//! them.
#![tactic(auto)]

mod ctx;
mod env_calls;
mod fd_calls;
mod file_calls;
mod naming;
mod path_calls;
mod run;

pub use ctx::WasiP1Ctx;
pub use naming::named;
pub use run::{answer_of, call, ends_run, run_calls};
pub use wasi_fs::FsPerms;
pub use wasi_guest::{
    Answer, Answers, Call, EnvPair, Errno, GuestMemory, Quota, QuotaUsed, Services, TrapKind,
    Value, WallDatetime,
};
pub use wasi_p1_model::{
    append_only_runs_keep, append_only_turns_add, bytes_put_are_got, descriptor_numbers,
    live_handles_stay, methods_are_complete, other_errors_never_come, pages_list_each_entry_once,
    permissions_stem, positions, quotas_are_counted, read_only_runs_leave_the_tree,
    read_only_turns_leave_the_tree, records_and_pages_have_lengths, runs_agree, runs_are_functions,
    runs_stay_valid, runs_stay_within_quotas, turns_agree, turns_are_confined,
    valid_calls_are_answered, writes_are_whole,
};
pub use wasi_p1_state::{CtxRefused, Ended, FUEL, P1State};
pub use wasi_p1_types::{
    CtxError, DirectorySlot, FileModes, FileSlot, GuestEnv, Output, Outputs, P1Error, P1Preopen,
    RunError, Slot, Stream,
};
