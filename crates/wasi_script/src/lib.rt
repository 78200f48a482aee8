//! A run from bytes to bytes: a script of calls over a tree of files is read, its calls are made, and a report, an audit
//! or a trial is written. The program `wasirun` stands on it.
#![tactic(auto)]

mod audited;
mod program;
mod run;
mod status;
mod summary;
mod trial;
mod words;

pub use program::run_script;
pub use status::Status;
pub use wasi_form::{Piece, Refusal, Script, ScriptError, ScriptPreopen, Shown, read_script};
pub use wasi_io::{
    BytesSink, BytesSource, ReaderSource, Sink, Source, StdinSource, StdoutSink, WriterSink,
    words_after_name,
};
pub use wasi_report::{Outcome, report};
pub use wasi_script_gen::gen_script;
pub use words::{ScriptTask, Task, task_of};
