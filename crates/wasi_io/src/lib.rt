//! Where a run's bytes come from and where they go.
#![tactic(auto)]

mod in_memory;
mod reading;
mod source_sink;
mod standard;
mod words;
mod writing;

pub use in_memory::{BytesSink, BytesSource};
pub use reading::{MOST_BYTES, Unfinished, read_all};
pub use source_sink::{Failed, Sink, Source};
pub use standard::{ReaderSource, StdinSource, StdoutSink, WriterSink};
pub use words::words_after_name;
pub use writing::{write_all, write_under};
