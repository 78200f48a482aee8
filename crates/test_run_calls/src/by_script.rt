//! The report by the program as a call.
use std::alloc::{AllocError, Global};
use wasi_io::{BytesSink, BytesSource};
use wasi_script::{Status, run_script};

// The sink takes so many bytes.
const ROOM: usize = 1_000_000;

/// The report that is written of a script, if it is run.
pub fn report_by_script(alloc: Global, script: &[u8]) -> Result<Option<Vec<u8>>, AllocError> {
    let mut words = Vec::new(alloc);
    words.push(String::from_str(alloc, "run")?)?;
    let mut source = BytesSource::new(script.to_vec(alloc)?, Vec::new(alloc));
    let mut sink = BytesSink::new(alloc, ROOM, Vec::new(alloc))?;
    match run_script(alloc, &words, &mut source, &mut sink) {
        Status::Done => Ok(Some(sink.taken().to_vec(alloc)?)),
        _ => Ok(None),
    }
}
