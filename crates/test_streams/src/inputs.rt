//! Calls of an input stream.
ghost use Rattle.std.specs.Prelude.{◌≡◌, true};
ghost use Rattle.std.specs.FinSet.{contains};

use crate::along::{Calls, along};
use bytes::Bytes;
use std::alloc::{AllocError, Global};
use test_support::{Asked, Rendered, number, refused, rendered, unknown};
use wasi_fs::File;
use wasi_host::Host;
use wasi_streams::{FileInputStream, StreamError};

/// `OFFSET: CALL; CALL ..`: the answers of calls of a stream from this offset on.
#[tactic(auto, using(wasi_host::proofs::Chain::live_rules))]
pub fn input_line<H: Host>(host: &mut H, file: &File, asked: &Asked<'_>) -> Rendered
    requires { contains (H.live host.old) file.now.file ≡ true }
{
    let (offset, calls) = asked.rest.split_once(": ").unwrap_or((asked.rest, ""));
    match FileInputStream::new(asked.alloc, host, file, number(offset)) {
        Ok(stream) => along(host, stream, asked.alloc, calls),
        Err(error) => refused(asked.alloc, error),
    }
}

impl<H: Host> Calls<H> for FileInputStream {
    ghost handle = { λ s. s.file };

    fn call(&mut self, host: &mut H, asked: &Asked<'_>) -> Rendered {
        let alloc = asked.alloc;
        let size = number(asked.rest) as usize;
        match asked.what {
            "read" => rendered_bytes(alloc, self.read(size)),
            "blocking_read" => rendered_bytes(alloc, self.blocking_read(host, size)),
            "ready" => {
                self.ready(host)?;
                String::from_str(alloc, "ok")
            }
            "cancel" => {
                self.cancel();
                String::from_str(alloc, "ok")
            }
            _ => unknown(alloc),
        }
    }

    fn end(self, host: &mut H) {
        self.close(host)
    }
}

/// The text of what was read, or why nothing is given.
fn rendered_bytes(alloc: Global, read: Result<Bytes, StreamError>) -> Rendered {
    match read {
        Ok(bytes) => rendered(
            alloc,
            &str::from_utf8(bytes.as_slice()).unwrap_or("no text"),
        ),
        Err(StreamError::Memory) => Err(AllocError),
        Err(error) => rendered(alloc, &error),
    }
}
