//! Calls of an output stream.
ghost use Rattle.std.specs.Prelude.{◌≡◌, true};
ghost use Rattle.std.specs.FinSet.{contains};
ghost use Rattle.std.specs.Result.{result_map_both};
ghost use Rattle.wasi_host.specs.HostLaws.{LiveGot};

use crate::along::{Calls, along};
use bytes::Bytes;
use std::alloc::{AllocError, Global};
use std::fmt::Debug;
use test_support::{Asked, Rendered, number, refused, rendered, unknown};
use wasi_fs::File;
use wasi_host::{Handle, Host, HostError};
use wasi_streams::{FileOutputStream, StreamError};

/// `OFFSET: CALL; CALL ..`: the answers of calls of a stream from this offset on, and then the file's text. The offset
/// `end` is after the file's last byte.
#[tactic(auto, using(wasi_host::proofs::Chain::live_rules))]
pub fn output_line<H: Host>(host: &mut H, file: &File, asked: &Asked<'_>) -> Rendered
    requires { contains (H.live host.old) file.now.file ≡ true }
{
    let alloc = asked.alloc;
    let (offset, calls) = asked.rest.split_once(": ").unwrap_or((asked.rest, ""));
    match stream_at(host, file, alloc, offset) {
        Ok(stream) => {
            let mut text = along(host, stream, alloc, calls)?;
            text.push_str("; ")?;
            push_file(host, file.file, alloc, &mut text)?;
            Ok(text)
        }
        Err(error) => refused(alloc, error),
    }
}

fn stream_at<H: Host>(
    host: &mut H,
    file: &File,
    alloc: Global,
    offset: &str,
) -> Result<FileOutputStream, HostError>
    requires { contains (H.live host.old) file.now.file ≡ true }
    ensures { LiveGot (H.live host.old) (result_map_both (λ s. s.file) (λ e. e) result) (H.live host.new) }
{
    if offset == "end" {
        return FileOutputStream::append(alloc, host, file);
    }
    FileOutputStream::write_at(alloc, host, file, number(offset))
}

impl<H: Host> Calls<H> for FileOutputStream {
    ghost handle = { λ s. s.file };

    fn call(&mut self, host: &mut H, asked: &Asked<'_>) -> Rendered {
        let alloc = asked.alloc;
        let bytes = Bytes::copy_from_slice(alloc, asked.rest.as_bytes())?;
        match asked.what {
            "write" => rendered_done(alloc, self.write(bytes)),
            "blocking_write_and_flush" => {
                let done = self.blocking_write_and_flush(host, bytes);
                rendered_done(alloc, done)
            }
            "flush" => rendered_done(alloc, self.flush()),
            "check_write" => rendered_done(alloc, self.check_write()),
            "ready" => {
                self.ready(host)?;
                String::from_str(alloc, "()")
            }
            "cancel" => {
                self.cancel();
                String::from_str(alloc, "()")
            }
            _ => unknown(alloc),
        }
    }

    fn end(self, host: &mut H) {
        self.close(host)
    }
}

/// What is answered, or why nothing is.
fn rendered_done<T: Debug + Drop>(alloc: Global, done: Result<T, StreamError>) -> Rendered {
    match done {
        Ok(value) => rendered(alloc, &value),
        Err(StreamError::Memory) => Err(AllocError),
        Err(error) => rendered(alloc, &error),
    }
}

/// The first bytes of the file, as text.
fn push_file<H: Host>(
    host: &mut H,
    file: Handle,
    alloc: Global,
    text: &mut String,
) -> Result<(), AllocError>
    requires { contains (H.live host.old) file ≡ true }
{
    let mut buf = [0u8; 8];
    let count = host.pread(file, &mut buf, 0).unwrap_or(0);
    let bytes = buf.get(..count).unwrap_or(&[]);
    let answer = rendered(alloc, &str::from_utf8(bytes).unwrap_or("no text"))?;
    text.push_str(answer.as_str())
}
