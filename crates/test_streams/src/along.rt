//! Calls of a stream, one after another.
ghost use Rattle.std.specs.Prelude.{◌≡◌, ℕ, true, OnOk};
ghost use Rattle.std.specs.FinSet.{contains, remove};

use std::alloc::{AllocError, Global};
use test_support::{Asked, Rendered};
use wasi_host::Host;

/// A stream that answers calls by their names.
pub trait Calls<H: Host>: Drop {
    /// Its handle.
    ghost handle: { Self → ℕ };

    /// `CALL ARGUMENTS`.
    fn call(&mut self, host: &mut H, asked: &Asked<'_>) -> Rendered
        requires live { contains (H.live host.old) (handle self.old) ≡ true }
        ensures live { H.live host.new ≡ H.live host.old }
        ensures handle { handle self.new ≡ handle self.old };

    /// Closes it.
    fn end(self, host: &mut H)
        requires live { contains (H.live host.old) (handle self) ≡ true }
        ensures live { H.live host.new ≡ remove (H.live host.old) (handle self) };
}

/// `CALL; CALL ..`: the answers of the calls, after which the stream is closed.
pub fn along<H: Host, S: Calls<H>>(
    host: &mut H,
    mut stream: S,
    alloc: Global,
    calls: &str,
) -> Rendered
    requires { contains (H.live host.old) (S.handle stream) ≡ true }
    ensures { OnOk result (H.live host.new ≡ remove (H.live host.old) (S.handle stream)) }
{
    let mut text = String::new(alloc);
    push_answers(host, &mut stream, alloc, calls, &mut text)?;
    stream.end(host);
    Ok(text)
}

fn push_answers<H: Host, S: Calls<H>>(
    host: &mut H,
    stream: &mut S,
    alloc: Global,
    calls: &str,
    text: &mut String,
) -> Result<(), AllocError>
    requires { contains (H.live host.old) (S.handle stream.old) ≡ true }
    ensures live { H.live host.new ≡ H.live host.old }
    ensures handle { S.handle stream.new ≡ S.handle stream.old }
{
    for (before, one) in calls.split("; ").enumerate() {
        if before > 0 {
            text.push_str("; ")?;
        }
        let answer = stream.call(host, &Asked::of(alloc, one))?;
        text.push_str(answer.as_str())?;
    }
    Ok(())
}
