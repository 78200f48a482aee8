//! What a program reads.
use std::io::{self, Stdin};
use wasi_io::{StdinSource, read_all};

/// The text on a program's standard input. Where there is none, why is printed on standard error.
pub fn input_text<R: Eprint + AllocGlobal>(
    rt: &R,
    stdin: Stdin,
    program: &str,
) -> io::Result<Option<String>> {
    let Ok(bytes) = read_all(rt.alloc(), &mut StdinSource::new(stdin)) else {
        eprintln!(rt; "{program}: standard input couldn't be read")?;
        return Ok(None);
    };
    let Ok(text) = String::from_utf8(bytes) else {
        eprintln!(rt; "{program}: standard input isn't UTF-8")?;
        return Ok(None);
    };
    Ok(Some(text))
}
