//! What the lines of the rows are.

/// The program of a row.
#[derive(Clone, Copy)]
pub enum Program {
    Wasirun,
    Wasiguests,
}

// What stands before the word of a row of the other program.
const WASIGUESTS: &str = "wasiguests,";

/// A row's first line, `WORD SCRIPT`: how the program is called, and the script. The word is `failing_source,NUMBER`
/// or `failing_sink,NUMBER`, where the program is called with `run` and the read or write of this number fails, from 1
/// on; `cut`, where it is called with `run` for each text that the script begins with, and that is shorter; `none`,
/// where it is called with no words; `error`, where no program is called, and the name of an error of scripts stands
/// for the script; else the words themselves, with commas between them. The program is `wasirun`; it is `wasiguests`
/// where `wasiguests,` stands before the word.
#[derive(Clone, Copy)]
pub struct Asked<'a> {
    pub program: Program,
    pub word: &'a str,
    pub script: &'a str,
}

/// A row's second line, `EXIT TEXT`: the exit status, and what is to be written: nothing where the text is empty, else
/// the text and a line end. Where ` .. ` stands in the text, anything may stand there.
#[derive(Clone, Copy)]
pub struct Wanted<'a> {
    pub exit: u8,
    pub text: &'a str,
}

/// A line. Empty ones, and those that begin with `#`, are nothing.
#[derive(Clone, Copy)]
pub enum Line<'a> {
    Nothing,
    Asked(Asked<'a>),
    Wanted(Wanted<'a>),
}

impl<'a> Asked<'a> {
    fn of(word: &'a str, script: &'a str) -> Asked<'a> {
        match word.strip_prefix(WASIGUESTS) {
            Some(word) => Asked {
                program: Program::Wasiguests,
                word,
                script,
            },
            None => Asked {
                program: Program::Wasirun,
                word,
                script,
            },
        }
    }
}

impl<'a> Line<'a> {
    /// A line that begins with a number up to 255 is a row's second one.
    pub fn of(line: &'a str) -> Line<'a> {
        if line.is_empty() || line.starts_with('#') {
            return Line::Nothing;
        }
        let (word, rest) = line.split_once(' ').unwrap_or((line, ""));
        match word.parse::<u8>() {
            Ok(exit) => Line::Wanted(Wanted { exit, text: rest }),
            Err(_) => Line::Asked(Asked::of(word, rest)),
        }
    }

    /// What it has, if it is a row's first one.
    pub fn asked(self) -> Option<Asked<'a>> {
        match self {
            Line::Asked(asked) => Some(asked),
            _ => None,
        }
    }
}
