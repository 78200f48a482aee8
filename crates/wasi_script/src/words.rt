//! The words of the command line.
ghost use Rattle.std.specs.Prelude.{◌≡◌, ◌<◌, ◌≤◌, map, IfSome};
ghost use Rattle.std.specs.Char.{is_ascii_digit};
ghost use Rattle.std.specs.List.{list_all};
ghost use Rattle.std.specs.String.{string_bytes};
ghost use Rattle.wasi_script.specs.Words as specs;

/// What is written of a script that is read and run.
#[derive(Clone, Copy, Debug, PartialEq, Eq)]
pub enum ScriptTask {
    /// `run`: its report.
    Run,
    /// `audit`: which nodes were touched through which of the preopens.
    Audit,
    /// `trial`: the tree as it was before, the nodes that were worked on, and the report.
    Trial,
}

/// What the words of a command line ask for.
#[derive(Clone, Copy, Debug, PartialEq, Eq)]
pub enum Task {
    /// `run`, `audit` or `trial`: to read a script, to run it, and to write what came of it.
    Script(ScriptTask),
    /// `gen N`, N being 1 to 9999 in decimal without a leading zero: to run the script of that number, and to write one
    /// line.
    Generate(u64),
    /// Anything else: to write the usage line.
    Usage,
}

// Whether a text begins with a digit that isn't 0.
fn begins_a_number(text: &[u8]) -> bool
    ensures { result ≡ specs.begins_a_number text.now }
{
    match text {
        [b'1'..=b'9', ..] => true,
        _ => false,
    }
}

fn are_digits(text: &[u8]) -> bool
    ensures { result ≡ list_all is_ascii_digit text.now }
{
    text.iter().all(|c| c.is_ascii_digit())
}

// Whether a word writes a number from 1 to 9,999 in decimal without a leading zero.
#[tactic(auto, unfolding(crate::specs::Words::is_number))]
fn is_number(word: &[u8]) -> bool
    ensures { result ≡ specs.is_number word.now }
{
    begins_a_number(word) && word.len() <= 4 && are_digits(word)
}

// The number that a word writes, if it is one from 1 to 9,999 in decimal without a leading zero.
fn number_written(word: &str) -> Option<u64>
    ensures number { result ≡ specs.number_written word.now }
    ensures within { IfSome result (λ n. (1 ≤ n) × (n < 10000)) }
{
    if !is_number(word.as_bytes()) {
        return None;
    }
    word.parse().ok()
}

fn one_word(word: &str) -> Task
    ensures task { result ≡ specs.one_word word.now }
    ensures within { specs.IsWithin result }
{
    if word == "run" {
        Task::Script(ScriptTask::Run)
    } else if word == "audit" {
        Task::Script(ScriptTask::Audit)
    } else if word == "trial" {
        Task::Script(ScriptTask::Trial)
    } else {
        Task::Usage
    }
}

fn two_words(word: &str, number: &str) -> Task
    ensures task { result ≡ specs.two_words word.now number.now }
    ensures within { specs.IsWithin result }
{
    if word != "gen" {
        return Task::Usage;
    }
    match number_written(number) {
        Some(n) => Task::Generate(n),
        None => Task::Usage,
    }
}

/// What these words of a command line ask for, which are those after the program's name.
pub fn task_of(words: &[String]) -> Task
    ensures task { result ≡ specs.task_of (map string_bytes words.now) }
    ensures within { specs.IsWithin result }
{
    match words {
        [word] => one_word(word.as_str()),
        [word, number] => two_words(word.as_str(), number.as_str()),
        _ => Task::Usage,
    }
}
