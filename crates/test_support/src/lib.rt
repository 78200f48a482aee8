//! Tables as texts, for programs that try what other crates give: what a line asks is answered, and the answer is
//! compared with what the line wants.
//!
//! A line is what is asked, ` = `, and what is wanted. Empty lines and lines that begin with `#` are passed over. In what
//! is asked `\0` stands for a NUL, and `x{N}` for N letters x. What is wanted is the answer, letter by letter.
#![tactic(auto)]

mod hosts;
mod input;
mod line;
mod table;
mod tally;

pub use hosts::{answered, coded, done, refused, rendered_node, rendered_times, time_of};
pub use input::input_text;
pub use line::{Asked, Rendered, list_of, number, rendered, unknown, word};
pub use table::{Answering, try_table};
pub use tally::Tally;
