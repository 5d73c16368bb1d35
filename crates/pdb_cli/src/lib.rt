//! What the program `pdbq` does: the words of its command line, the input that it reads, the lines
//! that it prints, and the status that it ends with.
#![tactic(auto)]

mod arguments;
mod channels;
mod input;
mod lines;
mod outcome;
mod process;
mod refusal;
mod words;

pub use arguments::{texts_of, words_of};
pub use channels::{serve, tell};
pub use input::{MOST_READS, read_all, read_within};
pub use lines::reply_lines;
pub use outcome::{Outcome, act, usage};
pub use process::{Errors, program};
pub use refusal::error_text;
pub use words::{number, query};
