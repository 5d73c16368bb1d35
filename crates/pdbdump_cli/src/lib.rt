//! What the program `pdbdump` does: the words of its command line, the lines that it lists of a
//! program database, and the answers to questions about one.
#![tactic(auto)]

mod addressed;
mod answer;
mod answers;
mod arguments;
mod asking;
mod calls;
mod command;
mod commands;
mod declared;
mod diffed;
mod extracted;
mod finding_lines;
mod identified;
mod image_identified;
mod incomplete;
mod input_file;
mod kind_names;
mod laid_out;
mod listed;
mod located;
mod matched;
mod process;
mod question;
mod reports;
mod request;
mod seen;
mod selected;
mod selection_calls;
mod sentences;
mod served;
mod validated;

pub use answers::ask;
pub use arguments::parse;
pub use asking::serve_questions;
pub use calls::{Misuse, check_call, diff_of, form_of, request_of, with_command};
pub use command::{
    Command, Declarations, Diff, Extract, Identify, Layouts, Matching, Request, Selected, Table,
    ValidateOptions,
};
pub use input_file::{FileBytes, InputFile};
pub use listed::list;
pub use process::program;
pub use request::serve;
