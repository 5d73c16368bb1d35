//! Lines that show records: a line is written field by field, as text or as JSON, so that a field
//! is named once.
#![tactic(auto)]

mod entry_rows;
mod form;
mod frame_rows;
mod id_rows;
pub mod laws;
mod line;
mod lists;
mod number;
mod omap_rows;
mod push;
mod refused;
mod rows;
mod section_rows;
mod text;
mod type_fields;
mod type_rows;
mod type_texts;
mod value;
mod words;

pub use entry_rows::show_entry;
pub use form::Form;
pub use frame_rows::show_frame;
pub use id_rows::show_id;
pub use line::{Line, append_line, write_line};
pub use omap_rows::show_omap;
pub use refused::{error_text, sentence, show_error};
pub use rows::{Rows, Sheet};
pub use section_rows::show_section;
pub use text::push_text;
pub use type_rows::{show_listed_method, show_type};
pub use type_texts::TypeTexts;
pub use value::{
    Field, Flag, Value, optional_hexadecimal, optional_number, optional_text, optional_word,
};
