//! Types as commands take and show them: the names, patterns and indexes that are typed, what a
//! record defines, fields and gaps as lines and as objects; how much of a file one call reads and
//! shows at most; and what it reports.
#![tactic(auto)]

mod allowance;
mod classes;
mod cut;
mod defined;
mod enumerators;
mod field_text;
mod letter_case;
mod object;
mod object_buffer;
mod pattern;
mod progress;
mod shown_gap;
mod table;
mod text;
mod text_allowance;
mod text_buffer;
mod typed_index;
mod unread;

pub use allowance::Allowance;
pub use classes::{
    Class, Wanted, class_layout, class_of, class_word, classes_in, list_of, name_defined,
    records_of, steps_behind, type_at, unmodified,
};
pub use cut::cut_at;
pub use defined::{Defined, defined_by};
pub use enumerators::{Enumerator, enumerators_of};
pub use field_text::{push_enumerator, push_field};
pub use letter_case::LetterCase;
pub use object::{
    FieldTexts, field_type_text, show_declared, show_enumerator, show_field, show_gap,
};
pub use object_buffer::ObjectBuffer;
pub use pattern::{is_pattern, matches, matches_ignoring_case};
pub use progress::{Progress, TOO_MANY, tell, tell_fault, tell_index, tell_line, write_layout};
pub use shown_gap::{GapPlace, GapRole, fields_end, gap_place, gap_role};
pub use table::{Table, learn_table};
pub use text::{escape_text, plural};
pub use text_allowance::TextAllowance;
pub use text_buffer::TextBuffer;
pub use typed_index::index_named;
pub use unread::{Unread, unread_in};
