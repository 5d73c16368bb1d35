//! The layouts of classes as they are shown: the fields and gaps of a class, as a declaration in
//! C++, in the style of WinDbg's `dt`, and as JSON; and the classes and members that names mean.
#![tactic(auto)]

mod c_style;
mod cache_line;
mod dt_style;
mod dt_type;
mod enumeration;
mod expanded;
mod head;
mod json;
mod layout_row;
mod lookup;
mod member_line;
mod member_path;
mod named;
mod nearest;
mod options;
mod other_member;
mod show;
mod shown_class;
mod totals;

pub use options::{Options, Order, Style};
pub use pdbdump_types::LetterCase;
pub use show::show_layouts;
