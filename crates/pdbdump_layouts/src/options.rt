//! How layouts are shown.

use pdbdump_types::LetterCase;

/// How wide the parts of a type are indented in each style.
pub(crate) const C_WIDTH: u32 = 4;

pub(crate) const DT_WIDTH: u32 = 3;

/// How a layout is written as text.
#[derive(Clone, Copy)]
pub enum Style {
    /// As the declaration of a class in C++, with places behind it, as pahole does.
    C,

    /// As the command `dt` of WinDbg does.
    Dt,
}

/// By what classes are sorted.
#[derive(Clone, Copy)]
pub enum Order {
    /// The largest first.
    Size,

    /// Those with the most bytes in holes first.
    Holes,

    /// By their names.
    Name,
}

/// Which layouts are shown, and how.
#[derive(Clone, Copy)]
pub struct Options {
    /// How they are written as text.
    pub style: Style,

    /// By what they are sorted, unless they are shown in the order in which they are found.
    pub order: Option<Order>,

    /// Whether only classes with a hole are shown.
    pub has_holes: bool,

    /// How deep the fields of classes within a class are shown. They are at most 256 deep, and the
    /// classes within one class have at most 65,536 fields and gaps together; it is told if a class
    /// within is left out.
    pub depth: u32,

    /// Whether all classes of the file are shown.
    pub all: bool,

    /// Whether the case of letters counts in names.
    pub case: LetterCase,

    /// Whether methods, static members and nested types are shown behind the fields.
    pub has_all_members: bool,

    /// How many bytes the lines of a cache have, if their ends are shown, which are only in a
    /// declaration in C++.
    pub line_size: Option<u32>,
}
