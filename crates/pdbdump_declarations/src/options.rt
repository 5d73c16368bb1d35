//! What is declared, and in which language.

/// The language of a header.
#[derive(Clone, Copy, PartialEq, Eq)]
pub enum Language {
    /// C++ from 2011 on.
    Cpp,

    /// C from 2011 on.
    C,
}

/// What is declared, and in which language.
#[derive(Clone, Copy)]
pub struct Options {
    /// The language.
    pub language: Language,

    /// Whether all classes, unions and enumerations of the file are declared.
    pub all: bool,
}
