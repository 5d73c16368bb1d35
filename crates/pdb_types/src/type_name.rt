//! A name by which a definition is looked for.

ghost use Rattle.std.specs.Prelude.{◌≡◌};
ghost use Rattle.pdb_types.specs.Declaration.{type_name_bytes, type_name};

/// A name of a class, a union or an enumeration.
#[derive(Clone, Copy)]
pub(crate) enum TypeName<'n> {
    /// The name that the source gives it.
    Source(&'n [u8]),

    /// The decorated name, which no other type has.
    Decorated(&'n [u8]),
}

impl<'n> TypeName<'n> {
    /// Returns the bytes of the name.
    pub(crate) fn text(self) -> &'n [u8]
        ensures { result.now ≡ type_name_bytes (type_name self.entry) }
    {
        match self {
            TypeName::Source(text) | TypeName::Decorated(text) => text,
        }
    }
}
