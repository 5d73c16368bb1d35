//! What the record of a class, a union or an enumeration says of its name.

ghost use Rattle.std.specs.Prelude.{◌≡◌};
ghost use Rattle.std.specs.Option.{option_map};
ghost use Rattle.pdb_values.specs.TypeView.{type_value};
ghost use Rattle.pdb_types.specs.Declaration.{bears, declaration_of, declaration_value, is_forward, sought_name};
ghost use Rattle.pdb_types.specs.Declaration.{type_name};

use crate::type_name::TypeName;
use pdb_base::RawString;
use pdb_flags::TypeProperties;
use pdb_values::TypeData;

/// The properties and the names of a class, a union or an enumeration.
#[derive(Drop)]
pub(crate) struct Declaration<'t> {
    properties: TypeProperties,
    pub(crate) name: RawString<'t>,
    pub(crate) unique_name: Option<RawString<'t>>,
}

/// Returns what a class, a union or an enumeration says of its name, or None for another type.
pub(crate) fn declaration_of<'t>(value: &TypeData<'t>) -> Option<Declaration<'t>>
    ensures { option_map declaration_value result ≡ declaration_of (type_value value.now) }
{
    match value {
        TypeData::Class(class) => Some(Declaration {
            properties: class.properties,
            name: class.name,
            unique_name: class.unique_name,
        }),
        TypeData::Union(union_type) => Some(Declaration {
            properties: union_type.properties,
            name: union_type.name,
            unique_name: union_type.unique_name,
        }),
        TypeData::Enumeration(enumeration) => Some(Declaration {
            properties: enumeration.properties,
            name: enumeration.name,
            unique_name: enumeration.unique_name,
        }),
        _ => None,
    }
}

impl<'t> Declaration<'t> {
    /// Returns whether the type is only declared here, and defined by another record.
    pub(crate) fn is_forward(&self) -> bool
        ensures { result ≡ is_forward (declaration_value self.now) }
    {
        self.properties.forward_reference()
    }

    /// Returns whether the type has a name.
    pub(crate) fn bears(&self, name: TypeName<'_>) -> bool
        ensures { result ≡ bears (type_name name.entry) (declaration_value self.now) }
    {
        match name {
            TypeName::Source(text) => self.name.as_bytes() == text,
            TypeName::Decorated(text) => match self.unique_name {
                Some(own) => own.as_bytes() == text,
                None => false,
            },
        }
    }

    /// Returns the name by which the definition of the type is looked for: the unique name if there
    /// is one, and else the name.
    pub(crate) fn sought_name(&self) -> TypeName<'t>
        ensures { type_name result ≡ sought_name (declaration_value self.now) }
    {
        match self.unique_name {
            Some(name) => TypeName::Decorated(name.as_bytes()),
            None => TypeName::Source(self.name.as_bytes()),
        }
    }
}
