//! What a record says of the size of its type.

ghost use Rattle.std.specs.Prelude.{◌≡◌};
ghost use Rattle.pdb_values.specs.TypeView.{type_value};
ghost use Rattle.pdb_types.specs.SizeSource.{size_unless_forward, if_known, unless_zero, size_source};

use crate::primitive_size::primitive_size;
use pdb_base::TypeIndex;
use pdb_flags::TypeProperties;
use pdb_values::TypeData;

/// What says the size of a type.
#[derive(Clone, Copy, Debug, PartialEq, Eq)]
pub enum SizeSource {
    /// Its own record, in bytes.
    Stated(u64),

    /// Another type, which has the same size.
    SameAs(TypeIndex),

    /// Nothing.
    Unknown,
}

/// Returns what says a size that may be known.
fn if_known(size: Option<u64>) -> SizeSource
    ensures { result ≡ if_known size }
{
    match size {
        Some(size) => SizeSource::Stated(size),
        None => SizeSource::Unknown,
    }
}

/// Returns a size that isn't 0.
fn nonzero(size: u8) -> Option<u64>
    ensures { result ≡ unless_zero size }
{
    if size == 0 { None } else { Some(size as u64) }
}

/// Returns what says the size of a type that may be only declared.
fn if_defined(properties: TypeProperties, source: SizeSource) -> SizeSource
    ensures { result ≡ size_unless_forward properties source }
{
    if properties.forward_reference() {
        SizeSource::Unknown
    } else {
        source
    }
}

/// Returns what the record of a type says of its size.
pub(crate) fn size_source(value: &TypeData<'_>) -> SizeSource
    ensures { result ≡ size_source (type_value value.now) }
{
    match value {
        TypeData::Primitive(primitive) => if_known(primitive_size(*primitive)),
        TypeData::Pointer(pointer) => if_known(nonzero(pointer.attributes.size())),
        TypeData::Array(array) => {
            let size = array.dimensions.as_slice().last().copied();
            if_known(size.map(u64::from))
        }
        TypeData::Modifier(modifier) => SizeSource::SameAs(modifier.underlying_type),
        TypeData::Bitfield(field) => SizeSource::SameAs(field.underlying_type),
        TypeData::Class(class) => if_defined(class.properties, SizeSource::Stated(class.size)),
        TypeData::Union(union_type) => {
            if_defined(union_type.properties, SizeSource::Stated(union_type.size))
        }
        TypeData::Enumeration(enumeration) => if_defined(
            enumeration.properties,
            SizeSource::SameAs(enumeration.underlying_type),
        ),
        _ => SizeSource::Unknown,
    }
}
