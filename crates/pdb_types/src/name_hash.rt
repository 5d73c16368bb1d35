//! Hashes of names.

ghost use Rattle.std.specs.Prelude.{◌≡◌};
ghost use Rattle.pdb_types.specs.Declaration.{type_name};
ghost use Rattle.pdb_types.specs.NameHash.{kind_byte, name_hash};

use crate::type_name::TypeName;
use std::hash::{DefaultHasher, Hasher};

/// The byte behind a name that the source gives a type.
const SOURCE: u8 = 0;

/// The byte behind a decorated name.
const DECORATED: u8 = 1;

/// Returns the byte that tells the two kinds of names apart.
fn kind_byte(name: TypeName<'_>) -> u8
    ensures { result ≡ kind_byte (type_name name.entry) }
{
    match name {
        TypeName::Source(_) => SOURCE,
        TypeName::Decorated(_) => DECORATED,
    }
}

/// Returns the hash of a name: SipHash-1-3 of its bytes and of a byte for its kind, under the key of
/// zeros. It is not linear as a quick hash is, so that names of one hash have to be searched for.
#[tactic(auto, unfolding(crate::specs::NameHash::name_hash))]
pub(crate) fn name_hash(name: TypeName<'_>) -> u64
    ensures { result ≡ name_hash (type_name name.entry) }
{
    let mut hasher = DefaultHasher::new();
    hasher.write(name.text());
    hasher.write(&[kind_byte(name)]);
    hasher.finish()
}
