//! Indexes of types as they are typed.

use pdb_base::TypeIndex;

/// Returns the index that a name spells in hexadecimal digits behind `0x`, if it spells one.
pub fn index_named(name: &str) -> Option<TypeIndex> {
    let digits = name.strip_prefix("0x")?;
    if !digits.bytes().all(|digit| digit.is_ascii_hexdigit()) {
        return None;
    }
    u32::from_str_radix(digits, 16).ok().map(TypeIndex)
}
