//! The key under which symbol servers store a file.

ghost use Rattle.std.specs.Prelude.{Some};
ghost use Rattle.pdb_file.specs.Key.{lower_key, upper_key};

use std::fmt;
use uuid::Uuid;

/// The key of a file in upper case, as in the path `name/KEY/name` of a symbol store: the 32 digits
/// of the GUID and the hexadecimal digits of the age.
#[derive(Clone, Copy, PartialEq, Eq)]
pub struct UpperKey {
    /// The GUID of the file.
    pub guid: Uuid,

    /// The age of the file.
    pub age: u32,
}

impl fmt::Display for UpperKey {
    ghost output = { λ key. Some (upper_key key.guid key.age) };

    fn fmt<W: fmt::Write>(&self, f: &mut fmt::Formatter<W>) -> fmt::Result {
        let mut buffer = [0u8; 32];
        let digits = self.guid.simple().encode_upper(&mut buffer);
        let age = self.age;
        write!(f, "{digits}{age:X}")
    }
}

/// The key of a file in lower case, as SSQP has it.
#[derive(Clone, Copy, PartialEq, Eq)]
pub struct LowerKey {
    /// The GUID of the file.
    pub guid: Uuid,

    /// The age of the file.
    pub age: u32,
}

impl fmt::Display for LowerKey {
    ghost output = { λ key. Some (lower_key key.guid key.age) };

    fn fmt<W: fmt::Write>(&self, f: &mut fmt::Formatter<W>) -> fmt::Result {
        let mut buffer = [0u8; 32];
        let digits = self.guid.simple().encode_lower(&mut buffer);
        let age = self.age;
        write!(f, "{digits}{age:x}")
    }
}
