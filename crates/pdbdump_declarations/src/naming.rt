//! How the classes, unions and enumerations of a table are called in a header.

use crate::identifier::{is_identifier, is_keyword, push_letters, text_hash};
use crate::memory::AllocResult;
use crate::options::Language;
use crate::scopes::parts_of;
use crate::table_walk::{Found, Named, Walked};
use pdb_base::TypeIndex;
use pdbdump_types::TextBuffer;
use std::alloc::Global;

/// How many bytes the namespaces of a name have at most, since each member of a class repeats them.
const MOST_SCOPE: usize = 512;

/// How a type is called in a header.
#[derive(Drop)]
pub(crate) struct Name {
    /// The namespaces that it is in, with `::` behind each.
    pub(crate) scope: Vec<u8>,

    /// The identifier.
    pub(crate) identifier: Vec<u8>,

    /// Whether its scopes and the identifier are those of the file.
    is_plain: bool,
}

impl Name {
    /// Appends the name with its namespaces.
    pub(crate) fn push_to(&self, out: &mut TextBuffer) {
        out.push(&self.scope);
        out.push(&self.identifier);
    }

    /// Returns the hash of the name with its namespaces.
    fn hash(&self, alloc: Global) -> AllocResult<u64> {
        let mut text = TextBuffer::new(alloc);
        self.push_to(&mut text);
        Ok(text_hash(&text.finish()?))
    }
}

/// Which names of a table have to be told apart.
#[derive(Drop)]
pub(crate) struct Naming {
    language: Language,

    /// The hashes of the names of classes, unions and enumerations, in increasing order.
    scopes: Vec<u64>,

    /// The hashes of the names in a header that types of different names would have, in increasing
    /// order.
    shared: Vec<u64>,

    /// The definitions of names that one before defines too, in increasing order.
    repeated: Vec<u64>,
}

/// A hash of a name, and a number of the type that has it.
#[derive(Clone, Copy, PartialEq, Eq, PartialOrd, Ord)]
struct Entry {
    hash: u64,
    number: u64,
}

/// Returns whether numbers in increasing order hold one.
fn holds(numbers: &[u64], number: u64) -> bool {
    numbers.binary_search(&number).is_ok()
}

/// Appends the digits of a number in hexadecimal behind `_`.
fn push_suffix(alloc: Global, number: u64, out: &mut Vec<u8>) -> AllocResult<()> {
    let suffix = format!(in alloc; "_{number:x}")?;
    out.extend_from_slice(suffix.as_bytes())
}

impl Naming {
    /// Returns how the types along a table are called in a language.
    ///
    /// # Errors
    /// Fails if an allocation fails.
    pub(crate) fn new(alloc: Global, walked: &Walked<'_>, language: Language) -> AllocResult<Self> {
        let mut naming = Naming {
            language,
            scopes: scopes_of(alloc, &walked.found)?,
            shared: Vec::new(alloc),
            repeated: repeated_of(alloc, &walked.found)?,
        };
        naming.shared = naming.shared_of(alloc, &walked.found)?;
        Ok(naming)
    }

    /// Returns the hashes of names that types of different names would have.
    fn shared_of(&self, alloc: Global, found: &[Found<'_>]) -> AllocResult<Vec<u64>> {
        let mut entries = Vec::new(alloc);
        for it in found {
            let name = self.plain_name(alloc, it.named.name.as_bytes())?;
            entries.push(Entry {
                hash: name.hash(alloc)?,
                number: text_hash(it.named.key.as_bytes()),
            })?;
        }
        entries.sort_unstable();
        let mut shared = Vec::new(alloc);
        let mut last: Option<Entry> = None;
        for entry in &entries {
            if let Some(before) = last {
                if before.hash == entry.hash && before.number != entry.number {
                    shared.push(entry.hash)?;
                }
            }
            last = Some(*entry);
        }
        Ok(shared)
    }

    /// Returns how many of the first parts of a name are namespaces: those that are identifiers, of
    /// which none is a class, and which aren't too long together.
    fn namespaces_in(&self, name: &[u8], parts: &[&[u8]]) -> usize {
        if self.language == Language::C {
            return 0;
        }
        let mut end: usize = 0;
        let mut count: usize = 0;
        let most = parts.len().saturating_sub(1);
        for part in parts.iter().take(most) {
            end = end.saturating_add(part.len());
            let is_class = match name.get(..end) {
                Some(scope) => holds(&self.scopes, text_hash(scope)),
                None => true,
            };
            if is_class || !is_identifier(part) || end > MOST_SCOPE {
                break;
            }
            end = end.saturating_add(2);
            count = count.saturating_add(1);
        }
        count
    }

    /// Returns how a type of a name is called if no other is called alike.
    fn plain_name(&self, alloc: Global, name: &[u8]) -> AllocResult<Name> {
        let parts = parts_of(alloc, name)?;
        let count = self.namespaces_in(name, &parts);
        let mut scope = TextBuffer::new(alloc);
        for part in parts.iter().take(count) {
            push_letters(part, &mut scope);
            scope.push(b"::");
        }
        let mut text = TextBuffer::new(alloc);
        let mut is_plain = true;
        for part in parts.iter().skip(count) {
            if text.len() > 0 {
                text.push(b"__");
            }
            is_plain = is_plain && (is_identifier(part) || is_keyword(part));
            push_letters(part, &mut text);
        }
        let mut identifier = text.finish()?;
        if !identifier
            .first()
            .is_some_and(|first| !first.is_ascii_digit())
        {
            identifier.insert(0, b'_')?;
            is_plain = false;
        }
        identifier.truncate(200);
        is_plain = is_plain && name.len() < 200;
        if is_keyword(&identifier) {
            identifier.push(b'_')?;
        }
        Ok(Name {
            scope: scope.finish()?,
            identifier,
            is_plain,
        })
    }

    /// Returns how a type is called: a definition, or one that is only declared.
    ///
    /// # Errors
    /// Fails if an allocation fails.
    pub(crate) fn name_of(
        &self,
        alloc: Global,
        index: TypeIndex,
        named: &Named<'_>,
    ) -> AllocResult<Name> {
        let mut name = self.plain_name(alloc, named.name.as_bytes())?;
        if !name.is_plain || holds(&self.shared, name.hash(alloc)?) {
            let key = text_hash(named.key.as_bytes()) % 0x1_0000_0000;
            push_suffix(alloc, key, &mut name.identifier)?;
        }
        if holds(&self.repeated, index.0 as u64) {
            push_suffix(alloc, index.0 as u64, &mut name.identifier)?;
        }
        Ok(name)
    }
}

/// Returns the hashes of the names of types, in increasing order.
fn scopes_of(alloc: Global, found: &[Found<'_>]) -> AllocResult<Vec<u64>> {
    let mut scopes = Vec::new(alloc);
    for it in found {
        scopes.push(text_hash(it.named.name.as_bytes()))?;
    }
    scopes.sort_unstable();
    Ok(scopes)
}

/// Returns the definitions of names that one before defines too, in increasing order.
fn repeated_of(alloc: Global, found: &[Found<'_>]) -> AllocResult<Vec<u64>> {
    let mut entries = Vec::new(alloc);
    for it in found {
        if !it.named.is_forward {
            entries.push(Entry {
                hash: text_hash(it.named.key.as_bytes()),
                number: it.index.0 as u64,
            })?;
        }
    }
    entries.sort_unstable();
    let mut repeated = Vec::new(alloc);
    let mut last: Option<u64> = None;
    for entry in &entries {
        if last == Some(entry.hash) {
            repeated.push(entry.number)?;
        }
        last = Some(entry.hash);
    }
    repeated.sort_unstable();
    Ok(repeated)
}
