//! What `Default`, `==` and the order of each type say. The functions do nothing: each contract is
//! a law. Equal values hash alike, which the trait `Hash` demands of each type.

ghost use Rattle.std.specs.Prelude.{◌≡◌, ◌↔◌, [], IsTrue};
ghost use Rattle.pdb_base.specs.declared.count.Count.{Count};
ghost use Rattle.pdb_base.specs.declared.index.Local.{Local};
ghost use Rattle.pdb_base.specs.declared.parse.Le.{Le};
ghost use Rattle.pdb_base.specs.declared.raw_string.RawString.{RawString};
ghost use Rattle.std.specs.Cmp.Lexicographic.{slice_cmp};
ghost use Rattle.std.specs.Ordering.{nat_cmp};
ghost use Rattle.pdb_base.specs.Count.{calls_of};
ghost use Rattle.pdb_base.specs.Derived.{Copies, DefaultsTo, OrdersBy, TellsApart};
ghost use Rattle.pdb_base.specs.Index.{no_stream};

use crate::buffer::ParseBuffer;
use crate::count::Count;
use crate::index::{FileIndex, IdIndex, Local, Register, StreamIndex, SymbolIndex, TypeIndex};
use crate::item_index::ItemIndex;
use crate::parse::Le;
use crate::raw_string::RawString;
use crate::variant::Variant;

/// The default index of a stream names no stream. Indexes are equal exactly if their numbers are,
/// and compare as their numbers do.
pub fn stream_indexes()
    ensures default { DefaultsTo ⟦<StreamIndex as Default>⟧.is_default (record { 0 = no_stream }) }
    ensures equal { TellsApart ⟦<StreamIndex as PartialEq>⟧.eq }
    ensures order { OrdersBy (λ index. index.0) ⟦<StreamIndex as Ord>⟧.cmp }
{}

/// The default index of a type is 0. Indexes are equal exactly if their numbers are, and compare as
/// their numbers do.
pub fn type_indexes()
    ensures default { DefaultsTo ⟦<TypeIndex as Default>⟧.is_default (record { 0 = 0 }) }
    ensures equal { TellsApart ⟦<TypeIndex as PartialEq>⟧.eq }
    ensures order { OrdersBy (λ index. index.0) ⟦<TypeIndex as Ord>⟧.cmp }
{}

/// The default index of an id is 0. Indexes are equal exactly if their numbers are, and compare as
/// their numbers do.
pub fn id_indexes()
    ensures default { DefaultsTo ⟦<IdIndex as Default>⟧.is_default (record { 0 = 0 }) }
    ensures equal { TellsApart ⟦<IdIndex as PartialEq>⟧.eq }
    ensures order { OrdersBy (λ index. index.0) ⟦<IdIndex as Ord>⟧.cmp }
{}

/// The default offset of a source file is 0. Offsets are equal exactly if their numbers are, and
/// compare as their numbers do.
pub fn file_indexes()
    ensures default { DefaultsTo ⟦<FileIndex as Default>⟧.is_default (record { 0 = 0 }) }
    ensures equal { TellsApart ⟦<FileIndex as PartialEq>⟧.eq }
    ensures order { OrdersBy (λ index. index.0) ⟦<FileIndex as Ord>⟧.cmp }
{}

/// Offsets of symbols are equal exactly if their numbers are, and compare as their numbers do.
pub fn symbol_indexes()
    ensures equal { TellsApart ⟦<SymbolIndex as PartialEq>⟧.eq }
    ensures order { OrdersBy (λ index. index.0) ⟦<SymbolIndex as Ord>⟧.cmp }
{}

/// The default number of a register is 0. Registers are equal exactly if their numbers are, and
/// compare as their numbers do.
pub fn registers()
    ensures default { DefaultsTo ⟦<Register as Default>⟧.is_default (record { 0 = 0 }) }
    ensures equal { TellsApart ⟦<Register as PartialEq>⟧.eq }
    ensures order { OrdersBy (λ register. register.0) ⟦<Register as Ord>⟧.cmp }
{}

/// The default of a local index is that of the index that it holds. Local indexes are equal, and
/// compare, exactly as the indexes that they hold do.
pub fn local_indexes<I: ItemIndex + Ord>()
    ensures default { (index : Local I) → ⟦<Local<I> as Default>⟧.is_default index → I.is_default index.0 }
    ensures equal { (a b : Local I) → ⟦<Local<I> as PartialEq>⟧.eq a b ≡ I.eq a.0 b.0 }
    ensures order { (a b : Local I) → ⟦<Local<I> as Ord>⟧.cmp a b ≡ I.cmp a.0 b.0 }
{}

/// Numbers of variable width are equal exactly if they are the same number in the same width.
pub fn variants()
    ensures { TellsApart ⟦<Variant as PartialEq>⟧.eq }
{}

/// The default text is empty. Texts are equal exactly if their bytes are. They compare by the first
/// bytes that differ or, if none do, by their lengths.
pub fn texts()
    ensures default { (text : RawString) → ⟦<RawString<'static> as Default>⟧.is_default text → text.0.now ≡ [] }
    ensures equal { (a b : RawString) → IsTrue (⟦<RawString<'static> as PartialEq>⟧.eq a b) ↔ (a.0.now ≡ b.0.now) }
    ensures order { (a b : RawString) → ⟦<RawString<'static> as Ord>⟧.cmp a b ≡ slice_cmp nat_cmp a.0.now b.0.now }
{}

/// The default count is of no calls. Counts are equal exactly if they count as many calls.
pub fn counts()
    ensures default { (count : Count) → ⟦<Count as Default>⟧.is_default count → calls_of count ≡ 0 }
    ensures equal { TellsApart ⟦<Count as PartialEq>⟧.eq }
{}

/// There is one order of bytes, the lowest first.
pub fn orders_of_bytes()
    ensures default { (order : Le) → ⟦<Le as Default>⟧.is_default order }
    ensures equal { TellsApart ⟦<Le as PartialEq>⟧.eq }
{}

/// Indexes and registers.
type Numbers = (
    StreamIndex,
    TypeIndex,
    IdIndex,
    FileIndex,
    SymbolIndex,
    Register,
    Local<TypeIndex>,
    Local<IdIndex>,
);

/// What is read of bytes, and with what it is read.
type Read = (Variant, RawString<'static>, ParseBuffer<'static>, Le);

/// A clone is the value that was cloned, and cloning never fails. A law of a tuple is one of each
/// of its parts.
pub fn clones()
    ensures numbers { Copies ⟦<Numbers as Clone>⟧.is_clone ⟦<Numbers as Clone>⟧.is_infallible }
    ensures read { Copies ⟦<Read as Clone>⟧.is_clone ⟦<Read as Clone>⟧.is_infallible }
{}
