//! Answers that are copied into a caller's arrays.

ghost use Rattle.std.specs.Prelude.{◌≡◌, ◌++◌, ◌∷◌, [], ℕ, List, Option, OnOk};
ghost use Rattle.std.specs.Option.{option_map};
ghost use Rattle.pdb_base.specs.{Answer.Answer, Answer.Answers, Memory.FailsOnlyForMemory};
ghost use Rattle.pdb_values.specs.Text.{text_bytes};
ghost use Rattle.pdb_handles.specs.Copied.{CopiesAnswer, CopiesIf, items_copied, text_copied, text_if_copied};
ghost use Rattle.pdb_handles.specs.Listing.{RowsOrLacks, NamedRows, listing_told, listing_view, rows_copied};

use crate::fault::{FINE, Fault, NONE, TOO_SMALL};
use pdb_base::{RawString, Result, Stream};

/// Copies items to the start of a caller's array and sets `length` to their number. If the array
/// has no room for all of them, none is copied.
pub fn copy_out<T: Copy>(items: &[T], room: &mut [T], length: &mut usize) -> Fault
    ensures { record { fault = result; length = length.new; room = room.new } ≡ items_copied room.old items.now }
{
    *length = items.len();
    if room.len() < items.len() {
        return Fault::status(TOO_SMALL);
    }
    room[..items.len()].copy_from_slice(items);
    Fault::status(FINE)
}

/// Copies a text and a NUL behind it to the start of a caller's array, and sets `length` to the
/// number of bytes of the text. If the array has no room for both, nothing is copied.
#[tactic(auto, using(crate::proofs::CopiedLemmas::text_put))]
pub fn copy_text(text: &[u8], room: &mut [u8], length: &mut usize) -> Fault
    ensures { record { fault = result; length = length.new; room = room.new } ≡ text_copied room.old text.now }
{
    *length = text.len();
    if room.len() <= text.len() {
        return Fault::status(TOO_SMALL);
    }
    room[..text.len()].copy_from_slice(text);
    room[text.len()] = 0;
    Fault::status(FINE)
}

/// Copies rows and their names to the starts of two arrays of the caller, if both
/// have room for all of them, and sets `count` and `size` to their numbers.
pub fn copy_both<T: Copy>(
    items: &[T],
    bytes: &[u8],
    rows: &mut [T],
    count: &mut usize,
    names: &mut [u8],
    size: &mut usize,
) -> Fault
    ensures { record { fault = result; rows = rows.new; count = count.new; names = names.new; size = size.new }
        ≡ rows_copied rows.old names.old items.now bytes.now }
{
    *count = items.len();
    *size = bytes.len();
    if rows.len() < items.len() || names.len() < bytes.len() {
        return Fault::status(TOO_SMALL);
    }
    rows[..items.len()].copy_from_slice(items);
    names[..bytes.len()].copy_from_slice(bytes);
    Fault::status(FINE)
}

/// Sets `length` to 0 and returns the fault.
pub fn copy_nothing(fault: Fault, length: &mut usize) -> Fault
    ensures fault { result ≡ fault }
    ensures length { length.new ≡ 0 }
{
    *length = 0;
    fault
}

/// Copies the bytes of a stream to the caller's array, or returns the fault of the error.
pub(crate) fn copy_stream(answer: Result<Stream>, room: &mut [u8], length: &mut usize) -> Fault
    ensures { (meant : Answer (List ℕ)) → Answers (λ stream. stream) answer meant
        → CopiesAnswer meant room.old result length.new room.new }
{
    match answer {
        Ok(stream) => copy_out(stream.as_slice(), room, length),
        Err(error) => copy_nothing(Fault::of(&error), length),
    }
}

/// Copies the items of a list to the caller's array, or returns the fault of the error.
pub fn copy_list<T: Copy>(answer: Result<Vec<T>>, room: &mut [T], length: &mut usize) -> Fault
    ensures { (meant : Answer (List T)) → Answers (λ list. list.items) answer meant
        → CopiesAnswer meant room.old result length.new room.new }
{
    match answer {
        Ok(items) => copy_out(&items, room, length),
        Err(error) => copy_nothing(Fault::of(&error), length),
    }
}

/// Copies the items of a list to the caller's array if there is one, or returns a fault of status
/// `NONE` if there is none, or the fault of the error.
pub fn copy_if<T: Copy>(answer: Result<Option<Vec<T>>>, room: &mut [T], length: &mut usize) -> Fault
    ensures { (meant : Answer (Option (List T))) → Answers (option_map (λ list. list.items)) answer meant
        → CopiesIf meant room.old result length.new room.new }
{
    match answer {
        Ok(Some(items)) => copy_out(&items, room, length),
        Ok(None) => copy_nothing(Fault::status(NONE), length),
        Err(error) => copy_nothing(Fault::of(&error), length),
    }
}

/// Copies a name to the caller's array if there is one, or returns a fault of status `NONE` if there
/// is none.
pub fn copy_name(name: Option<RawString<'_>>, room: &mut [u8], length: &mut usize) -> Fault
    ensures { record { fault = result; length = length.new; room = room.new }
        ≡ text_if_copied room.old (option_map text_bytes name.entry) }
{
    match name {
        Some(name) => copy_text(name.as_bytes(), room, length),
        None => copy_nothing(Fault::status(NONE), length),
    }
}

/// Appends a name and a NUL.
pub fn push_name(names: &mut Vec<u8>, name: &[u8]) -> Result<()>
    ensures ok { OnOk result (names.new.items ≡ names.old.items ++ (name.now ++ 0 ∷ [])) }
    ensures memory { FailsOnlyForMemory result }
{
    names.extend_from_slice(name)?;
    names.push(0)?;
    Ok(())
}

/// Rows and their names, each with a NUL behind it.
#[derive(Drop)]
pub struct Listing<R> {
    pub(crate) rows: Vec<R>,
    pub(crate) names: Vec<u8>,
}

/// Sets `count` and `size` to 0 and returns the fault.
pub fn write_nothing(fault: Fault, count: &mut usize, size: &mut usize) -> Fault
    ensures fault { result ≡ fault }
    ensures count { count.new ≡ 0 }
    ensures size { size.new ≡ 0 }
{
    *count = 0;
    *size = 0;
    fault
}

/// Writes a listing if there is one, or returns a fault of status `NONE` if there is none, or the
/// fault of the error.
pub fn write_listing<R: Copy>(
    found: Result<Option<Listing<R>>>,
    rows: &mut [R],
    count: &mut usize,
    names: &mut [u8],
    size: &mut usize,
) -> Fault
    ensures { (meant : Answer (Option (NamedRows R))) → Answers (option_map listing_view) found meant → RowsOrLacks
        (record { fault = result; rows = rows.new; count = count.new; names = names.new; size = size.new })
        rows.old names.old (listing_told rows.old names.old meant) }
{
    match found {
        Ok(Some(listing)) => copy_both(&listing.rows, &listing.names, rows, count, names, size),
        Ok(None) => write_nothing(Fault::status(NONE), count, size),
        Err(error) => write_nothing(Fault::of(&error), count, size),
    }
}
