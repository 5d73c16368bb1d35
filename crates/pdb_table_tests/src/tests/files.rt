//! Files, their pages and their sources.

mod pages;
mod read_files;
mod sources;
mod streams;
pub(crate) mod watched;

use pdb_fixtures::are_slices;
use pdb_msf::SourceSlice;

/// A view: the requested slices.
pub(crate) type Note = Vec<SourceSlice>;

/// The bytes in all views but the first, by which the file was opened.
fn bytes_in(notes: &[Note]) -> u64 {
    let mut sum = 0u64;
    for note in notes.iter().skip(1) {
        for slice in note.as_slice() {
            sum = sum.saturating_add(slice.size as u64);
        }
    }
    sum
}

/// Whether views are these.
fn are_views(notes: &[Note], want: &[&[(u64, usize)]]) -> bool {
    for (note, want) in notes.iter().zip(want) {
        if !are_slices(note.as_slice(), want) {
            return false;
        }
    }
    notes.len() == want.len()
}
