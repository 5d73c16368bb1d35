//! What the header of a file says of its pages.

ghost use Rattle.std.specs.Prelude.{◌≡◌, ◌<◌, Ok};
ghost use Rattle.pdb_msf.specs.Layout.{layout_of};
ghost use Rattle.pdb_msf.specs.Source.{IsFixed, ReadsSource};
ghost use Rattle.pdb_validation.specs.FileHeader.{file_header_mismatches, page_fields};
ghost use Rattle.pdb_validation.specs.Mismatch.{asked_of};

use crate::free_map::{MAP_BYTE, header_word};
use crate::header_fields::{FieldCheck, check_fields};
use crate::inconsistency::Inconsistency;
use crate::mismatch::Mismatch;
use crate::scope::Scope;
use pdb_base::Result;
use pdb_msf::{CountedSource, Source};

/// The byte of a file at which its header has the number of the pages in use.
const PAGES_BYTE: u64 = 40;

/// Returns the fields of a header that are checked.
fn page_fields(size: u64, page_size: u32, map: u32, pages: u32) -> [FieldCheck; 2]
    requires { 0 < page_size }
    ensures { result ≡ page_fields size page_size map pages }
{
    [
        FieldCheck {
            is_wrong: map != 1 && map != 2,
            byte: None,
            what: Inconsistency::FreePageMap(map),
        },
        FieldCheck {
            is_wrong: size.div_ceil(page_size as u64) < pages as u64,
            byte: None,
            what: Inconsistency::PageCount(pages),
        },
    ]
}

/// Returns what is inconsistent in the header of a file: the number of the free page map is neither
/// 1 nor 2, or more pages are in use than the file has. The layout is that of the file. All are
/// returned, or one, as `extent` says. The format is that of Microsoft's msf.cpp.
///
/// # Errors
/// Fails with `IoError` if the source fails, and with `OutOfMemory` if an allocation fails.
#[tactic(auto, using(crate::proofs::HeaderLemmas::layout_long))]
pub(crate) fn check_header<S: Source>(
    scope: &Scope<'_>,
    source: &mut CountedSource<S>,
) -> Result<Vec<Mismatch>>
    requires layout { IsFixed (S.state source.old.source) →
        layout_of (S.state source.old.source).bytes ≡ Ok scope.now.layout.now }
    ensures { ReadsSource (S.state source.old.source) (S.state source.new.source) (λ mismatches. mismatches.items)
        result (λ file. Ok (asked_of scope.now.extent (file_header_mismatches
        scope.now.layout.now.head.geometry.page_size file))) }
{
    let size = source.size(scope.alloc)?;
    let map = header_word(scope.alloc, source, MAP_BYTE)?;
    let pages = header_word(scope.alloc, source, PAGES_BYTE)?;
    let fields = page_fields(size, scope.layout.page_size(), map, pages);
    check_fields(scope.alloc, None, &fields, scope.extent)
}
