//! Pages that are joined.

use pdb_fixtures::{are_slices, pages_of};
use pdb_msf::{PageList, SourceSlice};
use std::test::Fail;

/// Whether a list has so many bytes, in these slices, and is cut or not.
fn is_list(list: &PageList, len: usize, slices: &[(u64, usize)], cut: bool) -> bool {
    list.is_truncated() == cut && list.len() == len && are_slices(list.source_slices(), slices)
}

/// Where the highest page begins.
const LAST: u64 = 17592186040320;

/// Page numbers, how many bytes they are in all, and the slices into which they are joined.
const JOINED: &[(&[u32], usize, &[(u64, usize)])] = rows! {
    &[], 0, &[];
    &[0, 1], 8192, &[(0, 8192)];
    &[0, 1, 4, 5], 16384, &[(0, 8192), (16384, 8192)];
    &[0, 1, 4, 5, 2], 20480, &[(0, 8192), (16384, 8192), (8192, 4096)];
    &[0, 1, 4, 5, 2, 2], 24576, &[(0, 8192), (16384, 8192), (8192, 4096), (8192, 4096)];
    &[2, 1], 8192, &[(8192, 4096), (4096, 4096)];
    &[0xffff_ffff, 0xffff_ffff], 8192, &[(LAST, 4096), (LAST, 4096)];
    &[0xffff_fffe, 0xffff_ffff, 0], 12288, &[(LAST - 4096, 8192), (0, 4096)];
};

/// To how many bytes pages 0, 1, 4, 5, 2 and 2 are cut, one cut after another, how many are left,
/// and in which slices.
const CUTS: &[(usize, usize, &[(u64, usize)])] = rows! {
    25000, 24576, &[(0, 8192), (16384, 8192), (8192, 4096), (8192, 4096)];
    24000, 24000, &[(0, 8192), (16384, 8192), (8192, 4096), (8192, 3520)];
    10000, 10000, &[(0, 8192), (16384, 1808)];
    12000, 10000, &[(0, 8192), (16384, 1808)];
    0, 0, &[];
};

/// Whether these are the cuts of a list.
fn are_cuts(mut list: PageList, cuts: &[(usize, usize, &[(u64, usize)])]) -> bool {
    for (to, len, slices) in cuts {
        list.truncate(*to);
        if !is_list(&list, *len, slices, true) {
            return false;
        }
    }
    true
}

/// A part of a source, and parts that differ from it in their offset, in their size, and in both.
const SLICE: SourceSlice = SourceSlice { offset: 1, size: 2 };

const OTHERS: &[(u64, usize)] = &[(0x1_0000_0001, 2), (1, 0x1_0000_0002), (2, 1)];

#[test]
fn page_lists(rt: HostRuntime) -> Result<(), Fail> {
    for (pages, len, slices) in JOINED {
        let list = pages_of(rt.alloc(), pages)?;
        assert!(rt; is_list(&list, *len, slices, false), "{pages:?}");
    }
    assert!(rt; are_cuts(pages_of(rt.alloc(), &[0, 1, 4, 5, 2, 2])?, CUTS));
    for (offset, size) in OTHERS {
        let (offset, size) = (*offset, *size);
        assert!(rt; SLICE != SourceSlice { offset, size }, "{offset}, {size}");
    }
    Ok(())
}
