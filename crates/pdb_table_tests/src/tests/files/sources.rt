//! Sources, also one that notes its views.

use super::read_files::are_read;
use super::{are_views, bytes_in};
use pdb_fixtures::{Noting, s1, with_bytes};
use pdb_msf::{BigMSF, Msf, ReadView, Source, SourceSlice, SourceView, open_msf};
use std::alloc::Global;
use std::io;
use std::io::ErrorKind;
use std::test::Fail;

/// Slices that are requested from a source, and the bytes of a view of them, or None if the view
/// fails because the source ends too soon.
pub(super) type Views = &'static [(&'static [SourceSlice], Option<&'static [u8]>)];

/// A slice of so many bytes from an offset on.
macro_rules! slice {
    ($offset:expr, $size:expr) => {
        SourceSlice {
            offset: $offset,
            size: $size,
        }
    };
}

const OF_SIX_BYTES: Views = rows! {
    &[slice!(4, 2), slice!(0, 3), slice!(6, 0)], Some(b"efabc");
    &[slice!(4, 3)], None;
    &[slice!(u64::MAX, 2)], None;
    &[slice!(0, 1 << 50)], None;
};

/// The last of the two bytes that are not 0.
const BYTE_88: SourceSlice = slice!(88, 1);

/// Four bytes around the first one.
const AROUND_42: SourceSlice = slice!(40, 4);

const OF_TWO_BYTES: Views = rows! {
    &[BYTE_88, AROUND_42, BYTE_88], Some(&[88, 0, 0, 42, 0, 88]);
    &[AROUND_42], Some(&[0, 0, 42, 0]);
    &[slice!(5000, 0)], Some(&[]);
    &[slice!(u64::MAX, 0)], Some(&[]);
    &[slice!(4095, 2)], None;
    &[slice!(u64::MAX, 2)], None;
};

/// Whether a view has these bytes, or fails because the source ends too soon if there are none.
pub(super) fn is_view(view: io::Result<ReadView>, want: Option<&[u8]>) -> bool {
    match want {
        Some(bytes) => matches!(view, Ok(view) if view.as_slice() == bytes),
        None => matches!(view, Err(error) if error.kind() == ErrorKind::UnexpectedEof),
    }
}

/// Whether the views of a source are these.
pub(super) fn sees<S: Source>(alloc: Global, source: &mut S, views: Views) -> bool {
    for (asked, want) in views {
        if !is_view(source.view(alloc, asked), *want) {
            return false;
        }
    }
    true
}

/// Whether the views of bytes are these, owned, borrowed and read from a file.
fn are_seen(alloc: Global, mut owned: Vec<u8>, views: Views) -> pdb_base::Result<bool> {
    let seen = sees(alloc, &mut owned, views);
    let lent = sees(alloc, &mut owned.as_slice(), views);
    Ok(seen && lent && are_read(alloc, &owned, views)?)
}

#[test]
fn views(rt: HostRuntime) -> Result<(), Fail> {
    let alloc = rt.alloc();
    assert!(rt; are_seen(alloc, Vec::from_slice(alloc, b"abcdef")?, OF_SIX_BYTES)?);
    let two = with_bytes(vec![in alloc; 0; 4096]?, &[(42, 42), (88, 88)]);
    assert!(rt; are_seen(alloc, two, OF_TWO_BYTES)?);
    let view = ReadView::new(Vec::from_slice(alloc, b"xy")?);
    assert!(rt; view.as_slice() == b"xy".as_slice());
    Ok(())
}

/// The stream and the limit of one call after another, and how many bytes the file has then
/// requested from its source: of S1 36 bytes to locate the directory and 600 of stream 1, then 5,
/// none of an absent stream, 2, and none of an empty stream.
const ASKED: &[(u32, Option<usize>, u64)] = &[
    (1, None, 636),
    (3, None, 641),
    (2, None, 641),
    (3, Some(2), 643),
    (0, None, 643),
];

/// Whether a call locates the directory, and so many bytes have then been requested from the
/// source.
fn asks(
    alloc: Global,
    file: &mut BigMSF<Noting>,
    number: u32,
    limit: Option<usize>,
    asked: u64,
) -> bool {
    let _ = file.get(alloc, number, limit);
    file.located() && file.asked() == asked && bytes_in(file.source().notes()) == asked
}

/// Whether each of the calls does so, where nothing was requested before them.
fn asks_in_turn(alloc: Global, file: &mut BigMSF<Noting>) -> bool {
    if file.located() || file.asked() != 0 {
        return false;
    }
    for (number, limit, asked) in ASKED {
        if !asks(alloc, file, *number, *limit, *asked) {
            return false;
        }
    }
    true
}

/// The views of the source in these calls: the header's, the directory's page number and the
/// directory, and one in each call that reads a stream.
const NOTED: &[&[(u64, usize)]] = &[
    &[(0, 4096)],
    &[(1536, 4)],
    &[(1024, 32)],
    &[(3072, 512), (2560, 88)],
    &[(3584, 5)],
    &[(3584, 2)],
    &[],
];

#[test]
fn noted_views(rt: HostRuntime) -> Result<(), Fail> {
    let alloc = rt.alloc();
    let mut file = open_msf(alloc, Noting::new(alloc, s1(alloc)?))?;
    assert!(rt; asks_in_turn(alloc, &mut file));
    assert!(rt; are_views(file.source().notes(), NOTED));
    Ok(())
}
