//! Frames of both formats.

use super::searching::pairs_of;
use super::stream;
use pdb_base::{Error, FallibleIterator, Le, Parse, Stream};
use pdb_frames::{
    AddrRange, FrameData, FrameDataIter, FrameTable, FrameType, NewFrameData, OldFrameData,
};
use pdb_space::{PdbInternalRva, StringRef};
use std::alloc::Global;
use std::test::Fail;

/// Frames, each from an address on and of so many bytes.
type Spans = &'static [(u32, u32)];

/// What the table of frames of both formats answers.
enum Ask {
    /// The formats and starts of all frames.
    All(Frames),
    /// Those from an address on.
    From(u32, Frames),
}

use Ask::{All, From};

/// The formats and the starts of frames.
type Frames = &'static [(FrameType, u32)];

const OLD: FrameType = FrameType::FPO;

const NEW: FrameType = FrameType::FrameData;

const FIRST: Spans = &[(0x10, 8), (0x20, 4)];

const SECOND: Spans = &[(0x10, 8), (0x30, 8)];

const SHORT: Spans = &[(0x10, 1), (0x30, 8)];

const NESTED: Spans = &[(0, 0x64), (10, 1)];

/// The frames of the first stream and the second one, and of the first one and the short one.
const MERGED: Frames = &[(NEW, 0x10), (OLD, 0x20), (NEW, 0x30)];

/// Old frames and new ones, and what their table answers, each with a name.
const TABLES: &[(&str, Spans, Spans, Ask)] = rows! {
    "all", FIRST, SECOND, All(MERGED);
    "in a gap", FIRST, SECOND, From(0x22, &[(OLD, 0x20), (NEW, 0x30)]);
    "in both", FIRST, SECOND, From(0x12, MERGED);
    "behind all", FIRST, SECOND, From(0x40, &[]);
    "before all", FIRST, SECOND, From(0, MERGED);
    "in the old one", FIRST, SHORT, From(0x12, &[(OLD, 0x10), (OLD, 0x20), (NEW, 0x30)]);
    "new for old", FIRST, SHORT, All(MERGED);
    "to 2^32", &[], &[(0xffff_fff0, 0x20)], From(0xffff_ffff, &[(NEW, 0xffff_fff0)]);
    "nested, new", &[], NESTED, From(0x32, &[]);
    "nested, old", NESTED, &[], From(0x32, &[]);
    "nested, inside", NESTED, &[], From(10, &[(OLD, 10)]);
    "no size", &[(4, 0)], &[], From(4, &[(OLD, 4)]);
    "no frames", &[], &[], All(&[]);
};

/// How many bytes the streams of old and of new frames have, or None where there is none, and the
/// stream in the error of their table, if it is none.
const SIZES: &[(Option<usize>, Option<usize>, Option<&str>)] = rows! {
    Some(15), Some(31), Some("FPO");
    None, Some(31), Some("FrameData");
    Some(16), Some(48), Some("FrameData");
    Some(17), None, Some("FPO");
    Some(48), Some(64), None;
    Some(0), Some(0), None;
    None, None, None;
};

/// The bytes of an old frame.
const OLD_BYTES: &[u8] = b"\x00\x10\x00\x00\x20\x00\x00\x00\x01\x00\x00\x40\x03\x00\x05\x9a";

/// The bytes of a new frame.
const NEW_BYTES: &[u8] =
    b"\xf0\xff\xff\xff\x20\x00\x00\x00\x08\x00\x00\x00\x0c\x00\x00\x00\x10\x00\x00\x00\x2a\x00\x00\x00\x03\x00\x04\x00\x06\x00\x00\x00";

/// What that old frame says.
const OLD_FRAME: FrameData = FrameData {
    ty: FrameType::TSS,
    code_start: PdbInternalRva(0x1000),
    code_size: 0x20,
    locals_size: 4,
    params_size: 12,
    prolog_size: 5,
    saved_regs_size: 8,
    max_stack_size: None,
    has_structured_eh: true,
    has_cpp_eh: false,
    is_function_start: false,
    uses_base_pointer: true,
    program: None,
};

/// What that new frame says.
const NEW_FRAME: FrameData = FrameData {
    ty: FrameType::FrameData,
    code_start: PdbInternalRva(0xffff_fff0),
    code_size: 0x20,
    locals_size: 8,
    params_size: 12,
    prolog_size: 3,
    saved_regs_size: 4,
    max_stack_size: Some(16),
    has_structured_eh: false,
    has_cpp_eh: true,
    is_function_start: true,
    uses_base_pointer: false,
    program: Some(StringRef(42)),
};

/// Whether the next frame has this format and start, or there is none.
fn steps_to(frames: &mut FrameDataIter<'_>, want: Option<(FrameType, u32)>) -> bool {
    match frames.next() {
        Ok(Some(frame)) => want == Some((frame.ty, frame.code_start.0)),
        Ok(None) => want.is_none(),
        Err(_) => false,
    }
}

/// Whether an iterator gives these frames by their formats and starts, and None twice behind them.
fn gives(mut frames: FrameDataIter<'_>, want: &[(FrameType, u32)]) -> bool {
    for frame in want {
        if !steps_to(&mut frames, Some(*frame)) {
            return false;
        }
    }
    steps_to(&mut frames, None) && steps_to(&mut frames, None)
}

/// Whether the table of these frames answers so, and is empty only without any.
fn is_told(alloc: Global, old: Spans, new: Spans, ask: &Ask) -> Result<bool, Fail> {
    let old_stream = pairs_of(alloc, old, &[0; 8])?;
    let table = FrameTable::parse(Some(old_stream), Some(pairs_of(alloc, new, &[0; 24])?))?;
    let is_given = match ask {
        All(want) => gives(table.iter(), want),
        From(address, want) => gives(table.iter_at_rva(PdbInternalRva(*address)), want),
    };
    Ok(is_given && table.is_empty() == (old.is_empty() && new.is_empty()))
}

/// The stream of so many zeros, if there is one.
fn zeros(alloc: Global, len: Option<usize>) -> pdb_base::Result<Option<Stream>> {
    match len {
        Some(len) => Ok(Some(stream(alloc, &[0; 64][..len.min(64)])?)),
        None => Ok(None),
    }
}

/// Whether the table of streams of such sizes has this error, or none.
fn is_sized(
    alloc: Global,
    old: Option<usize>,
    new: Option<usize>,
    want: Option<&str>,
) -> Result<bool, Fail> {
    let old = zeros(alloc, old)?;
    Ok(match FrameTable::parse(old, zeros(alloc, new)?) {
        Ok(_) => want.is_none(),
        Err(Error::InvalidStreamLength(name)) => want == Some(name),
        Err(_) => false,
    })
}

/// Whether the old frame says what it should, and answers each question of its own.
fn is_old(frame: &OldFrameData) -> bool {
    frame.start() == 0x1000
        && frame.size() == 0x20
        && frame.prolog_size() == 5
        && frame.saved_regs_size() == 2
        && frame.has_seh()
        && frame.uses_base_pointer()
        && frame.frame_type() == FrameType::TSS
        && FrameData::from(frame) == OLD_FRAME
}

/// Whether bytes are those of the old frame, and fewer end too soon.
fn are_old_bytes() -> bool {
    let read = OldFrameData::parse_from(OLD_BYTES, Le);
    matches!(read, Ok((frame, 16)) if is_old(&frame))
        && matches!(
            OldFrameData::parse_from(&OLD_BYTES[1..], Le),
            Err(Error::UnexpectedEof)
        )
}

/// Whether the new frame has the first two addresses, and not the other two.
fn is_there(frame: &NewFrameData) -> bool {
    frame.contains(0xffff_ffff)
        && frame.contains(0xffff_fff0)
        && !frame.contains(0xffff_ffef)
        && !frame.contains(0)
}

/// Whether the new frame says what it should, and answers each question of its own.
fn is_new(frame: &NewFrameData) -> bool {
    !frame.has_seh()
        && frame.has_eh()
        && frame.is_function_start()
        && is_there(frame)
        && FrameData::from(frame) == NEW_FRAME
}

/// Whether bytes are those of the new frame, and fewer end too soon.
fn are_new_bytes() -> bool {
    let read = NewFrameData::parse_from(NEW_BYTES, Le);
    matches!(read, Ok((frame, 32)) if is_new(&frame))
        && matches!(
            NewFrameData::parse_from(&NEW_BYTES[..31], Le),
            Err(Error::UnexpectedEof)
        )
}

#[test]
fn frames(rt: HostRuntime) -> Result<(), Fail> {
    for (name, old, new, ask) in TABLES {
        assert!(rt; is_told(rt.alloc(), old, new, ask)?, "{name}");
    }
    for (old, new, want) in SIZES {
        let is_well = is_sized(rt.alloc(), *old, *new, *want)?;
        assert!(rt; is_well, "{old:?}, {new:?}");
    }
    assert!(rt; gives(FrameDataIter::default(), &[]));
    assert!(rt; are_old_bytes() && are_new_bytes());
    Ok(())
}
