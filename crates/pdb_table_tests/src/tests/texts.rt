//! The texts of errors, indexes, addresses, numbers and names.

use super::shows;
use pdb_base::{
    Error, FileIndex, IdIndex, Local, RawString, Register, StreamIndex, SymbolIndex, TypeIndex,
    Variant,
};
use pdb_frames::FrameType;
use pdb_space::{PdbInternalRva, Rva, StringRef};
use std::alloc::Global;
use std::borrow::CowStr;
use std::io::ErrorKind;
use std::test::Fail;
use std::{fmt, io};

/// Errors that say their name alone, and their texts.
const NAMED: &[(Error, &str)] = rows! {
    Error::UnrecognizedFileFormat, "UnrecognizedFileFormat";
    Error::StreamNameNotFound, "StreamNameNotFound";
    Error::UnexpectedEof, "UnexpectedEof";
    Error::GlobalSymbolsNotFound, "GlobalSymbolsNotFound";
    Error::SymbolTooShort, "SymbolTooShort";
    Error::TypeTooShort, "TypeTooShort";
    Error::AddressMapNotFound, "AddressMapNotFound";
    Error::LinesNotFound, "LinesNotFound";
    Error::InvalidCompressedAnnotation, "InvalidCompressedAnnotation";
    Error::OutOfMemory, "OutOfMemory";
};

/// Errors with a number or a text, and their texts.
const TOLD: &[(Error, &str)] = rows! {
    Error::PageReferenceOutOfRange(0), "MSF referred to page number (0) out of range";
    Error::PageReferenceOutOfRange(0xffff_ffff),
        "MSF referred to page number (4294967295) out of range";
    Error::InvalidPageSize(768), "The MSF header specifies an invalid page size (768 bytes)";
    Error::InvalidPageSize(0x8000_0000),
        "The MSF header specifies an invalid page size (2147483648 bytes)";
    Error::StreamNotFound(7), "The requested stream (7) is not stored in this file";
    Error::StreamNotFound(0xffff_ffff),
        "The requested stream (4294967295) is not stored in this file";
    Error::InvalidStreamLength("OMAP"),
        "OMAP stream has an invalid length or alignment for its records";
    Error::InvalidStreamLength(""), " stream has an invalid length or alignment for its records";
    Error::UnimplementedFeature("small MSF file format"),
        "Unimplemented PDB feature: small MSF file format";
    Error::InvalidTypeInformationHeader("header size is impossibly small"),
        "The type information header was invalid: header size is impossibly small";
    Error::TypeNotFound(0), "Type 0 not found";
    Error::TypeNotFound(0xffff_ffff), "Type 4294967295 not found";
    Error::TypeNotIndexed(4104, 4103), "Type 4104 not indexed (index covers 4103)";
    Error::TypeNotIndexed(0xffff_ffff, 0), "Type 4294967295 not indexed (index covers 0)";
    Error::UnimplementedFileChecksumKind(0), "Unknown source file checksum kind 0";
    Error::UnimplementedFileChecksumKind(255), "Unknown source file checksum kind 255";
    Error::UnknownBinaryAnnotation(13), "Unknown binary annotation 13";
    Error::UnknownBinaryAnnotation(0xffff_ffff), "Unknown binary annotation 4294967295";
};

/// Errors that say a number in hexadecimal, of at least four digits but for the last, and their
/// texts.
const IN_HEXADECIMAL: &[(Error, &str)] = rows! {
    Error::UnimplementedSymbolKind(0), "Support for symbols of kind 0x0000 is not implemented";
    Error::UnimplementedSymbolKind(0xffff), "Support for symbols of kind 0xffff is not implemented";
    Error::UnimplementedTypeKind(0x000a), "Support for types of kind 0x000a is not implemented";
    Error::UnimplementedTypeKind(0x1609), "Support for types of kind 0x1609 is not implemented";
    Error::NotACrossModuleRef(1), "Type 0x0001 is not a cross module reference";
    Error::NotACrossModuleRef(0x7fff_ffff), "Type 0x7fffffff is not a cross module reference";
    Error::CrossModuleRefNotFound(0), "Cross module reference 0x0000 not found in imports";
    Error::CrossModuleRefNotFound(0xffff_ffff),
        "Cross module reference 0xffffffff not found in imports";
    Error::UnexpectedNumericPrefix(0x8005),
        "Variable-length numeric parsing encountered an unexpected prefix (0x8005)";
    Error::UnexpectedNumericPrefix(0),
        "Variable-length numeric parsing encountered an unexpected prefix (0x0000)";
    Error::UnimplementedDebugSubsection(0xf1),
        "Debug module subsection of kind 0x00f1 is not implemented";
    Error::UnimplementedDebugSubsection(0x12345),
        "Debug module subsection of kind 0x12345 is not implemented";
    Error::InvalidFileChecksumOffset(0xa), "Invalid source file checksum offset 0xa";
    Error::InvalidFileChecksumOffset(0xffff_ffff), "Invalid source file checksum offset 0xffffffff";
};

/// Whether this is the text of a fault of the disk.
fn is_fault(alloc: Global, text: &str) -> bool {
    let gone = Error::IoError(io::Error::new(ErrorKind::Other, "the disk is gone"));
    shows(alloc, &gone, text)
}

/// Numbers, and how they are shown as indexes and as addresses.
const NUMBERS: &[(u32, &str)] = rows! {
    0, "0x0"; 1, "0x1"; 0xa, "0xa"; 0x10, "0x10"; 0x42, "0x42"; 0x1000, "0x1000";
    0x0dec_0de5, "0xdec0de5"; 0x7fff_ffff, "0x7fffffff"; 0x8000_0000, "0x80000000"; 0xffff_ffff, "0xffffffff";
};

/// Whether an index of each kind shows its number so.
fn are_indexes(alloc: Global, number: u32, text: &str) -> bool {
    shows(alloc, &TypeIndex(number), text)
        && shows(alloc, &IdIndex(number), text)
        && shows(alloc, &FileIndex(number), text)
        && shows(alloc, &SymbolIndex(number), text)
        && shows(alloc, &Local(TypeIndex(number)), text)
        && shows(alloc, &Local(IdIndex(number)), text)
}

/// Whether an address of each kind, and the offset of a name, show their number so.
fn are_addresses(alloc: Global, number: u32, text: &str) -> bool {
    shows(alloc, &Rva(number), text)
        && shows(alloc, &PdbInternalRva(number), text)
        && shows(alloc, &StringRef(number), text)
}

/// The numbers of streams, and how their indexes are shown.
const STREAMS: &[(u16, &str)] = rows! {
    0, "0"; 7, "7"; 9, "9"; 10, "10"; 0xfffe, "65534"; 0xffff, "None";
};

/// Numbers of variable width, and how they are shown.
const VARIANTS: &[(Variant, &str)] = rows! {
    Variant::U8(0), "0"; Variant::U8(255), "255"; Variant::U16(65535), "65535";
    Variant::U32(4294967295), "4294967295"; Variant::I8(127), "127"; Variant::I8(-128), "-128";
    Variant::I16(-32768), "-32768"; Variant::I16(-2), "-2";
    Variant::I32(-2147483648), "-2147483648"; Variant::I64(-1), "-1";
    Variant::U64(18446744073709551615), "18446744073709551615";
    Variant::I64(9223372036854775807), "9223372036854775807";
    Variant::I64(-9223372036854775807 - 1), "-9223372036854775808";
};

/// The kinds of frames, and how they are shown.
const KINDS: &[(FrameType, &str)] = rows! {
    FrameType::FPO, "fpo"; FrameType::Trap, "trap"; FrameType::TSS, "tss";
    FrameType::Standard, "std"; FrameType::FrameData, "fdata"; FrameType::Unknown, "unknown";
};

/// Whether a value's debug text is `want`.
fn shows_debug<T: fmt::Debug>(alloc: Global, value: &T, want: &str) -> bool {
    matches!(format!(in alloc; "{value:?}"), Ok(text) if text.as_str() == want)
}

/// Whether indexes and addresses have these debug texts.
fn are_debugged(alloc: Global) -> bool {
    shows_debug(alloc, &StreamIndex(0xffff), "StreamIndex(65535)")
        && shows_debug(alloc, &TypeIndex(0x1000), "TypeIndex(0x1000)")
        && shows_debug(alloc, &IdIndex(0), "IdIndex(0x0)")
        && shows_debug(alloc, &FileIndex(0xffff_ffff), "FileIndex(0xffffffff)")
        && shows_debug(alloc, &SymbolIndex(0x42), "SymbolIndex(0x42)")
        && shows_debug(alloc, &Local(TypeIndex(0x1001)), "Local(TypeIndex(0x1001))")
        && shows_debug(alloc, &Local(IdIndex(1)), "Local(IdIndex(0x1))")
        && shows_debug(alloc, &Register(335), "Register(335)")
        && shows_debug(alloc, &Rva(0x42), "Rva(0x42)")
        && shows_debug(alloc, &StringRef(0x42), "StringRef(0x42)")
}

#[test]
fn errors_and_numbers(rt: HostRuntime) {
    for errors in [NAMED, TOLD, IN_HEXADECIMAL] {
        for (error, text) in errors {
            assert!(rt; shows(rt.alloc(), error, text), "{text}");
        }
    }
    assert!(rt; is_fault(rt.alloc(), "IO error while reading PDB: the disk is gone"));
    for (number, text) in NUMBERS {
        assert!(rt; are_indexes(rt.alloc(), *number, text), "index {text}");
        assert!(rt; are_addresses(rt.alloc(), *number, text), "address {text}");
    }
    for (number, text) in STREAMS {
        let is_well = shows(rt.alloc(), &StreamIndex(*number), text);
        assert!(rt; is_well, "stream {text}");
    }
    for (number, text) in VARIANTS {
        assert!(rt; shows(rt.alloc(), number, text), "number {text}");
    }
    for (kind, text) in KINDS {
        assert!(rt; shows(rt.alloc(), kind, text), "kind {text}");
    }
    assert!(rt; shows(rt.alloc(), &StreamIndex::none(), "None"));
    assert!(rt; are_debugged(rt.alloc()));
}

/// Bytes, the text that they are, and whether it is owned, as where what is no UTF-8 is replaced.
const RAW: &[(&[u8], &str, bool)] = rows! {
    b"f\xffo", "f\u{fffd}o", true; b"foo", "foo", false; b"ab", "ab", false; b"", "", false;
};

/// Whether a name is read as this text, owned or borrowed, and shown as it.
fn is_shown(alloc: Global, name: &[u8], want: &[u8], is_owned: bool) -> bool {
    let name = RawString::from(name);
    let is_read = match name.to_string(alloc) {
        Ok(CowStr::Borrowed(text)) => !is_owned && text.as_bytes() == want,
        Ok(CowStr::Owned(text)) => is_owned && text.as_bytes() == want,
        Err(_) => false,
    };
    is_read && matches!(format!(in alloc; "{name}"), Ok(text) if text.as_bytes() == want)
}

/// Whether a name of 5,000 bytes is shown whole, and also with a last byte that is of no text.
fn are_long_names_shown(alloc: Global) -> pdb_base::Result<bool> {
    let mut name = vec![in alloc; b'n'; 5000]?;
    let is_whole = is_shown(alloc, &name, &name, false);
    name.truncate(4999);
    let mut text = Vec::from_slice(alloc, &name)?;
    text.extend_from_slice("\u{fffd}".as_bytes())?;
    name.push(0xff)?;
    Ok(is_whole && is_shown(alloc, &name, &text, true))
}

#[test]
fn names(rt: HostRuntime) -> Result<(), Fail> {
    for (bytes, text, is_owned) in RAW {
        let is_well = is_shown(rt.alloc(), bytes, text.as_bytes(), *is_owned);
        assert!(rt; is_well, "{text}");
    }
    assert!(rt; are_long_names_shown(rt.alloc())?);
    Ok(())
}
