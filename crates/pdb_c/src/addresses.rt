//! OMAP tables and address maps.

ghost use Rattle.std.specs.Prelude.{◌≡◌, map, Ok, Some};
ghost use Rattle.pdb_handles.specs.Addresses.{TellsMoved, TellsOrder, Translates, WritesMoved, WritesRangesOf};
ghost use Rattle.pdb_handles.specs.Addresses.{omap_info};
ghost use Rattle.pdb_handles.specs.Copied.{CopiesOrLacks, copied_of, nothing_copied};
ghost use Rattle.pdb_handles.specs.{Fault.not_open, File.addresses_said, File.omap_said, Found.AsksContent};
ghost use Rattle.pdb_handles.specs.{Found.not_held, Handle.OpensFrom, Handle.addresses_held, Handle.file_held};
ghost use Rattle.pdb_handles.specs.{Handle.omap_held};
ghost use Rattle.pdb_handles.specs.Kept.{HoldsFile, Keeps};

use pdb_handles::addresses::{
    OmapRow, Span, Translation, records_in, tell_order, translate, write_moved, write_ranges,
};
use pdb_handles::copied::copy_list;
use pdb_handles::file::{OpenFile, addresses_in, omap_in};
use pdb_handles::found::tell_found;
use pdb_handles::{Fault, Handle, UNMAPPED};
use std::alloc::Global;

/// Opens the OMAP table in a stream of a file.
#[unsafe(no_mangle)]
pub extern "C" fn pdb_omap_open(
    alloc: Global,
    file: &mut OpenFile<'_>,
    number: u32,
    omap: &mut Handle,
) -> u32
    ensures opens { OpensFrom (file_held file.old.handle.held.content)
        (λ layout. omap_said layout file.old.bytes.now number)
        omap.old.held.content omap.new.fault omap.new.held.content }
    ensures kept { HoldsFile file.old file.new }
    ensures status { result ≡ omap.new.fault.status }
{
    let bytes = file.bytes;
    open_from!(file, omap, alloc, layout => omap_in(alloc, layout, bytes, number))
}

/// Copies the records of a table, in their order, into the caller's array.
#[unsafe(no_mangle)]
pub extern "C" fn pdb_omap_records(
    alloc: Global,
    omap: &mut Handle,
    room: &mut [OmapRow],
    length: &mut usize,
) -> u32
    ensures answer { CopiesOrLacks (record { fault = omap.new.fault; length = length.new; room = room.new }) room.old
        (copied_of room.old (λ table. Ok (map omap_info table)) (omap_held omap.old.held.content)) }
    ensures kept { Keeps omap.old omap.new result }
{
    *length = 0;
    ask!(omap, alloc, Omap(table) => copy_list(records_in(alloc, table), room, length))
}

/// Writes 1 if no record of a table has a source below that of the record before it, and 0 if one
/// has.
#[unsafe(no_mangle)]
pub extern "C" fn pdb_omap_is_sorted(alloc: Global, omap: &mut Handle, is_sorted: &mut u32) -> u32
    ensures answer { AsksContent TellsOrder (not_held is_sorted.old) (omap_held omap.old.held.content)
        (record { fault = omap.new.fault; value = is_sorted.new }) }
    ensures kept { Keeps omap.old omap.new result }
{
    ask!(omap, alloc, Omap(table) => tell_order(table, is_sorted))
}

/// Looks up the address to which a table moves an address, and writes it.
#[unsafe(no_mangle)]
pub extern "C" fn pdb_omap_lookup(
    alloc: Global,
    omap: &mut Handle,
    address: u32,
    target: &mut u32,
) -> u32
    ensures answer { AsksContent (λ table told. TellsMoved table address target.old told) (not_held target.old)
        (omap_held omap.old.held.content) (record { fault = omap.new.fault; value = target.new }) }
    ensures kept { Keeps omap.old omap.new result }
{
    ask!(omap, alloc, Omap(table) => {
        tell_found(table.lookup(address), Fault::status(UNMAPPED), target)
    })
}

/// Writes the ranges to which an OMAP table moves the addresses of a range: one for each record
/// that moves some of them, in the order of the records. If the table isn't sorted by source, it
/// writes some ranges, none of them empty and at most one for each record.
#[unsafe(no_mangle)]
pub extern "C" fn pdb_omap_ranges(
    alloc: Global,
    omap: &mut Handle,
    start: u32,
    end: u32,
    room: &mut [Span],
    length: &mut usize,
) -> u32
    ensures answer { AsksContent (λ table. WritesMoved (Some table) (record { start = start; end = end }) room.old)
        (nothing_copied not_open room.old) (omap_held omap.old.held.content)
        (record { fault = omap.new.fault; length = length.new; room = room.new }) }
    ensures kept { Keeps omap.old omap.new result }
{
    *length = 0;
    ask!(omap, alloc, Omap(table) => write_moved(alloc, table, start..end, room, length))
}

/// Opens the address map of a file.
#[unsafe(no_mangle)]
pub extern "C" fn pdb_address_map_open(
    alloc: Global,
    file: &mut OpenFile<'_>,
    map: &mut Handle,
) -> u32
    ensures opens { OpensFrom (file_held file.old.handle.held.content) (λ layout. addresses_said file.old.bytes.now)
        map.old.held.content map.new.fault map.new.held.content }
    ensures kept { HoldsFile file.old file.new }
    ensures status { result ≡ map.new.fault.status }
{
    let bytes = file.bytes;
    open_from!(file, map, alloc, _ => addresses_in(alloc, bytes))
}

/// Writes the four forms of an address or a place. `form` is its own form, numbered as in
/// `pdb_address_form`.
#[unsafe(no_mangle)]
pub extern "C" fn pdb_translate(
    alloc: Global,
    map: &mut Handle,
    form: u32,
    section: u16,
    offset: u32,
    translation: &mut Translation,
) -> u32
    ensures answer { AsksContent (λ map. Translates map form
        (record { section = section; offset = offset }) translation.old)
        (not_held translation.old) (addresses_held map.old.held.content)
        (record { fault = map.new.fault; value = translation.new }) }
    ensures kept { Keeps map.old map.new result }
{
    ask!(map, alloc, Addresses(addresses) => {
        translate(addresses, form, section, offset, translation)
    })
}

/// Writes where the addresses of a range of one image lie in the other. `form` is that of the range,
/// numbered as in `pdb_address_form`.
#[unsafe(no_mangle)]
pub extern "C" fn pdb_address_ranges(
    alloc: Global,
    map: &mut Handle,
    form: u32,
    start: u32,
    end: u32,
    room: &mut [Span],
    length: &mut usize,
) -> u32
    ensures answer { AsksContent
        (λ map. WritesRangesOf map form (record { start = start; end = end }) room.old)
        (nothing_copied not_open room.old) (addresses_held map.old.held.content)
        (record { fault = map.new.fault; length = length.new; room = room.new }) }
    ensures kept { Keeps map.old map.new result }
{
    *length = 0;
    ask!(map, alloc, Addresses(addresses) => {
        write_ranges(alloc, addresses, form, start..end, room, length)
    })
}
