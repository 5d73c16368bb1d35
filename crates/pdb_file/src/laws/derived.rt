//! What `Default`, `==` and `clone` of each type say. The functions do nothing: each contract is a law.

ghost use Rattle.std.specs.Prelude.{◌≡◌, ◌↔◌, IsTrue};
ghost use Rattle.pdb_base.specs.Derived.{Copies, DefaultsTo, TellsApart};
ghost use Rattle.pdb_base.specs.Index.{no_stream};
ghost use Rattle.pdb_file.specs.StreamNames.{named_view};
ghost use Rattle.pdb_file.specs.declared.stream_names.StreamName.{StreamName};

use crate::dbi_header::DBIHeader;
use crate::debug_header::DBIExtraStreams;
use crate::features::Features;
use crate::stream_names::StreamName;

/// Headers are equal exactly if all fields are.
pub fn headers()
    ensures { TellsApart ⟦<DBIHeader as PartialEq>⟧.eq }
{}

/// No role has a stream by default. Roles are equal exactly if each has the same stream.
pub fn roles()
    ensures default { DefaultsTo ⟦<DBIExtraStreams as Default>⟧.is_default (record {
      fpo = record { 0 = no_stream };
      exception = record { 0 = no_stream };
      fixup = record { 0 = no_stream };
      omap_to_src = record { 0 = no_stream };
      omap_from_src = record { 0 = no_stream };
      section_headers = record { 0 = no_stream };
      token_rid_map = record { 0 = no_stream };
      xdata = record { 0 = no_stream };
      pdata = record { 0 = no_stream };
      framedata = record { 0 = no_stream };
      original_section_headers = record { 0 = no_stream };
    }) }
    ensures equal { TellsApart ⟦<DBIExtraStreams as PartialEq>⟧.eq }
{}

/// A named stream is equal to another exactly if its name has the same bytes and the stream is the
/// same.
pub fn named_streams()
    ensures { (a b : StreamName) →
        IsTrue (⟦<StreamName<'static> as PartialEq>⟧.eq a b) ↔ (named_view a ≡ named_view b) }
{}

/// Features are equal exactly if each of the four is told by both or by neither.
pub fn features()
    ensures { TellsApart ⟦<Features as PartialEq>⟧.eq }
{}

type Parts = (DBIHeader, DBIExtraStreams, StreamName<'static>, Features);

/// A clone is the value that was cloned, and cloning never fails. A law of a tuple is one of each
/// of its parts.
pub fn clones()
    ensures { Copies ⟦<Parts as Clone>⟧.is_clone ⟦<Parts as Clone>⟧.is_infallible }
{}
