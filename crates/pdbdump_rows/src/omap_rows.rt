//! Records of OMAP tables, field by field.

#![tactic(auto, using(crate::proofs::lemmas::Line::adding))]

ghost use Rattle.pdbdump_rows.specs.Line.{AddsRow, moved_from};

use crate::line::Line;
use crate::value::Value;
use pdb_space::OMAPRecord;

/// Adds the fields of a record of an OMAP table.
pub fn show_omap(line: &mut Line, mapping: OMAPRecord)
    ensures { AddsRow (moved_from mapping.source) line.old line.new }
{
    line.field(
        "source_address",
        Value::Hexadecimal(mapping.source_address()),
    );
    line.field(
        "target_address",
        Value::Hexadecimal(mapping.target_address()),
    );
}
