//! Shapes of tables of virtual functions.

ghost use Rattle.pdb_base.specs.Answer.{Gives};
ghost use Rattle.pdb_base.specs.Place.{left};
ghost use Rattle.pdb_values.specs.TypeView.{type_value};
ghost use Rattle.pdb_records.specs.Records.{plain_at};
ghost use Rattle.pdb_records.specs.Rows.{table_shape_row};

use pdb_base::{ParseBuffer, Result};
use pdb_values::{TypeData, VirtualTableShapeType};

/// Reads the shape of a table of virtual functions. Its descriptors borrow from the bytes.
#[tactic(auto, unfolding(crate::specs::Row::row, crate::specs::Rows::table_shape_row))]
pub(crate) fn parse_table_shape<'t>(buffer: &mut ParseBuffer<'t>) -> Result<TypeData<'t>>
    ensures { Gives (λ t. (type_value t, left buffer.new)) result (plain_at table_shape_row (left buffer.old)) }
{
    let count = buffer.parse_u16()?;
    let descriptors = buffer.take((count as usize + 1) / 2)?;
    Ok(TypeData::VirtualTableShape(VirtualTableShapeType { count, descriptors }))
}
