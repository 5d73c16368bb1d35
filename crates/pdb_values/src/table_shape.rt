//! Shapes of tables of virtual functions.

/// The shape of a table of virtual functions: `lfVTShape` of Microsoft's cvinfo.h.
#[derive(Clone, Copy, Debug, PartialEq, Eq)]
pub struct VirtualTableShapeType<'t> {
    /// How many functions the table has.
    pub count: u16,

    /// The sort of pointer of each function, half a byte each, as in the record.
    pub descriptors: &'t [u8],
}
