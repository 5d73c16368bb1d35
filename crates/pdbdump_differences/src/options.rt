//! How tables are compared.

use pdbdump_rows::Form;

/// Which differences count, and how they are shown.
#[derive(Clone, Copy)]
pub struct DiffOptions {
    /// Whether only those of sizes, offsets, bits and names count, and not those of types alone.
    pub is_layout_only: bool,

    /// Whether they are shown as text or as JSON.
    pub form: Form,
}
