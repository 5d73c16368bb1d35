//! What the definitions of lines come to. The functions do nothing: each contract is a law.

ghost use Rattle.std.specs.Prelude.{◌≡◌, ℕ, All, List};
ghost use Rattle.pdbdump_rows.specs.declared.form.Form.{Form};
ghost use Rattle.pdbdump_rows.specs.Laws.{HasNoneHidden, HasSmallNumbers, IsLine, IsObjectLine, IsString};
ghost use Rattle.pdbdump_rows.specs.Line.{all_shown, begun, begun_full, line_bytes};
ghost use Rattle.pdbdump_rows.specs.Lines.{field_line, full_text, row_text};
ghost use Rattle.pdbdump_rows.specs.Row.{ShownField, ShownRow};
ghost use Rattle.pdbdump_rows.specs.Text.{in_quotes, shown_text};

/// A record is one line in either form, and so is a field alone, whatever bytes names hold: no byte
/// below 0x20 stands in it but the line feed at its end.
#[tactic(auto, using(crate::proofs::LineLaws::row_is_line, crate::proofs::LineLaws::field_is_line))]
pub fn lines()
    ensures rows { (form : Form) (row : ShownRow) → IsLine (row_text form row) }
    ensures fields { (field : ShownField) → IsLine (field_line field) }
{}

/// What is written field by field is the one line of its fields, or in full a line for each.
#[tactic(auto, using(crate::proofs::lemmas::Line::line_is, crate::proofs::lemmas::Line::full_is))]
pub fn line_is_its_fields()
    ensures lines { (form : Form) (row : ShownRow) → line_bytes (all_shown (begun form) row) ≡ row_text form row }
    ensures full { (form : Form) (row : ShownRow) → line_bytes (all_shown (begun_full form) row) ≡ full_text form row }
{}

/// What is written of a text is characters that a reader of a line sees as such: no control, no mark
/// of direction and no space of no width, whatever bytes the text holds.
#[tactic(auto, using(crate::proofs::ShownLaws::text_is_shown))]
pub fn texts()
    ensures { (form : Form) (bytes : List ℕ) → HasNoneHidden (shown_text form bytes) }
{}

/// A text in JSON is a string of RFC 8259, whatever bytes it holds.
#[tactic(auto, using(crate::proofs::StringLaws::text_is_string))]
pub fn strings()
    ensures { (bytes : List ℕ) → IsString (in_quotes Form.Json bytes) }
{}

/// A record in JSON is one object of RFC 8259, if its numbers have 64 bits, as those of `Value` have.
#[tactic(auto, using(crate::proofs::ObjectLaws::row_is_object))]
pub fn objects()
    ensures { (row : ShownRow) → All HasSmallNumbers row → IsObjectLine (row_text Form.Json row) }
{}
