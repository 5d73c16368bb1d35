//! What `==` and `clone` of each type say. The functions do nothing: each contract is a law.

ghost use Rattle.std.specs.Prelude.{◌≡◌, Decides};
ghost use Rattle.pdb_base.specs.Derived.{Copies};
ghost use Rattle.pdb_flags.specs.declared.field_attributes.FieldAttributes.{FieldAttributes};
ghost use Rattle.pdb_flags.specs.declared.function_attributes.FunctionAttributes.{FunctionAttributes};
ghost use Rattle.pdb_flags.specs.declared.pointer_attributes.PointerAttributes.{PointerAttributes};
ghost use Rattle.pdb_flags.specs.declared.pointer_kind.PointerKind.{PointerKind};
ghost use Rattle.pdb_flags.specs.declared.pointer_mode.PointerMode.{PointerMode};
ghost use Rattle.pdb_flags.specs.declared.type_properties.TypeProperties.{TypeProperties};

use crate::field_attributes::FieldAttributes;
use crate::function_attributes::FunctionAttributes;
use crate::pointer_attributes::PointerAttributes;
use crate::pointer_kind::PointerKind;
use crate::pointer_mode::PointerMode;
use crate::type_properties::TypeProperties;

/// Flag words are equal exactly if all of their bits are.
pub fn words()
    ensures fields { (a b : FieldAttributes) → Decides (⟦<FieldAttributes as PartialEq>⟧.eq a b) (a ≡ b) }
    ensures functions { (a b : FunctionAttributes) → Decides (⟦<FunctionAttributes as PartialEq>⟧.eq a b) (a ≡ b) }
    ensures pointers { (a b : PointerAttributes) → Decides (⟦<PointerAttributes as PartialEq>⟧.eq a b) (a ≡ b) }
    ensures types { (a b : TypeProperties) → Decides (⟦<TypeProperties as PartialEq>⟧.eq a b) (a ≡ b) }
{}

/// Kinds and modes of pointers are equal exactly if they are the same.
pub fn kinds_and_modes()
    ensures kinds { (a b : PointerKind) → Decides (⟦<PointerKind as PartialEq>⟧.eq a b) (a ≡ b) }
    ensures modes { (a b : PointerMode) → Decides (⟦<PointerMode as PartialEq>⟧.eq a b) (a ≡ b) }
{}

type Flags = (
    FieldAttributes,
    FunctionAttributes,
    PointerAttributes,
    TypeProperties,
    PointerKind,
    PointerMode,
);

/// A clone is the value that was cloned, and cloning never fails. A law of a tuple is one of each
/// of its parts.
pub fn clones()
    ensures { Copies ⟦<Flags as Clone>⟧.is_clone ⟦<Flags as Clone>⟧.is_infallible }
{}
