//! The names of record kinds.

ghost use Rattle.std.specs.Prelude.{◌≡◌};
ghost use Rattle.std.specs.Option.{option_map};
ghost use Rattle.pdb_values.specs.LeafNames.{narrow_leafs, wide_leafs, later_leafs, leaf_text};
ghost use Rattle.pdb_values.specs.Primitive.{beside_number};

use crate::constants::*;

/// The name of the constant among the given ones that has this number, or None if none has it.
macro_rules! name_among {
    ($number:ident: $($name:ident)*) => {
        match $number {
            $($name => Some(stringify!($name)),)*
            _ => None,
        }
    };
}

/// Returns the name of a record kind whose records have indexes of 16 bits.
#[tactic(auto, unfolding(crate::specs::LeafNames::narrow_leafs))]
fn narrow_leaf(leaf: u16) -> Option<&'static str>
    ensures { option_map (λ name. name.now) result ≡ beside_number narrow_leafs leaf }
{
    name_among!(leaf:
        LF_MODIFIER_16t LF_POINTER_16t LF_ARRAY_16t LF_CLASS_16t LF_STRUCTURE_16t LF_UNION_16t
        LF_ENUM_16t LF_PROCEDURE_16t LF_MFUNCTION_16t LF_VTSHAPE LF_COBOL0_16t LF_COBOL1
        LF_BARRAY_16t LF_LABEL LF_NULL LF_NOTTRAN LF_DIMARRAY_16t LF_VFTPATH_16t LF_PRECOMP_16t
        LF_ENDPRECOMP LF_OEM_16t LF_TYPESERVER_ST LF_SKIP_16t LF_ARGLIST_16t LF_DEFARG_16t LF_LIST
        LF_FIELDLIST_16t LF_DERIVED_16t LF_BITFIELD_16t LF_METHODLIST_16t LF_DIMCONU_16t
        LF_DIMCONLU_16t LF_DIMVARU_16t LF_DIMVARLU_16t LF_REFSYM LF_BCLASS_16t LF_VBCLASS_16t
        LF_IVBCLASS_16t LF_ENUMERATE_ST LF_FRIENDFCN_16t LF_INDEX_16t LF_MEMBER_16t LF_STMEMBER_16t
        LF_METHOD_16t LF_NESTTYPE_16t LF_VFUNCTAB_16t LF_FRIENDCLS_16t LF_ONEMETHOD_16t
        LF_VFUNCOFF_16t
    )
}

/// Returns the name of a record kind with indexes of 32 bits and, if any, names that follow their
/// length.
#[tactic(auto, unfolding(crate::specs::LeafNames::wide_leafs))]
fn wide_leaf(leaf: u16) -> Option<&'static str>
    ensures { option_map (λ name. name.now) result ≡ beside_number wide_leafs leaf }
{
    name_among!(leaf:
        LF_MODIFIER LF_POINTER LF_ARRAY_ST LF_CLASS_ST LF_STRUCTURE_ST LF_UNION_ST LF_ENUM_ST
        LF_PROCEDURE LF_MFUNCTION LF_COBOL0 LF_BARRAY LF_DIMARRAY_ST LF_VFTPATH LF_PRECOMP_ST LF_OEM
        LF_ALIAS_ST LF_OEM2 LF_SKIP LF_ARGLIST LF_DEFARG_ST LF_FIELDLIST LF_DERIVED LF_BITFIELD
        LF_METHODLIST LF_DIMCONU LF_DIMCONLU LF_DIMVARU LF_DIMVARLU LF_BCLASS LF_VBCLASS LF_IVBCLASS
        LF_FRIENDFCN_ST LF_INDEX LF_MEMBER_ST LF_STMEMBER_ST LF_METHOD_ST LF_NESTTYPE_ST LF_VFUNCTAB
        LF_FRIENDCLS LF_ONEMETHOD_ST LF_VFUNCOFF LF_NESTTYPEEX_ST LF_MEMBERMODIFY_ST LF_MANAGED_ST
    )
}

/// Returns the name of a record kind whose names end at a NUL, or of an id.
#[tactic(auto, unfolding(crate::specs::LeafNames::later_leafs))]
fn later_leaf(leaf: u16) -> Option<&'static str>
    ensures { option_map (λ name. name.now) result ≡ beside_number later_leafs leaf }
{
    name_among!(leaf:
        LF_TYPESERVER LF_ENUMERATE LF_ARRAY LF_CLASS LF_STRUCTURE LF_UNION LF_ENUM LF_DIMARRAY
        LF_PRECOMP LF_ALIAS LF_DEFARG LF_FRIENDFCN LF_MEMBER LF_STMEMBER LF_METHOD LF_NESTTYPE
        LF_ONEMETHOD LF_NESTTYPEEX LF_MEMBERMODIFY LF_MANAGED LF_TYPESERVER2 LF_STRIDED_ARRAY
        LF_HLSL LF_MODIFIER_EX LF_INTERFACE LF_BINTERFACE LF_VECTOR LF_MATRIX LF_VFTABLE LF_FUNC_ID
        LF_MFUNC_ID LF_BUILDINFO LF_SUBSTR_LIST LF_STRING_ID LF_UDT_SRC_LINE LF_UDT_MOD_SRC_LINE
        LF_STRUCTURE19
    )
}

/// Returns the name of a record kind, such as `LF_STRUCTURE`, or None if Microsoft's cvinfo.h has
/// none of this number.
#[tactic(auto, unfolding(crate::specs::LeafNames::leaf_text))]
pub fn leaf_name(leaf: u16) -> Option<&'static str>
    ensures { option_map (λ name. name.now) result ≡ leaf_text leaf }
{
    narrow_leaf(leaf).or(wide_leaf(leaf)).or(later_leaf(leaf))
}
