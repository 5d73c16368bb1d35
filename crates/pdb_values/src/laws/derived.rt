//! What `==` and `clone` of each type say. The functions do nothing, or call other laws: each contract
//! is a law.

ghost use Rattle.pdb_base.specs.Derived.{Copies, TellsApart};
ghost use Rattle.pdb_values.specs.Array.{array_value};
ghost use Rattle.pdb_values.specs.Class.{class_value};
ghost use Rattle.pdb_values.specs.Derived.{TellsApartBy};
ghost use Rattle.pdb_values.specs.Enumeration.{enumeration_value, enumerate_value};
ghost use Rattle.pdb_values.specs.Function.{argument_types};
ghost use Rattle.pdb_values.specs.IdValue.{function_value, member_function_value, string_value};
ghost use Rattle.pdb_values.specs.IdValue.{build_arguments, id_value, text_parts};
ghost use Rattle.pdb_values.specs.Member.{member_value, nested_value, static_member_value};
ghost use Rattle.pdb_values.specs.Method.{listed_methods, method_value, overloaded_method_value};
ghost use Rattle.pdb_values.specs.TableShape.{table_shape_value};
ghost use Rattle.pdb_values.specs.Union.{union_value};

use crate::array::ArrayType;
use crate::base_class::{BaseClassType, VirtualBaseClassType, VirtualFunctionTablePointerType};
use crate::bitfield::BitfieldType;
use crate::class::{ClassKind, ClassType};
use crate::enumeration::{EnumerateType, EnumerationType};
use crate::function::{ArgumentList, MemberFunctionType, ProcedureType};
use crate::function_id::{FunctionId, MemberFunctionId};
use crate::id_data::IdData;
use crate::list_id::{BuildInfoId, StringId, StringListId};
use crate::member::{MemberType, NestedType, StaticMemberType};
use crate::method::{MethodList, MethodListEntry, MethodType, OverloadedMethodType};
use crate::modifier::ModifierType;
use crate::pointer::PointerType;
use crate::primitive::{Indirection, PrimitiveKind, PrimitiveType};
use crate::source_id::{UserDefinedTypeSourceFileRef, UserDefinedTypeSourceId};
use crate::table_shape::VirtualTableShapeType;
use crate::union_type::UnionType;

/// Primitive types are equal if and only if both their kinds and their indirections are.
pub fn primitives()
    ensures kinds { TellsApart ⟦<PrimitiveKind as PartialEq>⟧.eq }
    ensures indirections { TellsApart ⟦<Indirection as PartialEq>⟧.eq }
    ensures types { TellsApart ⟦<PrimitiveType as PartialEq>⟧.eq }
{}

/// Types without a name are equal if and only if all their fields are.
pub fn unnamed_types()
    ensures pointers { TellsApart ⟦<PointerType as PartialEq>⟧.eq }
    ensures modifiers { TellsApart ⟦<ModifierType as PartialEq>⟧.eq }
    ensures bitfields { TellsApart ⟦<BitfieldType as PartialEq>⟧.eq }
    ensures procedures { TellsApart ⟦<ProcedureType as PartialEq>⟧.eq }
    ensures member_functions { TellsApart ⟦<MemberFunctionType as PartialEq>⟧.eq }
{}

/// Parts of a class without a name are equal if and only if all their fields are.
pub fn unnamed_parts()
    ensures kinds { TellsApart ⟦<ClassKind as PartialEq>⟧.eq }
    ensures bases { TellsApart ⟦<BaseClassType as PartialEq>⟧.eq }
    ensures virtual_bases { TellsApart ⟦<VirtualBaseClassType as PartialEq>⟧.eq }
    ensures tables { TellsApart ⟦<VirtualFunctionTablePointerType as PartialEq>⟧.eq }
    ensures methods { TellsApart ⟦<MethodListEntry as PartialEq>⟧.eq }
{}

/// Types with a name are equal if and only if all their fields are. Names are compared by their
/// bytes.
pub fn named_types()
    ensures classes { TellsApartBy class_value ⟦<ClassType<'static> as PartialEq>⟧.eq }
    ensures unions { TellsApartBy union_value ⟦<UnionType<'static> as PartialEq>⟧.eq }
    ensures enumerations { TellsApartBy enumeration_value ⟦<EnumerationType<'static> as PartialEq>⟧.eq }
{}

/// Parts of a class or an enumeration with a name are equal if and only if all their fields are.
/// Names are compared by their bytes.
pub fn named_parts()
    ensures members { TellsApartBy member_value ⟦<MemberType<'static> as PartialEq>⟧.eq }
    ensures static_members { TellsApartBy static_member_value ⟦<StaticMemberType<'static> as PartialEq>⟧.eq }
    ensures nested { TellsApartBy nested_value ⟦<NestedType<'static> as PartialEq>⟧.eq }
    ensures methods { TellsApartBy method_value ⟦<MethodType<'static> as PartialEq>⟧.eq }
    ensures overloaded_methods { TellsApartBy
        overloaded_method_value
        ⟦<OverloadedMethodType<'static> as PartialEq>⟧.eq }
    ensures enumerates { TellsApartBy enumerate_value ⟦<EnumerateType<'static> as PartialEq>⟧.eq }
{}

/// Ids that hold no list are equal if and only if all their fields are. Names are compared by their
/// bytes.
pub fn ids()
    ensures functions { TellsApartBy function_value ⟦<FunctionId<'static> as PartialEq>⟧.eq }
    ensures member_functions { TellsApartBy member_function_value ⟦<MemberFunctionId<'static> as PartialEq>⟧.eq }
    ensures texts { TellsApartBy string_value ⟦<StringId<'static> as PartialEq>⟧.eq }
    ensures sources { TellsApart ⟦<UserDefinedTypeSourceId as PartialEq>⟧.eq }
    ensures files { TellsApart ⟦<UserDefinedTypeSourceFileRef as PartialEq>⟧.eq }
{}

/// Values with a list, owned or borrowed, are equal if and only if all their fields are, and lists
/// are compared item by item.
#[tactic(auto, using(crate::proofs::lemmas::Derived::lists))]
pub fn lists()
    ensures arrays { TellsApartBy array_value ⟦<ArrayType as PartialEq>⟧.eq }
    ensures arguments { TellsApartBy argument_types ⟦<ArgumentList as PartialEq>⟧.eq }
    ensures methods { TellsApartBy listed_methods ⟦<MethodList as PartialEq>⟧.eq }
    ensures build_infos { TellsApartBy build_arguments ⟦<BuildInfoId as PartialEq>⟧.eq }
    ensures texts { TellsApartBy text_parts ⟦<StringListId as PartialEq>⟧.eq }
    ensures shapes { TellsApartBy table_shape_value ⟦<VirtualTableShapeType<'static> as PartialEq>⟧.eq }
{}

type Types = (
    PrimitiveKind,
    Indirection,
    PrimitiveType,
    PointerType,
    ModifierType,
    BitfieldType,
    ProcedureType,
    MemberFunctionType,
    ClassType<'static>,
    UnionType<'static>,
    EnumerationType<'static>,
    VirtualTableShapeType<'static>,
);

type Parts = (
    ClassKind,
    BaseClassType,
    VirtualBaseClassType,
    VirtualFunctionTablePointerType,
    MethodListEntry,
    MemberType<'static>,
    StaticMemberType<'static>,
    NestedType<'static>,
    MethodType<'static>,
    OverloadedMethodType<'static>,
    EnumerateType<'static>,
);

type Ids = (
    FunctionId<'static>,
    MemberFunctionId<'static>,
    StringId<'static>,
    UserDefinedTypeSourceId,
    UserDefinedTypeSourceFileRef,
);

/// A clone is the value that was cloned, and cloning never fails. A law of a tuple is one of each
/// of its parts.
pub fn clones()
    ensures types { Copies ⟦<Types as Clone>⟧.is_clone ⟦<Types as Clone>⟧.is_infallible }
    ensures parts { Copies ⟦<Parts as Clone>⟧.is_clone ⟦<Parts as Clone>⟧.is_infallible }
    ensures ids { Copies ⟦<Ids as Clone>⟧.is_clone ⟦<Ids as Clone>⟧.is_infallible }
{}

/// Ids are equal if and only if they are of one kind and all their fields are.
pub fn id_data()
    ensures { TellsApartBy id_value ⟦<IdData<'static> as PartialEq>⟧.eq }
{
    ids();
    lists();
}
