//! The values of type records and id records: structs and enums with the fields of the records,
//! which borrow their names from the records' bytes; and the numbers and names of record kinds. The
//! records are those of Microsoft's cvinfo.h.
#![tactic(auto)]

mod array;
mod base_class;
mod bitfield;
mod class;
pub mod constants;
mod enumeration;
mod field_list;
mod function;
mod function_id;
mod id_data;
pub mod laws;
mod leaf_names;
mod list_id;
mod member;
mod method;
mod modifier;
mod pointer;
mod primitive;
mod source_id;
mod table_shape;
mod type_data;
mod union_type;

pub use array::ArrayType;
pub use base_class::{BaseClassType, VirtualBaseClassType, VirtualFunctionTablePointerType};
pub use bitfield::BitfieldType;
pub use class::{ClassKind, ClassType};
pub use enumeration::{EnumerateType, EnumerationType};
pub use field_list::FieldList;
pub use function::{ArgumentList, MemberFunctionType, ProcedureType};
pub use function_id::{FunctionId, MemberFunctionId};
pub use id_data::IdData;
pub use leaf_names::leaf_name;
pub use list_id::{BuildInfoId, StringId, StringListId};
pub use member::{MemberType, NestedType, StaticMemberType};
pub use method::{MethodList, MethodListEntry, MethodType, OverloadedMethodType};
pub use modifier::ModifierType;
pub use pointer::PointerType;
pub use primitive::{
    FIRST_RECORD, Indirection, PrimitiveKind, PrimitiveType, type_data_for_primitive,
};
pub use source_id::{UserDefinedTypeSourceFileRef, UserDefinedTypeSourceId};
pub use table_shape::VirtualTableShapeType;
pub use type_data::TypeData;
pub use union_type::UnionType;
