//! Whether types of two tables agree: whether they are alike, and the types within them agree.

ghost use Rattle.std.specs.Prelude.{◌≡◌, ◌++◌, IfOk, Ok};
ghost use Rattle.std.specs.Option.{option_map, option_to_list};
ghost use Rattle.pdb_base.specs.Answer.{Answers};
ghost use Rattle.pdb_values.specs.Array.{array_value};
ghost use Rattle.pdb_values.specs.TableShape.{table_shape_value};
ghost use Rattle.pdb_values.specs.TypeView.{type_value};
ghost use Rattle.pdb_types.specs.Agreement.{agree_along, are_alike, class_keyword, do_types_agree, have_one_name};
ghost use Rattle.pdb_types.specs.Agreement.{is_argument_list, is_array_like, is_bit_field_like, is_function_like};
ghost use Rattle.pdb_types.specs.Agreement.{is_method_like, is_modified_like, is_named_like, is_pointer_like};
ghost use Rattle.pdb_types.specs.Agreement.{is_shape_like, is_unnamed_like, keyword_of, most_read, next_pairs};
ghost use Rattle.pdb_types.specs.Agreement.{pairs_if, pairs_of, readable, types_within, with_pairs};
ghost use Rattle.pdb_types.specs.Declaration.{declaration_value};
ghost use Rattle.pdb_types.specs.TypeAt.{type_at};

use crate::declaration::{Declaration, declaration_of};
use crate::definitions::Definitions;
use crate::memory::AllocResult;
use crate::type_at::type_at;
use pdb_base::{Error, Result, TypeIndex};
use pdb_values::{
    ArrayType, BitfieldType, ClassKind, FIRST_RECORD, MemberFunctionType, ModifierType,
    PointerType, ProcedureType, TypeData, VirtualTableShapeType,
};
use std::alloc::Global;

/// For how many types a comparison reads more of those within them, at most.
const MOST_COUNTED: usize = 0x10_0000;

/// How many types are read at most for each that is compared, and how many more.
const READ_FOR_EACH: usize = 64;

const READ_FOR_ALL: usize = 4096;

/// A type of one table, and a type of another one with which it is compared.
#[derive(Clone, Copy)]
pub(crate) struct TypePair {
    /// The type of the first table.
    first: TypeIndex,

    /// The type of the second table.
    second: TypeIndex,
}

/// Two tables whose types are compared.
#[derive(Clone, Copy)]
pub(crate) struct Tables<'d, 'f, 's> {
    /// The first table.
    pub(crate) first: &'d Definitions<'f>,

    /// The second table.
    pub(crate) second: &'d Definitions<'s>,
}

/// Returns the keyword with which a class is declared.
fn class_keyword(kind: ClassKind) -> &'static [u8]
    ensures { result.now ≡ class_keyword kind }
{
    match kind {
        ClassKind::Class => b"class",
        ClassKind::Struct => b"struct",
        ClassKind::Interface => b"interface",
    }
}

/// Returns the keyword with which a class, a union or an enumeration is declared, or no text for
/// another type.
pub(crate) fn keyword_of(value: &TypeData<'_>) -> &'static [u8]
    ensures { result.now ≡ keyword_of (type_value value.now) }
{
    match value {
        TypeData::Class(class) => class_keyword(class.kind),
        TypeData::Union(_) => b"union",
        TypeData::Enumeration(_) => b"enum",
        _ => b"",
    }
}

/// Returns whether two types have one name: one unique name if both have such names, and else one
/// name.
fn have_one_name(one: &Declaration<'_>, other: &Declaration<'_>) -> bool
    ensures { result ≡ have_one_name (declaration_value one.now) (declaration_value other.now) }
{
    let is_named = one.name.as_bytes() == other.name.as_bytes();
    let Some(name) = one.unique_name else {
        return is_named;
    };
    let Some(other_name) = other.unique_name else {
        return is_named;
    };
    name.as_bytes() == other_name.as_bytes()
}

/// Returns whether a type is a pointer with these attributes.
fn is_pointer_like(pointer: &PointerType, value: &TypeData<'_>) -> bool
    ensures { result ≡ is_pointer_like pointer.now (type_value value.now) }
{
    match value {
        TypeData::Pointer(other) => pointer.attributes.bits() == other.attributes.bits(),
        _ => false,
    }
}

/// Returns whether a type is one with these modifiers.
fn is_modified_like(modifier: &ModifierType, value: &TypeData<'_>) -> bool
    ensures { result ≡ is_modified_like modifier.now (type_value value.now) }
{
    match value {
        TypeData::Modifier(other) => {
            modifier.constant == other.constant
                && modifier.volatile == other.volatile
                && modifier.unaligned == other.unaligned
        }
        _ => false,
    }
}

/// Returns whether a type is an array with these dimensions.
fn is_array_like(array: &ArrayType, value: &TypeData<'_>) -> bool
    ensures { result ≡ is_array_like (array_value array.now) (type_value value.now) }
{
    match value {
        TypeData::Array(other) => {
            array.stride == other.stride
                && array.dimensions.as_slice() == other.dimensions.as_slice()
        }
        _ => false,
    }
}

/// Returns whether a type is a bit field of these bits.
fn is_bit_field_like(field: &BitfieldType, value: &TypeData<'_>) -> bool
    ensures { result ≡ is_bit_field_like field.now (type_value value.now) }
{
    match value {
        TypeData::Bitfield(other) => {
            field.length == other.length && field.position == other.position
        }
        _ => false,
    }
}

/// Returns whether a type is that of a function that is called like this one.
fn is_function_like(function: &ProcedureType, value: &TypeData<'_>) -> bool
    ensures { result ≡ is_function_like function.now (type_value value.now) }
{
    match value {
        TypeData::Procedure(other) => function.attributes.bits() == other.attributes.bits(),
        _ => false,
    }
}

/// Returns whether a type is that of a method that is called like this one.
fn is_method_like(function: &MemberFunctionType, value: &TypeData<'_>) -> bool
    ensures { result ≡ is_method_like function.now (type_value value.now) }
{
    match value {
        TypeData::MemberFunction(other) => {
            function.attributes.bits() == other.attributes.bits()
                && function.this_adjustment == other.this_adjustment
        }
        _ => false,
    }
}

/// Returns whether a type is a list of arguments.
fn is_argument_list(value: &TypeData<'_>) -> bool
    ensures { result ≡ is_argument_list (type_value value.now) }
{
    match value {
        TypeData::ArgumentList(_) => true,
        _ => false,
    }
}

/// Returns whether a type is this shape of a table of virtual functions.
fn is_shape_like(shape: &VirtualTableShapeType<'_>, value: &TypeData<'_>) -> bool
    ensures { result ≡ is_shape_like (table_shape_value shape.now) (type_value value.now) }
{
    match value {
        TypeData::VirtualTableShape(other) => {
            shape.count == other.count && shape.descriptors == other.descriptors
        }
        _ => false,
    }
}

/// Returns whether a type is declared with this keyword and this name.
fn is_named_like(keyword: &[u8], name: &Declaration<'_>, value: &TypeData<'_>) -> bool
    ensures { result ≡ is_named_like keyword.now (declaration_value name.now) (type_value value.now) }
{
    match declaration_of(value) {
        Some(other) => keyword == keyword_of(value) && have_one_name(name, &other),
        None => false,
    }
}

/// Returns whether a type is like this one, which has no name.
fn is_unnamed_like(one: &TypeData<'_>, other: &TypeData<'_>) -> bool
    ensures { result ≡ is_unnamed_like (type_value one.now) (type_value other.now) }
{
    match one {
        TypeData::Pointer(pointer) => is_pointer_like(pointer, other),
        TypeData::Modifier(modifier) => is_modified_like(modifier, other),
        TypeData::Array(array) => is_array_like(array, other),
        TypeData::Bitfield(field) => is_bit_field_like(field, other),
        TypeData::Procedure(function) => is_function_like(function, other),
        TypeData::MemberFunction(function) => is_method_like(function, other),
        TypeData::ArgumentList(_) => is_argument_list(other),
        TypeData::VirtualTableShape(shape) => is_shape_like(shape, other),
        _ => false,
    }
}

/// Returns whether two types are alike, if the types within them are: of one kind, with one name or
/// with the same attributes.
#[tactic(auto, unfolding(crate::specs::Agreement::are_alike))]
fn are_alike(one: &TypeData<'_>, other: &TypeData<'_>) -> bool
    ensures { result ≡ are_alike (type_value one.now) (type_value other.now) }
{
    match declaration_of(one) {
        Some(name) => is_named_like(keyword_of(one), &name, other),
        None => is_unnamed_like(one, other),
    }
}

/// Returns a type, and another one behind it if there is one.
fn with_type(
    alloc: Global,
    types: &[TypeIndex],
    last: Option<TypeIndex>,
) -> AllocResult<Vec<TypeIndex>>
    ensures { IfOk result (λ all. all.items ≡ types.now ++ option_to_list last) }
{
    let mut all = Vec::from_slice(alloc, types)?;
    match last {
        Some(index) => {
            all.push(index)?;
            Ok(all)
        }
        None => Ok(all),
    }
}

/// Returns the types within a type: those by which it is made, and none for one with a name.
#[tactic(auto, unfolding(crate::specs::Agreement::types_within))]
fn types_within(alloc: Global, value: TypeData<'_>) -> AllocResult<Vec<TypeIndex>>
    ensures { IfOk result (λ types. types.items ≡ types_within (type_value value.entry)) }
{
    match value {
        TypeData::Pointer(pointer) => {
            with_type(alloc, &[pointer.underlying_type], pointer.containing_class)
        }
        TypeData::Modifier(modifier) => with_type(alloc, &[modifier.underlying_type], None),
        TypeData::Array(array) => with_type(alloc, &[array.element_type], None),
        TypeData::Bitfield(field) => with_type(alloc, &[field.underlying_type], None),
        TypeData::Procedure(function) => {
            with_type(alloc, &[function.argument_list], function.return_type)
        }
        TypeData::MemberFunction(function) => with_type(
            alloc,
            &[
                function.return_type,
                function.class_type,
                function.argument_list,
            ],
            function.this_pointer_type,
        ),
        TypeData::ArgumentList(list) => Ok(list.arguments),
        _ => Ok(Vec::new(alloc)),
    }
}

/// Appends the pairs of types of two lists, one by one, and returns whether these are of one
/// length; otherwise it appends none.
fn push_pairs(
    firsts: &[TypeIndex],
    seconds: &[TypeIndex],
    pairs: &mut Vec<TypePair>,
) -> AllocResult<bool>
    ensures { IfOk result (λ are. pairs_if are pairs.new.items
        ≡ with_pairs pairs.old.items (pairs_of firsts.now seconds.now)) }
{
    if firsts.len() != seconds.len() {
        return Ok(false);
    }
    for (place, first) in firsts.iter().enumerate() {
        pairs.push(TypePair {
            first: *first,
            second: seconds[place],
        })?;
    }
    Ok(true)
}

/// Returns how many pairs of types are read at most, with those within them, where so many are
/// compared.
fn most_read(count: usize) -> usize
    ensures { result ≡ most_read count }
{
    let counted = if count < MOST_COUNTED {
        count
    } else {
        MOST_COUNTED
    };
    counted * READ_FOR_EACH + READ_FOR_ALL
}

/// Returns the type of an index, or None if it can't be read.
fn readable_type<'t>(
    definitions: &Definitions<'t>,
    alloc: Global,
    index: TypeIndex,
) -> Result<Option<TypeData<'t>>>
    ensures { Answers (option_map type_value) result (Ok (readable (type_at definitions.now index.0))) }
{
    match type_at(definitions.types(), alloc, index) {
        Ok(value) => Ok(Some(value)),
        Err(Error::OutOfMemory) => Err(Error::OutOfMemory),
        Err(_) => Ok(None),
    }
}

impl<'d, 'f, 's> Tables<'d, 'f, 's> {
    /// Returns whether two types are alike, and appends the pairs of the types within them if they
    /// are.
    #[tactic(auto, unfolding(crate::specs::Agreement::next_pairs))]
    fn push_within(self, alloc: Global, pair: TypePair, pairs: &mut Vec<TypePair>) -> Result<bool>
        ensures { Answers (λ are. pairs_if are pairs.new.items) result
            (Ok (with_pairs pairs.old.items (next_pairs self.entry.first.now self.entry.second.now pair))) }
    {
        if pair.first.0 < FIRST_RECORD || pair.second.0 < FIRST_RECORD {
            return Ok(pair.first.0 == pair.second.0);
        }
        let Some(one) = readable_type(self.first, alloc, pair.first)? else {
            return Ok(false);
        };
        let Some(other) = readable_type(self.second, alloc, pair.second)? else {
            return Ok(false);
        };
        if !are_alike(&one, &other) {
            return Ok(false);
        }
        let firsts = types_within(alloc, one)?;
        let seconds = types_within(alloc, other)?;
        Ok(push_pairs(&firsts, &seconds, pairs)?)
    }

    /// Returns whether pairs of types agree, where at most so many pairs are read, with those of
    /// the types within them.
    fn agree_along(self, alloc: Global, pairs: Vec<TypePair>, most: usize) -> Result<bool>
        ensures { Answers (λ agree. agree) result
            (Ok (agree_along most self.entry.first.now self.entry.second.now pairs.items)) }
    {
        let mut pairs = pairs;
        for place in 0..most {
            if place >= pairs.len() {
                return Ok(true);
            }
            let pair = pairs[place];
            if !self.push_within(alloc, pair, &mut pairs)? {
                return Ok(false);
            }
            if pairs.len() > most {
                return Ok(false);
            }
        }
        Ok(pairs.len() <= most)
    }

    /// Returns whether the types of two lists agree, one by one.
    ///
    /// A primitive type agrees with itself alone. A class, a union or an enumeration agrees with one
    /// that has the same name and is declared with the same keyword, whether that is a forward
    /// reference or a definition. Other types agree if they are of one kind with the same
    /// attributes, such as pointers of one size or arrays of one length, and the types within them
    /// agree. A type that can't be read agrees with none.
    ///
    /// At most 64 pairs of types are read for each pair of the lists, and 4,096 more; if that isn't
    /// enough, the types don't agree.
    ///
    /// # Errors
    /// Fails only with `OutOfMemory`, if an allocation fails.
    #[tactic(auto, unfolding(crate::specs::Agreement::do_types_agree))]
    pub(crate) fn agree(
        self,
        alloc: Global,
        firsts: &[TypeIndex],
        seconds: &[TypeIndex],
    ) -> Result<bool>
        ensures { Answers (λ agree. agree) result
            (Ok (do_types_agree self.entry.first.now self.entry.second.now firsts.now seconds.now)) }
    {
        let mut pairs = Vec::new(alloc);
        if !push_pairs(firsts, seconds, &mut pairs)? {
            return Ok(false);
        }
        let most = most_read(pairs.len());
        self.agree_along(alloc, pairs, most)
    }
}
