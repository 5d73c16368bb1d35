//! The text of types as C++ declares them.

ghost use Rattle.std.specs.Prelude.{◌≡◌, ◌-◌, ◌≤◌, ◌++◌, IfOk, take};
ghost use Rattle.pdb_types.specs.Text.{FailsAsTable, IsShownText, is_left_out, most_shown, points, shown_bytes};

use crate::budget::{Budget, MOST_BYTES, Naming};
use crate::convention::{convention_word, is_convention_known, method_convention};
use crate::declaration::declaration_of;
use crate::declarator::Declarator;
use crate::definitions::Definitions;
use crate::kind_name::kind_name;
use crate::marked_text::common_name;
use crate::memory::AllocResult;
use crate::qualifiers::Qualifiers;
use crate::type_at::type_at;
use itoa::Buffer;
use pdb_base::{Result, TypeIndex};
use pdb_flags::PointerMode;
use pdb_values::{ArrayType, PointerType, PrimitiveKind, PrimitiveType, TypeData};
use std::alloc::Global;

/// The index of no type, which in a list of arguments means any further arguments.
const ANY_ARGUMENTS: u32 = 0;

/// How deep the arguments of functions may be nested.
pub(crate) const MOST_DEPTH: u32 = 16;

/// How many types a text reads at most of which each is within the one before, such as that of what
/// a pointer points to.
const MOST_WITHIN: u32 = 32;

/// The text of a type or of a declaration.
#[derive(Debug, Drop)]
pub struct TypeText {
    /// The text, with the names as the file has them.
    pub bytes: Vec<u8>,

    /// Whether it is cut: it then ends with `..`.
    pub is_cut: bool,
}

/// Returns how many bytes a text has at most where so many are asked for: no more than any text, and
/// as many as the points behind what is left out.
fn most_shown(asked: usize) -> usize
    ensures { result ≡ most_shown asked }
{
    asked.min(MOST_BYTES).max(2)
}

/// Returns whether something of a text is left out: a part of it was, or it is too long.
fn is_left_out(most: usize, text: &[u8], is_cut: bool) -> bool
    ensures { result ≡ is_left_out most text.now is_cut }
{
    is_cut || text.len() > most
}

/// Returns the front of a text, with two points behind it.
fn front_of(most: usize, text: Vec<u8>) -> AllocResult<Vec<u8>>
    requires { 2 ≤ most }
    ensures { IfOk result (λ front. front.items ≡ take (most - 2) text.items ++ points) }
{
    let mut front = text;
    front.truncate(most - 2);
    front.extend_from_slice(b"..")?;
    Ok(front)
}

/// Returns a text as it is shown: cut if something of it is left out.
#[tactic(auto, using(crate::proofs::TextLemmas::shown_is, crate::proofs::TextLemmas::cut_is))]
fn shown(most: usize, text: Vec<u8>, is_cut: bool) -> AllocResult<TypeText>
    requires { 2 ≤ most }
    ensures bytes { IfOk result (λ shown. shown.bytes.items ≡ shown_bytes most text.items is_cut) }
    ensures cut { IfOk result (λ shown. shown.is_cut ≡ is_left_out most text.items is_cut) }
    ensures shown { IfOk result (IsShownText most) }
{
    if is_left_out(most, &text, is_cut) {
        let bytes = front_of(most, text)?;
        Ok(TypeText {
            bytes,
            is_cut: true,
        })
    } else {
        Ok(TypeText {
            bytes: text,
            is_cut: false,
        })
    }
}

/// Returns the sign of a pointer or a reference, which C doesn't tell apart.
fn sign_of(mode: PointerMode, naming: Naming) -> &'static str {
    match mode {
        _ if naming == Naming::Marked => "*",
        PointerMode::LValueReference => "&",
        PointerMode::RValueReference => "&&",
        PointerMode::Pointer | PointerMode::Member | PointerMode::MemberFunction => "*",
    }
}

/// Returns how many parts of a size are in another one, in brackets, or empty brackets if the size
/// is 0.
fn brackets_of(alloc: Global, part: u64, whole: u64) -> AllocResult<Vec<u8>> {
    let mut brackets = Vec::from_slice(alloc, "[".as_bytes())?;
    if part > 0 {
        let mut buffer = Buffer::new();
        brackets.extend_from_slice(buffer.format(whole / part).as_bytes())?;
    }
    brackets.push(b']')?;
    Ok(brackets)
}

/// Puts the brackets of an array behind a declarator, whose elements have a size.
fn push_dimensions(
    alloc: Global,
    dimensions: &[u32],
    element: u64,
    declarator: &mut Declarator,
) -> AllocResult<()> {
    let mut part = element;
    let mut all = Vec::new(alloc);
    for dimension in dimensions {
        let whole = *dimension as u64;
        let mut brackets = brackets_of(alloc, part, whole)?;
        brackets.extend_from_slice(&all)?;
        all = brackets;
        part = whole;
    }
    declarator.push_brackets(alloc, "", &all)
}

/// Puts the width of a bit field behind a declarator, which is empty if the field has no name.
fn push_width(width: u8, declarator: &mut Declarator) -> AllocResult<()> {
    let mut buffer = Buffer::new();
    let sign: &[u8] = if declarator.is_empty() { b": " } else { b" : " };
    declarator.push_behind(sign)?;
    declarator.push_behind(buffer.format(width).as_bytes())
}

/// Returns the type within a type, such as that of what a pointer points to.
fn next_of(value: &TypeData<'_>) -> Option<TypeIndex> {
    match value {
        TypeData::Modifier(modifier) => Some(modifier.underlying_type),
        TypeData::Pointer(pointer) => Some(pointer.underlying_type),
        TypeData::Array(array) => Some(array.element_type),
        TypeData::Procedure(function) => function.return_type,
        TypeData::MemberFunction(function) => Some(function.return_type),
        TypeData::Bitfield(field) => Some(field.underlying_type),
        _ => None,
    }
}

/// Returns what stands for any further arguments behind those that a text has. In C it is nothing
/// where there is no argument before.
fn any_arguments(text: &[u8], budget: &Budget) -> &'static [u8] {
    if budget.is_marked() && text.len() <= 1 {
        return b"";
    }
    b"..."
}

/// Returns the list of the arguments of a function.
fn arguments_of(value: &TypeData<'_>) -> Option<TypeIndex> {
    match value {
        TypeData::Procedure(function) => Some(function.argument_list),
        TypeData::MemberFunction(function) => Some(function.argument_list),
        _ => None,
    }
}

/// Returns the name of a primitive type. A text with marks is cut where C has none.
fn primitive_name(kind: PrimitiveKind, budget: &mut Budget) -> &'static str {
    match common_name(kind) {
        Some(name) if budget.is_marked() => name,
        Some(_) => kind_name(kind),
        None => {
            budget.take_only_cpp(&[]);
            kind_name(kind)
        }
    }
}

/// Returns the declaration of a primitive type.
fn primitive_text(
    alloc: Global,
    primitive: PrimitiveType,
    qualifiers: Qualifiers,
    declarator: &Declarator,
    budget: &mut Budget,
) -> AllocResult<Vec<u8>> {
    let name = primitive_name(primitive.kind, budget).as_bytes();
    if primitive.indirection.is_none() {
        return declarator.declaration(alloc, qualifiers, name);
    }
    let pointer = declarator.pointer(alloc, "*".as_bytes(), qualifiers)?;
    pointer.declaration(alloc, Qualifiers::none(), name)
}

/// Returns the name of a type that has none of its own: no text for a function that states no type
/// that it returns, such as a constructor.
fn other_name(value: &TypeData<'_>) -> &'static str {
    match value {
        TypeData::Procedure(_) => "",
        _ => "<no type>",
    }
}

/// Returns the declaration of a type that no other type is within.
fn last_text(
    alloc: Global,
    index: TypeIndex,
    value: &TypeData<'_>,
    qualifiers: Qualifiers,
    declarator: &Declarator,
    budget: &mut Budget,
) -> AllocResult<Vec<u8>> {
    if let TypeData::Primitive(primitive) = value {
        return primitive_text(alloc, *primitive, qualifiers, declarator, budget);
    }
    match declaration_of(value) {
        Some(names) => {
            let name = budget.take_class(alloc, index, names.name.as_bytes())?;
            declarator.declaration(alloc, qualifiers, &name)
        }
        None => {
            let name = budget.take_only_cpp(other_name(value).as_bytes());
            declarator.declaration(alloc, qualifiers, name)
        }
    }
}

impl<'t> Definitions<'t> {
    /// Returns the name of a class, a union or an enumeration.
    fn class_name(&self, alloc: Global, index: TypeIndex) -> Result<&'t [u8]>
        ensures { FailsAsTable self.now result }
    {
        let value = type_at(self.types(), alloc, index)?;
        match declaration_of(&value) {
            Some(names) => Ok(names.name.as_bytes()),
            None => Ok("<no class>".as_bytes()),
        }
    }

    /// Puts the sign of a pointer before a declarator.
    fn push_pointer(
        &self,
        alloc: Global,
        pointer: PointerType,
        qualifiers: Qualifiers,
        declarator: &mut Declarator,
        budget: &mut Budget,
    ) -> Result<()>
        ensures { FailsAsTable self.now result }
    {
        let mut sign = Vec::new(alloc);
        if let Some(class) = pointer.containing_class {
            let name = self.class_name(alloc, class)?;
            sign.extend_from_slice(budget.take(name))?;
            sign.extend_from_slice(budget.take_only_cpp("::".as_bytes()))?;
        }
        sign.extend_from_slice(sign_of(
            pointer.attributes.pointer_mode(),
            budget.naming,
        ).as_bytes())?;
        let qualifiers = qualifiers.with_pointer(pointer.attributes);
        *declarator = declarator.pointer(alloc, &sign, qualifiers)?;
        Ok(())
    }

    /// Puts the brackets of an array behind a declarator.
    fn push_array(
        &self,
        alloc: Global,
        array: &ArrayType,
        declarator: &mut Declarator,
    ) -> Result<()>
        ensures { FailsAsTable self.now result }
    {
        let size = self.size_of(alloc, array.element_type)?;
        push_dimensions(alloc, &array.dimensions, size.unwrap_or(0), declarator)?;
        Ok(())
    }

    /// Puts the qualifiers of the object of a method behind a declarator.
    fn push_object(
        &self,
        alloc: Global,
        this: Option<TypeIndex>,
        declarator: &mut Declarator,
    ) -> Result<()>
        ensures { FailsAsTable self.now result }
    {
        let Some(this) = this else {
            return Ok(());
        };
        let TypeData::Pointer(pointer) = type_at(self.types(), alloc, this)? else {
            return Ok(());
        };
        let TypeData::Modifier(modifier) = type_at(self.types(), alloc, pointer.underlying_type)?
        else {
            return Ok(());
        };
        let mut suffix = Vec::from_slice(alloc, " ".as_bytes())?;
        Qualifiers::none()
            .with_modifier(modifier)
            .push_to(&mut suffix)?;
        suffix.pop();
        declarator.push_behind(&suffix)?;
        Ok(())
    }

    /// Returns how many bytes a pointer to the object of a method has.
    fn object_pointer_size(&self, alloc: Global, this: TypeIndex) -> Result<u8>
        ensures { FailsAsTable self.now result }
    {
        let TypeData::Pointer(pointer) = type_at(self.types(), alloc, this)? else {
            return Ok(0);
        };
        Ok(pointer.attributes.size())
    }

    /// Returns how compilers spell the calling convention of a function, if it isn't the default
    /// one.
    fn convention(
        &self,
        alloc: Global,
        value: &TypeData<'t>,
        budget: &mut Budget,
    ) -> Result<&'static str>
        ensures { FailsAsTable self.now result }
    {
        match value {
            TypeData::Procedure(function) => {
                let number = function.attributes.calling_convention();
                if !is_convention_known(number) {
                    budget.take_only_cpp(&[]);
                }
                Ok(convention_word(number))
            }
            TypeData::MemberFunction(function) => {
                let number = function.attributes.calling_convention();
                match function.this_pointer_type {
                    Some(this) => {
                        let size = self.object_pointer_size(alloc, this)?;
                        Ok(method_convention(number, size))
                    }
                    None => Ok(convention_word(number)),
                }
            }
            _ => Ok(""),
        }
    }

    /// Puts what a type says of the name around a declarator, and returns the qualifiers of the
    /// type within.
    fn push_part(
        &self,
        alloc: Global,
        value: &TypeData<'t>,
        qualifiers: Qualifiers,
        declarator: &mut Declarator,
        budget: &mut Budget,
    ) -> Result<Qualifiers>
        ensures { FailsAsTable self.now result }
    {
        match value {
            TypeData::Modifier(modifier) => Ok(qualifiers.with_modifier(*modifier)),
            TypeData::Pointer(pointer) => {
                self.push_pointer(alloc, *pointer, qualifiers, declarator, budget)?;
                Ok(Qualifiers::none())
            }
            TypeData::Array(array) => {
                self.push_array(alloc, array, declarator)?;
                Ok(qualifiers)
            }
            TypeData::Bitfield(field) => {
                push_width(field.length, declarator)?;
                Ok(qualifiers)
            }
            TypeData::MemberFunction(function) => {
                budget.take_only_cpp(&[]);
                self.push_object(alloc, function.this_pointer_type, declarator)?;
                Ok(qualifiers)
            }
            _ => Ok(qualifiers),
        }
    }

    /// Returns the types of the arguments of a function.
    fn arguments(&self, alloc: Global, list: TypeIndex) -> Result<Vec<TypeIndex>>
        ensures { FailsAsTable self.now result }
    {
        match type_at(self.types(), alloc, list)? {
            TypeData::ArgumentList(list) => Ok(list.arguments),
            _ => Ok(Vec::new(alloc)),
        }
    }

    /// Returns the arguments of a function in parentheses.
    #[cycle(text)]
    fn arguments_text(
        &self,
        alloc: Global,
        list: TypeIndex,
        depth: u32,
        budget: &mut Budget,
    ) -> Result<Vec<u8>>
        ensures { FailsAsTable self.now result }
    {
        let mut text = Vec::from_slice(alloc, "(".as_bytes())?;
        if depth == 0 {
            budget.is_cut = true;
            text.extend_from_slice("..)".as_bytes())?;
            return Ok(text);
        }
        let arguments = self.arguments(alloc, list)?;
        for argument in &arguments {
            if text.len() > 1 {
                text.extend_from_slice(", ".as_bytes())?;
            }
            if budget.is_spent() {
                budget.is_cut = true;
                text.extend_from_slice("..".as_bytes())?;
                break;
            }
            if argument.0 == ANY_ARGUMENTS {
                text.extend_from_slice(any_arguments(&text, budget))?;
                continue;
            }
            let declared = self.declare(alloc, *argument, &[], depth - 1, budget)?;
            text.extend_from_slice(&declared)?;
        }
        text.push(b')')?;
        Ok(text)
    }

    /// Returns the declaration of a name that has a type, within what may yet be read.
    #[cycle(text)]
    pub(crate) fn declare(
        &self,
        alloc: Global,
        index: TypeIndex,
        name: &[u8],
        depth: u32,
        budget: &mut Budget,
    ) -> Result<Vec<u8>>
        ensures { FailsAsTable self.now result }
    {
        let mut index = index;
        let mut qualifiers = Qualifiers::none();
        let mut declarator = Declarator::of(alloc, name)?;
        for _ in 0..MOST_WITHIN {
            if budget.types == 0 {
                break;
            }
            budget.types -= 1;
            let value = type_at(self.types(), alloc, index)?;
            if let Some(list) = arguments_of(&value) {
                let convention = self.convention(alloc, &value, budget)?;
                let arguments = self.arguments_text(alloc, list, depth, budget)?;
                declarator.push_brackets(alloc, convention, &arguments)?;
            }
            qualifiers = self.push_part(alloc, &value, qualifiers, &mut declarator, budget)?;
            match next_of(&value) {
                Some(next) => index = next,
                None => return Ok(last_text(
                    alloc,
                    index,
                    &value,
                    qualifiers,
                    &declarator,
                    budget,
                )?),
            }
        }
        budget.is_cut = true;
        Ok(declarator.declaration(alloc, qualifiers, "..".as_bytes())?)
    }

    /// Returns the declaration of a name that has a type, as C++ spells it, such as
    /// `int (*compare)(const char *, int)`, or the text of the type alone if the name is empty. A
    /// bit field has its width behind the name.
    ///
    /// The names of classes are those of their records. A calling convention is said where it isn't
    /// the default one, which is that of C for functions and static methods, and for other methods
    /// `__thiscall`, and on machines of 64 bits that of C too.
    ///
    /// A text has at most 65,536 bytes, and says if it is cut: where functions are nested in the
    /// arguments of functions 16 deep, behind 32 types of which each is within the one before, such
    /// as pointers and modifiers, after 4,096 types, and after that many bytes of names.
    ///
    /// # Errors
    /// Fails as `OpenTable::item`, `Type::parse` and `size_of` do for a type on the way, and with
    /// `OutOfMemory` if an allocation fails.
    pub fn type_text(&self, alloc: Global, index: TypeIndex, name: &[u8]) -> Result<TypeText>
        ensures fails { FailsAsTable self.now result }
        ensures shown { IfOk result (IsShownText 65536) }
    {
        self.text_within(alloc, index, name, MOST_BYTES)
    }

    /// Returns what `type_text` does, cut where it would have more than so many bytes. Two are always
    /// there for the points.
    ///
    /// # Errors
    /// Fails as `type_text` does.
    pub fn text_within(
        &self,
        alloc: Global,
        index: TypeIndex,
        name: &[u8],
        most: usize,
    ) -> Result<TypeText>
        ensures fails { FailsAsTable self.now result }
        ensures shown { IfOk result (IsShownText (most_shown most)) }
    {
        let most = most_shown(most);
        let mut budget = Budget::new(Naming::Recorded, most);
        let name = budget.take(name);
        let text = self.declare(alloc, index, name, MOST_DEPTH, &mut budget)?;
        Ok(shown(most, text, budget.is_cut)?)
    }

    /// Returns the bytes of what `type_text` returns.
    ///
    /// # Errors
    /// Fails as `type_text` does.
    pub fn text_of(&self, alloc: Global, index: TypeIndex, name: &[u8]) -> Result<Vec<u8>>
        ensures { FailsAsTable self.now result }
    {
        let text = self.type_text(alloc, index, name)?;
        Ok(text.bytes)
    }
}
