//! The order in which definitions can be declared.

ghost use Rattle.std.specs.Prelude.{◌≡◌, ◌++◌, ◌∷◌, [], IfOk, OnOk, Some};
ghost use Rattle.std.specs.Bool.{nat_eq};
ghost use Rattle.std.specs.HashMap.{IsEmpty, Updates};
ghost use Rattle.pdb_base.specs.Memory.{FailsOnlyForMemory};
ghost use Rattle.pdb_types.specs.Order.{IsOrderOf};
ghost use Rattle.pdb_types.specs.Needs.{numbers, readable_needs};
ghost use Rattle.pdb_types.specs.Steps.{entered, cycle_from, leaves, pushed};
ghost use Rattle.pdb_types.specs.declared.declaration_order.Step.TheVariants.{Enter, Leave};
ghost use Rattle.pdb_types.specs.declared.declaration_order.Mark.TheVariants.{Open, Done};

use crate::definitions::Definitions;
use crate::memory::AllocResult;
use pdb_base::{Error, Result, TypeIndex};
use std::alloc::Global;
use std::collections::HashMap;

/// The order in which definitions can be declared, or why there is none.
#[derive(Debug, Drop)]
pub enum DeclarationOrder {
    /// Each definition stands behind all those that it needs by value.
    Ordered(Vec<TypeIndex>),

    /// Each of these definitions needs the next one by value, and the last one needs the first.
    Cycle(Vec<TypeIndex>),
}

/// What is to be done with a definition.
#[derive(Clone, Copy)]
pub(crate) enum Step {
    /// To put it into the order behind all that it needs, unless it is there.
    Enter(TypeIndex),

    /// To put it into the order, in which all that it needs is by now.
    Leave(TypeIndex),
}

/// How far a definition is that was entered.
#[derive(Clone, Copy)]
pub(crate) enum Mark {
    /// What it needs is being put into the order.
    Open,

    /// It is in the order.
    Done,
}

/// What was done of an order, and what is to be done.
#[derive(Drop)]
struct Search {
    /// What is to be done, the next step last.
    steps: Vec<Step>,

    /// How far the definitions are that were entered.
    marks: HashMap<u32, Mark>,

    /// The definitions that are done.
    order: Vec<TypeIndex>,
}

/// Appends the steps that enter definitions, the first of which is to be the next step.
fn push_entered(steps: &mut Vec<Step>, indexes: &[TypeIndex]) -> AllocResult<()>
    ensures { OnOk result (steps.new.items ≡ pushed steps.old.items indexes.now) }
{
    for index in indexes {
        steps.push(Step::Enter(*index))?;
    }
    Ok(())
}

/// Returns the definitions that are open from this one on, each of which needs the next.
fn cycle_from(alloc: Global, steps: &[Step], first: TypeIndex) -> AllocResult<Vec<TypeIndex>>
    ensures { IfOk result (λ cycle. cycle.items ≡ cycle_from steps.now first) }
{
    let mut cycle = Vec::new(alloc);
    for step in steps {
        if let Step::Leave(index) = step {
            if *index == first || !cycle.is_empty() {
                cycle.push(*index)?;
            }
        }
    }
    Ok(cycle)
}

impl Search {
    /// Begins with the steps that enter the roots.
    fn new(alloc: Global, roots: &[TypeIndex]) -> AllocResult<Self>
        ensures steps { IfOk result (λ search. search.steps.items ≡ pushed [] roots.now) }
        ensures marks { IfOk result (λ search. IsEmpty search.marks) }
        ensures order { IfOk result (λ search. search.order.items ≡ []) }
    {
        let mut steps = Vec::new(alloc);
        push_entered(&mut steps, roots)?;
        Ok(Search {
            steps,
            marks: HashMap::new(alloc),
            order: Vec::new(alloc),
        })
    }

    /// Opens a definition that needs others.
    fn enter(&mut self, index: TypeIndex, needs: &[TypeIndex]) -> AllocResult<()>
        ensures steps { OnOk result (self.new.steps.items
            ≡ pushed (self.old.steps.items ++ Leave index ∷ []) needs.now) }
        ensures marks { OnOk result (Updates nat_eq self.old.marks self.new.marks index.0 (Some Open)) }
        ensures order { OnOk result (self.new.order.items ≡ self.old.order.items) }
    {
        self.marks.insert(index.0, Mark::Open)?;
        self.steps.push(Step::Leave(index))?;
        push_entered(&mut self.steps, needs)
    }

    /// Puts a definition into the order.
    fn leave(&mut self, index: TypeIndex) -> AllocResult<()>
        ensures steps { OnOk result (self.new.steps.items ≡ self.old.steps.items) }
        ensures marks { OnOk result (Updates nat_eq self.old.marks self.new.marks index.0 (Some Done)) }
        ensures order { OnOk result (self.new.order.items ≡ self.old.order.items ++ index ∷ []) }
    {
        self.marks.insert(index.0, Mark::Done)?;
        self.order.push(index)?;
        Ok(())
    }
}

impl<'t> Definitions<'t> {
    /// Returns the order in which the definitions of these indexes and all that they need can be
    /// declared, or a cycle among them. Each root and each definition that one needs by value, as
    /// `needs_of` gives it, directly or through others, stands there once, behind all that it
    /// needs itself; a definition with a record that can't be read needs nothing. What a definition
    /// needs is read once, and no call is within another one, so that a long chain takes only
    /// memory.
    ///
    /// # Errors
    /// Fails with `OutOfMemory` if an allocation fails.
    pub fn declaration_order(&self, alloc: Global, roots: &[TypeIndex]) -> Result<DeclarationOrder>
        ensures order { IfOk result (IsOrderOf (readable_needs self.now) (numbers roots.now)) }
        ensures memory { FailsOnlyForMemory result }
    {
        let mut search = Search::new(alloc, roots)?;
        // Each step was pushed, so no memory has room for more.
        for _ in 0..u64::MAX {
            let Some(step) = search.steps.pop() else {
                return Ok(DeclarationOrder::Ordered(search.order));
            };
            match step {
                Step::Leave(index) => search.leave(index)?,
                Step::Enter(index) => match search.marks.get(&index.0) {
                    Some(Mark::Done) => {}
                    Some(Mark::Open) => {
                        let cycle = cycle_from(alloc, &search.steps, index)?;
                        return Ok(DeclarationOrder::Cycle(cycle));
                    }
                    None => {
                        let mut needs = self.readable_needs(alloc, index)?;
                        needs.reverse();
                        search.enter(index, &needs)?;
                    }
                },
            }
        }
        Err(Error::OutOfMemory)
    }
}
