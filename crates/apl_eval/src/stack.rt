//! The stack of what waits for operations.
ghost use Rattle.std.specs.Prelude.{◌≡◌, ◌≤◌, ◌+◌, List, [], ◌∷◌, ◌++◌, length, map, Some, None, is_some, option_copied, IfOk};
ghost use Rattle.apl_eval.specs.Steps.{Item, item_of, under_axis, HasValue, HasAxis};

use apl_array::Array;
use apl_grammar::{Brackets, Columns};
use std::alloc::{AllocError, Global};
use std::marker::Model;
use std::rc::Rc;

/// The array of an item, if it has one.
pub(crate) fn array_of(item: &Option<Rc<Array>>) -> Option<&Array>
    ensures { option_copied result ≡ item_of item.now }
{
    match item {
        Some(array) => Some(array.as_ref()),
        None => None,
    }
}

/// Values and empty slots, the last one on top.
#[derive(Drop)]
pub(crate) struct Stack {
    items: Vec<Option<Rc<Array>>>,
}

impl Model for Stack {
    ghost use Rattle.std.specs.Prelude.{List};
    ghost use Rattle.apl_eval.specs.Steps.{Item, stack_of};

    ghost Value = { List Item };

    ghost view = { λ s. stack_of s.items.items };
}

impl Stack {
    /// Nothing waits.
    pub(crate) fn new(alloc: Global) -> Stack
        ensures { result ≡ [] }
    {
        Stack {
            items: Vec::new(alloc),
        }
    }

    pub(crate) fn push_value(&mut self, value: Rc<Array>) -> Result<(), AllocError>
        ensures { IfOk result (λ _. self.new ≡ Some value.value ∷ self.old) }
    {
        self.items.push(Some(value))?;
        Ok(())
    }

    pub(crate) fn push_empty_slot(&mut self) -> Result<(), AllocError>
        ensures { IfOk result (λ _. self.new ≡ None ∷ self.old) }
    {
        self.items.push(None)?;
        Ok(())
    }

    /// Takes the value on top.
    pub(crate) fn pop_value(&mut self) -> Rc<Array>
        requires { HasValue self.old }
        ensures { self.old ≡ Some result.value ∷ self.new }
    {
        match self.items.pop() {
            Some(Some(value)) => value,
            _ => unreachable!(),
        }
    }

    /// Takes the axis argument on top, if there is one.
    pub(crate) fn pop_axis(&mut self, axis: Option<Brackets>) -> Option<Rc<Array>>
        requires { HasAxis axis self.old }
        ensures items { self.old ≡ under_axis (item_of result) self.new }
        ensures axis { is_some result ≡ is_some axis }
    {
        match axis {
            Some(_) => Some(self.pop_value()),
            None => None,
        }
    }

    /// Takes the slots of a list with these semicolons, of which the first one is on top.
    pub(crate) fn pop_slots(
        &mut self,
        alloc: Global,
        semicolons: &Columns,
    ) -> Result<Slots, AllocError>
        requires { length semicolons.now + 1 ≤ length self.old }
        ensures count { IfOk result (λ slots. length slots ≡ length semicolons.now + 1) }
        ensures items { IfOk result (λ slots. self.old ≡ slots ++ self.new) }
    {
        let count = semicolons.as_slice().len() + 1;
        let mut slots = Vec::new(alloc);
        'slots: for _ in 0..count {
            let Some(slot) = self.items.pop() else {
                unreachable!()
            };
            slots.push(slot)?;
        }
        Ok(Slots { slots })
    }

    /// The value on top.
    pub(crate) fn top_value(&self) -> &Rc<Array>
        requires { HasValue self.now }
        ensures { (below : List Item) × (self.now ≡ Some result.now.value ∷ below) }
    {
        match self.items.last() {
            Some(Some(value)) => value,
            _ => unreachable!(),
        }
    }
}

/// The slots of a list, from the first to the last.
#[derive(Drop)]
pub(crate) struct Slots {
    slots: Vec<Option<Rc<Array>>>,
}

impl Model for Slots {
    ghost use Rattle.std.specs.Prelude.{List, map};
    ghost use Rattle.apl_eval.specs.Steps.{Item, item_of};

    ghost Value = { List Item };

    ghost view = { λ s. map item_of s.slots.items };
}

impl Slots {
    /// The array of each slot that is not empty.
    pub(crate) fn arrays(&self, alloc: Global) -> Result<Vec<Option<&Array>>, AllocError>
        ensures { IfOk result (λ arrays. map option_copied arrays.items ≡ self.now) }
    {
        let mut arrays = Vec::new(alloc);
        for slot in &self.slots {
            arrays.push(array_of(slot))?;
        }
        Ok(arrays)
    }
}
