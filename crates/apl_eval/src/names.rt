//! Names and their values. Values are shared, so that an assignment copies no elements.
ghost use Rattle.std.specs.Prelude.{◌≡◌, None, Some, Ok, Err, MatchOption, OnOk, OnErr, IfErr, IsTrue, map, option_copied};
ghost use Rattle.std.specs.FinMap.{empty, get, insert};
ghost use Rattle.apl_array.specs.Array.{ArrayValue};
ghost use Rattle.apl_eval.specs.Functions.{assign_at_result};
ghost use Rattle.apl_eval.specs.Names.{overlaid};
ghost use Rattle.apl_eval.specs.Refusals.{Answers};

use crate::functions::{Context, FunctionRefusal};
use crate::spent::let_go;
use apl_array::Array;
use apl_pool::{Crew, KeptLists};
use apl_print::Report;
use std::alloc::{AllocError, Global};
use std::collections::HashMap;
use std::marker::Model;
use std::rc::Rc;

/// The values of names.
#[derive(Drop)]
pub(crate) struct Names {
    values: HashMap<String, Rc<Array>>,
}

impl Model for Names {
    ghost use Rattle.std.specs.FinMap.{code};
    ghost use Rattle.std.specs.Coded.{coded_list, coded_ℕ};
    ghost use Rattle.apl_array.specs.contracts.array.Array as array;
    ghost use Rattle.apl_eval.specs.Workspace.{NameValues};

    ghost Value = { NameValues };

    ghost coded = { code (coded_list coded_ℕ) array.the_row.coded };

    ghost use Rattle.apl_eval.specs.Names.{names_in};

    ghost view = { λ n. names_in n.values };
}

impl Names {
    /// No names.
    pub(crate) fn new(alloc: Global) -> Names
        ensures { result ≡ empty }
    {
        Names {
            values: HashMap::new(alloc),
        }
    }

    pub(crate) fn is_empty(&self) -> bool
        ensures { IsTrue result → self.now ≡ empty }
    {
        self.values.is_empty()
    }

    /// The value of a name.
    pub(crate) fn get(&self, name: &str) -> Option<&Rc<Array>>
        ensures { MatchOption result (get self.now name.now ≡ None) (λ v. get self.now name.now ≡ Some v.now.value) }
    {
        self.values.get(name)
    }

    /// Gives a name a value.
    pub(crate) fn insert(
        &mut self,
        alloc: Global,
        name: &str,
        value: Rc<Array>,
    ) -> Result<(), AllocError>
        ensures ok { OnOk result (self.new ≡ insert self.old name.now value.value) }
        ensures err { OnErr result (self.new ≡ self.old) }
    {
        let name = String::from_str(alloc, name)?;
        self.values.insert(name, value)?;
        Ok(())
    }

    /// Puts the value in the place of the elements of a name's array that the slots choose. An array that something else has as well
    /// is copied first. After an error the names are as they were.
    pub(crate) fn assign_at<W: Crew>(
        &mut self,
        context: &Context<'_, W>,
        name: &str,
        slots: &[Option<&Array>],
        value: &Array,
    ) -> Result<(), FunctionRefusal>
        ensures ok { OnOk result ((changed : ArrayValue) × (assign_at_result context.now.workspace.now.origin (get self.old name.now) (map option_copied slots.now) value.now ≡ Ok changed) × (self.new ≡ insert self.old name.now changed)) }
        ensures err { IfErr result (λ refusal. Answers (assign_at_result context.now.workspace.now.origin (get self.old name.now) (map option_copied slots.now) value.now) (Err refusal)) }
        ensures unchanged { OnErr result (self.new ≡ self.old) }
    {
        let Some(held) = self.values.get_mut(name) else {
            return Err(FunctionRefusal::Error(Report::Value));
        };
        if let Some(array) = Rc::get_mut(held) {
            return context.assign_at(array, slots, value);
        }
        *held = context.changed_copy(held, slots, value)?;
        Ok(())
    }

    /// Forgets all names. It takes no memory.
    pub(crate) fn clear(&mut self)
        ensures { self.new ≡ empty }
    {
        self.values.clear();
    }

    /// Gives the staged names their values: all of them, or none where room is refused. Those that they had before are let go.
    pub(crate) fn keep(&mut self, staged: Names, kept: &KeptLists) -> Result<(), AllocError>
        ensures ok { OnOk result (self.new ≡ overlaid staged self.old) }
        ensures err { OnErr result (self.new ≡ self.old) }
    {
        let Names { values } = staged;
        self.values.reserve(values.len())?;
        'staged: for (name, value) in values {
            let Ok(before) = self.values.insert(name, value) else {
                unreachable!()
            };
            if let Some(before) = before {
                let_go(kept, before);
            }
        }
        Ok(())
    }
}
