//! Workspaces.
ghost use Rattle.std.specs.Prelude.{◌≡◌, ◌≤◌, option_copied, OnOk, OnErr};
ghost use Rattle.std.specs.FinMap.{empty};
ghost use Rattle.apl_eval.specs.Workspace.{value_of, with_names, with_origin, with_width, opening_workspace};
ghost use Rattle.apl_print.specs.Width.{least_width, most_width};
ghost use Rattle.apl_eval.specs.Names.{overlaid};

use crate::names::Names;
use apl_array::{Array, Origin};
use apl_pool::KeptLists;
use std::alloc::{AllocError, Global};
use std::marker::Model;
use std::mem::replace;

/// The width of printed lines at first, in characters.
const FIRST_WIDTH: u8 = 120;

/// The values of names, the origin, and the width of printed lines in characters, from 30 to 130.
#[derive(Drop)]
pub struct Workspace {
    names: Names,
    origin: Origin,
    width: u8,
}

impl Model for Workspace {
    ghost use Rattle.std.specs.Prelude.{ℕ, ◌≤◌, refl};
    ghost use Rattle.std.specs.Coded.{code_by, coded×, coded_ℕ};
    ghost use Rattle.apl_array.specs.declared.axis.Origin.{Origin};
    ghost use Rattle.apl_array.specs.contracts.axis.Origin as origins;
    ghost use Rattle.apl_eval.specs.contracts.names.Names as stored;
    ghost use Rattle.apl_print.specs.Width.{least_width, most_width};
    ghost use Rattle.apl_eval.specs.Workspace.{NameValues, WorkspaceValue, parts_of, workspace_of};

    ghost Value = { WorkspaceValue };

    ghost coded = { code_by (NameValues × (Origin × ℕ)) (coded× stored.the_row.coded (coded× origins.the_row.coded coded_ℕ)) parts_of workspace_of (λ _. refl) };

    ghost view = { λ w. record { names = w.names; origin = w.origin; width = w.width } };

    ghost invariant = { λ w. (least_width ≤ w.width) × (w.width ≤ most_width) };
}

impl Workspace {
    /// A new workspace: no names, origin 1, width 120. It takes no memory.
    pub fn new(alloc: Global) -> Workspace
        ensures { result ≡ opening_workspace }
    {
        Workspace {
            names: Names::new(alloc),
            origin: Origin::One,
            width: FIRST_WIDTH,
        }
    }

    /// The value of a name, if it has one.
    pub fn value(&self, name: &str) -> Option<&Array>
        ensures { option_copied result ≡ value_of name.now self.now }
    {
        match self.names.get(name) {
            Some(value) => Some(value.as_ref()),
            None => None,
        }
    }

    /// The number of the first index.
    pub fn origin(&self) -> Origin
        ensures { result ≡ self.now.origin }
    {
        self.origin
    }

    /// How many characters a printed line has at most.
    pub fn width(&self) -> u8
        ensures width { result ≡ self.now.width }
        ensures low { least_width ≤ result }
        ensures high { result ≤ most_width }
    {
        self.width
    }

    pub fn set_origin(&mut self, origin: Origin)
        ensures { self.new ≡ with_origin origin self.old }
    {
        self.origin = origin;
    }

    pub fn set_width(&mut self, width: u8)
        requires low { least_width ≤ width }
        requires high { width ≤ most_width }
        ensures { self.new ≡ with_width width self.old }
    {
        self.width = width;
    }

    /// Forgets all names, and sets the origin to 1 and the width to 120. It takes no memory.
    pub fn clear(&mut self)
        ensures { self.new ≡ opening_workspace }
    {
        self.names.clear();
        self.origin = Origin::One;
        self.width = FIRST_WIDTH;
    }

    /// The values of names.
    pub(crate) fn names(&self) -> &Names
        ensures { result.now ≡ self.now.names }
    {
        &self.names
    }

    /// Takes all names and their values.
    pub(crate) fn take_names(&mut self, alloc: Global) -> Names
        ensures names { result ≡ self.old.names }
        ensures others { self.new ≡ with_names empty self.old }
    {
        replace(&mut self.names, Names::new(alloc))
    }

    /// Puts names and their values in the place of those that are there.
    pub(crate) fn put_names(&mut self, names: Names)
        ensures { self.new ≡ with_names names self.old }
    {
        self.names = names;
    }

    /// Gives the staged names their values: all of them, or none where room is refused. Those that they had before are let go.
    pub(crate) fn keep(&mut self, staged: Names, kept: &KeptLists) -> Result<(), AllocError>
        ensures ok { OnOk result (self.new ≡ with_names (overlaid staged self.old.names) self.old) }
        ensures err { OnErr result (self.new ≡ self.old) }
    {
        self.names.keep(staged, kept)
    }
}
