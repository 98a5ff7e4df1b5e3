//! The ten commands of a script, and the script as a list of them.

ghost use Rattle.std.specs.Prelude.{◌≡◌, ◌<◌, [], ◌∷◌, ◌++◌, length, slice_get, OnOk, OnErr, OnSome};
ghost use Rattle.std.specs.Option.{option_copied};

use crate::vectors::Vector;
use row_core::Coeff;
use std::alloc::Global;
use std::marker::Model;
use suite_base::{List, NoMemory};

/// A command with its arguments. The first vector is the beta prefix of the statements that it is
/// about; levels are counted from 1.
#[derive(Debug, Drop)]
pub enum Command {
    /// The children of the loop from this number on become a new loop after it.
    Fission(Vector, Coeff),
    /// The next sibling's children join this loop.
    Fuse(Vector),
    /// The old numbers of the children, in their new order.
    Reorder(Vector, Vector),
    /// Two levels that are exchanged.
    Interchange(Vector, Coeff, Coeff),
    /// A level that gets another level's multiple: level, other level, factor.
    Skew(Vector, Coeff, Coeff, Coeff),
    /// A level that is moved: level, coefficients of the parameters, constant.
    Shift(Vector, Coeff, Vector, Coeff),
    /// A level that is negated.
    Reverse(Vector, Coeff),
    /// A level that is cut into strips: level, size.
    Stripmine(Vector, Coeff, Coeff),
    /// Strip-mining whose new level is moved outwards: level, size, place of the new level.
    Tile(Vector, Coeff, Coeff, Coeff),
    /// Index-set splitting: coefficients of the iterators, of the parameters, and the constant.
    Iss(Vector, Vector, Vector, Coeff),
}

/// A list of commands, which are carried out in turn. Contracts see the list.
#[derive(Debug, Drop)]
pub struct Script {
    commands: List<Command>,
}

impl Model for Script {
    ghost use Rattle.std.specs.Prelude.{List};
    ghost use Rattle.clay_script.specs.declared.commands.Command.{Command};

    ghost Value = { List Command };

    ghost view = { λ s. s.commands };
}

impl Script {
    /// The empty script.
    pub fn new(alloc: Global) -> Script
        ensures { result ≡ [] }
    {
        Script {
            commands: List::new(alloc),
        }
    }

    /// Appends a command. On want of memory the script is as before.
    pub fn push(&mut self, item: Command) -> Result<(), NoMemory>
        ensures ok { OnOk result (self.new ≡ self.old ++ item ∷ []) }
        ensures err { OnErr result (self.new ≡ self.old) }
    {
        self.commands.push(item)
    }

    /// The command at place `k`, from 0; `None` exactly where `k` is not below the length.
    pub fn get(&self, k: usize) -> Option<&Command>
        ensures value { option_copied result ≡ slice_get self.now k }
        ensures within { OnSome result (k < length self.now) }
    {
        self.commands.get(k)
    }

    /// How many commands there are.
    pub fn len(&self) -> usize
        ensures { result ≡ length self.now }
    {
        self.commands.len()
    }

    /// The commands as a slice.
    pub fn as_slice(&self) -> &[Command]
        ensures { result.now ≡ self.now }
    {
        self.commands.as_slice()
    }
}
