//! What a walk keeps of the occurrences of names, in the order of the text.

ghost use Rattle.std.specs.Prelude.{◌≡◌, [], None, OnOk};
ghost use Rattle.region_names.specs.Registers.{met, resolved, restarted, started, told, until_clash, with_parameter};
ghost use Rattle.region_names.specs.Roles.{given, role_is};
ghost use Rattle.region_names.specs.Tables.{role_in};
ghost use Rattle.region_names.specs.Telling.{seen};

use crate::role_tables::RoleTable;
use crate::roles::{Role, same_role};
use std::alloc::Global;
use suite_base::NoMemory;

/// The role of a plain name depends on all occurrences of the name. So a first walk finds the parameters, and
/// the roles of the names that never stand plain; where some name does, a second walk finds all roles.
#[derive(Clone, Copy, Debug, PartialEq, Eq)]
pub enum Walk {
    First,
    Second,
}

/// The names that some occurrence makes parameters; the roles of the names before the first clash, with the
/// place of the clash; and whether the first walk met a plain name.
#[derive(Drop)]
pub struct Register<'a> {
    pub walk: Walk,
    pub parameters: RoleTable<'a>,
    pub roles: RoleTable<'a>,
    pub clash: Option<usize>,
    pub plain: bool,
}

impl<'a> Register<'a> {
    /// A register for the first walk.
    pub fn new(alloc: Global) -> Register<'a>
        ensures { result ≡ started [] }
    {
        Register {
            walk: Walk::First,
            parameters: RoleTable::new(alloc),
            roles: RoleTable::new(alloc),
            clash: None,
            plain: false,
        }
    }

    /// A register for the second walk, with these parameters.
    pub fn restarted(self, alloc: Global) -> Register<'a>
        ensures { result ≡ restarted self.entry }
    {
        Register {
            walk: Walk::Second,
            parameters: self.parameters,
            roles: RoleTable::new(alloc),
            clash: None,
            plain: self.plain,
        }
    }

    /// An occurrence of `name` at the place `at`. It has a role of its own, or none where it stands plain
    /// in a right side outside the loops of its name; `shadows` says that it names a loop inside a loop of
    /// this name.
    pub fn tell(
        &mut self,
        name: &'a [u8],
        role: Option<Role>,
        shadows: bool,
        at: usize,
    ) -> Result<(), NoMemory>
        ensures { OnOk result (self.new ≡ told self.old (seen name.now (given role) shadows at)) }
    {
        match self.walk {
            Walk::First => match role {
                None => {
                    self.plain = true;
                    Ok(())
                }
                Some(own) => {
                    if own == Role::Parameter {
                        self.note(name)?;
                    }
                    self.tell_role(name, own, shadows, at)
                }
            },
            Walk::Second => {
                let role = self.resolved(name, role);
                self.tell_role(name, role, shadows, at)
            }
        }
    }

    // An occurrence of this role; nothing more is kept behind a clash.
    fn tell_role(
        &mut self,
        name: &'a [u8],
        role: Role,
        shadows: bool,
        at: usize,
    ) -> Result<(), NoMemory>
        ensures { OnOk result (self.new ≡ until_clash self.old.clash self.old (role_is role) name.now shadows at) }
    {
        if self.clash.is_some() {
            return Ok(());
        }
        self.meet(name, role, shadows, at)
    }

    // Adds a parameter that is new.
    fn note(&mut self, name: &'a [u8]) -> Result<(), NoMemory>
        ensures { OnOk result (self.new ≡ with_parameter self.old name.now) }
    {
        if self.parameters.get(name).is_none() {
            self.parameters.add(name, Role::Parameter)?;
        }
        Ok(())
    }

    // The role of an occurrence: its own, or that of a plain name.
    fn resolved(&self, name: &[u8], role: Option<Role>) -> Role
        ensures { role_is result ≡ resolved self.now.parameters name.now (given role) }
    {
        match role {
            Some(own) => own,
            None => match self.parameters.get(name) {
                Some(_) => Role::Parameter,
                None => Role::ArrayOf(0),
            },
        }
    }

    // An occurrence of this role: adds a name that is new, or notes a clash.
    fn meet(&mut self, name: &'a [u8], role: Role, shadows: bool, at: usize) -> Result<(), NoMemory>
        ensures { OnOk result (self.new ≡ met (role_in self.old.roles name.now) self.old (role_is role) name.now shadows at) }
    {
        match self.roles.get(name) {
            None => {
                if shadows {
                    self.clash = Some(at);
                    return Ok(());
                }
                self.roles.add(name, role)
            }
            Some(first) => {
                if shadows || !same_role(role, first) {
                    self.clash = Some(at);
                }
                Ok(())
            }
        }
    }
}
