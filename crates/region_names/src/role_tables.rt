//! Names with their roles, looked up by their bytes.

ghost use Rattle.std.specs.Prelude.{◌≡◌, [], ◌∷◌, ◌++◌, length, slice_get, None, OnOk, IfOk, MatchOption};
ghost use Rattle.region_names.specs.Roles.{role_is, given, lists};
ghost use Rattle.region_names.specs.Tables.{IsAt, role_in, names_in};

use crate::roles::{Listed, Role, is_listed};
use indexmap::IndexMap;
use std::alloc::Global;
use std::marker::Model;
use suite_base::{List, NoMemory, Text};

/// Names with their roles, in the order in which they were added.
#[derive(Drop)]
pub struct RoleTable<'a> {
    roles: IndexMap<&'a [u8], Role>,
}

impl<'a> Model for RoleTable<'a> {
    ghost use Rattle.std.specs.Prelude.{List, ℕ, map};
    ghost use Rattle.clan_extract.specs.Names.{Role};
    ghost use Rattle.region_names.specs.Roles.{role_is};

    ghost Value = { List (List ℕ × Role) };

    ghost view = { λ table. map (λ entry. (entry.0.now, role_is entry.1)) table.roles.entries };
}

impl<'a> RoleTable<'a> {
    /// The empty table.
    pub fn new(alloc: Global) -> RoleTable<'a>
        ensures { result ≡ [] }
    {
        RoleTable {
            roles: IndexMap::new(alloc),
        }
    }

    /// The role of a name; `None` exactly where it has none.
    pub fn get(&self, name: &[u8]) -> Option<Role>
        ensures { given result ≡ role_in self.now name.now }
    {
        self.roles.get(name).copied()
    }

    /// Adds a name that has no role yet.
    pub fn add(&mut self, name: &'a [u8], role: Role) -> Result<(), NoMemory>
        requires { role_in self.old name.now ≡ None }
        ensures { OnOk result (self.new ≡ self.old ++ (name.now, role_is role) ∷ []) }
    {
        self.roles.insert(name, role)?;
        Ok(())
    }

    // The name at place `k`, from 0, with its role; `None` exactly where there is no such name.
    fn entry(&self, k: usize) -> Option<(&'a [u8], Role)>
        ensures { MatchOption result (slice_get self.now k ≡ None) (λ e. IsAt self.now k e.0.now (role_is e.1)) }
    {
        match self.roles.get_index(k) {
            None => None,
            Some((name, role)) => Some((*name, *role)),
        }
    }

    // The number of names.
    fn len(&self) -> usize
        ensures { result ≡ length self.now }
    {
        self.roles.len()
    }

    /// Copies of the names whose roles are listed, in their order.
    pub fn names(&self, alloc: Global, listed: Listed) -> Result<List<Text>, NoMemory>
        ensures { IfOk result (λ names. names ≡ names_in (lists listed) self.now) }
    {
        let mut names = List::new(alloc);
        for k in 0..self.len() {
            match self.entry(k) {
                None => unreachable!(),
                Some((name, role)) => push_listed(alloc, &mut names, listed, name, role)?,
            }
        }
        Ok(names)
    }
}

// Appends a copy of a name if its role is listed.
fn push_listed(
    alloc: Global,
    names: &mut List<Text>,
    listed: Listed,
    name: &[u8],
    role: Role,
) -> Result<(), NoMemory>
    ensures { OnOk result (names.new ≡ names.old ++ names_in (lists listed) ((name.now, role_is role) ∷ [])) }
{
    if is_listed(listed, role) {
        names.push(Text::from_bytes(alloc, name)?)?;
    }
    Ok(())
}
