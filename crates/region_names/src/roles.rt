//! The roles of names.

ghost use Rattle.std.specs.Prelude.{◌≡◌, true};
ghost use Rattle.clan_extract.specs.Names as names;
ghost use Rattle.region_names.specs.Roles.{role_is, lists};

/// The role of a name: before a bracket of arguments, with so many subscripts, of a loop in its scope,
/// or of a value from outside.
#[derive(Clone, Copy, Debug, PartialEq, Eq)]
pub enum Role {
    Function,
    ArrayOf(usize),
    Iterator,
    Parameter,
}

/// Whether two roles are the same.
pub fn same_role(a: Role, b: Role) -> bool
    ensures { result ≡ names.same_role (role_is a) (role_is b) }
{
    match a {
        Role::Function => matches!(b, Role::Function),
        Role::ArrayOf(j) => match b {
            Role::ArrayOf(k) => j == k,
            _ => false,
        },
        Role::Iterator => matches!(b, Role::Iterator),
        Role::Parameter => matches!(b, Role::Parameter),
    }
}

/// The names that a region lists.
#[derive(Clone, Copy, Debug, PartialEq, Eq)]
pub enum Listed {
    Parameters,
    Arrays,
}

/// Whether a name of this role is listed.
pub fn is_listed(listed: Listed, role: Role) -> bool
    ensures { result ≡ lists listed (role_is role) }
{
    match listed {
        Listed::Parameters => matches!(role, Role::Parameter),
        Listed::Arrays => matches!(role, Role::ArrayOf(_)),
    }
}
