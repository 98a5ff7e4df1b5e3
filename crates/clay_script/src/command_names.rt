//! The names of the commands.

ghost use Rattle.std.specs.Prelude.{◌≡◌};
ghost use Rattle.clay_script.specs.Names.{named, named_among, letters_of};

/// The name of a command.
#[derive(Clone, Copy, Debug, PartialEq, Eq)]
pub enum CommandName {
    Fission,
    Fuse,
    Reorder,
    Interchange,
    Skew,
    Shift,
    Reverse,
    Stripmine,
    Tile,
    Iss,
}

impl CommandName {
    /// All names.
    pub const ALL: [CommandName; 10] = [
        CommandName::Fission,
        CommandName::Fuse,
        CommandName::Reorder,
        CommandName::Interchange,
        CommandName::Skew,
        CommandName::Shift,
        CommandName::Reverse,
        CommandName::Stripmine,
        CommandName::Tile,
        CommandName::Iss,
    ];

    /// The letters of the name.
    pub fn letters(self) -> &'static [u8]
        ensures { result.now ≡ letters_of self }
    {
        match self {
            CommandName::Fission => b"fission",
            CommandName::Fuse => b"fuse",
            CommandName::Reorder => b"reorder",
            CommandName::Interchange => b"interchange",
            CommandName::Skew => b"skew",
            CommandName::Shift => b"shift",
            CommandName::Reverse => b"reverse",
            CommandName::Stripmine => b"stripmine",
            CommandName::Tile => b"tile",
            CommandName::Iss => b"iss",
        }
    }
}

/// The command that has this name; `None` exactly where no command has it.
pub fn command_named(letters: &[u8]) -> Option<CommandName>
    ensures { result ≡ named letters.now }
{
    named_in(&CommandName::ALL, letters)
}

// The first of `names` that has these letters.
fn named_in(names: &[CommandName], letters: &[u8]) -> Option<CommandName>
    ensures { result ≡ named_among names.now letters.now }
{
    for name in names {
        if letters == name.letters() {
            return Some(*name);
        }
    }
    None
}
