//! The signs of comparisons.

ghost use Rattle.std.specs.Prelude.{◌≡◌};
ghost use Rattle.clan_extract.specs.Constraints.{opposite_comparison};
ghost use Rattle.clan_rows.specs.Comparisons.{meaning_of};

/// The sign of a comparison.
#[derive(Clone, Copy, Debug, PartialEq, Eq)]
pub enum Comparison {
    Less,
    LessOrEqual,
    Greater,
    GreaterOrEqual,
    Equal,
    Unequal,
}

impl Comparison {
    /// The comparison that holds where this one does not.
    pub fn opposite(self) -> Comparison
        ensures { meaning_of result ≡ opposite_comparison (meaning_of self) }
    {
        match self {
            Comparison::Less => Comparison::GreaterOrEqual,
            Comparison::LessOrEqual => Comparison::Greater,
            Comparison::Greater => Comparison::LessOrEqual,
            Comparison::GreaterOrEqual => Comparison::Less,
            Comparison::Equal => Comparison::Unequal,
            Comparison::Unequal => Comparison::Equal,
        }
    }
}
