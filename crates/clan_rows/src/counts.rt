//! How many parts a layer has, and how large they are.

ghost use Rattle.std.specs.Prelude.{◌≡◌, ◌+◌, ◌&&◌, true};
ghost use Rattle.clan_extract.specs.Counts as counts;
ghost use Rattle.clan_rows.specs.Contents.{count_of};
ghost use Rattle.clan_rows.specs.Layers.{clipped as clipped_count, within};

use suite_base::{MAX_LOCALS, MAX_PARTS, MAX_ROWS};

/// The number of parts, and the most rows and locals of a part, each cut one past its limit.
#[derive(Clone, Copy, Debug, PartialEq, Eq)]
pub struct Count {
    pub parts: usize,
    pub rows: usize,
    pub locals: usize,
}

impl Count {
    // The count of these numbers.
    fn clipped(parts: usize, rows: usize, locals: usize) -> Count
        ensures { count_of result ≡ clipped_count (record { parts = parts; rows = rows; locals = locals }) }
    {
        Count {
            parts: parts.min(MAX_PARTS + 1),
            rows: rows.min(MAX_ROWS + 1),
            locals: locals.min(MAX_LOCALS + 1),
        }
    }

    /// The count of one part.
    pub fn one_part(rows: usize, locals: usize) -> Count
        ensures { count_of result ≡ clipped_count (counts.one_part rows locals) }
    {
        Count::clipped(1, rows, locals)
    }

    /// The count of one part with a row more, which has a local.
    pub fn with_stride(rows: usize) -> Count
        ensures { count_of result ≡ clipped_count (counts.one_part (rows + 1) 1) }
    {
        Count::clipped(1, rows.saturating_add(1), 1)
    }

    /// Whether no number passes its limit.
    pub fn is_within(self) -> bool
        ensures { result ≡ within (count_of self) }
    {
        self.parts <= MAX_PARTS && (self.rows <= MAX_ROWS && self.locals <= MAX_LOCALS)
    }

    /// Whether parts of this count are used, where they fit or not.
    pub fn is_used(self, fits: bool) -> bool
        ensures { result ≡ (within (count_of self) && fits) }
    {
        self.is_within() && fits
    }

    /// Of every part of the one with every part of the other.
    pub fn crossed(self, other: Count) -> Count
        ensures { count_of result ≡ clipped_count (counts.crossed (count_of self) (count_of other)) }
    {
        Count::clipped(
            self.parts.saturating_mul(other.parts),
            self.rows.saturating_add(other.rows),
            self.locals.saturating_add(other.locals),
        )
    }

    /// Of the parts of the one and of the other.
    pub fn in_turn(self, other: Count) -> Count
        ensures { count_of result ≡ clipped_count (counts.in_turn (count_of self) (count_of other)) }
    {
        Count::clipped(
            self.parts.saturating_add(other.parts),
            self.rows.max(other.rows),
            self.locals.max(other.locals),
        )
    }
}
