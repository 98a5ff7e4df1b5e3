//! Layers of two conditions, and of what stands in a loop or condition.

ghost use Rattle.std.specs.Prelude.{◌≡◌, ◌++◌, ◌&&◌, [], cond, map, IfOk, OnOk};
ghost use Rattle.clan_extract.specs.Constraints as spec;
ghost use Rattle.clan_rows.specs.Pieces.{all_joined, each_behind};
ghost use Rattle.clan_rows.specs.Contents.{part_of, said};
ghost use Rattle.clan_rows.specs.Layers.{crossed_layers, in_turn_layers};

use crate::constraints::{Constraint, push_shared};
use crate::layers::Layer;
use std::alloc::Global;
use suite_base::{List, NoMemory};

// A copy of one part with one of the other behind it.
fn joined_part(
    alloc: Global,
    left: &[Constraint],
    right: &[Constraint],
) -> Result<List<Constraint>, NoMemory>
    ensures { IfOk result (λ part. part ≡ left.now ++ right.now) }
{
    let mut part = List::with_capacity(alloc, left.len().saturating_add(right.len()))?;
    push_shared(left, &mut part)?;
    push_shared(right, &mut part)?;
    Ok(part)
}

// Appends copies of one part with each of the others behind it.
fn push_behind(
    alloc: Global,
    left: &[Constraint],
    right: &[List<Constraint>],
    parts: &mut List<List<Constraint>>,
) -> Result<(), NoMemory>
    ensures { OnOk result (parts.new ≡ parts.old ++ each_behind left.now right.now) }
{
    for behind in right {
        parts.push(joined_part(alloc, left, behind.as_slice())?)?;
    }
    Ok(())
}

// Every part of the one with every part of the other.
fn joined(
    alloc: Global,
    left: &[List<Constraint>],
    right: &[List<Constraint>],
) -> Result<List<List<Constraint>>, NoMemory>
    ensures { IfOk result (λ parts. parts ≡ all_joined left.now right.now) }
{
    let mut parts = List::new(alloc);
    for part in left {
        push_behind(alloc, part.as_slice(), right, &mut parts)?;
    }
    Ok(parts)
}

// Appends copies of all parts.
fn push_parts(
    alloc: Global,
    from: &[List<Constraint>],
    parts: &mut List<List<Constraint>>,
) -> Result<(), NoMemory>
    ensures { OnOk result (parts.new ≡ parts.old ++ from.now) }
{
    for part in from {
        parts.push(joined_part(alloc, part.as_slice(), &[])?)?;
    }
    Ok(())
}

// The parts of the one and of the other.
fn in_turn(
    alloc: Global,
    left: &[List<Constraint>],
    right: &[List<Constraint>],
) -> Result<List<List<Constraint>>, NoMemory>
    ensures { IfOk result (λ parts. parts ≡ left.now ++ right.now) }
{
    let mut parts = List::new(alloc);
    push_parts(alloc, left, &mut parts)?;
    push_parts(alloc, right, &mut parts)?;
    Ok(parts)
}

// Every part of the one with every part of the other, where they are used.
#[tactic(auto, using(crate::proofs::Pieces::joined_is))]
fn joined_if(
    alloc: Global,
    used: bool,
    left: &[List<Constraint>],
    right: &[List<Constraint>],
) -> Result<List<List<Constraint>>, NoMemory>
    ensures { IfOk result (λ parts. map part_of parts ≡ cond used (spec.joined (map part_of left.now) (map part_of right.now)) []) }
{
    if used {
        joined(alloc, left, right)
    } else {
        Ok(List::new(alloc))
    }
}

// The parts of the one and of the other, where they are used.
#[tactic(auto, using(crate::proofs::Pieces::parts_append))]
fn in_turn_if(
    alloc: Global,
    used: bool,
    left: &[List<Constraint>],
    right: &[List<Constraint>],
) -> Result<List<List<Constraint>>, NoMemory>
    ensures { IfOk result (λ parts. map part_of parts ≡ cond used (map part_of left.now ++ map part_of right.now) []) }
{
    if used {
        in_turn(alloc, left, right)
    } else {
        Ok(List::new(alloc))
    }
}

// Whether both fit.
fn both(left: bool, right: bool) -> bool
    ensures { result ≡ (left && right) }
{
    left && right
}

impl Layer {
    /// The layer of every part of this one with every part of the other: of two conditions that hold
    /// both, or of a condition inside another. Nothing is made where it can't be used.
    #[tactic(auto, using(crate::proofs::Pieces::layer_is))]
    pub fn crossed(&self, alloc: Global, other: &Layer) -> Result<Layer, NoMemory>
        ensures { IfOk result (λ layer. said layer ≡ crossed_layers (said self.now) (said other.now)) }
    {
        let count = self.count.crossed(other.count);
        let fits = both(self.fits, other.fits);
        let used = count.is_used(fits);
        let parts = joined_if(alloc, used, self.parts.as_slice(), other.parts.as_slice())?;
        Ok(Layer { count, fits, parts })
    }

    /// The layer of the parts of this one and of the other: of two conditions of which either holds.
    #[tactic(auto, using(crate::proofs::Pieces::layer_is))]
    pub fn in_turn(&self, alloc: Global, other: &Layer) -> Result<Layer, NoMemory>
        ensures { IfOk result (λ layer. said layer ≡ in_turn_layers (said self.now) (said other.now)) }
    {
        let count = self.count.in_turn(other.count);
        let fits = both(self.fits, other.fits);
        let used = count.is_used(fits);
        let parts = in_turn_if(alloc, used, self.parts.as_slice(), other.parts.as_slice())?;
        Ok(Layer { count, fits, parts })
    }
}
