//! What one loop or one condition asks of the iterators inside it.

ghost use Rattle.std.specs.Prelude.{◌≡◌, ◌∷◌, [], cond, None, IfOk};
ghost use Rattle.clan_rows.specs.Contents.{count_of, made_part, part_of, said};
ghost use Rattle.clan_rows.specs.Pieces.{single, double};

use crate::constraints::Constraint;
use crate::counts::Count;
use std::alloc::Global;
use suite_base::{List, NoMemory};

/// The parts in which a loop goes on or a condition holds, their count, and whether all forms and rows
/// fit. There are no parts where a number passes its limit or something does not fit.
#[derive(Drop)]
pub struct Layer {
    pub count: Count,
    pub fits: bool,
    pub parts: List<List<Constraint>>,
}

// The one part, where it is used.
fn one_if(
    alloc: Global,
    used: bool,
    part: List<Constraint>,
) -> Result<List<List<Constraint>>, NoMemory>
    ensures { IfOk result (λ parts. parts ≡ cond used (part ∷ []) []) }
{
    let mut parts = List::new(alloc);
    if used {
        parts.push(part)?;
    }
    Ok(parts)
}

// The two parts.
fn two_parts(
    alloc: Global,
    first: List<Constraint>,
    second: List<Constraint>,
) -> Result<List<List<Constraint>>, NoMemory>
    ensures { IfOk result (λ parts. parts ≡ first ∷ (second ∷ [])) }
{
    let mut parts = List::new(alloc);
    parts.push(first)?;
    parts.push(second)?;
    Ok(parts)
}

impl Layer {
    // The layer of something that does not fit.
    fn unfit(alloc: Global, count: Count) -> Layer
        ensures { said result ≡ single (count_of count) None }
    {
        Layer {
            count,
            fits: false,
            parts: List::new(alloc),
        }
    }

    /// The layer of one part of this count, which may not fit.
    #[tactic(auto, using(crate::proofs::Pieces::mapped_if))]
    pub fn of_part(
        alloc: Global,
        count: Count,
        part: Option<List<Constraint>>,
    ) -> Result<Layer, NoMemory>
        ensures { IfOk result (λ layer. said layer ≡ single (count_of count) (made_part part)) }
    {
        match part {
            None => Ok(Layer::unfit(alloc, count)),
            Some(part) => Ok(Layer {
                count,
                fits: true,
                parts: one_if(alloc, count.is_within(), part)?,
            }),
        }
    }

    /// The layer of two parts of one row each, which may not fit.
    pub fn of_two_parts(
        alloc: Global,
        first: Option<List<Constraint>>,
        second: Option<List<Constraint>>,
    ) -> Result<Layer, NoMemory>
        ensures { IfOk result (λ layer. said layer ≡ double (made_part first) (made_part second)) }
    {
        let count = Count {
            parts: 2,
            rows: 1,
            locals: 0,
        };
        match first {
            None => Ok(Layer::unfit(alloc, count)),
            Some(first) => match second {
                None => Ok(Layer::unfit(alloc, count)),
                Some(second) => Ok(Layer {
                    count,
                    fits: true,
                    parts: two_parts(alloc, first, second)?,
                }),
            },
        }
    }
}
