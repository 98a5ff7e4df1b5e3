//! Members of lists by their numbers, from 1.

ghost use Rattle.std.specs.Prelude.{◌≡◌, Some, IsSome};
ghost use Rattle.dependence_systems.specs.Sides.{member};

use scop_core::Pieces;

/// Item number `k`, from 1, which is there.
pub fn numbered<T>(items: &[T], k: u32) -> &T
    requires { IsSome (member items.now k) }
    ensures { member items.now k ≡ Some result.now }
{
    &items[k as usize - 1]
}

/// The original of piece number `k`, from 1, which is there.
pub fn original_of(pieces: &Pieces, k: u32) -> u32
    requires { IsSome (member pieces.now k) }
    ensures { member pieces.now k ≡ Some result }
{
    match pieces.get(k as usize - 1) {
        Some(original) => *original,
        None => unreachable!(),
    }
}
