//! The arguments of a command, which are coefficients, as the numbers that they stand for.

ghost use Rattle.std.specs.Prelude.{◌≡◌, ◌<◌, ◌≤◌, ◌^◌, ◌-◌, pos, int_le, true, false, length, map, min, MatchOption, IfOk};
ghost use Rattle.clay_commands.specs.Arguments.{natural, fits, all_fit, place};

use row_core::Coeff;
use std::alloc::Global;
use suite_base::{List, NoMemory};

// The number as a beta; `None` where it is none of 32 bits.
fn as_beta(number: Coeff) -> Option<u32>
    ensures { MatchOption result (fits number ≡ false) (λ n. (n ≡ natural number) × (fits number ≡ true)) }
{
    let value = number.value();
    if value < 0 || value >= 1 << 32 {
        return None;
    }
    Some(value as u32)
}

/// The numbers as betas; `None` where one of them is none of 32 bits.
pub fn betas_from(alloc: Global, numbers: &[Coeff]) -> Result<Option<List<u32>>, NoMemory>
    ensures { IfOk result (λ betas. MatchOption betas (all_fit numbers.now ≡ false) (λ p. (p ≡ map natural numbers.now) × (all_fit numbers.now ≡ true))) }
{
    let mut made = List::new(alloc);
    for number in numbers {
        match as_beta(*number) {
            None => return Ok(None),
            Some(beta) => made.push(beta)?,
        }
    }
    Ok(Some(made))
}

/// The number as a natural one, but at most `2^32 - 1`.
pub fn clamped(number: Coeff) -> u32
    ensures { result ≡ min (natural number) (2 ^ 32 - 1) }
{
    let value = number.value();
    if value < 0 {
        return 0;
    }
    if value >= 1 << 32 {
        return u32::MAX;
    }
    value as u32
}

/// The place, from 0, of level `k` of `count` levels.
pub fn place_of(k: Coeff, count: usize) -> usize
    requires low { int_le (pos 1) k ≡ true }
    requires high { int_le k (pos count) ≡ true }
    ensures place { result ≡ place k }
    ensures within { result < count }
{
    (k.value() - 1) as usize
}
