//! Places in the source, by line and column.

ghost use Rattle.std.specs.Prelude.{◌≡◌, ◌<◌, ◌-◌, ◌^◌, IfOk, IsOk, length};
ghost use Rattle.suite_base.specs.Places as spec;

use suite_base::{NoMemory, Place, after_bytes};

/// The place of the byte at `at`. In a text of 2^32 - 1 bytes or more it may have no line or column of 32
/// bits, which is answered as want of memory.
pub fn place_at(source: &[u8], at: usize) -> Result<Place, NoMemory>
    ensures place { IfOk result (λ place. place ≡ spec.place_at source.now at) }
    ensures short { length source.now < 2 ^ 32 - 1 → IsOk result }
{
    let before = &source[..at.min(source.len())];
    if before.len() >= 0xFFFF_FFFF {
        return Err(NoMemory);
    }
    Ok(after_bytes(Place { line: 1, column: 1 }, before))
}
