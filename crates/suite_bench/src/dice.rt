//! Numbers that a seed gives, always the same.

ghost use Rattle.std.specs.Prelude.{◌<◌, pos, ◌≤ℤ◌, ◌<ℤ◌};

/// A sequence of numbers.
#[derive(Drop)]
pub struct Dice {
    state: u64,
}

impl Dice {
    /// The sequence of a seed.
    pub fn new(seed: u64) -> Dice {
        Dice {
            state: seed.wrapping_mul(0x9E37_79B9_7F4A_7C15),
        }
    }

    /// A number below `count`.
    pub fn below(&mut self, count: usize) -> usize
        requires { 0 < count }
        ensures { result < count }
    {
        self.next() as usize % count
    }

    /// A number from 0 to `count` - 1.
    pub fn small(&mut self, count: u8) -> i16
        requires { 0 < count }
        ensures low { pos 0 ≤ℤ result }
        ensures high { result <ℤ pos count }
    {
        i16::from((self.next() % u64::from(count)) as u8)
    }

    // The next number, by multiplication and shifts.
    fn next(&mut self) -> u64 {
        self.state = self.state.wrapping_add(0x9E37_79B9_7F4A_7C15);
        let a = (self.state ^ (self.state >> 30)).wrapping_mul(0xBF58_476D_1CE4_E5B9);
        let b = (a ^ (a >> 27)).wrapping_mul(0x94D0_49BB_1331_11EB);
        (b ^ (b >> 31)) >> 16
    }
}
