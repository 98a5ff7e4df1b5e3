//! The dependence systems of a SCoP, which are timed as they are listed, built and decided.

use crate::scops::scop_in;
use candl_deps::dependences;
use std::alloc::Global;
use std::test::Fail;
use std::time::{Clock, Instant};

/// How many systems a SCoP has, and the time that all of them took in some rounds, in nanoseconds.
#[derive(Clone, Copy, Debug)]
pub struct DependenceTime {
    pub systems: usize,
    pub spent: u128,
}

/// The time in which the systems of the SCoP in `text` are listed, built and decided, in so many rounds; `None` where the
/// text is refused, or one of its systems.
pub fn dependence_time(
    clock: &impl Clock,
    alloc: Global,
    text: &[u8],
    rounds: u32,
) -> Result<Option<DependenceTime>, Fail> {
    let Some(scop) = scop_in(alloc, text) else {
        return Ok(None);
    };
    let mut systems = 0;
    let start = Instant::now(clock)?;
    for _ in 0..rounds {
        match dependences(alloc, &scop) {
            Ok(found) => systems = found.deps().len(),
            Err(_) => return Ok(None),
        }
    }
    Ok(Some(DependenceTime {
        systems,
        spent: start.elapsed(clock)?.as_nanos(),
    }))
}
