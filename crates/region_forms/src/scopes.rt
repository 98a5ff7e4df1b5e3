//! What names stand for at a place of the region.

use suite_base::Text;

/// The source of the region, its parameters, and the names of the loops round a place, from the
/// outermost.
#[derive(Clone, Copy)]
pub struct Scope<'a> {
    pub source: &'a [u8],
    pub parameters: &'a [Text],
    pub loops: &'a [Text],
}
