//! The loops that two statements have in common, from their beta vectors.

ghost use Rattle.std.specs.Prelude.{◌≡◌, ◌<◌, ◌≤◌, drop, length};
ghost use Rattle.scop_core.specs.LevelOrder.{common_loops, is_textually_before};
ghost use Rattle.dependence_systems.specs.Comparisons.{starts_common};

use row_core::Coeff;

/// Whether the vectors agree at place `k`, and both go on behind it.
fn starts_common_at(p: &[Coeff], q: &[Coeff], k: usize) -> bool
    requires { k < length p.now }
    ensures { result ≡ starts_common (drop k p.now) (drop k q.now) }
{
    if k + 1 >= p.len() {
        return false;
    }
    if k + 1 >= q.len() {
        return false;
    }
    p[k] == q[k]
}

/// How many loops are around both of two statements with these beta vectors.
pub fn count_common(p: &[Coeff], q: &[Coeff]) -> usize
    ensures answer { result ≡ common_loops p.now q.now }
    ensures within { result ≤ length p.now }
{
    for k in 0..p.len() {
        if !starts_common_at(p, q, k) {
            return k;
        }
    }
    p.len()
}

/// Whether the first of two statements with these beta vectors stands before the second one in the
/// text.
pub fn is_before_in_text(p: &[Coeff], q: &[Coeff]) -> bool
    ensures { result ≡ is_textually_before p.now q.now }
{
    for k in 0..p.len() {
        if k >= q.len() {
            return false;
        }
        if p[k] != q[k] {
            return p[k].value() < q[k].value();
        }
    }
    false
}
