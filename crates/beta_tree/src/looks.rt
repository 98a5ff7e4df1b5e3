//! What is asked of a list of vectors before an edit.

ghost use Rattle.std.specs.Prelude.{◌≡◌, [], ◌∷◌, ◌++◌, length, not, false, replicate, IfOk, MatchOption};
ghost use Rattle.std.specs.Option.{option_copied};
ghost use Rattle.beta_tree.specs.Vectors.{after as what_follows, no_statement, is_leaf as has_leaf, children_of, IsDense};
ghost use Rattle.beta_tree.specs.Edits.{is_permutation_of, has_all_below};

use std::alloc::Global;
use suite_base::{List, NoMemory};

/// What follows `prefix` in `vector`; `None` where `vector` doesn't begin with it.
pub fn after<'a>(prefix: &[u32], vector: &'a [u32]) -> Option<&'a [u32]>
    ensures { option_copied result ≡ what_follows prefix.now vector.now }
{
    vector.strip_prefix(prefix)
}

/// What stands before the last entry of `prefix`, and that entry; `None` for the empty one.
pub fn split_prefix(prefix: &[u32]) -> Option<(&[u32], u32)>
    ensures { MatchOption result (prefix.now ≡ []) (λ parts. prefix.now ≡ parts.0.now ++ parts.1 ∷ []) }
{
    match prefix {
        [siblings @ .., last] => Some((siblings, *last)),
        [] => None,
    }
}

/// Whether a vector begins with `prefix`.
pub fn is_under(vectors: &List<List<u32>>, prefix: &[u32]) -> bool
    ensures { result ≡ not (no_statement prefix.now vectors.now) }
{
    for vector in vectors.as_slice() {
        if after(prefix, vector.as_slice()).is_some() {
            return true;
        }
    }
    false
}

/// Whether a vector equals `prefix`.
pub fn is_leaf(vectors: &List<List<u32>>, prefix: &[u32]) -> bool
    ensures { result ≡ has_leaf prefix.now vectors.now }
{
    for vector in vectors.as_slice() {
        if let Some([]) = after(prefix, vector.as_slice()) {
            return true;
        }
    }
    false
}

/// The number of children of `prefix`. Since they are numbered without gaps it is one more than the
/// greatest number of a child.
pub fn count_children(vectors: &List<List<u32>>, prefix: &[u32]) -> usize
    requires { IsDense vectors.now }
    ensures { result ≡ children_of prefix.now vectors.now }
{
    let mut count = 0;
    for vector in vectors.as_slice() {
        if let Some([child, ..]) = after(prefix, vector.as_slice()) {
            count = count.max(*child as usize + 1);
        }
    }
    count
}

/// Whether `order` has each number below `count` once, in time linear in `count`.
pub fn is_permutation(alloc: Global, order: &[u32], count: usize) -> Result<bool, NoMemory>
    ensures { IfOk result (λ yes. yes ≡ is_permutation_of count order.now) }
{
    if order.len() != count {
        return Ok(false);
    }
    let mut seen = unset_flags(alloc, count)?;
    Ok(has_each_once(order, &mut seen))
}

// `count` flags that aren't set.
fn unset_flags(alloc: Global, count: usize) -> Result<List<bool>, NoMemory>
    ensures { IfOk result (λ flags. flags ≡ replicate count false) }
{
    let mut flags = List::new(alloc);
    for _k in 0..count {
        flags.push(false)?;
    }
    Ok(flags)
}

// Sets the flag of each entry, up to one that has none or whose flag is set; whether there is no such
// entry.
fn has_each_once(order: &[u32], seen: &mut List<bool>) -> bool
    requires { seen.old ≡ replicate (length order.now) false }
    ensures { result ≡ has_all_below (length order.now) order.now }
{
    for entry in order {
        let k = *entry as usize;
        if k >= seen.len() {
            return false;
        }
        if seen.set(k, true) {
            return false;
        }
    }
    true
}
