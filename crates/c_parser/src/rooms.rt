//! Lists of the tree that take no more room than they need.

ghost use Rattle.std.specs.Prelude.{◌≡◌, [], ◌∷◌, ◌++◌, IfOk, OnOk};

use sqlite_items::Items;
use std::alloc::{AllocError, Global};

/// Appends the item. The first item takes room for itself alone, since most lists of a tree hold one item or
/// none.
pub fn push_item<T: Drop>(alloc: Global, items: &mut Items<T>, item: T) -> Result<(), AllocError>
    ensures { OnOk result (items.new ≡ items.old ++ item ∷ []) }
{
    if items.is_empty() {
        *items = only(alloc, item)?;
        return Ok(());
    }
    items.push(item)
}

// The list of one item.
fn only<T: Drop>(alloc: Global, item: T) -> Result<Items<T>, AllocError>
    ensures { IfOk result (λ items. items ≡ item ∷ []) }
{
    let mut items = Vec::with_capacity(alloc, 1)?;
    items.push(item)?;
    Ok(Items::from_vec(items))
}
