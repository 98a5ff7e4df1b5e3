//! Laws of trails, each as the contract of a function that does nothing.

ghost use Rattle.beta_trails.specs.Laws.{ApartIsRanked, FirstIsPartedAtOne, FissionParts, FuseJoins, ReorderPlaces, SortedTreeAgrees, SortedTreeIsTrail, TrailIsTree};

/// A tree's vectors in rising order are the trail of their agreements and lengths.
pub fn sorted_tree_is_trail()
    ensures { SortedTreeIsTrail }
{}

/// Agreements of rising vectors are below the lengths of both.
pub fn sorted_tree_agrees()
    ensures { SortedTreeAgrees }
{}

/// A trail with agreements below both lengths is a tree.
pub fn trail_is_tree()
    ensures { TrailIsTree }
{}

/// A fission between neighbours takes 1 from their agreement, and changes nothing else.
pub fn fission_parts()
    ensures { FissionParts }
{}

/// A fuse between neighbours adds 1 to their agreement, and changes nothing else.
pub fn fuse_joins()
    ensures { FuseJoins }
{}

/// Neighbours that agree in no entry have the first entries 0, 1 and so on, and zeros behind.
pub fn apart_is_ranked()
    ensures { ApartIsRanked }
{}

/// A reorder of all gives each vector its rank's place in the order.
pub fn reorder_places()
    ensures { ReorderPlaces }
{}

/// The first loop with so many entries in common is parted at its child 1.
pub fn first_is_parted_at_one()
    ensures { FirstIsPartedAtOne }
{}
