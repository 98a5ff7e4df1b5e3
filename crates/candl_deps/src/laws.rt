//! The law of the two ways to the block: a function that does nothing, and whose contract is the law.

ghost use Rattle.candl_deps.specs.Found.{FoundBlocksAreBlocks};

/// The block that is printed of a SCoP's dependences is the block of the SCoP, as `dependence_block` answers it.
pub fn found_blocks_are_blocks()
    ensures { FoundBlocksAreBlocks }
{}
