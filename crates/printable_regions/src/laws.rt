//! Laws, each as the contract of a function that does nothing.

ghost use Rattle.printable_regions.specs.Laws.{DerivedRegionsArePrintable, DerivedRegionsAreSound, SoundRegionsArePrintable};

/// What the parser derives from a text is sound: each name is a name of C, each text of an assignment
/// a line that a body can hold, and at most twelve loops stand one inside another.
pub fn derived_regions_are_sound()
    ensures { DerivedRegionsAreSound }
{}

/// The names and texts of sound statements can be printed in the SCoP of their region.
pub fn sound_regions_are_printable()
    ensures { SoundRegionsArePrintable }
{}

/// So the names and texts of each region that the parser derives can be printed.
pub fn derived_regions_are_printable()
    ensures { DerivedRegionsArePrintable }
{}
