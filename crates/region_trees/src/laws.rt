//! The laws of the translation of trees: functions that do nothing, and whose contracts are the laws.

ghost use Rattle.region_trees.specs.Laws.{AnswersAreTranslated, ClashesComeFirst, RegionsAreAffine};

/// Where names clash, nothing but the clash is answered.
pub fn clashes_come_first()
    ensures { ClashesComeFirst }
{}

/// Where no place of control is at fault, the region that statements stand for is within the rules of
/// affine values, bounds and conditions: so its SCoP means what it means.
pub fn regions_are_affine()
    ensures { RegionsAreAffine }
{}

/// What is answered for statements is the SCoP of their region: nothing is refused, its parameters and
/// arrays are numbered by first occurrence, and for all values of the parameters it has a run whose
/// final memory is that after the region.
pub fn answers_are_translated()
    ensures { AnswersAreTranslated }
{}
