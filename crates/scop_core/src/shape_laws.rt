//! The laws of the shapes of SCoPs: functions that do nothing, and whose contracts are the laws.

ghost use Rattle.scop_core.specs.Assemblable.{AssemblableDataReadsBack, ValidScopsAreAssemblable};
ghost use Rattle.scop_core.specs.Shapes.{ValidScopsAreFormed, ValidScopsAreShaped};

/// The shapes of a valid SCoP: the context has parameters alone; each domain has a part, and each of its
/// parts the iterators as outputs and no inputs; schedules and accesses are in solved form, with forms of
/// the right sizes, one beta more than levels, and floors that use earlier floors alone.
pub fn valid_scops_are_shaped()
    ensures { ValidScopsAreShaped }
{}

/// In a valid SCoP the rows of the context and of each domain part are as wide as their shapes, and all
/// coefficients are in range.
pub fn valid_scops_are_formed()
    ensures { ValidScopsAreFormed }
{}

/// Data with the shapes of a SCoP, within the limits, with texts that can be printed and beta vectors
/// apart, is what the pieces that it is printed as give, without a refusal.
pub fn assemblable_data_reads_back()
    ensures { AssemblableDataReadsBack }
{}

/// Every valid SCoP is such data: with the law above, the data that pieces can give is known by its shapes,
/// limits, texts and vectors alone.
pub fn valid_scops_are_assemblable()
    ensures { ValidScopsAreAssemblable }
{}
