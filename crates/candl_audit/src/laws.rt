//! The law: a function that does nothing, and whose contract is the law.

ghost use Rattle.candl_audit.specs.Theorems.{DependencesPass};

/// A SCoP with the block of its dependences passes the audit with the verdicts that the block was printed of:
/// the counts are those of all systems, of the kept and of the dropped ones.
pub fn dependences_pass()
    ensures { DependencesPass }
{}
