//! The laws of the audit: functions that do nothing, and whose contracts are the laws.

ghost use Rattle.dependence_audit.specs.Defined.{AuditIsExact};
ghost use Rattle.dependence_audit.specs.Theorems.{AuditedBlocksAreSound, PrintedBlocksPass};

/// Where a block passes with some counts, it states so many verdicts, one for each system of the SCoP; no dropped
/// system has a rational point, and for parameter values in context a pair of instances lies in a kept system
/// exactly where it conflicts.
pub fn audited_blocks_are_sound()
    ensures { AuditedBlocksAreSound }
{}

/// The block that is printed of verdicts on all systems of a SCoP passes with these verdicts and their counts, where
/// there are at most 65,536 systems, no summands overflow, and the multipliers of each dropped system are a valid
/// certificate that is not too heavy to check.
pub fn printed_blocks_pass()
    ensures { PrintedBlocksPass }
{}

/// The audit states verdicts exactly where the SCoP has at most 65,536 systems, and its first global block has the
/// number of systems, then the defined entries in order with these verdicts, then nothing.
pub fn audit_is_exact()
    ensures { AuditIsExact }
{}
