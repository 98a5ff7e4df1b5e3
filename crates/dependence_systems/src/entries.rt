//! The list of systems, nest by nest.

ghost use Rattle.std.specs.Prelude.{◌≡◌, ◌≤◌, ◌<◌, ◌^◌, ◌+◌, ◌++◌, ◌∷◌, [], length, OnOk, IfErr, Some, None};
ghost use Rattle.suite_base.specs.Limits.{max_systems};
ghost use Rattle.dependence_systems.specs.Entries.{kind_between, can_meet, at_levels, at_target_parts, at_parts, entries_by, entries_from, entries_among, levels_upto, IsTooMany};

use crate::dependences::{Dep, DepKind, Ends};
use scop_core::{Access, AccessKind};
use suite_base::{Fail, List, MAX_SYSTEMS, NoMemory, Refusal, Which};

/// Appends an entry; it refuses by `Limit` exactly where there are 65,536 already.
fn push_entry(list: &mut List<Dep>, dep: Dep) -> Result<(), Fail>
    requires { length list.old ≤ max_systems }
    ensures entry { OnOk result (list.new ≡ list.old ++ dep ∷ []) }
    ensures few { length list.new ≤ max_systems }
    ensures cause { IfErr result (IsTooMany (list.old ++ dep ∷ [])) }
{
    if list.len() >= MAX_SYSTEMS {
        return Err(Fail::Refused(Refusal::Limit(Which::Systems, 0)));
    }
    match list.push(dep) {
        Ok(()) => Ok(()),
        Err(NoMemory) => Err(Fail::Memory),
    }
}

/// Appends an entry for each loop around both statements.
fn push_loops(list: &mut List<Dep>, ends: &Ends, dep: Dep) -> Result<(), Fail>
    requires { length list.old ≤ max_systems }
    ensures entries { OnOk result (list.new ≡ list.old ++ levels_upto dep ends.now.common) }
    ensures few { length list.new ≤ max_systems }
    ensures cause { IfErr result (IsTooMany (list.old ++ levels_upto dep ends.now.common)) }
{
    for k in 0..ends.common {
        push_entry(
            list,
            Dep {
                level: k + 1,
                ..dep
            },
        )?;
    }
    Ok(())
}

/// Appends an entry for each level.
fn push_levels(list: &mut List<Dep>, ends: &Ends, dep: Dep) -> Result<(), Fail>
    requires { length list.old ≤ max_systems }
    ensures entries { OnOk result (list.new ≡ list.old ++ at_levels ends.now dep) }
    ensures few { length list.new ≤ max_systems }
    ensures cause { IfErr result (IsTooMany (list.old ++ at_levels ends.now dep)) }
{
    push_loops(list, ends, dep)?;
    if ends.in_text {
        push_entry(list, Dep { level: 0, ..dep })
    } else {
        Ok(())
    }
}

/// Appends the entries for each part of the target's domain.
fn push_target_parts(list: &mut List<Dep>, ends: &Ends, dep: Dep) -> Result<(), Fail>
    requires { length list.old ≤ max_systems }
    ensures entries { OnOk result (list.new ≡ list.old ++ at_target_parts ends.now dep) }
    ensures few { length list.new ≤ max_systems }
    ensures cause { IfErr result (IsTooMany (list.old ++ at_target_parts ends.now dep)) }
{
    for k in 0..ends.target_parts {
        push_levels(
            list,
            ends,
            Dep {
                target_part: k + 1,
                ..dep
            },
        )?;
    }
    Ok(())
}

/// Appends the entries for each part of the source's domain.
fn push_parts(list: &mut List<Dep>, ends: &Ends, dep: Dep) -> Result<(), Fail>
    requires { length list.old ≤ max_systems }
    ensures entries { OnOk result (list.new ≡ list.old ++ at_parts ends.now dep) }
    ensures few { length list.new ≤ max_systems }
    ensures cause { IfErr result (IsTooMany (list.old ++ at_parts ends.now dep)) }
{
    for k in 0..ends.source_parts {
        push_target_parts(
            list,
            ends,
            Dep {
                source_part: k + 1,
                ..dep
            },
        )?;
    }
    Ok(())
}

/// The kind of a dependence between two accesses; `None` exactly where both only read.
fn kind_of(first: AccessKind, second: AccessKind) -> Option<DepKind>
    ensures { result ≡ kind_between first second }
{
    match first {
        AccessKind::Read => match second {
            AccessKind::Read => None,
            AccessKind::Write => Some(DepKind::War),
            AccessKind::MayWrite => Some(DepKind::War),
        },
        AccessKind::Write => match second {
            AccessKind::Read => Some(DepKind::Raw),
            AccessKind::Write => Some(DepKind::Waw),
            AccessKind::MayWrite => Some(DepKind::Waw),
        },
        AccessKind::MayWrite => match second {
            AccessKind::Read => Some(DepKind::Raw),
            AccessKind::Write => Some(DepKind::Waw),
            AccessKind::MayWrite => Some(DepKind::Waw),
        },
    }
}

/// Whether two accesses are to one array, with equally many subscripts.
fn do_meet(first: &Access, second: &Access) -> bool
    ensures { result ≡ can_meet first.now second.now }
{
    if first.array != second.array {
        return false;
    }
    first.subscripts.len() == second.subscripts.len()
}

/// Appends the entries of two accesses with these numbers.
fn push_meeting(
    list: &mut List<Dep>,
    ends: &Ends,
    source_access: u32,
    target_access: u32,
    first: &Access,
    second: &Access,
) -> Result<(), Fail>
    requires { length list.old ≤ max_systems }
    ensures entries { OnOk result (list.new ≡ list.old ++ entries_by (kind_between first.now.kind second.now.kind) ends.now (source_access, first.now) (target_access, second.now)) }
    ensures few { length list.new ≤ max_systems }
    ensures cause { IfErr result (IsTooMany (list.old ++ entries_by (kind_between first.now.kind second.now.kind) ends.now (source_access, first.now) (target_access, second.now))) }
{
    match kind_of(first.kind, second.kind) {
        None => Ok(()),
        Some(kind) => {
            if !do_meet(first, second) {
                return Ok(());
            }
            let dep = Dep {
                kind,
                source: ends.source,
                target: ends.target,
                source_access,
                target_access,
                source_part: 0,
                target_part: 0,
                level: 0,
            };
            push_parts(list, ends, dep)
        }
    }
}

/// Appends the entries of an access of the source, which has this number.
fn push_from(
    list: &mut List<Dep>,
    ends: &Ends,
    source_access: u32,
    first: &Access,
    seconds: &[Access],
) -> Result<(), Fail>
    requires few { length list.old ≤ max_systems }
    requires count { length seconds.now < 2 ^ 32 }
    ensures entries { OnOk result (list.new ≡ list.old ++ entries_from ends.now (source_access, first.now) seconds.now) }
    ensures few { length list.new ≤ max_systems }
    ensures cause { IfErr result (IsTooMany (list.old ++ entries_from ends.now (source_access, first.now) seconds.now)) }
{
    for k in 0..seconds.len() {
        let number = (k + 1) as u32;
        push_meeting(list, ends, source_access, number, first, &seconds[k])?;
    }
    Ok(())
}

/// Appends the entries of the accesses of two statements.
pub fn push_among(
    list: &mut List<Dep>,
    ends: &Ends,
    firsts: &[Access],
    seconds: &[Access],
) -> Result<(), Fail>
    requires few { length list.old ≤ max_systems }
    requires first_count { length firsts.now < 2 ^ 32 }
    requires second_count { length seconds.now < 2 ^ 32 }
    ensures entries { OnOk result (list.new ≡ list.old ++ entries_among ends.now firsts.now seconds.now) }
    ensures few { length list.new ≤ max_systems }
    ensures cause { IfErr result (IsTooMany (list.old ++ entries_among ends.now firsts.now seconds.now)) }
{
    for k in 0..firsts.len() {
        let number = (k + 1) as u32;
        push_from(list, ends, number, &firsts[k], seconds)?;
    }
    Ok(())
}
