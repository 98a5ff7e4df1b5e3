//! The systems of a SCoP decided in order, and the block of what was decided.

ghost use Rattle.std.specs.Prelude.{◌≡◌, ◌≤◌, ◌++◌, true, length, IfOk, IfErr, IfSome, OnOk};
ghost use Rattle.suite_base.specs.Limits.{max_systems};
ghost use Rattle.scop_core.specs.Sequences.{In};
ghost use Rattle.scop_core.specs.Printable.{are_kept_lines, is_kept, arrays_name};
ghost use Rattle.dependence_systems.specs.Sides.{own_sides};
ghost use Rattle.dependence_systems.specs.Originals.{own_originals};
ghost use Rattle.dependence_systems.specs.Entries.{entries};
ghost use Rattle.dependence_blocks.specs.Blocks.{block_name, block_of};
ghost use Rattle.candl_deps.specs.Bases.{IsBase};
ghost use Rattle.candl_deps.specs.Decisions.{IsCause, StopsOne};
ghost use Rattle.candl_deps.specs.Found as spec;

use crate::bases::{Base, Level, decided_entry};
use crate::decisions::{own_entries, refused};
use crate::held::{Decided, Dependences};
use dependence_blocks::{block, entry_is_readable, print_count, print_entry};
use dependence_systems::{Dep, own_pieces};
use elim_core::Search;
use scop_core::{Extension, Pieces, Scop};
use std::alloc::Global;
use suite_base::{Fail, List, NoMemory, Text};

/// The dependences of a SCoP: its systems, decided in order. A system is kept exactly where it has a rational
/// point. It refuses as `dependence_block` does.
pub fn dependences(alloc: Global, scop: &Scop) -> Result<Dependences, Fail>
    ensures are { IfOk result (spec.AreDependences scop.now) }
    ensures cause { IfErr result (IsCause scop.now) }
{
    let pieces = own_pieces(alloc, scop)?;
    let deps = own_entries(alloc, scop, &pieces)?;
    let decided = decided_entries(alloc, scop, &pieces, &deps)?;
    Ok(Dependences { deps, decided })
}

// The systems of a list, decided.
fn decided_entries(
    alloc: Global,
    scop: &Scop,
    pieces: &Pieces,
    list: &List<Dep>,
) -> Result<List<Decided>, Fail>
    requires own { pieces.now ≡ own_originals scop.now }
    requires list { list.now ≡ entries (own_sides scop.now) }
    requires few { length list.now ≤ max_systems }
    ensures decided { IfOk result (spec.AreDecided scop.now.context (own_sides scop.now) list.now) }
    ensures cause { IfErr result (IsCause scop.now) }
{
    let items = list.as_slice();
    let mut made = List::new(alloc);
    let mut held = None;
    let mut search = Search::new(alloc);
    for k in 0..items.len() {
        let number = k as u32 + 1;
        let entry = &items[k];
        let base = push_decided(
            alloc,
            scop,
            pieces,
            entry,
            number,
            held,
            &mut search,
            &mut made,
        )?;
        held = Some(base);
    }
    Ok(made)
}

// Appends the decided system of an entry; `number` is that of its system, and `held` the base of an entry before
// it. It answers the entry's own base.
fn push_decided(
    alloc: Global,
    scop: &Scop,
    pieces: &Pieces,
    entry: &Dep,
    number: u32,
    held: Option<Base>,
    search: &mut Search,
    made: &mut List<Decided>,
) -> Result<Base, Fail>
    requires own { pieces.now ≡ own_originals scop.now }
    requires listed { In entry.now (entries (own_sides scop.now)) }
    requires held { IfSome held (IsBase scop.now.context (own_sides scop.now)) }
    ensures base { IfOk result (IsBase scop.now.context (own_sides scop.now)) }
    ensures pushed { OnOk result (spec.IsPushed scop.now.context (own_sides scop.now) entry.now made.old made.new) }
    ensures cause { IfErr result (StopsOne scop.now.context (own_sides scop.now) entry.now number) }
{
    match decided_entry(alloc, scop, pieces, entry, held, search) {
        Err(fail) => Err(refused(fail, number)),
        Ok(level) => {
            let Level { base, certificate } = level;
            let system = base.part.copy(alloc)?;
            entry_is_readable(entry, &system, &certificate);
            made.push(Decided {
                system,
                certificate,
            })?;
            Ok(base.cut_back())
        }
    }
}

/// The block of dependences: the number of systems, then for each system in order its words, and its rows or
/// its multipliers.
pub fn print_dependences(alloc: Global, found: &Dependences) -> Result<Extension, NoMemory>
    ensures is { IfOk result (λ made. made ≡ block_of (spec.found_block found.now)) }
    ensures kept { IfOk result (λ made. is_kept arrays_name made ≡ true) }
{
    let mut lines = List::new(alloc);
    print_count(alloc, &mut lines, found.deps.len())?;
    print_found(
        alloc,
        &mut lines,
        found.deps.as_slice(),
        found.decided.as_slice(),
    )?;
    block(alloc, lines)
}

// Appends the lines of entries, each with the decided system at its place.
fn print_found(
    alloc: Global,
    lines: &mut List<Text>,
    deps: &[Dep],
    decided: &[Decided],
) -> Result<(), NoMemory>
    requires kept { are_kept_lines block_name lines.old ≡ true }
    ensures lines { OnOk result (lines.new ≡ lines.old ++ spec.found_lines deps.now decided.now) }
    ensures kept { OnOk result (are_kept_lines block_name lines.new ≡ true) }
{
    let mut left = decided;
    for entry in deps {
        match left {
            [one, rest @ ..] => {
                print_entry(alloc, lines, entry, &one.system, &one.certificate)?;
                left = rest;
            }
            [] => return Ok(()),
        }
    }
    Ok(())
}
