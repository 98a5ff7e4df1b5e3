//! The systems of a SCoP, each decided, printed and let go.

ghost use Rattle.std.specs.Prelude.{◌≡◌, ◌<◌, ◌≤◌, ◌^◌, [], ◌∷◌, true, length, IfOk, IfErr, IfSome, OnOk};
ghost use Rattle.suite_base.specs.Limits.{max_systems, max_stage_rows};
ghost use Rattle.scop_core.specs.Sequences.{In};
ghost use Rattle.scop_core.specs.Printable.{are_kept_lines, is_kept, arrays_name};
ghost use Rattle.scop_core.specs.Validity.{IsValid};
ghost use Rattle.elim_core.specs.Peaks.{peak};
ghost use Rattle.dependence_systems.specs.Sides.{own_sides};
ghost use Rattle.dependence_systems.specs.Originals.{own_originals};
ghost use Rattle.dependence_systems.specs.Entries.{entries};
ghost use Rattle.dependence_systems.specs.Systems.{system_of, summand_weight};
ghost use Rattle.dependence_blocks.specs.Blocks.{block_name};
ghost use Rattle.candl_deps.specs.Bases.{IsBase};
ghost use Rattle.candl_deps.specs.Decisions as spec;

use crate::bases::{Base, decided_entry};
use dependence_blocks::{block, print_count, print_entry};
use dependence_systems::{Dep, own_deps, own_pieces};
use elim_core::{ElimFail, Search};
use scop_core::{Extension, Pieces, Scop};
use std::alloc::Global;
use suite_base::{Fail, List, Refusal, Text, Where};

/// The block of a SCoP's dependences, an extension that may take the place of an older one: the systems are
/// decided in order, each is printed and let go.
///
/// `Limit(Systems, 0)` comes exactly where there are more than 65,536. `Overflow(System, k)` and
/// `TooManyRows(k)` come only where the peak of system k, from 1, passes 2^127 - 1 or 16,384 rows and no earlier
/// system was refused; `Overflow` always where the absolute values of an entry's summands in system k sum above
/// 2^127 - 1 and no earlier system was refused.
pub fn dependence_block(alloc: Global, scop: &Scop) -> Result<Extension, Fail>
    ensures is { IfOk result (λ made. spec.IsBlock scop.now made) }
    ensures kept { IfOk result (λ made. is_kept arrays_name made ≡ true) }
    ensures cause { IfErr result (spec.IsCause scop.now) }
{
    let pieces = own_pieces(alloc, scop)?;
    let list = own_entries(alloc, scop, &pieces)?;
    let mut lines = List::new(alloc);
    print_count(alloc, &mut lines, list.len())?;
    print_decided(alloc, scop, &pieces, &list, &mut lines)?;
    let made = block(alloc, lines)?;
    Ok(made)
}

/// The SCoP with the block of its dependences as its last extension, in place of an older block. It refuses as
/// `dependence_block` does.
pub fn with_dependences(alloc: Global, scop: Scop) -> Result<Scop, Fail>
    ensures ok { IfOk result (λ made. spec.WithDependences scop made) }
    ensures valid { IsValid scop }
    ensures cause { IfErr result (spec.IsCause scop) }
{
    scop_is_valid(&scop);
    let made = dependence_block(alloc, &scop)?;
    match scop.with_extension(made) {
        Ok(scop) => Ok(scop),
        Err(_) => Err(Fail::Memory),
    }
}

/// The list of a SCoP's own systems.
pub fn own_entries(alloc: Global, scop: &Scop, pieces: &Pieces) -> Result<List<Dep>, Fail>
    requires own { pieces.now ≡ own_originals scop.now }
    ensures list { IfOk result (λ list. list ≡ entries (own_sides scop.now)) }
    ensures few { IfOk result (λ list. length list ≤ max_systems) }
    ensures cause { IfErr result (spec.IsCause scop.now) }
{
    own_deps(alloc, scop, pieces)
}

// Every Scop is valid: a fact for contracts.
fn scop_is_valid(scop: &Scop)
    ensures { IsValid scop.now }
{
    let _count = scop.statement_count();
}

// Appends the lines of all entries, each with its verdict.
fn print_decided(
    alloc: Global,
    scop: &Scop,
    pieces: &Pieces,
    list: &List<Dep>,
    lines: &mut List<Text>,
) -> Result<(), Fail>
    requires own { pieces.now ≡ own_originals scop.now }
    requires list { list.now ≡ entries (own_sides scop.now) }
    requires few { length list.now ≤ max_systems }
    requires kept { are_kept_lines block_name lines.old ≡ true }
    ensures printed { OnOk result (spec.IsPrinted scop.now.context (own_sides scop.now) list.now lines.old lines.new) }
    ensures kept { OnOk result (are_kept_lines block_name lines.new ≡ true) }
    ensures cause { IfErr result (spec.IsCause scop.now) }
{
    let items = list.as_slice();
    let mut held = None;
    let mut search = Search::new(alloc);
    for k in 0..items.len() {
        let number = k as u32 + 1;
        let entry = &items[k];
        let base = print_one(alloc, scop, pieces, entry, number, held, &mut search, lines)?;
        held = Some(base);
    }
    Ok(())
}

// Decides an entry and appends its lines; `number` is that of its system, and `held` the base of an entry
// before it. It answers the entry's own base.
fn print_one(
    alloc: Global,
    scop: &Scop,
    pieces: &Pieces,
    entry: &Dep,
    number: u32,
    held: Option<Base>,
    search: &mut Search,
    lines: &mut List<Text>,
) -> Result<Base, Fail>
    requires own { pieces.now ≡ own_originals scop.now }
    requires listed { In entry.now (entries (own_sides scop.now)) }
    requires held { IfSome held (IsBase scop.now.context (own_sides scop.now)) }
    requires kept { are_kept_lines block_name lines.old ≡ true }
    ensures base { IfOk result (IsBase scop.now.context (own_sides scop.now)) }
    ensures printed { OnOk result (spec.IsPrinted scop.now.context (own_sides scop.now) (entry.now ∷ []) lines.old lines.new) }
    ensures kept { OnOk result (are_kept_lines block_name lines.new ≡ true) }
    ensures cause { IfErr result (spec.StopsOne scop.now.context (own_sides scop.now) entry.now number) }
{
    match decided_entry(alloc, scop, pieces, entry, held, search) {
        Err(fail) => Err(refused(fail, number)),
        Ok(level) => {
            print_entry(alloc, lines, entry, &level.base.part, &level.certificate)?;
            Ok(level.base.cut_back())
        }
    }
}

/// The refusal of the system with this number.
pub fn refused(fail: ElimFail, number: u32) -> Fail
    ensures { result ≡ spec.refused fail number }
{
    match fail {
        ElimFail::Memory => Fail::Memory,
        ElimFail::Overflow => Fail::Refused(Refusal::Overflow(Where::System, number)),
        ElimFail::TooManyRows => Fail::Refused(Refusal::TooManyRows(number)),
    }
}
