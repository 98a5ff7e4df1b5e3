//! The audit of a block.

ghost use Rattle.std.specs.Prelude.{◌≡◌, ◌≤◌, length, Ok, Some, None, IfOk, IfErr, MatchOption, bytes_eq};
ghost use Rattle.suite_base.specs.Limits.{max_systems};
ghost use Rattle.scop_core.specs.Sequences.{In};
ghost use Rattle.dependence_systems.specs.Sides.{own_sides};
ghost use Rattle.dependence_systems.specs.Originals.{own_originals};
ghost use Rattle.dependence_systems.specs.Entries.{entries};
ghost use Rattle.dependence_blocks.specs.Blocks.{block_name};
ghost use Rattle.dependence_audit.specs.Contents.{contents};
ghost use Rattle.dependence_audit.specs.Audits as spec;

use crate::comparing::count_is;
use crate::content_lines::ContentLines;
use crate::readings::{Finding, read_entry};
use dependence_systems::{Dep, own_deps, own_pieces, own_system};
use row_core::RowFail;
use scop_core::{Extension, Pieces, Scop};
use std::alloc::Global;
use suite_base::{Fail, List, Refusal, Text, Where};

/// The numbers of a block's systems: of all, of those kept, and of those dropped.
#[derive(Clone, Copy, Debug, PartialEq, Eq)]
pub struct Counts {
    pub systems: u32,
    pub kept: u32,
    pub dropped: u32,
}

/// Compares the block of a SCoP, its first global extension `suite_dependences`, with the systems that the SCoP
/// defines, entry by entry, and checks the multipliers of each dropped one. No system is decided, so nothing is said
/// of the kept ones but that they are the defined ones.
///
/// `Limit(Systems, 0)` comes exactly where there are more than 65,536 systems. `BadCertificate(0)` comes where there
/// is no block, or its first line isn't the number of systems; `BadCertificate(k)` where entry k, from 1, is the
/// first that isn't the defined one, or where k is one above the number of systems and something follows the last
/// entry. `Overflow(System, k)` comes where all entries before k are the defined ones, and the absolute values of an
/// entry's summands in system k sum above 2^127 - 1, or the multipliers of entry k are too heavy to check.
pub fn audit(alloc: Global, scop: &Scop) -> Result<Counts, Fail>
    ensures counts { IfOk result (λ counts. spec.audited scop.now ≡ Ok counts) }
    ensures cause { IfErr result (spec.IsCause (spec.audited scop.now)) }
{
    let pieces = own_pieces(alloc, scop)?;
    let list = own_deps(alloc, scop, &pieces)?;
    match first_block(scop.extensions().as_slice()) {
        None => Err(Fail::Refused(Refusal::BadCertificate(0))),
        Some(lines) => audit_block(alloc, scop, &pieces, &list, lines),
    }
}

// The lines of the first block among extensions.
fn first_block(extensions: &[Extension]) -> Option<&[Text]>
    ensures { MatchOption result (spec.first_named block_name extensions.now ≡ None) (λ lines. spec.first_named block_name extensions.now ≡ Some lines.now) }
{
    for extension in extensions {
        if is_block_name(extension.name.bytes()) {
            return Some(extension.lines.as_slice());
        }
    }
    None
}

// Whether this is the name of a block.
fn is_block_name(name: &[u8]) -> bool
    ensures { result ≡ bytes_eq name.now block_name }
{
    name == b"suite_dependences".as_slice()
}

// Audits the lines of a block.
fn audit_block(
    alloc: Global,
    scop: &Scop,
    pieces: &Pieces,
    list: &List<Dep>,
    lines: &[Text],
) -> Result<Counts, Fail>
    requires own { pieces.now ≡ own_originals scop.now }
    requires list { list.now ≡ entries (own_sides scop.now) }
    requires few { length list.now ≤ max_systems }
    ensures counts { IfOk result (λ counts. spec.counted (spec.read_block scop.now.context (own_sides scop.now) list.now (contents lines.now)) ≡ Ok counts) }
    ensures cause { IfErr result (spec.IsCause (spec.counted (spec.read_block scop.now.context (own_sides scop.now) list.now (contents lines.now)))) }
{
    let mut left = ContentLines::new(lines);
    if takes_count(list.len(), &mut left) {
        audit_entries(alloc, scop, pieces, list.as_slice(), &mut left)
    } else {
        Err(Fail::Refused(Refusal::BadCertificate(0)))
    }
}

// Takes a line, and answers whether it is this count.
fn takes_count(count: usize, lines: &mut ContentLines<'_>) -> bool
    ensures { spec.TakesCount count lines.old result lines.new }
{
    match lines.next() {
        None => false,
        Some(line) => count_is(line, count),
    }
}

// Audits the entries, and that nothing follows them.
fn audit_entries(
    alloc: Global,
    scop: &Scop,
    pieces: &Pieces,
    list: &[Dep],
    lines: &mut ContentLines<'_>,
) -> Result<Counts, Fail>
    requires own { pieces.now ≡ own_originals scop.now }
    requires list { list.now ≡ entries (own_sides scop.now) }
    requires few { length list.now ≤ max_systems }
    ensures counts { IfOk result (λ counts. spec.counted (spec.read_entries scop.now.context (own_sides scop.now) 1 list.now lines.old) ≡ Ok counts) }
    ensures cause { IfErr result (spec.IsCause (spec.counted (spec.read_entries scop.now.context (own_sides scop.now) 1 list.now lines.old))) }
{
    let mut kept: u32 = 0;
    for k in 0..list.len() {
        if audit_entry(alloc, scop, pieces, &list[k], k as u32 + 1, lines)? {
            kept += 1;
        }
    }
    let systems = list.len() as u32;
    match lines.next() {
        None => Ok(Counts {
            systems,
            kept,
            dropped: systems - kept,
        }),
        Some(_) => Err(Fail::Refused(Refusal::BadCertificate(systems + 1))),
    }
}

// Audits the entry with this number; whether it is kept.
fn audit_entry(
    alloc: Global,
    scop: &Scop,
    pieces: &Pieces,
    entry: &Dep,
    number: u32,
    lines: &mut ContentLines<'_>,
) -> Result<bool, Fail>
    requires own { pieces.now ≡ own_originals scop.now }
    requires listed { In entry.now (entries (own_sides scop.now)) }
    ensures stands { IfOk result (spec.EntryStands scop.now.context (own_sides scop.now) number entry.now lines.old lines.new) }
    ensures stops { IfErr result (spec.EntryStops scop.now.context (own_sides scop.now) number entry.now lines.old) }
{
    match own_system(alloc, scop, pieces, entry) {
        Err(RowFail::Memory) => Err(Fail::Memory),
        Err(RowFail::Overflow) => Err(Fail::Refused(Refusal::Overflow(Where::System, number))),
        Ok(system) => match read_entry(alloc, entry, &system, lines)? {
            Finding::Kept => Ok(true),
            Finding::Dropped => Ok(false),
            Finding::Wrong => Err(Fail::Refused(Refusal::BadCertificate(number))),
            Finding::Heavy => Err(Fail::Refused(Refusal::Overflow(Where::System, number))),
        },
    }
}
