//! The verdict of each system, over the rows that it shares with the systems of the same accesses and parts at
//! other levels: these are built once, and reduced once where the simplex method leaves a system open. Those that
//! do not speak of accesses are built once for all accesses in the same parts.

ghost use Rattle.std.specs.Prelude.{◌≡◌, ◌<◌, ◌≤◌, ◌^◌, IsTrue, IfOk, IfErr, IfSome, OnOk};
ghost use Rattle.scop_core.specs.Sequences.{In};
ghost use Rattle.relation_core.specs.Systems.{truncated};
ghost use Rattle.dependence_systems.specs.Sides.{own_sides};
ghost use Rattle.dependence_systems.specs.Originals.{own_originals};
ghost use Rattle.dependence_systems.specs.Entries.{entries};
ghost use Rattle.dependence_systems.specs.Systems.{ground_of, base_of, base_weight, pairing_of, system_of, level_weight, summand_weight};
ghost use Rattle.candl_deps.specs.Decisions.{IsRight, IsDecided, FailsOne};
ghost use Rattle.candl_deps.specs.Bases as spec;

use dependence_systems::{Dep, DepKind, own_pairing};
use elim_core::{ElimFail, Reduced, Search, Verdict, decide_with, reduce};
use farkas_cert::Certificate;
use relation_core::Part;
use row_core::{RowFail, SparseRow};
use scop_core::{Pieces, Scop};
use std::alloc::Global;
use suite_base::NoMemory;

/// The rows that the systems of an entry, and of those that differ from it in the level alone, begin with; and
/// the same reduced, once the elimination has wanted them. While a level is decided, its rows stand behind the
/// first `count` rows. The first `ground` rows do not speak of accesses.
#[derive(Drop)]
pub struct Base {
    entry: Dep,
    pub part: Part,
    ground: usize,
    count: usize,
    reduced: Option<Reduced<SparseRow>>,
}

/// A decided system: its rows are those of the base's part. No certificate where it is kept, that is where it
/// has a rational point.
#[derive(Drop)]
pub struct Level {
    pub base: Base,
    pub certificate: Option<Certificate>,
}

// The verdict on a system, as a certificate or none, and its base's rows, if they are reduced by now.
#[derive(Drop)]
struct Decision {
    certificate: Option<Certificate>,
    reduced: Option<Reduced<SparseRow>>,
}

impl Base {
    /// The base without the rows of a level.
    pub fn cut_back(self) -> Base
        ensures { result ≡ spec.cut_back self }
    {
        let mut base = self;
        base.part.truncate(base.count);
        base
    }

    // The rows that do not speak of accesses.
    fn ground_alone(self) -> Part
        ensures { result ≡ truncated self.ground self.part }
    {
        let mut part = self.part;
        part.truncate(self.ground);
        part
    }
}

// Whether two entries differ in the level alone.
fn have_one_base(a: &Dep, b: &Dep) -> bool
    ensures { IsTrue result → spec.without_level a.now ≡ spec.without_level b.now }
{
    Dep { level: 0, ..*a } == Dep { level: 0, ..*b }
}

// An entry without what tells one pair of accesses from another, and without its level.
fn without_accesses(entry: &Dep) -> Dep
    ensures { result ≡ spec.without_accesses entry.now }
{
    Dep {
        kind: DepKind::Raw,
        source_access: 0,
        target_access: 0,
        level: 0,
        ..*entry
    }
}

// Whether two entries differ in their accesses and the level alone.
fn have_one_ground(a: &Dep, b: &Dep) -> bool
    ensures { IsTrue result → spec.without_accesses a.now ≡ spec.without_accesses b.now }
{
    without_accesses(a) == without_accesses(b)
}

// The base of an entry, which is not reduced yet, from its rows that do not speak of accesses.
fn base_over(scop: &Scop, pieces: &Pieces, entry: &Dep, ground: Part) -> Result<Base, ElimFail>
    requires own { pieces.now ≡ own_originals scop.now }
    requires listed { In entry.now (entries (own_sides scop.now)) }
    requires ground { ground ≡ ground_of (pairing_of scop.now.context (own_sides scop.now) entry.now) }
    ensures base { IfOk result (spec.IsBaseOf scop.now.context (own_sides scop.now) entry.now) }
    ensures cause { IfErr result (FailsOne scop.now.context (own_sides scop.now) entry.now) }
{
    let pairing = own_pairing(scop, pieces, entry);
    let rows = ground.row_count();
    let mut part = ground;
    match pairing.push_subscripts(&mut part) {
        Err(RowFail::Memory) => Err(ElimFail::Memory),
        Err(RowFail::Overflow) => Err(ElimFail::Overflow),
        Ok(()) => Ok(Base {
            entry: *entry,
            ground: rows,
            count: part.row_count(),
            part,
            reduced: None,
        }),
    }
}

// The base of an entry, which is not reduced yet.
fn new_base(alloc: Global, scop: &Scop, pieces: &Pieces, entry: &Dep) -> Result<Base, ElimFail>
    requires own { pieces.now ≡ own_originals scop.now }
    requires listed { In entry.now (entries (own_sides scop.now)) }
    ensures base { IfOk result (spec.IsBaseOf scop.now.context (own_sides scop.now) entry.now) }
    ensures cause { IfErr result (FailsOne scop.now.context (own_sides scop.now) entry.now) }
{
    let pairing = own_pairing(scop, pieces, entry);
    match pairing.ground(alloc) {
        Err(NoMemory) => Err(ElimFail::Memory),
        Ok(ground) => base_over(scop, pieces, entry, ground),
    }
}

// The base of an entry: the one at hand where the two entries differ in the level alone, else a new one, over
// the rows at hand where they differ in their accesses too.
fn base_for(
    alloc: Global,
    scop: &Scop,
    pieces: &Pieces,
    entry: &Dep,
    held: Option<Base>,
) -> Result<Base, ElimFail>
    requires own { pieces.now ≡ own_originals scop.now }
    requires listed { In entry.now (entries (own_sides scop.now)) }
    requires held { IfSome held (spec.IsBase scop.now.context (own_sides scop.now)) }
    ensures base { IfOk result (spec.IsBaseOf scop.now.context (own_sides scop.now) entry.now) }
    ensures cause { IfErr result (FailsOne scop.now.context (own_sides scop.now) entry.now) }
{
    match held {
        None => new_base(alloc, scop, pieces, entry),
        Some(base) => {
            if have_one_base(&base.entry, entry) {
                return Ok(base);
            }
            if have_one_ground(&base.entry, entry) {
                return base_over(scop, pieces, entry, base.ground_alone());
            }
            new_base(alloc, scop, pieces, entry)
        }
    }
}

// The rows of an entry's base, reduced: those at hand, or else the base is made and reduced.
fn reduced_for(
    alloc: Global,
    scop: &Scop,
    pieces: &Pieces,
    entry: &Dep,
    held: Option<Reduced<SparseRow>>,
) -> Result<Reduced<SparseRow>, ElimFail>
    requires own { pieces.now ≡ own_originals scop.now }
    requires listed { In entry.now (entries (own_sides scop.now)) }
    requires held { IfSome held (λ rows. rows ≡ base_of (pairing_of scop.now.context (own_sides scop.now) entry.now)) }
    ensures rows { IfOk result (λ rows. rows ≡ base_of (pairing_of scop.now.context (own_sides scop.now) entry.now)) }
    ensures cause { IfErr result (FailsOne scop.now.context (own_sides scop.now) entry.now) }
{
    match held {
        Some(rows) => Ok(rows),
        None => {
            let base = new_base(alloc, scop, pieces, entry)?;
            match reduce::<SparseRow>(alloc, &base.part) {
                Ok(rows) => Ok(rows),
                Err(NoMemory) => Err(ElimFail::Memory),
            }
        }
    }
}

// Decides the system of an entry by the elimination, which begins with the reduced base.
fn eliminate(
    alloc: Global,
    scop: &Scop,
    pieces: &Pieces,
    entry: &Dep,
    reduced: Option<Reduced<SparseRow>>,
    system: &Part,
) -> Result<Decision, ElimFail>
    requires own { pieces.now ≡ own_originals scop.now }
    requires listed { In entry.now (entries (own_sides scop.now)) }
    requires reduced { IfSome reduced (λ rows. rows ≡ base_of (pairing_of scop.now.context (own_sides scop.now) entry.now)) }
    requires system { system.now ≡ system_of scop.now.context (own_sides scop.now) entry.now }
    ensures right { IfOk result (λ found. IsRight system.now found.certificate) }
    ensures reduced { IfOk result (λ found. IfSome found.reduced (λ rows. rows ≡ base_of (pairing_of scop.now.context (own_sides scop.now) entry.now))) }
    ensures cause { IfErr result (FailsOne scop.now.context (own_sides scop.now) entry.now) }
{
    let rows = reduced_for(alloc, scop, pieces, entry, reduced)?;
    match decide_with::<SparseRow>(alloc, &rows, system) {
        Err(fail) => Err(fail),
        Ok(Verdict::HasPoint) => Ok(Decision {
            certificate: None,
            reduced: Some(rows),
        }),
        Ok(Verdict::Empty(certificate)) => Ok(Decision {
            certificate: Some(certificate),
            reduced: Some(rows),
        }),
    }
}

// Decides the system of an entry: by a search, and where that finds nothing, by the elimination.
fn decide(
    alloc: Global,
    scop: &Scop,
    pieces: &Pieces,
    entry: &Dep,
    reduced: Option<Reduced<SparseRow>>,
    search: &mut Search,
    system: &Part,
) -> Result<Decision, ElimFail>
    requires own { pieces.now ≡ own_originals scop.now }
    requires listed { In entry.now (entries (own_sides scop.now)) }
    requires reduced { IfSome reduced (λ rows. rows ≡ base_of (pairing_of scop.now.context (own_sides scop.now) entry.now)) }
    requires system { system.now ≡ system_of scop.now.context (own_sides scop.now) entry.now }
    ensures right { IfOk result (λ found. IsRight system.now found.certificate) }
    ensures reduced { IfOk result (λ found. IfSome found.reduced (λ rows. rows ≡ base_of (pairing_of scop.now.context (own_sides scop.now) entry.now))) }
    ensures cause { IfErr result (FailsOne scop.now.context (own_sides scop.now) entry.now) }
{
    match search.search(alloc, system) {
        Err(NoMemory) => Err(ElimFail::Memory),
        Ok(None) => eliminate(alloc, scop, pieces, entry, reduced, system),
        Ok(Some(Verdict::HasPoint)) => Ok(Decision {
            certificate: None,
            reduced,
        }),
        Ok(Some(Verdict::Empty(found))) => Ok(Decision {
            certificate: Some(found),
            reduced,
        }),
    }
}

// Appends the rows of an entry's level to its base's and decides the system.
fn decide_level(
    alloc: Global,
    scop: &Scop,
    pieces: &Pieces,
    entry: &Dep,
    reduced: Option<Reduced<SparseRow>>,
    search: &mut Search,
    part: &mut Part,
) -> Result<Decision, ElimFail>
    requires own { pieces.now ≡ own_originals scop.now }
    requires listed { In entry.now (entries (own_sides scop.now)) }
    requires light { base_weight (pairing_of scop.now.context (own_sides scop.now) entry.now) < 2 ^ 127 }
    requires part { part.old ≡ base_of (pairing_of scop.now.context (own_sides scop.now) entry.now) }
    requires reduced { IfSome reduced (λ rows. rows ≡ base_of (pairing_of scop.now.context (own_sides scop.now) entry.now)) }
    ensures decided { IfOk result (λ found. IsDecided scop.now.context (own_sides scop.now) entry.now part.new found.certificate) }
    ensures reduced { IfOk result (λ found. IfSome found.reduced (λ rows. rows ≡ base_of (pairing_of scop.now.context (own_sides scop.now) entry.now))) }
    ensures cause { IfErr result (FailsOne scop.now.context (own_sides scop.now) entry.now) }
{
    let pairing = own_pairing(scop, pieces, entry);
    match pairing.push_level(part, entry.level as usize) {
        Err(RowFail::Memory) => Err(ElimFail::Memory),
        Err(RowFail::Overflow) => Err(ElimFail::Overflow),
        Ok(()) => decide(alloc, scop, pieces, entry, reduced, search, part),
    }
}

/// Builds and decides the system of an entry of a SCoP's own list; `held` is the base of an entry before it, and
/// `search` that of the systems before it.
pub fn decided_entry(
    alloc: Global,
    scop: &Scop,
    pieces: &Pieces,
    entry: &Dep,
    held: Option<Base>,
    search: &mut Search,
) -> Result<Level, ElimFail>
    requires own { pieces.now ≡ own_originals scop.now }
    requires listed { In entry.now (entries (own_sides scop.now)) }
    requires held { IfSome held (spec.IsBase scop.now.context (own_sides scop.now)) }
    ensures decided { IfOk result (λ level. IsDecided scop.now.context (own_sides scop.now) entry.now level.base.part level.certificate) }
    ensures base { IfOk result (λ level. spec.IsBase scop.now.context (own_sides scop.now) (spec.cut_back level.base)) }
    ensures cause { IfErr result (FailsOne scop.now.context (own_sides scop.now) entry.now) }
{
    let mut base = base_for(alloc, scop, pieces, entry, held)?;
    let reduced = base.reduced.take();
    let found = decide_level(alloc, scop, pieces, entry, reduced, search, &mut base.part)?;
    base.reduced = found.reduced;
    Ok(Level {
        base,
        certificate: found.certificate,
    })
}
