//! Pruning: of inequalities with equal coefficients on all variables the one with the least constant
//! stays, the first of them on a tie. Each row is marked in turn, and finds its partner by its key.

ghost use Rattle.std.specs.Prelude.{◌≡◌, ◌<◌, ◌≤◌, ◌+◌, ◌++◌, ◌∷◌, [], Bool, true, false, int_le, take, length, IfOk, OnOk, MatchOption, IsTrue, ◌↔◌};
ghost use Rattle.std.specs.BTreeMap.{get};
ghost use Rattle.std.specs.Ordering.{nat_cmp};
ghost use Rattle.relation_core.specs.Systems.{row_at};
ghost use Rattle.elim_core.specs.Elimination.{is_constant, is_equal, same_cells, alike, normalised};
ghost use Rattle.elim_core.specs.Keys.{key};
ghost use Rattle.elim_core.specs.Pruning.{marked, is_partner, IsAlone, IsFirstPartner, IsIndexed, Puts, Follows, AddsMark};

use crate::keys::key;
use crate::marks::{Marks, Place};
use crate::tableaux::Tableau;
use crate::working_rows::{WorkingRow, is_constant};
use row_core::{Coeff, Row};
use std::alloc::Global;
use std::collections::BTreeMap;
use suite_base::NoMemory;

/// Which of the rows stay: those that have variables, pruned.
pub fn mark<R: Row>(alloc: Global, tableau: &Tableau<R>) -> Result<Vec<bool>, NoMemory>
    ensures count { IfOk result (λ stays. length stays.items ≡ length tableau.now.rows) }
    ensures rows { IfOk result (λ stays. marked tableau.now.rows stays.items ≡ normalised tableau.now.variables tableau.now.rows) }
{
    let mut marks = Marks {
        stays: Vec::with_capacity(alloc, tableau.row_count())?,
        places: BTreeMap::new(alloc),
    };
    for k in 0..tableau.row_count() {
        mark_row(tableau, k, &mut marks)?;
    }
    Ok(marks.stays)
}

// Marks the row at `k`, before which all are marked.
fn mark_row<R: Row>(tableau: &Tableau<R>, k: usize, marks: &mut Marks) -> Result<(), NoMemory>
    requires place { k < length tableau.now.rows }
    requires count { length marks.old.stays.items ≡ k }
    requires indexed { IsIndexed tableau.now.variables tableau.now.rows marks.old.stays.items (get nat_cmp marks.old.places) }
    ensures { OnOk result (AddsMark tableau.now.variables tableau.now.rows k
        marks.old.stays.items marks.new.stays.items (get nat_cmp marks.new.places)) }
{
    let w = tableau.row(k);
    if is_constant(w, tableau.variables()) {
        marks.stays.push(false)?;
        return Ok(());
    }
    if w.is_equality() {
        marks.stays.push(true)?;
        return Ok(());
    }
    mark_inequality(tableau, k, marks)
}

// Marks the row at `k`, an inequality that has variables.
fn mark_inequality<R: Row>(
    tableau: &Tableau<R>,
    k: usize,
    marks: &mut Marks,
) -> Result<(), NoMemory>
    requires place { k < length tableau.now.rows }
    requires count { length marks.old.stays.items ≡ k }
    requires indexed { IsIndexed tableau.now.variables tableau.now.rows marks.old.stays.items (get nat_cmp marks.old.places) }
    requires variables { is_constant tableau.now.variables (row_at tableau.now.rows k) ≡ false }
    ensures { OnOk result (AddsMark tableau.now.variables tableau.now.rows k
        marks.old.stays.items marks.new.stays.items (get nat_cmp marks.new.places)) }
{
    let w = tableau.row(k);
    let own = key(tableau.variables(), w);
    match place_of(marks, own) {
        None => add(marks, own, Place::Only(k)),
        Some(Place::Only(i)) => {
            if is_partner(tableau, marks.stays.as_slice(), k, i) {
                mark_with_partner(tableau, k, i, marks, own, Place::Only(k))
            } else {
                add(marks, own, Place::Several)
            }
        }
        Some(Place::Several) => {
            match find_partner(tableau, marks.stays.as_slice(), k) {
                None => add(marks, own, Place::Several),
                Some(i) => mark_with_partner(tableau, k, i, marks, own, Place::Several),
            }
        }
    }
}

// Marks the row at `k`, of which the one at `i` is the partner: the one with the lesser constant stays.
fn mark_with_partner<R: Row>(
    tableau: &Tableau<R>,
    k: usize,
    i: usize,
    marks: &mut Marks,
    own: u128,
    place: Place,
) -> Result<(), NoMemory>
    requires place { k < length tableau.now.rows }
    requires count { length marks.old.stays.items ≡ k }
    requires indexed { IsIndexed tableau.now.variables tableau.now.rows marks.old.stays.items (get nat_cmp marks.old.places) }
    requires variables { is_constant tableau.now.variables (row_at tableau.now.rows k) ≡ false }
    requires partner { IsFirstPartner tableau.now.variables tableau.now.rows marks.old.stays.items (row_at tableau.now.rows k) i }
    requires own { own ≡ key tableau.now.variables (row_at tableau.now.rows k) }
    requires follows { Follows (get nat_cmp marks.old.places own) place i k }
    ensures { OnOk result (AddsMark tableau.now.variables tableau.now.rows k
        marks.old.stays.items marks.new.stays.items (get nat_cmp marks.new.places)) }
{
    let n = tableau.variables();
    let partner = tableau.row(i);
    let w = tableau.row(k);
    if is_at_most(partner.entry(n), w.entry(n)) {
        marks.stays.push(false)?;
        return Ok(());
    }
    marks.stays[i] = false;
    add(marks, own, place)
}

// The place of the first row that stays and is alike to the one at `k`, before which all are marked.
fn find_partner<R: Row>(tableau: &Tableau<R>, stays: &[bool], k: usize) -> Option<usize>
    requires place { k < length tableau.now.rows }
    requires count { length stays.now ≡ k }
    ensures { MatchOption result (IsAlone tableau.now.variables tableau.now.rows stays.now (row_at tableau.now.rows k))
        (λ i. IsFirstPartner tableau.now.variables tableau.now.rows stays.now (row_at tableau.now.rows k) i) }
{
    for i in 0..k {
        if is_partner(tableau, stays, k, i) {
            return Some(i);
        }
    }
    None
}

// Whether the row at `i` stays and is alike to the one at `k`, before which all are marked.
fn is_partner<R: Row>(tableau: &Tableau<R>, stays: &[bool], k: usize, i: usize) -> bool
    requires place { k < length tableau.now.rows }
    requires count { length stays.now ≡ k }
    ensures { result ≡ is_partner tableau.now.variables tableau.now.rows stays.now (row_at tableau.now.rows k) i }
{
    if i >= stays.len() || !stays[i] {
        return false;
    }
    are_alike(tableau.variables(), tableau.row(i), tableau.row(k))
}

// Whether two rows are inequalities with equal coefficients on all `n` variables.
fn are_alike<R: Row>(n: usize, a: &WorkingRow<R>, b: &WorkingRow<R>) -> bool
    requires left { n ≤ length a.now.entries }
    requires right { n ≤ length b.now.entries }
    ensures { result ≡ alike n a.now b.now }
{
    if a.is_equality() || b.is_equality() {
        return false;
    }
    have_same_variables(n, a, b)
}

// Whether two rows have equal coefficients on all `n` variables.
fn have_same_variables<R: Row>(n: usize, a: &WorkingRow<R>, b: &WorkingRow<R>) -> bool
    requires left { n ≤ length a.now.entries }
    requires right { n ≤ length b.now.entries }
    ensures { result ≡ same_cells (take n a.now.entries) (take n b.now.entries) }
{
    let mut start = 0;
    while start < n {
        let k = a.next_place(start, n);
        if k != b.next_place(start, n) {
            return false;
        }
        if k == n {
            return true;
        }
        if !are_equal(a.entry(k), b.entry(k)) {
            return false;
        }
        start = k + 1;
    }
    true
}

// Whether two coefficients are equal.
fn are_equal(a: Coeff, b: Coeff) -> bool
    ensures { IsTrue result ↔ (a ≡ b) }
{
    a.value() == b.value()
}

// Whether `a` is at most `b`.
fn is_at_most(a: Coeff, b: Coeff) -> bool
    ensures { result ≡ int_le a b }
{
    a.value() <= b.value()
}

// What the map has at a key.
fn place_of(marks: &Marks, own: u128) -> Option<Place>
    ensures { result ≡ get nat_cmp marks.now.places own }
{
    marks.places.get(&own).copied()
}

// Marks the next row to stay, and puts its place at its key.
fn add(marks: &mut Marks, own: u128, place: Place) -> Result<(), NoMemory>
    ensures marks { OnOk result (marks.new.stays.items ≡ marks.old.stays.items ++ (true ∷ [])) }
    ensures places { OnOk result (Puts (get nat_cmp marks.old.places) (get nat_cmp marks.new.places) own place) }
{
    marks.places.insert(own, place)?;
    marks.stays.push(true)?;
    Ok(())
}
