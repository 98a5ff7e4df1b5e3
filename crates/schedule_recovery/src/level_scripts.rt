//! The commands that give one statement, which stands alone in an outer loop, the target's levels.

ghost use Rattle.std.specs.Prelude.{◌≡◌, ◌++◌, ◌+◌, ◌*ℤ◌, ◌<◌, ◌^◌, [], ◌∷◌, ◌==◌, if◌then◌else◌, length, map, pos, swap, take, true, OnOk, IfOk};
ghost use Rattle.std.specs.List.{range_with_len};
ghost use Rattle.row_core.specs.Rows.{scale};
ghost use Rattle.beta_tree.specs.Edits as edit;
ghost use Rattle.chlore_recover.specs.LevelScripts as forms;
ghost use Rattle.chlore_recover.specs.Recoverable.{rows_of, triangle_of};
ghost use Rattle.chlore_recover.specs.Triangles as triangle;
ghost use Rattle.schedule_recovery.specs.Lengths.{EndApart};
ghost use Rattle.schedule_recovery.specs.Steps as step;

use crate::lookups::{is_in_order, own_place_of, place_of};
use crate::pushes::{push_interchange, push_reverse, push_shift, push_skew};
use crate::rows::{is_zero, last_places, last_value, value_ending_at};
use clay_script::Script;
use row_core::Coeff;
use scop_core::Affine;
use std::alloc::Global;
use suite_base::{List, NoMemory};

// Appends the reverse of a level, where the sign is -1.
fn push_reverse_where(
    alloc: Global,
    number: u32,
    level: usize,
    sign: Coeff,
    script: &mut Script,
) -> Result<(), NoMemory>
    ensures { OnOk result (script.new ≡ script.old ++ forms.reverse_where sign (pos number ∷ []) level) }
{
    if sign.value() != -1 {
        return Ok(());
    }
    push_reverse(alloc, number, level, script)
}

// Appends a reverse of each negative level.
fn push_first_reverses(
    alloc: Global,
    number: u32,
    levels: &[Affine],
    script: &mut Script,
) -> Result<(), NoMemory>
    ensures { OnOk result (script.new ≡ script.old ++ forms.first_reverses (pos number ∷ []) 1 (rows_of levels.now)) }
{
    for k in 0..levels.len() {
        let sign = last_value(levels[k].iterators());
        push_reverse_where(alloc, number, k + 1, sign, script)?;
    }
    Ok(())
}

// A coefficient times a sign.
fn signed(sign: Coeff, value: Coeff) -> Coeff
    requires { triangle.is_sign sign ≡ true }
    ensures { result ≡ sign *ℤ value }
{
    if sign.value() == 1 {
        value
    } else {
        value.negated()
    }
}

// Appends the skew of a level by another one, by a sign times a coefficient that isn't 0.
fn push_skew_where(
    alloc: Global,
    number: u32,
    level: usize,
    other: usize,
    sign: Coeff,
    value: Coeff,
    script: &mut Script,
) -> Result<(), NoMemory>
    requires { triangle.is_sign sign ≡ true }
    ensures { OnOk result (script.new ≡ script.old ++ step.skew_where (pos number ∷ []) level other (sign *ℤ value)) }
{
    if value.is_zero() {
        return Ok(());
    }
    push_skew(alloc, number, level, other, signed(sign, value), script)
}

// Appends the skews of a level by the levels before it, with these factors times a sign.
fn push_row_skews(
    alloc: Global,
    number: u32,
    level: usize,
    sign: Coeff,
    factors: &[Coeff],
    script: &mut Script,
) -> Result<(), NoMemory>
    requires { triangle.is_sign sign ≡ true }
    ensures { OnOk result (script.new ≡ script.old ++ forms.row_skews (pos number ∷ []) level 1 (scale sign factors.now)) }
{
    for k in 0..factors.len() {
        push_skew_where(alloc, number, level, k + 1, sign, factors[k], script)?;
    }
    Ok(())
}

// Appends the skews of the level for the iterator at this place, by the row that ends there.
fn push_skews_at(
    alloc: Global,
    number: u32,
    place: usize,
    levels: &[Affine],
    places: &[usize],
    script: &mut Script,
) -> Result<(), NoMemory>
    requires small { place < length levels.now }
    requires signs { triangle.end_in_signs (rows_of levels.now) ≡ true }
    requires places { places.now ≡ map triangle.last_place (rows_of levels.now) }
    requires apart { triangle.differ places.now ≡ true }
    ensures { let row = triangle.row_ending_at place (rows_of levels.now) in
        OnOk result (script.new ≡ script.old ++ forms.row_skews (pos number ∷ []) (place + 1) 1 (take place row)) }
{
    let k = own_place_of(place, places);
    if k >= levels.len() {
        return Ok(());
    }
    let row = levels[k].iterators();
    let end = place.min(row.len());
    let sign = value_ending_at(place, row);
    push_row_skews(alloc, number, place + 1, sign, &row[..end], script)?;
    Ok(())
}

// Appends the skews, of the last iterator's level first.
fn push_skews(
    alloc: Global,
    number: u32,
    levels: &[Affine],
    places: &[usize],
    script: &mut Script,
) -> Result<(), NoMemory>
    requires signs { triangle.end_in_signs (rows_of levels.now) ≡ true }
    requires places { places.now ≡ map triangle.last_place (rows_of levels.now) }
    requires apart { triangle.differ places.now ≡ true }
    ensures { let rows = triangle_of (length levels.now) (rows_of levels.now) in
        OnOk result (script.new ≡ script.old ++ forms.skews (pos number ∷ []) 1 rows) }
{
    let mut left = levels.len();
    while left > 0 {
        left -= 1;
        push_skews_at(alloc, number, left, levels, places, script)?;
    }
    Ok(())
}

// The sign of the row that ends at this place, and 0 where none does.
fn sign_at(place: usize, levels: &[Affine], places: &[usize]) -> Coeff
    requires places { places.now ≡ map triangle.last_place (rows_of levels.now) }
    requires apart { triangle.differ places.now ≡ true }
    ensures { result ≡ triangle.sign_at place (rows_of levels.now) }
{
    let k = own_place_of(place, places);
    if k >= levels.len() {
        return Coeff::ZERO;
    }
    value_ending_at(place, levels[k].iterators())
}

// Appends a reverse of each iterator for which the row that ends there is negative.
fn push_second_reverses(
    alloc: Global,
    number: u32,
    levels: &[Affine],
    places: &[usize],
    script: &mut Script,
) -> Result<(), NoMemory>
    requires places { places.now ≡ map triangle.last_place (rows_of levels.now) }
    requires apart { triangle.differ places.now ≡ true }
    ensures { let all = range_with_len 0 (length levels.now) in
        OnOk result (script.new ≡ script.old ++ forms.second_reverses (pos number ∷ []) all (rows_of levels.now)) }
{
    for k in 0..levels.len() {
        let sign = sign_at(k, levels, places);
        push_reverse_where(alloc, number, k + 1, sign, script)?;
    }
    Ok(())
}

// The numbers below a count.
fn numbers_below(alloc: Global, count: usize) -> Result<Vec<usize>, NoMemory>
    ensures { IfOk result (λ made. made.items ≡ range_with_len 0 count) }
{
    let mut made = Vec::with_capacity(alloc, count)?;
    for k in 0..count {
        made.push(k)?;
    }
    Ok(made)
}

// Appends the interchange of a level with the one where the wanted row stands, and exchanges the rows too.
fn push_interchange_where(
    alloc: Global,
    number: u32,
    k: usize,
    wanted: usize,
    standing: &mut [usize],
    script: &mut Script,
) -> Result<(), NoMemory>
    requires place { k < length standing.old }
    requires there { edit.place_of wanted standing.old < length standing.old }
    ensures script { OnOk result (script.new ≡ script.old ++ step.interchange_where (pos number ∷ []) k wanted standing.old) }
    ensures standing { OnOk result (standing.new ≡ step.standing_after k wanted standing.old) }
{
    let other = place_of(wanted, standing);
    if other == k {
        return Ok(());
    }
    push_interchange(alloc, number, k + 1, other + 1, script)?;
    standing.swap(k, other);
    Ok(())
}

// Appends the interchanges that bring the rows, which end at these places, to their levels.
fn push_interchanges(
    alloc: Global,
    number: u32,
    places: &[usize],
    script: &mut Script,
) -> Result<(), NoMemory>
    requires { step.AreBelow (length places.now) places.now }
    ensures { let all = range_with_len 0 (length places.now) in
        OnOk result (script.new ≡ script.old ++ forms.interchanges (pos number ∷ []) 0 all places.now) }
{
    if is_in_order(places) {
        return Ok(());
    }
    let mut standing = numbers_below(alloc, places.len())?;
    for k in 0..places.len() {
        push_interchange_where(alloc, number, k, places[k], standing.as_mut_slice(), script)?;
    }
    Ok(())
}

// Appends the shift of a level, where the form has a coefficient of a parameter or a constant that isn't 0.
fn push_shift_where(
    alloc: Global,
    number: u32,
    level: usize,
    form: &Affine,
    script: &mut Script,
) -> Result<(), NoMemory>
    ensures { OnOk result (script.new ≡ script.old ++ step.shift_where (pos number ∷ []) level form.now) }
{
    if is_zero(form.parameters()) && form.constant().value() == 0 {
        return Ok(());
    }
    push_shift(alloc, number, level, form, script)
}

// Appends a shift of each level that has one.
fn push_shifts(
    alloc: Global,
    number: u32,
    levels: &[Affine],
    script: &mut Script,
) -> Result<(), NoMemory>
    ensures { OnOk result (script.new ≡ script.old ++ forms.shifts (pos number ∷ []) 1 levels.now) }
{
    for k in 0..levels.len() {
        push_shift_where(alloc, number, k + 1, &levels[k], script)?;
    }
    Ok(())
}

/// Appends the commands that turn the first levels, in Clan's form, into the second ones, which end apart,
/// for the statement in the outer loop with this number.
pub fn push_level_script(
    alloc: Global,
    number: u32,
    original: &[Affine],
    target: &[Affine],
    script: &mut Script,
) -> Result<(), NoMemory>
    requires { EndApart target.now }
    ensures { OnOk result (script.new ≡ script.old ++ forms.level_script (pos number ∷ []) original.now target.now) }
{
    let places = last_places(alloc, target)?;
    push_first_reverses(alloc, number, original, script)?;
    push_skews(alloc, number, target, places.as_slice(), script)?;
    push_second_reverses(alloc, number, target, places.as_slice(), script)?;
    push_interchanges(alloc, number, places.as_slice(), script)?;
    push_shifts(alloc, number, target, script)
}
