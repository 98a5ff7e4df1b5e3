//! The accesses of the assignment at hand, gathered one by one.

ghost use Rattle.std.specs.Prelude.{◌≡◌, ◌≤◌, ◌+◌, ◌&&◌, [], ◌∷◌, ◌++◌, length, map, min, nat_le, IfOk, OnOk, OnErr, is_none};
ghost use Rattle.suite_base.specs.Limits.{max_accesses};
ghost use Rattle.clan_extract.specs.Regions.{number_in};
ghost use Rattle.clan_rows.specs.Contents.{affine_of, made};
ghost use Rattle.clan_walk.specs.Walk.{all_fit, fitting_ones, no_accesses, with_access};

use crate::array_names::ArrayNames;
use clan_rows::Form;
use row_core::Coeff;
use scop_data::{Access, AccessKind, Affine};
use std::alloc::Global;
use suite_base::{List, MAX_ACCESSES, MAX_SUBSCRIPTS, NoMemory};

/// The accesses of an assignment: how many there are, at most one above the limit; whether each has few
/// enough subscripts, and all forms of theirs are in range; and the accesses themselves, as long as they
/// are needed.
#[derive(Drop)]
pub struct Accesses {
    pub count: usize,
    pub short: bool,
    pub fit: bool,
    pub made: List<Access>,
}

// Whether all forms are in range.
fn all_in_range(forms: &[Option<Form>]) -> bool
    ensures { result ≡ all_fit (map made forms.now) }
{
    for form in forms {
        if form.is_none() {
            return false;
        }
    }
    true
}

// The affine value of a form.
fn affine(alloc: Global, form: &Form) -> Result<Affine, NoMemory>
    ensures { IfOk result (λ value. value ≡ affine_of form.now) }
{
    let floors: [Coeff; 0] = [];
    let value = Affine::new(
        alloc,
        form.iterators.as_slice(),
        &floors,
        form.parameters.as_slice(),
        form.constant,
    )?;
    Ok(value)
}

// Appends the affine value of a form, where there is one.
fn push_affine(
    alloc: Global,
    values: &mut List<Affine>,
    form: &Option<Form>,
) -> Result<(), NoMemory>
    ensures { OnOk result (values.new ≡ values.old ++ fitting_ones (made form.now ∷ [])) }
{
    match form {
        None => Ok(()),
        Some(form) => {
            let value = affine(alloc, form)?;
            values.push(value)
        }
    }
}

// The affine values of the forms that are in range.
fn affines(alloc: Global, forms: &[Option<Form>]) -> Result<List<Affine>, NoMemory>
    ensures { IfOk result (λ values. values ≡ fitting_ones (map made forms.now)) }
{
    let mut values = List::with_capacity(alloc, forms.len())?;
    for form in forms {
        push_affine(alloc, &mut values, form)?;
    }
    Ok(values)
}

// The access of this kind to the array of this name.
fn access_to(
    alloc: Global,
    arrays: &ArrayNames,
    kind: AccessKind,
    name: &[u8],
    subscripts: &[Option<Form>],
) -> Result<Access, NoMemory>
    ensures { IfOk result (λ access. access ≡ record { kind = kind; array = number_in arrays.now name.now; subscripts = fitting_ones (map made subscripts.now) }) }
{
    let subscripts = affines(alloc, subscripts)?;
    Ok(Access {
        kind,
        array: arrays.number(name),
        subscripts,
    })
}

// One more, but at most one above the limit.
fn next_count(count: usize) -> usize
    requires { count ≤ max_accesses + 1 }
    ensures { result ≡ min (count + 1) (max_accesses + 1) }
{
    if count > MAX_ACCESSES {
        MAX_ACCESSES + 1
    } else {
        count + 1
    }
}

// Whether so many accesses that are short and fit are fine.
fn is_fine(count: usize, short: bool, fit: bool) -> bool
    ensures { result ≡ (nat_le count max_accesses && (short && fit)) }
{
    count <= MAX_ACCESSES && (short && fit)
}

impl Accesses {
    /// No accesses.
    pub fn new(alloc: Global) -> Accesses
        ensures { result ≡ no_accesses }
    {
        Accesses {
            count: 0,
            short: true,
            fit: true,
            made: List::new(alloc),
        }
    }

    /// Adds an access of this kind to the array of this name at these subscripts, each of which is `None`
    /// where it is out of range. It is made only where `making` says so and nothing is wrong. On want of
    /// memory the accesses are as before.
    pub fn add(
        &mut self,
        alloc: Global,
        making: bool,
        arrays: &ArrayNames,
        kind: AccessKind,
        name: &[u8],
        subscripts: &[Option<Form>],
    ) -> Result<(), NoMemory>
        requires count { self.old.count ≤ max_accesses + 1 }
        ensures ok { OnOk result (self.new ≡ with_access making arrays.now kind name.now (map made subscripts.now) self.old) }
        ensures err { OnErr result (self.new ≡ self.old) }
    {
        let count = next_count(self.count);
        let short = is_both(self.short, subscripts.len() <= MAX_SUBSCRIPTS);
        let fit = is_both(self.fit, all_in_range(subscripts));
        if is_both(making, is_fine(count, short, fit)) {
            let access = access_to(alloc, arrays, kind, name, subscripts)?;
            self.made.push(access)?;
        } else {
            self.made = List::new(alloc);
        }
        self.count = count;
        self.short = short;
        self.fit = fit;
        Ok(())
    }
}

// Whether both hold.
fn is_both(a: bool, b: bool) -> bool
    ensures { result ≡ (a && b) }
{
    a && b
}
