//! The certificate of a contradiction.

ghost use Rattle.std.specs.Prelude.{◌≡◌, ◌<◌, ◌≤◌, ◌+◌, ◌++◌, [], ◌∷◌, pos, neg_ℤ, map, cond, drop, length, int_lt, IfOk, MatchOption, None};
ghost use Rattle.relation_core.specs.Systems.{row_at};
ghost use Rattle.elim_core.specs.Elimination.{certificate_of, refutation_of};

use crate::signs::is_positive;
use crate::tableaux::Tableau;
use crate::working_rows::{WorkingRow, is_contradiction};
use farkas_cert::Certificate;
use row_core::{Coeff, Row};
use std::alloc::Global;
use suite_base::NoMemory;

/// The certificate of the first contradiction.
pub fn refutation<R: Row>(
    alloc: Global,
    tableau: &Tableau<R>,
) -> Result<Option<Certificate>, NoMemory>
    ensures { IfOk result (λ found. found ≡ refutation_of tableau.now.variables tableau.now.rows) }
{
    match find_contradiction(tableau) {
        None => Ok(None),
        Some(k) => {
            let certificate = certificate_of(alloc, tableau.variables(), tableau.row(k))?;
            Ok(Some(certificate))
        }
    }
}

/// The place of the first contradiction.
pub fn find_contradiction<R: Row>(tableau: &Tableau<R>) -> Option<usize>
    ensures { MatchOption result (refutation_of tableau.now.variables tableau.now.rows ≡ None)
        (λ k. (k < length tableau.now.rows)
        × (refutation_of tableau.now.variables tableau.now.rows ≡ Some (certificate_of tableau.now.variables (row_at tableau.now.rows k)))) }
{
    for k in 0..tableau.row_count() {
        if is_contradiction(tableau.row(k), tableau.variables()) {
            return Some(k);
        }
    }
    None
}

// The multipliers of a contradiction of `n` variables, negated where its constant is positive.
fn certificate_of<R: Row>(
    alloc: Global,
    n: usize,
    w: &WorkingRow<R>,
) -> Result<Certificate, NoMemory>
    requires { n < length w.now.entries }
    ensures { IfOk result (λ certificate. certificate ≡ certificate_of n w.now) }
{
    let negate = is_positive(w.entry(n));
    let width = w.len();
    let mut certificate = Certificate::new(alloc);
    for k in n + 1..width {
        certificate.push(signed(w.entry(k), negate))?;
    }
    Ok(certificate)
}

// `c`, or its negative.
fn signed(c: Coeff, negate: bool) -> Coeff
    ensures { result ≡ cond negate (neg_ℤ c) c }
{
    if negate { c.negated() } else { c }
}
