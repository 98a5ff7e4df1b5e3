//! A working row of the elimination: the entries of a row, its constant, and behind them one
//! multiplier for each row of the system.

ghost use Rattle.std.specs.Prelude.{◌≡◌, ◌<◌, ◌≤◌, ◌+◌, ◌++◌, ◌^◌, ℕ, pos, length, replicate, take, true, IfOk, IfErr, OnOk, IsTrue};
ghost use Rattle.row_core.specs.Rows.{entry, combined, combined_weight};
ghost use Rattle.elim_core.specs.Gcd.{divided};
ghost use Rattle.elim_core.specs.Elimination.{is_equal, is_constant, is_contradiction, fails, last_variable};

use crate::division::divided;
use crate::signs::{is_negative, is_zero};
use crate::verdicts::{ElimFail, failed};
use relation_core::RowKind;
use row_core::{Coeff, Row};
use std::alloc::Global;
use std::marker::Model;
use suite_base::NoMemory;

/// A row of the elimination, in one representation. Contracts see its kind and its entries.
#[derive(Drop)]
pub struct WorkingRow<R: Row> {
    kind: RowKind,
    row: R,
}

impl<R: Row> Model for WorkingRow<R> {
    ghost use Rattle.relation_core.specs.declared.part_rows.PartRow.{PartRow};

    ghost Value = { PartRow };

    ghost view = { λ w. record { kind = w.kind; entries = R.coefficients w.row } };
}

impl<R: Row> WorkingRow<R> {
    pub fn new(kind: RowKind, row: R) -> WorkingRow<R>
        ensures { result ≡ record { kind = kind; entries = R.coefficients row } }
    {
        WorkingRow { kind, row }
    }

    pub fn kind(&self) -> RowKind
        ensures { result ≡ self.now.kind }
    {
        self.kind
    }

    pub fn is_equality(&self) -> bool
        ensures { result ≡ is_equal self.now.kind }
    {
        match self.kind {
            RowKind::Equal => true,
            RowKind::AtLeast => false,
        }
    }

    pub fn len(&self) -> usize
        ensures { result ≡ length self.now.entries }
    {
        self.row.len()
    }

    pub fn entry(&self, k: usize) -> Coeff
        requires { k < length self.now.entries }
        ensures { result ≡ entry self.now.entries k }
    {
        self.row.get(k)
    }

    /// The first place from `start` on whose entry isn't 0; `end` where there is none before it.
    pub fn next_place(&self, start: usize, end: usize) -> usize
        requires range { start ≤ end }
        requires within { end ≤ length self.now.entries }
        ensures from { start ≤ result }
        ensures to { result ≤ end }
        ensures zeros { (k : ℕ) → start ≤ k → k < result → entry self.now.entries k ≡ pos 0 }
        ensures found { result < end → ¬ (entry self.now.entries result ≡ pos 0) }
    {
        self.row.next_place(start, end)
    }

    /// A copy of the row.
    pub fn copy(&self, alloc: Global) -> Result<WorkingRow<R>, NoMemory>
        ensures { IfOk result (λ w. w ≡ self.now) }
    {
        let row = self.row.copy(alloc)?;
        Ok(WorkingRow {
            kind: self.kind,
            row,
        })
    }

    /// The row with `count` multipliers more, which are 0.
    pub fn widened(&self, alloc: Global, count: usize) -> Result<WorkingRow<R>, NoMemory>
        ensures { IfOk result (λ w. w ≡ record { kind = self.now.kind; entries = self.now.entries ++ replicate count (pos 0) }) }
    {
        if count > usize::MAX - self.row.len() {
            return Err(NoMemory);
        }
        let mut row = self.row.copy(alloc)?;
        row.push_zeros(count)?;
        Ok(WorkingRow {
            kind: self.kind,
            row,
        })
    }

    /// The row `p a + q b` of this kind, divided by the greatest common divisor of its entries.
    pub fn combined(
        alloc: Global,
        kind: RowKind,
        p: Coeff,
        a: &WorkingRow<R>,
        q: Coeff,
        b: &WorkingRow<R>,
    ) -> Result<WorkingRow<R>, ElimFail>
        requires { length a.now.entries ≡ length b.now.entries }
        ensures ok { IfOk result (λ w. w ≡ record { kind = kind; entries = divided (combined p a.now.entries q b.now.entries) }) }
        ensures overflow { IfErr result (λ fail. fail ≡ ElimFail.Overflow → 2 ^ 127 ≤ combined_weight p a.now.entries q b.now.entries) }
        ensures rows { IfErr result (λ fail. ¬ (fail ≡ ElimFail.TooManyRows)) }
    {
        match R::combine(alloc, p, &a.row, q, &b.row) {
            Err(fail) => Err(failed(fail)),
            Ok(whole) => {
                let row = divided(alloc, whole)?;
                Ok(WorkingRow { kind, row })
            }
        }
    }
}

/// Whether the first `n` entries are 0.
pub fn is_constant<R: Row>(w: &WorkingRow<R>, n: usize) -> bool
    requires { n ≤ length w.now.entries }
    ensures { result ≡ is_constant n w.now }
{
    w.next_place(0, n) == n
}

/// Whether the row has no variable and its constant fails.
pub fn is_contradiction<R: Row>(w: &WorkingRow<R>, n: usize) -> bool
    requires { n < length w.now.entries }
    ensures { result ≡ is_contradiction n w.now }
{
    if is_constant(w, n) {
        fails(w.kind(), w.entry(n))
    } else {
        false
    }
}

// Whether a row of this kind fails where its value is `c`.
fn fails(kind: RowKind, c: Coeff) -> bool
    ensures { result ≡ fails kind c }
{
    match kind {
        RowKind::Equal => !is_zero(c),
        RowKind::AtLeast => is_negative(c),
    }
}

/// The last of the first `n` places whose entry isn't 0; 0 where there is none.
pub fn last_variable<R: Row>(w: &WorkingRow<R>, n: usize) -> usize
    requires { n ≤ length w.now.entries }
    ensures value { result ≡ last_variable n w.now.entries }
    ensures range { result ≤ n }
{
    let mut last = 0;
    let mut k = w.next_place(0, n);
    while k < n {
        last = k;
        k = w.next_place(k + 1, n);
    }
    last
}
