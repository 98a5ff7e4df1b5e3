//! The value of an expression at a place of control.

ghost use Rattle.std.specs.Prelude.{◌≡◌, ◌||◌, IfOk};
ghost use Rattle.clan_rows.specs.Contents.{AgreeInShape, made};
ghost use Rattle.region_forms.specs.Evaluations as spec;
ghost use Rattle.c_lexer.specs.Pieces.{bytes_of};
ghost use Rattle.region_trees.specs.Terms.{Integer, Joined, Named, NoTerms, Times, number_of, target_of};

use crate::numbers::integer;
use crate::scopes::Scope;
use c_lexer::piece_bytes;
use c_parser::{Piece, ProductSign, SumSign, Target, UnarySign};
use clan_rows::{Form, difference, negative, product, sum};
use row_core::Coeff;
use sqlite_items::Boxed;
use std::alloc::Global;
use suite_base::NoMemory;

/// What is divided in a remainder: the form of the dividend and the divisor, where they are in range.
#[derive(Drop)]
pub struct Quotient {
    pub dividend: Option<Form>,
    pub divisor: Option<Coeff>,
}

/// The form of an expression, where the form of each of its parts is in range, and whether names stand
/// in its text; the integer that it is alone; and what is divided, where it is a remainder. That is kept
/// apart, since evaluations are moved from part to whole and few are remainders.
#[derive(Drop)]
pub struct Evaluation {
    pub form: Option<Form>,
    pub names: bool,
    pub integer: Option<Coeff>,
    pub quotient: Option<Boxed<Quotient>>,
}

impl Evaluation {
    /// The value of what is neither an expression nor a remainder.
    pub fn nothing() -> Evaluation
        ensures { spec.told result ≡ spec.nothing }
    {
        Evaluation::of_form(None, false)
    }

    /// The value that is this form alone.
    pub fn of_form(form: Option<Form>, names: bool) -> Evaluation
        ensures { spec.told result ≡ spec.of_form (made form) names }
    {
        Evaluation {
            form,
            names,
            integer: None,
            quotient: None,
        }
    }

    /// The sum or the difference.
    pub fn summed(
        self,
        alloc: Global,
        sign: SumSign,
        other: Evaluation,
    ) -> Result<Evaluation, NoMemory>
        requires { AgreeInShape self.form other.form }
        ensures { IfOk result (λ v. spec.told v ≡ spec.summed sign (spec.told self) (spec.told other)) }
    {
        let names = either(self.names, other.names);
        let form = match sign {
            SumSign::Plus => sum(alloc, &self.form, &other.form)?,
            SumSign::Minus => difference(alloc, &self.form, &other.form)?,
        };
        Ok(Evaluation::of_form(form, names))
    }

    /// The product or the remainder; a quotient is no expression.
    pub fn multiplied(
        self,
        alloc: Global,
        sign: ProductSign,
        other: Evaluation,
    ) -> Result<Evaluation, NoMemory>
        ensures { IfOk result (λ v. spec.told v ≡ spec.multiplied sign (spec.told self) (spec.told other)) }
    {
        match sign {
            ProductSign::Times => {
                let names = either(self.names, other.names);
                let form = product(alloc, self.names, &self.form, &other.form)?;
                Ok(Evaluation::of_form(form, names))
            }
            ProductSign::Divide => Ok(Evaluation::nothing()),
            ProductSign::Remainder => {
                let quotient = Quotient {
                    dividend: self.form,
                    divisor: other.integer,
                };
                Ok(Evaluation {
                    form: None,
                    names: false,
                    integer: None,
                    quotient: Some(Boxed::new(alloc, quotient)?),
                })
            }
        }
    }

    /// The value behind these signs, of which the last is the innermost.
    pub fn signed(self, alloc: Global, signs: &[UnarySign]) -> Result<Evaluation, NoMemory>
        ensures { IfOk result (λ v. spec.Signs signs.now (spec.told self) (spec.told v)) }
    {
        let mut value = self;
        let mut left = signs.len();
        while left > 0 {
            left -= 1;
            value = value.behind(alloc, signs[left])?;
        }
        Ok(value)
    }

    // The value behind one sign.
    fn behind(self, alloc: Global, sign: UnarySign) -> Result<Evaluation, NoMemory>
        ensures { IfOk result (λ v. spec.told v ≡ spec.behind sign (spec.told self)) }
    {
        match sign {
            UnarySign::Plus => Ok(Evaluation::of_form(self.form, self.names)),
            UnarySign::Minus => {
                let form = negative(alloc, &self.form)?;
                Ok(Evaluation::of_form(form, self.names))
            }
            UnarySign::Not => Ok(Evaluation::nothing()),
        }
    }
}

// Whether one of them has names.
fn either(left: bool, right: bool) -> bool
    ensures { result ≡ (left || right) }
{
    left || right
}

/// The value of an integer.
pub fn number(alloc: Global, scope: &Scope<'_>, piece: Piece) -> Result<Evaluation, NoMemory>
    ensures { IfOk result (λ v. spec.IsValueAt scope.now (Integer (number_of scope.now.source.now piece)) (spec.told v)) }
{
    match integer(piece_bytes(scope.source, piece)) {
        None => Ok(Evaluation::nothing()),
        Some(value) => {
            let form = Form::of_number(alloc, scope.parameters, scope.loops, value)?;
            Ok(Evaluation {
                form: Some(form),
                names: false,
                integer: Some(value),
                quotient: None,
            })
        }
    }
}

/// The value of a name; with subscripts it is no expression.
pub fn named(alloc: Global, scope: &Scope<'_>, target: &Target) -> Result<Evaluation, NoMemory>
    ensures { IfOk result (λ v. spec.IsValueAt scope.now (spec.named_of (target_of scope.now.source.now target.now)) (spec.told v)) }
{
    if !target.subscripts.is_empty() {
        return Ok(Evaluation::nothing());
    }
    let name = piece_bytes(scope.source, target.name);
    let form = Form::of_name(alloc, scope.parameters, scope.loops, name)?;
    Ok(Evaluation::of_form(Some(form), true))
}

/// The value of an integer by a name, whose form is made at once.
pub fn multiple(
    alloc: Global,
    scope: &Scope<'_>,
    digits: Piece,
    name: Piece,
) -> Result<Evaluation, NoMemory>
    ensures { IfOk result (λ v. spec.IsValueAt scope.now (Joined Times (Integer (number_of scope.now.source.now digits)) (Named (bytes_of scope.now.source.now name) name.from NoTerms)) (spec.told v)) }
{
    match integer(piece_bytes(scope.source, digits)) {
        None => Ok(Evaluation::of_form(None, true)),
        Some(factor) => {
            let name = piece_bytes(scope.source, name);
            let form = Form::of_multiple(alloc, scope.parameters, scope.loops, name, factor)?;
            form.stays_in_range();
            Ok(Evaluation::of_form(Some(form), true))
        }
    }
}
