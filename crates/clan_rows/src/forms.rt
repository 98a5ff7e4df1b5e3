//! An affine form whose coefficients are in range.

ghost use Rattle.std.specs.Prelude.{◌≡◌, cond, negsuc, pos, true, IfOk};
ghost use Rattle.clan_extract.specs.Forms.{sum_of as sum_of_forms, multiple, opposite_of, difference};
ghost use Rattle.clan_extract.specs.Constraints.{plus, with_iterator};
ghost use Rattle.clan_extract.specs.Refusals.{form_fits};
ghost use Rattle.clan_rows.specs.Fitting.{fitting, assembled as assembled_of, difference_form, with_loop};
ghost use Rattle.clan_rows.specs.Contents.{affine_of, made, HaveOneShape};

use crate::coefficients::{difference_of, product_of, sum_of, sum_with};
use crate::rows::{row_difference, row_multiple, row_opposite, row_sum, row_with};
use row_core::{Coeff, DenseRow};
use std::alloc::Global;
use suite_base::NoMemory;

/// One coefficient for each loop round a place, from the outermost, one for each parameter, and a
/// constant.
#[derive(Drop)]
pub struct Form {
    pub iterators: DenseRow,
    pub parameters: DenseRow,
    pub constant: Coeff,
}

// The form of these pieces, where all are in range.
fn assembled(
    iterators: Option<DenseRow>,
    parameters: Option<DenseRow>,
    constant: Option<Coeff>,
) -> Option<Form>
    ensures { made result ≡ assembled_of iterators parameters constant }
{
    match iterators {
        None => None,
        Some(iterators) => match parameters {
            None => None,
            Some(parameters) => match constant {
                None => None,
                Some(constant) => Some(Form {
                    iterators,
                    parameters,
                    constant,
                }),
            },
        },
    }
}

impl Form {
    /// That the coefficients are in range.
    #[tactic(auto, using(crate::proofs::Ranges::is_in_range))]
    pub fn stays_in_range(&self)
        ensures { form_fits (affine_of self.now) ≡ true }
    {
        let _iterators = self.iterators.len();
        let _parameters = self.parameters.len();
        let _constant = self.constant.value();
    }

    /// An equal form.
    pub fn copy(&self, alloc: Global) -> Result<Form, NoMemory>
        ensures { IfOk result (λ form. form ≡ self.now) }
    {
        Ok(Form {
            iterators: self.iterators.copy(alloc)?,
            parameters: self.parameters.copy(alloc)?,
            constant: self.constant,
        })
    }

    /// The sum with a form over as many loops and parameters; `None` exactly where it is out of range.
    #[tactic(auto, using(crate::proofs::Ranges::sum_is))]
    pub fn plus(&self, alloc: Global, other: &Form) -> Result<Option<Form>, NoMemory>
        requires { HaveOneShape self.now other.now }
        ensures { IfOk result (λ form. made form ≡ fitting (sum_of_forms (affine_of self.now) (affine_of other.now))) }
    {
        let iterators = row_sum(alloc, &self.iterators, &other.iterators)?;
        let parameters = row_sum(alloc, &self.parameters, &other.parameters)?;
        let constant = sum_of(self.constant.value(), other.constant.value());
        Ok(assembled(iterators, parameters, constant))
    }

    /// The multiple by `p`; `None` exactly where it is out of range.
    #[tactic(auto, using(crate::proofs::Ranges::multiple_is))]
    pub fn times(&self, alloc: Global, p: Coeff) -> Result<Option<Form>, NoMemory>
        ensures { IfOk result (λ form. made form ≡ fitting (multiple p (affine_of self.now))) }
    {
        let iterators = row_multiple(alloc, p, &self.iterators)?;
        let parameters = row_multiple(alloc, p, &self.parameters)?;
        let constant = product_of(p, self.constant);
        Ok(assembled(iterators, parameters, constant))
    }

    /// The negative, which is in range too.
    #[tactic(auto, using(crate::proofs::Ranges::negative_is))]
    pub fn opposite(&self, alloc: Global) -> Result<Form, NoMemory>
        ensures { IfOk result (λ form. affine_of form ≡ opposite_of (affine_of self.now)) }
    {
        Ok(Form {
            iterators: row_opposite(alloc, &self.iterators)?,
            parameters: row_opposite(alloc, &self.parameters)?,
            constant: self.constant.negated(),
        })
    }

    // The difference, piece by piece.
    #[tactic(auto, using(crate::proofs::Ranges::fitting_is))]
    fn difference_pieces(
        &self,
        alloc: Global,
        other: &Form,
        strict: bool,
    ) -> Result<Option<Form>, NoMemory>
        requires { HaveOneShape self.now other.now }
        ensures { IfOk result (λ form. made form ≡ fitting (difference_form (affine_of self.now) (affine_of other.now) (cond strict (negsuc 0) (pos 0)))) }
    {
        let iterators = row_difference(alloc, &self.iterators, &other.iterators)?;
        let parameters = row_difference(alloc, &self.parameters, &other.parameters)?;
        let constant = difference_of(self.constant, other.constant, strict);
        Ok(assembled(iterators, parameters, constant))
    }

    /// The difference from a form over as many loops and parameters, less 1 where it is `strict`; `None`
    /// exactly where it is out of range.
    pub fn minus(&self, alloc: Global, other: &Form, strict: bool) -> Result<Option<Form>, NoMemory>
        requires { HaveOneShape self.now other.now }
        ensures { IfOk result (λ form. made form ≡ fitting (difference (affine_of self.now) (affine_of other.now) (cond strict (negsuc 0) (pos 0)))) }
    {
        let form = self.difference_pieces(alloc, other, strict)?;
        Ok(form)
    }

    /// The form with `z` added; `None` exactly where it is out of range.
    #[tactic(auto, using(crate::proofs::Ranges::plus_is))]
    pub fn shifted(self, z: i128) -> Option<Form>
        ensures { made result ≡ fitting (plus (affine_of self) z) }
    {
        self.stays_in_range();
        let constant = sum_with(self.constant, z);
        assembled(Some(self.iterators), Some(self.parameters), constant)
    }

    // The form with a coefficient of one loop more behind those of the loops.
    fn widened(&self, alloc: Global, c: Coeff) -> Result<Form, NoMemory>
        ensures { IfOk result (λ form. affine_of form ≡ with_loop c (affine_of self.now)) }
    {
        Ok(Form {
            iterators: row_with(alloc, &self.iterators, c)?,
            parameters: self.parameters.copy(alloc)?,
            constant: self.constant,
        })
    }

    /// The form with `z` added, and with a coefficient of one loop more behind those of the loops;
    /// `None` exactly where it is out of range.
    pub fn with_iterator(&self, alloc: Global, c: Coeff, z: i128) -> Result<Option<Form>, NoMemory>
        ensures { IfOk result (λ form. made form ≡ fitting (with_iterator c (affine_of self.now) z)) }
    {
        let wide = self.widened(alloc, c)?;
        Ok(wide.shifted(z))
    }
}
