//! Arithmetic of forms that may be out of range: what is made of such a form is none.

ghost use Rattle.std.specs.Prelude.{◌≡◌, IfOk};
ghost use Rattle.clan_rows.specs.Fitting.{sum_checked, difference_checked, product_checked, negative_checked};
ghost use Rattle.clan_rows.specs.Contents.{made, AgreeInShape};

use crate::forms::Form;
use std::alloc::Global;
use suite_base::NoMemory;

/// The sum of two forms.
pub fn sum(
    alloc: Global,
    left: &Option<Form>,
    right: &Option<Form>,
) -> Result<Option<Form>, NoMemory>
    requires { AgreeInShape left.now right.now }
    ensures { IfOk result (λ form. made form ≡ sum_checked (made left.now) (made right.now)) }
{
    match left {
        None => Ok(None),
        Some(f) => match right {
            None => Ok(None),
            Some(g) => f.plus(alloc, g),
        },
    }
}

/// The difference of two forms.
#[tactic(auto, using(crate::proofs::Ranges::exact_difference))]
pub fn difference(
    alloc: Global,
    left: &Option<Form>,
    right: &Option<Form>,
) -> Result<Option<Form>, NoMemory>
    requires { AgreeInShape left.now right.now }
    ensures { IfOk result (λ form. made form ≡ difference_checked (made left.now) (made right.now)) }
{
    match left {
        None => Ok(None),
        Some(f) => match right {
            None => Ok(None),
            Some(g) => f.minus(alloc, g, false),
        },
    }
}

/// The product of two forms: a multiple of the left one where its factor has names, else of the right
/// one. The other is the constant of its form.
pub fn product(
    alloc: Global,
    left_has_names: bool,
    left: &Option<Form>,
    right: &Option<Form>,
) -> Result<Option<Form>, NoMemory>
    ensures { IfOk result (λ form. made form ≡ product_checked left_has_names (made left.now) (made right.now)) }
{
    match left {
        None => Ok(None),
        Some(f) => match right {
            None => Ok(None),
            Some(g) => {
                if left_has_names {
                    f.times(alloc, g.constant)
                } else {
                    g.times(alloc, f.constant)
                }
            }
        },
    }
}

/// The negative of a form.
#[tactic(auto, using(crate::proofs::Ranges::opposite_fits))]
pub fn negative(alloc: Global, form: &Option<Form>) -> Result<Option<Form>, NoMemory>
    ensures { IfOk result (λ made_form. made made_form ≡ negative_checked (made form.now)) }
{
    match form {
        None => Ok(None),
        Some(f) => {
            let opposite = f.opposite(alloc)?;
            opposite.stays_in_range();
            Ok(Some(opposite))
        }
    }
}
