//! Beta vectors that are equal, or of which one is a prefix of the other.

ghost use Rattle.std.specs.Prelude.{◌≡◌, ◌<◌, ◌≤◌, ◌+◌, [], length};
ghost use Rattle.suite_base.specs.Limits.{max_statements};
ghost use Rattle.scop_core.specs.Assembly.{vectors_clash, clash_among, first_clash};

use row_core::Coeff;
use scop_data::Statement;
use suite_base::Refusal;

// Whether two vectors are equal, or one is a prefix of the other.
fn do_clash(a: &[Coeff], b: &[Coeff]) -> bool
    ensures { result ≡ vectors_clash a.now b.now }
{
    let mut left = a;
    let mut right = b;
    while let [x, more_left @ ..] = left {
        match right {
            [] => return true,
            [y, more_right @ ..] => {
                if x.value() != y.value() {
                    return false;
                }
                left = more_left;
                right = more_right;
            }
        }
    }
    true
}

// The clash of statement number `j`, which has these betas, with the first of those before it.
fn clash_with(before: &[Statement], j: u32, betas: &[Coeff]) -> Option<Refusal>
    requires { length before.now ≤ max_statements }
    ensures { result ≡ clash_among 1 j before.now betas.now }
{
    for i in 0..before.len() {
        if do_clash(before[i].schedule.betas.as_slice(), betas) {
            return Some(Refusal::BetaClash(i as u32 + 1, j));
        }
    }
    None
}

/// The first clash of a statement with one before it.
pub fn statements_clash(statements: &[Statement]) -> Option<Refusal>
    requires { length statements.now ≤ max_statements }
    ensures { result ≡ first_clash 1 [] statements.now }
{
    for k in 0..statements.len() {
        let clash = clash_with(
            &statements[..k],
            k as u32 + 1,
            statements[k].schedule.betas.as_slice(),
        );
        if clash.is_some() {
            return clash;
        }
    }
    None
}
