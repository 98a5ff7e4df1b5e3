//! Products of an integer and a name, which most products at places of control are.

ghost use Rattle.std.specs.Prelude.{◌≡◌, ℕ, List, true, IfSome};
ghost use Rattle.c_lexer.specs.Pieces.{bytes_of};
ghost use Rattle.region_trees.specs.Terms.{Integer, Joined, Named, NoTerms, Times, number_of, of_product, product_of, target_of, unary_of};
ghost use Rattle.region_forms.specs.Evaluations.{named_of};

use c_parser::{Piece, Primary, Product, ProductSign, Target, Unary};

// Whether the sign is `*`.
fn is_times(sign: ProductSign) -> bool
    ensures { result ≡ true → of_product sign ≡ Times }
{
    match sign {
        ProductSign::Times => true,
        ProductSign::Divide => false,
        ProductSign::Remainder => false,
    }
}

// The integer that an operand is, without signs.
fn lone_integer(unary: &Unary) -> Option<Piece>
    ensures { IfSome result (λ digits. (source : List ℕ) → unary_of source unary.now ≡ Integer (number_of source digits)) }
{
    if !unary.signs.as_slice().is_empty() {
        return None;
    }
    match &unary.primary {
        Primary::Integer(digits) => Some(*digits),
        Primary::Literal(_) => None,
        Primary::Target(_) => None,
        Primary::Call(_, _) => None,
        Primary::Bracket(_) => None,
    }
}

// The name that a reference is, without subscripts.
fn plain_name(target: &Target) -> Option<Piece>
    ensures { IfSome result (λ name. (source : List ℕ) → named_of (target_of source target.now) ≡ Named (bytes_of source name) name.from NoTerms) }
{
    if !target.subscripts.is_empty() {
        return None;
    }
    Some(target.name)
}

// The name that an operand is, without signs.
fn lone_name(unary: &Unary) -> Option<Piece>
    ensures { IfSome result (λ name. (source : List ℕ) → unary_of source unary.now ≡ Named (bytes_of source name) name.from NoTerms) }
{
    if !unary.signs.as_slice().is_empty() {
        return None;
    }
    match &unary.primary {
        Primary::Integer(_) => None,
        Primary::Literal(_) => None,
        Primary::Target(target) => plain_name(target),
        Primary::Call(_, _) => None,
        Primary::Bracket(_) => None,
    }
}

/// The integer and the name whose product it is, where it is no other.
pub fn multiple_parts(product: &Product) -> Option<(Piece, Piece)>
    ensures { IfSome result (λ parts. (source : List ℕ) → product_of source product.now ≡ Joined Times (Integer (number_of source parts.0)) (Named (bytes_of source parts.1) parts.1.from NoTerms)) }
{
    let rest = product.rest.as_slice();
    if rest.len() != 1 {
        return None;
    }
    let operand = &rest[0];
    if !is_times(operand.0) {
        return None;
    }
    let Some(digits) = lone_integer(&product.first) else {
        return None;
    };
    let Some(name) = lone_name(&operand.1) else {
        return None;
    };
    Some((digits, name))
}
