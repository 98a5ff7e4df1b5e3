//! The signs of each level of the grammar.

ghost use Rattle.std.specs.Prelude.{◌≡◌};
ghost use Rattle.c_parser.specs.Values as spec;

use crate::tree::{EqualSign, ProductSign, Rel, SumSign, UnarySign};
use c_lexer::Symbol;

pub fn equal_sign(symbol: Symbol) -> Option<EqualSign>
    ensures { result ≡ spec.equal_sign symbol }
{
    match symbol {
        Symbol::Same => Some(EqualSign::Same),
        Symbol::Differ => Some(EqualSign::Differ),
        _ => None,
    }
}

pub fn rel_sign(symbol: Symbol) -> Option<Rel>
    ensures { result ≡ spec.rel_sign symbol }
{
    match symbol {
        Symbol::Less => Some(Rel::Less),
        Symbol::LessEqual => Some(Rel::LessEqual),
        Symbol::Greater => Some(Rel::Greater),
        Symbol::GreaterEqual => Some(Rel::GreaterEqual),
        _ => None,
    }
}

pub fn sum_sign(symbol: Symbol) -> Option<SumSign>
    ensures { result ≡ spec.sum_sign symbol }
{
    match symbol {
        Symbol::Plus => Some(SumSign::Plus),
        Symbol::Minus => Some(SumSign::Minus),
        _ => None,
    }
}

pub fn product_sign(symbol: Symbol) -> Option<ProductSign>
    ensures { result ≡ spec.product_sign symbol }
{
    match symbol {
        Symbol::Times => Some(ProductSign::Times),
        Symbol::Divide => Some(ProductSign::Divide),
        Symbol::Remainder => Some(ProductSign::Remainder),
        _ => None,
    }
}

pub fn unary_sign(symbol: Symbol) -> Option<UnarySign>
    ensures { result ≡ spec.unary_sign symbol }
{
    match symbol {
        Symbol::Plus => Some(UnarySign::Plus),
        Symbol::Minus => Some(UnarySign::Minus),
        Symbol::Not => Some(UnarySign::Not),
        _ => None,
    }
}
