//! What the rules of places of control ask of a value, and what a value has by its parts.

ghost use Rattle.std.specs.Prelude.{◌≡◌};
ghost use Rattle.region_trees.specs.Terms.{Conjunction, of_rel, of_equal, of_sum, of_product};
ghost use Rattle.region_rules.specs.Facts as spec;

use c_parser::{EqualSign, ProductSign, Rel, SumSign, UnarySign};

/// What an expression is: no affine one, an affine one without names, or an affine one with names.
#[derive(Clone, Copy, Debug, PartialEq, Eq)]
pub enum Affinity {
    NotAffine,
    Constant,
    Named,
}

/// How large a number is, as far as the rules ask.
#[derive(Clone, Copy, Debug, PartialEq, Eq)]
pub enum Size {
    Zero,
    One,
    Larger,
}

/// What the rules ask of a value.
#[derive(Clone, Copy, Debug, PartialEq, Eq)]
pub struct Facts {
    pub affinity: Affinity,
    /// The size of an integer, in brackets or not.
    pub number: Option<Size>,
    /// It is a bare integer that is not 0.
    pub is_divisor: bool,
    /// It is `e % c` with affine `e` and an integer `c` that is not 0, in brackets or not.
    pub is_remainder: bool,
    pub is_condition: bool,
    pub is_lower_bound: bool,
    pub is_upper_bound: bool,
}

/// The arguments of a call, one after the other.
#[derive(Clone, Copy)]
pub enum Arguments {
    None,
    One(Facts),
    Two(Facts, Facts),
    More,
}

impl Affinity {
    pub fn is_affine(self) -> bool
        ensures { result ≡ spec.is_affine_kind self }
    {
        match self {
            Affinity::NotAffine => false,
            Affinity::Constant => true,
            Affinity::Named => true,
        }
    }

    // Of a sum or a difference.
    fn sum(self, right: Affinity) -> Affinity
        ensures { result ≡ spec.sum_affinity self right }
    {
        match self {
            Affinity::NotAffine => Affinity::NotAffine,
            Affinity::Constant => right,
            Affinity::Named => match right {
                Affinity::NotAffine => Affinity::NotAffine,
                Affinity::Constant => Affinity::Named,
                Affinity::Named => Affinity::Named,
            },
        }
    }

    // Of a product.
    fn product(self, right: Affinity) -> Affinity
        ensures { result ≡ spec.product_affinity self right }
    {
        match self {
            Affinity::NotAffine => Affinity::NotAffine,
            Affinity::Constant => right,
            Affinity::Named => match right {
                Affinity::NotAffine => Affinity::NotAffine,
                Affinity::Constant => Affinity::Named,
                Affinity::Named => Affinity::NotAffine,
            },
        }
    }
}

/// Of a value that is nothing but an expression, or nothing at all.
pub fn plain(affinity: Affinity) -> Facts
    ensures { result ≡ spec.plain affinity }
{
    let is_bound = affinity.is_affine();
    Facts {
        affinity,
        number: None,
        is_divisor: false,
        is_remainder: false,
        is_condition: false,
        is_lower_bound: is_bound,
        is_upper_bound: is_bound,
    }
}

/// Of a value that no place of control takes.
pub fn no_facts() -> Facts
    ensures { result ≡ spec.no_facts }
{
    plain(Affinity::NotAffine)
}

/// Of a bare integer.
pub fn integer(size: Size) -> Facts
    ensures { result ≡ spec.integer size }
{
    Facts {
        affinity: Affinity::Constant,
        number: Some(size),
        is_divisor: size != Size::Zero,
        is_remainder: false,
        is_condition: false,
        is_lower_bound: true,
        is_upper_bound: true,
    }
}

/// Of a value in brackets.
pub fn bracketed(of: Facts) -> Facts
    ensures { result ≡ spec.bracketed of }
{
    let is_bound = of.affinity.is_affine();
    Facts {
        affinity: of.affinity,
        number: of.number,
        is_divisor: false,
        is_remainder: of.is_remainder,
        is_condition: of.is_condition,
        is_lower_bound: is_bound,
        is_upper_bound: is_bound,
    }
}

// Of a value that is an expression or a condition.
fn with_condition(affinity: Affinity, is_condition: bool) -> Facts
    ensures { result ≡ spec.with_condition affinity is_condition }
{
    let mut facts = plain(affinity);
    facts.is_condition = is_condition;
    facts
}

/// Of a value with a sign before it.
pub fn signed(sign: UnarySign, of: Facts) -> Facts
    ensures { result ≡ spec.signed sign of }
{
    match sign {
        UnarySign::Plus => plain(of.affinity),
        UnarySign::Minus => plain(of.affinity),
        UnarySign::Not => with_condition(Affinity::NotAffine, of.is_condition),
    }
}

/// Of a sum or a difference.
pub fn added(sign: SumSign, left: Facts, right: Facts) -> Facts
    ensures { result ≡ spec.join (of_sum sign) left right }
{
    match sign {
        SumSign::Plus => plain(left.affinity.sum(right.affinity)),
        SumSign::Minus => plain(left.affinity.sum(right.affinity)),
    }
}

// Of a remainder.
fn remainder(left: Facts, right: Facts) -> Facts
    ensures { result ≡ spec.remainder left right }
{
    let mut facts = no_facts();
    facts.is_remainder = left.affinity.is_affine() && is_positive(right.number);
    facts
}

// It is an integer that is not 0.
fn is_positive(number: Option<Size>) -> bool
    ensures { result ≡ spec.is_positive number }
{
    match number {
        None => false,
        Some(Size::Zero) => false,
        Some(Size::One) => true,
        Some(Size::Larger) => true,
    }
}

// It is the integer 0.
fn is_zero(number: Option<Size>) -> bool
    ensures { result ≡ spec.is_zero number }
{
    match number {
        None => false,
        Some(Size::Zero) => true,
        Some(Size::One) => false,
        Some(Size::Larger) => false,
    }
}

/// Of a product, a quotient or a remainder.
pub fn multiplied(sign: ProductSign, left: Facts, right: Facts) -> Facts
    ensures { result ≡ spec.join (of_product sign) left right }
{
    match sign {
        ProductSign::Times => plain(left.affinity.product(right.affinity)),
        ProductSign::Divide => no_facts(),
        ProductSign::Remainder => remainder(left, right),
    }
}

/// Of a comparison of order.
#[tactic(auto, using(crate::proofs::Signs::ordered_is))]
pub fn ordered(rel: Rel, left: Facts, right: Facts) -> Facts
    ensures { result ≡ spec.join (of_rel rel) left right }
{
    with_condition(Affinity::NotAffine, are_affine(left, right))
}

/// Of a comparison by `==` or `!=`.
#[tactic(auto, using(crate::proofs::Signs::equated_is))]
pub fn equated(sign: EqualSign, left: Facts, right: Facts) -> Facts
    ensures { result ≡ spec.join (of_equal sign) left right }
{
    with_condition(Affinity::NotAffine, are_equated(left, right))
}

// Both are affine.
fn are_affine(left: Facts, right: Facts) -> bool
    ensures { result ≡ spec.are_affine left right }
{
    left.affinity.is_affine() && right.affinity.is_affine()
}

// A remainder and 0, or two affine values.
fn are_equated(left: Facts, right: Facts) -> bool
    ensures { result ≡ spec.are_equated left right }
{
    if left.is_remainder && is_zero(right.number) {
        return true;
    }
    are_affine(left, right)
}

/// Of two values with `&&` or `||` between.
pub fn both(left: Facts, right: Facts) -> Facts
    ensures { result ≡ spec.join Conjunction left right }
{
    with_condition(Affinity::NotAffine, left.is_condition && right.is_condition)
}

// Of a bound that is no expression.
fn bound(is_lower_bound: bool, is_upper_bound: bool) -> Facts
    ensures { result ≡ spec.bound is_lower_bound is_upper_bound }
{
    let mut facts = no_facts();
    facts.is_lower_bound = is_lower_bound;
    facts.is_upper_bound = is_upper_bound;
    facts
}

// Of the greater of two bounds.
fn maximum(left: Facts, right: Facts) -> Facts
    ensures { result ≡ spec.maximum left right }
{
    bound(left.is_lower_bound && right.is_lower_bound, false)
}

// Of the less of two bounds.
fn minimum(left: Facts, right: Facts) -> Facts
    ensures { result ≡ spec.minimum left right }
{
    bound(false, left.is_upper_bound && right.is_upper_bound)
}

// Of a rounded quotient.
fn quotient(left: Facts, right: Facts) -> Facts
    ensures { result ≡ spec.quotient left right }
{
    let is_bound = left.affinity.is_affine() && right.is_divisor;
    bound(is_bound, is_bound)
}

// Of a call of this name with two arguments.
fn called(name: &[u8], left: Facts, right: Facts) -> Facts
    ensures { result ≡ spec.called name.now left right }
{
    if name == b"max".as_slice() {
        return maximum(left, right);
    }
    if name == b"min".as_slice() {
        return minimum(left, right);
    }
    if name == b"ceild".as_slice() {
        return quotient(left, right);
    }
    if name == b"floord".as_slice() {
        return quotient(left, right);
    }
    no_facts()
}

/// The arguments with one more.
pub fn with_argument(before: Arguments, next: Facts) -> Arguments
    ensures { result ≡ spec.with_argument before next }
{
    match before {
        Arguments::None => Arguments::One(next),
        Arguments::One(first) => Arguments::Two(first, next),
        Arguments::Two(_, _) => Arguments::More,
        Arguments::More => Arguments::More,
    }
}

/// Of a call of this name with these arguments.
pub fn called_with(name: &[u8], arguments: Arguments) -> Facts
    ensures { result ≡ spec.called_with name.now arguments }
{
    match arguments {
        Arguments::None => no_facts(),
        Arguments::One(_) => no_facts(),
        Arguments::Two(left, right) => called(name, left, right),
        Arguments::More => no_facts(),
    }
}
