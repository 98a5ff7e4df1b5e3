//! An affine value of a statement: coefficients of its iterators, floors and parameters, and a constant.

ghost use Rattle.std.specs.Prelude.{◌≡◌, ◌<◌, length, IfOk};
ghost use Rattle.row_core.specs.Rows.{entry};

use crate::copies::copied_coeffs;
use row_core::Coeff;
use std::alloc::Global;
use suite_base::{List, NoMemory};

/// One coefficient for each iterator, each floor and each parameter, and a constant. The affine
/// value of a subscript has no coefficients of floors.
#[derive(Drop)]
pub struct Affine {
    pub(crate) iterators: List<Coeff>,
    pub(crate) floors: List<Coeff>,
    pub(crate) parameters: List<Coeff>,
    pub(crate) constant: Coeff,
}

impl Affine {
    /// The affine value of these coefficients.
    pub fn new(
        alloc: Global,
        iterators: &[Coeff],
        floors: &[Coeff],
        parameters: &[Coeff],
        constant: Coeff,
    ) -> Result<Affine, NoMemory>
        ensures iterators { IfOk result (λ value. value.iterators ≡ iterators.now) }
        ensures floors { IfOk result (λ value. value.floors ≡ floors.now) }
        ensures parameters { IfOk result (λ value. value.parameters ≡ parameters.now) }
        ensures constant { IfOk result (λ value. value.constant ≡ constant) }
    {
        Ok(Affine {
            iterators: copied_coeffs(alloc, iterators)?,
            floors: copied_coeffs(alloc, floors)?,
            parameters: copied_coeffs(alloc, parameters)?,
            constant,
        })
    }

    /// The coefficient of iterator `k`, from 0, which is below their number.
    pub fn iterator(&self, k: usize) -> Coeff
        requires { k < length self.now.iterators }
        ensures { result ≡ entry self.now.iterators k }
    {
        self.iterators.as_slice()[k]
    }

    /// The coefficient of floor `k`, from 0, which is below their number.
    pub fn floor(&self, k: usize) -> Coeff
        requires { k < length self.now.floors }
        ensures { result ≡ entry self.now.floors k }
    {
        self.floors.as_slice()[k]
    }

    /// The coefficient of parameter `k`, from 0, which is below their number.
    pub fn parameter(&self, k: usize) -> Coeff
        requires { k < length self.now.parameters }
        ensures { result ≡ entry self.now.parameters k }
    {
        self.parameters.as_slice()[k]
    }

    /// The coefficients of the iterators.
    pub fn iterators(&self) -> &[Coeff]
        ensures { result.now ≡ self.now.iterators }
    {
        self.iterators.as_slice()
    }

    /// The coefficients of the floors.
    pub fn floors(&self) -> &[Coeff]
        ensures { result.now ≡ self.now.floors }
    {
        self.floors.as_slice()
    }

    /// The coefficients of the parameters.
    pub fn parameters(&self) -> &[Coeff]
        ensures { result.now ≡ self.now.parameters }
    {
        self.parameters.as_slice()
    }

    /// The constant.
    pub fn constant(&self) -> Coeff
        ensures { result ≡ self.now.constant }
    {
        self.constant
    }
}
