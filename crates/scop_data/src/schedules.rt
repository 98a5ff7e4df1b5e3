//! Schedules: betas, levels and floors.

use crate::affines::Affine;
use row_core::Coeff;
use suite_base::List;

/// The greatest integer not above `value / size`, with `size` at least 1.
#[derive(Drop)]
pub struct Floor {
    pub value: Affine,
    pub size: Coeff,
}

/// The schedule of a statement: it runs at the dimensions `β0, v1, β1, .., vm, βm`, betas and values
/// of levels in turn. The form of each floor uses the floors before it.
#[derive(Drop)]
pub struct Schedule {
    pub floors: List<Floor>,
    pub levels: List<Affine>,
    pub betas: List<Coeff>,
}
