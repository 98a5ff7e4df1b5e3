//! A certificate: one multiplier for each row of a system.

ghost use Rattle.std.specs.Prelude.{◌≡◌, [], ◌∷◌, ◌++◌, ◌<◌, pos, length, replicate, slice_get, slice_set, IfOk, OnOk, OnErr, OnSome};
ghost use Rattle.std.specs.Option.{option_copied};

use row_core::Coeff;
use std::alloc::Global;
use std::marker::Model;
use suite_base::{List, NoMemory};

/// A list of Farkas multipliers, in the order of a system's rows. Contracts see the integers.
#[derive(Drop)]
pub struct Certificate {
    multipliers: List<Coeff>,
}

impl Model for Certificate {
    ghost use Rattle.std.specs.Prelude.{List, ℤ};

    ghost Value = { List ℤ };

    ghost view = { λ certificate. certificate.multipliers };
}

impl Certificate {
    /// The certificate without multipliers.
    pub fn new(alloc: Global) -> Certificate
        ensures { result ≡ [] }
    {
        Certificate {
            multipliers: List::new(alloc),
        }
    }

    /// The certificate of `count` multipliers that are 0.
    pub fn zeros(alloc: Global, count: usize) -> Result<Certificate, NoMemory>
        ensures { IfOk result (λ certificate. certificate ≡ replicate count (pos 0)) }
    {
        let mut multipliers = List::with_capacity(alloc, count)?;
        for _ in 0..count {
            multipliers.push(Coeff::ZERO)?;
        }
        Ok(Certificate { multipliers })
    }

    /// The allocator that the certificate keeps.
    pub fn allocator(&self) -> Global {
        self.multipliers.allocator()
    }

    /// Appends a multiplier. On want of memory the certificate is as before.
    pub fn push(&mut self, multiplier: Coeff) -> Result<(), NoMemory>
        ensures ok { OnOk result (self.new ≡ self.old ++ multiplier ∷ []) }
        ensures err { OnErr result (self.new ≡ self.old) }
    {
        self.multipliers.push(multiplier)
    }

    /// Puts a multiplier at place `k`, from 0, which is below the length.
    pub fn set(&mut self, k: usize, multiplier: Coeff)
        requires { k < length self.old }
        ensures { self.new ≡ slice_set self.old k multiplier }
    {
        let _old = self.multipliers.set(k, multiplier);
    }

    /// The multiplier at place `k`, from 0; `None` exactly where `k` is not below the length.
    pub fn get(&self, k: usize) -> Option<&Coeff>
        ensures value { option_copied result ≡ slice_get self.now k }
        ensures within { OnSome result (k < length self.now) }
    {
        self.multipliers.get(k)
    }

    /// The number of multipliers.
    pub fn len(&self) -> usize
        ensures { result ≡ length self.now }
    {
        self.multipliers.len()
    }

    /// The multipliers as a slice.
    pub fn as_slice(&self) -> &[Coeff]
        ensures { result.now ≡ self.now }
    {
        self.multipliers.as_slice()
    }
}
