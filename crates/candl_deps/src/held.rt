//! The dependences of a SCoP held in memory: its systems in order, each decided.

ghost use Rattle.std.specs.Prelude.{◌≡◌};
ghost use Rattle.std.specs.Option.{option_copied};
ghost use Rattle.candl_deps.specs.Found as spec;

use dependence_systems::Dep;
use farkas_cert::Certificate;
use relation_core::Part;
use suite_base::List;

/// A system and its verdict: no certificate where it is kept, that is where it has a rational point.
#[derive(Drop)]
pub struct Decided {
    pub system: Part,
    pub certificate: Option<Certificate>,
}

/// The systems of a SCoP in order, each with its rows and either kept or with a certificate.
#[derive(Drop)]
pub struct Dependences {
    pub(crate) deps: List<Dep>,
    pub(crate) decided: List<Decided>,
}

impl Dependences {
    /// The list of systems.
    pub fn deps(&self) -> &List<Dep>
        ensures { result.now ≡ self.now.deps }
    {
        &self.deps
    }

    /// The rows of the system at place `k`, from 0; `None` exactly where the list has no such place.
    pub fn system(&self, k: usize) -> Option<&Part>
        ensures { option_copied result ≡ spec.system_at self.now.decided k }
    {
        match self.decided.get(k) {
            Some(one) => Some(&one.system),
            None => None,
        }
    }

    /// The certificate of the system at place `k`, from 0; `None` exactly where the system is kept or the list
    /// has no such place.
    pub fn certificate(&self, k: usize) -> Option<&Certificate>
        ensures { option_copied result ≡ spec.certificate_at self.now.decided k }
    {
        match self.decided.get(k) {
            Some(one) => one.certificate.as_ref(),
            None => None,
        }
    }
}
