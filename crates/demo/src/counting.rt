//! How many systems a SCoP has, and how many of them are kept.

ghost use Rattle.std.specs.Prelude.{◌≡◌, ◌≤◌, cond, length, count_by, IfOk, IfErr};
ghost use Rattle.candl_deps.specs.Decisions.{IsCause};
ghost use Rattle.candl_deps.specs.Found.{certificate_at, verdicts_of};
ghost use Rattle.demo.specs.Demonstrations as spec;

use crate::summaries::SystemCounts;
use candl_deps::{Dependences, dependences};
use scop_core::Scop;
use std::alloc::Global;
use suite_base::Fail;

/// The numbers of a SCoP's systems. It refuses as `dependences` does.
pub fn count_systems(alloc: Global, scop: &Scop) -> Result<SystemCounts, Fail>
    ensures ok { IfOk result (spec.AreCounted scop.now) }
    ensures err { IfErr result (IsCause scop.now) }
{
    match dependences(alloc, scop) {
        Err(fail) => Err(fail),
        Ok(found) => {
            let all = found.deps().len();
            let kept = count_kept(&found, all);
            Ok(SystemCounts {
                all,
                kept,
                dropped: all - kept,
            })
        }
    }
}

// How many systems of all `count` are kept.
fn count_kept(found: &Dependences, count: usize) -> usize
    requires { count ≡ length found.now.decided }
    ensures kept { result ≡ count_by spec.is_kept (verdicts_of found.now.decided) }
    ensures within { result ≤ count }
{
    let mut kept = 0;
    for k in 0..count {
        kept += kept_at(found, k);
    }
    kept
}

// 1 where the system at place `k` is kept, else 0.
fn kept_at(found: &Dependences, k: usize) -> usize
    ensures answer { result ≡ cond (spec.is_kept (certificate_at found.now.decided k)) 1 0 }
    ensures within { result ≤ 1 }
{
    match found.certificate(k) {
        None => 1,
        Some(_) => 0,
    }
}
