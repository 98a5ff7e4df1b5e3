//! What the systems of two accesses are made of, and the rows of these systems.

ghost use Rattle.std.specs.Prelude.{◌≡◌, ◌≤◌, ◌<◌, ◌^◌, OnOk, IfOk, IfErr};
ghost use Rattle.scop_core.specs.LevelOrder.{IsLevel};
ghost use Rattle.dependence_systems.specs.Fits.{IsBuildable};
ghost use Rattle.dependence_systems.specs.Systems.{pairing, ground_of, base_of, base_weight, level_system, level_weight};

use crate::building::{base_between, push_subscripts, shared_of, widths_between};
use crate::level_rows;
use relation_core::Part;
use row_core::RowFail;
use scop_core::{Access, Schedule};
use std::alloc::Global;
use std::marker::Model;
use suite_base::NoMemory;

/// What the systems of two accesses are made of: the context, and of the source and the target a part of
/// the domain, the access and the schedule. They fit together.
#[derive(Drop)]
pub struct Pairing<'a> {
    context: &'a Part,
    source_part: &'a Part,
    target_part: &'a Part,
    source_access: &'a Access,
    target_access: &'a Access,
    source_schedule: &'a Schedule,
    target_schedule: &'a Schedule,
}

impl<'a> Model for Pairing<'a> {
    ghost use Rattle.dependence_systems.specs.Fits.{IsBuildable};
    ghost use Rattle.dependence_systems.specs.Systems.{Pairing as Paired, pairing};

    ghost Value = { Paired };

    ghost view = { λ p. pairing p.context.now p.source_part.now p.target_part.now p.source_access.now p.target_access.now p.source_schedule.now p.target_schedule.now };

    ghost invariant = { λ p. IsBuildable (pairing p.context.now p.source_part.now p.target_part.now p.source_access.now p.target_access.now p.source_schedule.now p.target_schedule.now) };
}

impl<'a> Pairing<'a> {
    /// These in order, where they fit together.
    pub(crate) fn new(
        context: &'a Part,
        source_part: &'a Part,
        target_part: &'a Part,
        source_access: &'a Access,
        target_access: &'a Access,
        source_schedule: &'a Schedule,
        target_schedule: &'a Schedule,
    ) -> Pairing<'a>
        requires { IsBuildable (pairing context.now source_part.now target_part.now source_access.now target_access.now source_schedule.now target_schedule.now) }
        ensures { result ≡ pairing context.now source_part.now target_part.now source_access.now target_access.now source_schedule.now target_schedule.now }
    {
        Pairing {
            context,
            source_part,
            target_part,
            source_access,
            target_access,
            source_schedule,
            target_schedule,
        }
    }

    /// The rows that the systems of all levels begin with: those of the context, of both domain parts, of
    /// the floors of both schedules, and of the subscripts. Overflow comes exactly where an entry of
    /// them has summands whose absolute values sum above 2^127 - 1.
    pub fn base(&self, alloc: Global) -> Result<Part, RowFail>
        ensures part { IfOk result (λ part. part ≡ base_of self.now) }
        ensures light { OnOk result (base_weight self.now < 2 ^ 127) }
        ensures heavy { IfErr result (λ fail. fail ≡ RowFail.Overflow → 2 ^ 127 ≤ base_weight self.now) }
    {
        base_between(
            alloc,
            self.context,
            self.source_part,
            self.target_part,
            self.source_access,
            self.target_access,
            self.source_schedule,
            self.target_schedule,
        )
    }

    /// The rows that the systems of all accesses in these parts begin with: those of the context, of both domain
    /// parts, and of the floors of both schedules.
    pub fn ground(&self, alloc: Global) -> Result<Part, NoMemory>
        ensures { IfOk result (λ part. part ≡ ground_of self.now) }
    {
        shared_of(
            alloc,
            self.context,
            self.source_part,
            self.target_part,
            self.source_schedule,
            self.target_schedule,
        )
    }

    /// Appends the rows of the subscripts to those of the ground, which makes them those of the base. Overflow
    /// comes exactly where an entry of the subscripts' rows has summands whose absolute values sum above 2^127 - 1.
    pub fn push_subscripts(&self, part: &mut Part) -> Result<(), RowFail>
        requires ground { part.old ≡ ground_of self.now }
        ensures base { OnOk result (part.new ≡ base_of self.now) }
        ensures light { OnOk result (base_weight self.now < 2 ^ 127) }
        ensures heavy { IfErr result (λ fail. fail ≡ RowFail.Overflow → 2 ^ 127 ≤ base_weight self.now) }
    {
        let w = widths_between(
            self.source_part,
            self.target_part,
            self.source_schedule,
            self.target_schedule,
        );
        push_subscripts(part, &w, self.source_access, self.target_access)
    }

    /// Appends the rows of a level to those of the base. Overflow comes exactly where an entry of the
    /// level's rows has summands whose absolute values sum above 2^127 - 1.
    pub fn push_level(&self, part: &mut Part, level: usize) -> Result<(), RowFail>
        requires base { part.old ≡ base_of self.now }
        requires level { IsLevel self.now.source_schedule.betas self.now.target_schedule.betas level }
        ensures system { OnOk result (part.new ≡ level_system self.now level) }
        ensures light { OnOk result (level_weight self.now.source_schedule self.now.target_schedule level < 2 ^ 127) }
        ensures heavy { IfErr result (λ fail. fail ≡ RowFail.Overflow → 2 ^ 127 ≤ level_weight self.now.source_schedule self.now.target_schedule level) }
    {
        let w = widths_between(
            self.source_part,
            self.target_part,
            self.source_schedule,
            self.target_schedule,
        );
        level_rows::push_level(part, &w, self.source_schedule, self.target_schedule, level)
    }
}
