//! What everything that is compiled starts from.

ghost use Rattle.std.specs.Prelude.{◌≡◌, Ok};
ghost use Rattle.schedule.specs.Accepted.{IsAccepted};
ghost use Rattle.bounds.specs.Plans.{IsPlan};
ghost use Rattle.bounds.specs.Verdict.{inferred};

use crate::verdict::Boxes;
use halide_pipeline::Pipeline;
use schedule::Schedule;
use std::marker::Model;

/// A pipeline, a schedule that is accepted for it, and the boxes that are inferred for both, lent as one value.
/// Contracts see a `PlanContents` that is an `IsPlan` (`specs/Plans.antt`).
#[derive(Drop)]
pub struct Plan<'a> {
    pipeline: &'a Pipeline,
    schedule: &'a Schedule,
    boxes: &'a Boxes,
}

impl<'a> Model for Plan<'a> {
    ghost use Rattle.std.specs.Coded.{codes};
    ghost use Rattle.halide_pipeline.specs.contracts.expressions.Expr as e;
    ghost use Rattle.bounds.specs.Plans.{PlanContents, IsPlan};

    ghost Value = { PlanContents };

    ghost coded = { Prim.hlevel (codes, e.the_row.coded) };

    ghost view = { λ p. record { pipeline = p.pipeline.now; schedule = p.schedule.now; boxes = p.boxes.now } };

    ghost invariant = { λ p. IsPlan (record {
      pipeline = p.pipeline.now;
      schedule = p.schedule.now;
      boxes = p.boxes.now;
    }) };
}

impl<'a> Plan<'a> {
    /// The plan of a pipeline, a schedule and boxes.
    pub fn new(pipeline: &'a Pipeline, schedule: &'a Schedule, boxes: &'a Boxes) -> Plan<'a>
        requires accepted { IsAccepted pipeline.now schedule.now }
        requires boxes { inferred pipeline.now schedule.now ≡ Ok boxes.now }
        ensures { result ≡ record { pipeline = pipeline.now; schedule = schedule.now; boxes = boxes.now } }
    {
        Plan {
            pipeline,
            schedule,
            boxes,
        }
    }

    pub fn pipeline(&self) -> &'a Pipeline
        ensures value { result.now ≡ self.now.pipeline }
        ensures plan { IsPlan self.now }
    {
        self.pipeline
    }

    pub fn schedule(&self) -> &'a Schedule
        ensures value { result.now ≡ self.now.schedule }
        ensures plan { IsPlan self.now }
    {
        self.schedule
    }

    pub fn boxes(&self) -> &'a Boxes
        ensures value { result.now ≡ self.now.boxes }
        ensures plan { IsPlan self.now }
    {
        self.boxes
    }
}
