//! Where labels lie: what is known of a text before its lines are judged.

ghost use Rattle.std.specs.Prelude.{◌≡◌, ◌<◌, ◌+◌, ◌^◌, IfOk, OnOk};
ghost use Rattle.line_text.specs.Lines.{lines_of};
ghost use Rattle.assembler.specs.Places as spec;

use crate::labels::{Label, Labels};
use crate::locations::LineLocation;
use crate::operations::LineOperation;
use assembler_syntax::{Head, head_of};
use line_text::lines::first_line;
use sqlite_items::Items;
use std::alloc::{AllocError, Global};

/// A line: its number, from 1 on, and its place.
#[derive(Clone, Copy, Debug, PartialEq, Eq)]
pub struct Here {
    pub line: u64,
    pub place: LineLocation,
}

/// What lines so far come to: the next line, the labels, and the first lines with `.entry` and with `.output`.
pub struct Survey {
    pub here: Here,
    pub labels: Labels,
    pub entry: Option<u64>,
    pub output: Option<u64>,
}

impl Drop for Survey {
    fn drop(self) {
        let Survey {
            labels,
            here: _,
            entry: _,
            output: _,
        } = self;
        drop(labels);
    }
}

impl Survey {
    /// The survey of a text before its first line.
    pub fn new(alloc: Global) -> Survey
        ensures { result ≡ spec.unsurveyed }
    {
        Survey {
            here: Here {
                line: 1,
                place: LineLocation::start(),
            },
            labels: Labels::new(alloc),
            entry: None,
            output: None,
        }
    }

    /// Adds a line's label, if it has one and no line before defines it.
    fn add_label(&mut self, alloc: Global, name: &Option<Items<u8>>) -> Result<(), AllocError>
        ensures { OnOk result (self.new
            ≡ record self.old {
              labels = spec.with_label self.old.labels
                  (record {
                    line = self.old.here.line;
                    section = self.old.here.place.section;
                    address = spec.address
                        self.old.here.place;
                  }) name.now;
            }) }
    {
        let Some(name) = name else {
            return Ok(());
        };
        if self.labels.get(name.as_slice()).is_none() {
            let label = Label {
                line: self.here.line,
                section: self.here.place.section,
                address: self.here.place.address(),
            };
            self.labels.add(alloc, name.as_slice(), label)?;
        }
        Ok(())
    }

    /// Goes on after a line, by its front.
    #[tactic(auto, unfolding(crate::specs::Places::surveyed_head, crate::specs::Places::after))]
    fn take_head(&mut self, alloc: Global, head: &Head) -> Result<(), AllocError>
        requires { self.old.here.line + 1 < 2 ^ 64 }
        ensures { OnOk result (self.new ≡ spec.surveyed_head self.old head.now) }
    {
        self.add_label(alloc, &head.label)?;
        let line = self.here.line;
        let operation = LineOperation::of(head);
        self.entry = entry_line(self.entry, line, operation);
        self.output = output_line(self.output, line, operation);
        self.here = Here {
            line: line + 1,
            place: place_after(self.here.place, head.number, operation),
        };
        Ok(())
    }

    /// Goes on after a line.
    fn take_line(&mut self, alloc: Global, line: &[u8]) -> Result<(), AllocError>
        requires { self.old.here.line + 1 < 2 ^ 64 }
        ensures { OnOk result (self.new ≡ spec.surveyed_line self.old line.now) }
    {
        self.take_head(alloc, &head_of(alloc, line)?)
    }

    /// The survey of a whole text.
    pub fn of(alloc: Global, text: &[u8]) -> Result<Survey, AllocError>
        ensures { IfOk result (λ survey. survey ≡ spec.surveyed spec.unsurveyed (lines_of text.now)) }
    {
        let mut survey = Survey::new(alloc);
        let mut rest = text;
        'lines: while !rest.is_empty() {
            let (line, after) = first_line(rest);
            survey.take_line(alloc, line)?;
            rest = after;
        }
        Ok(survey)
    }
}

/// The place after an operation, if there is one.
pub fn place_after(
    place: LineLocation,
    number: Option<i64>,
    operation: Option<LineOperation>,
) -> LineLocation
    ensures { result ≡ spec.after_operation place number operation }
{
    match operation {
        Some(operation) => operation.after(place, number),
        None => place,
    }
}

/// The first line with `.entry`, of those so far and this one.
fn entry_line(first: Option<u64>, line: u64, operation: Option<LineOperation>) -> Option<u64>
    ensures { result ≡ spec.entry_line first line operation }
{
    match operation {
        Some(LineOperation::Entry) => first.or(Some(line)),
        _ => first,
    }
}

/// The first line with `.output`, of those so far and this one.
fn output_line(first: Option<u64>, line: u64, operation: Option<LineOperation>) -> Option<u64>
    ensures { result ≡ spec.output_line first line operation }
{
    match operation {
        Some(LineOperation::Output) => first.or(Some(line)),
        _ => first,
    }
}
