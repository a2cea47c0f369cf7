//! Files in memory that give and take bytes as a case says.

ghost use Rattle.std.specs.Prelude.{◌≡◌, IfOk};

use crate::failures::CaseFailure;
use std::alloc::Global;
use test_cases::Part;
use test_devices::{Page, Tape, empty_page, tape_of};

/// What a case says of its devices: lines of a device's name, the most bytes that it gives or takes a call and, where
/// one of its calls is to fail, how many come before. A device without a line gives or takes all at once, and never
/// fails.
#[derive(Clone, Copy)]
pub struct Devices<'a> {
    lines: &'a str,
}

/// The parts of a case without the last one, where that is what it says of its devices.
pub fn devices_of(parts: &[Part]) -> (&[Part], Devices) {
    if let [others @ .., last] = parts {
        if last.name.as_str() == "devices" {
            let lines = last.text.as_str();
            return (others, Devices { lines });
        }
    }
    (parts, Devices { lines: "" })
}

/// How a device gives or takes bytes.
#[derive(Drop)]
struct DeviceSetting {
    step: usize,
    calls_left: Option<u32>,
}

impl Devices<'_> {
    /// A file that is read.
    pub fn tape<'a>(&self, name: &'a str, bytes: &'a [u8]) -> Result<Tape<'a>, CaseFailure>
        ensures { IfOk result (λ tape. tape.failures ≡ 0) }
    {
        let DeviceSetting { step, calls_left } = self.setting(name)?;
        let mut tape = tape_of(name, bytes);
        tape.step = step;
        tape.reads_left = calls_left;
        Ok(tape)
    }

    /// The file that is written, whose name is `page`.
    pub fn page(&self, alloc: Global) -> Result<Page, CaseFailure>
        ensures { IfOk result (λ page. page.failures ≡ 0) }
    {
        self.written(alloc, "page")
    }

    /// The log that a run writes. Its lines have the name `new`; its own name is `page` too.
    pub fn new_log(&self, alloc: Global) -> Result<Page, CaseFailure>
        ensures { IfOk result (λ page. page.failures ≡ 0) }
    {
        self.written(alloc, "new")
    }

    /// The record that a run writes. Its lines have the name `kept`; its own name is `page` too.
    pub fn new_record(&self, alloc: Global) -> Result<Page, CaseFailure>
        ensures { IfOk result (λ page. page.failures ≡ 0) }
    {
        self.written(alloc, "kept")
    }

    fn written(&self, alloc: Global, name: &str) -> Result<Page, CaseFailure>
        ensures { IfOk result (λ page. page.failures ≡ 0) }
    {
        let DeviceSetting { step, calls_left } = self.setting(name)?;
        let mut page = empty_page(alloc);
        page.step = step;
        page.writes_left = calls_left;
        Ok(page)
    }

    fn setting(&self, name: &str) -> Result<DeviceSetting, CaseFailure> {
        for line in self.lines.lines() {
            if let Some((device, numbers)) = line.split_once(' ') {
                if device == name {
                    return setting_of(numbers);
                }
            }
        }
        Ok(DeviceSetting {
            step: usize::MAX,
            calls_left: None,
        })
    }
}

/// A page that takes this many bytes a write, whose write after this many fails.
pub fn failing_page(alloc: Global, step: usize, calls: u32) -> Page
    ensures { result.failures ≡ 0 }
{
    let mut page = empty_page(alloc);
    page.step = step;
    page.writes_left = Some(calls);
    page
}

/// The setting that numbers stand for.
fn setting_of(numbers: &str) -> Result<DeviceSetting, CaseFailure> {
    let (step, calls) = match numbers.split_once(' ') {
        Some((step, calls)) => (step, Some(calls)),
        None => (numbers, None),
    };
    let calls_left = match calls {
        Some(calls) => Some(number_of(calls)?),
        None => None,
    };
    let step = number_of(step)? as usize;
    Ok(DeviceSetting { step, calls_left })
}

fn number_of(text: &str) -> Result<u32, CaseFailure> {
    let Ok(number) = text.parse::<u32>() else {
        return Err(CaseFailure::Malformed("a device without numbers"));
    };
    Ok(number)
}
