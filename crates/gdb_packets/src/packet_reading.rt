//! Reading packets, byte after byte.

ghost use Rattle.std.specs.Prelude.{◌≡◌, ◌+◌, ◌<◌, ◌≤◌, ◌^◌, ◌++◌, [], ◌∷◌, ℕ, List, map, option_map, IfOk, OnOk};
ghost use Rattle.gdb_packets.specs.Packets as spec;

use crate::readings::Reading;
use line_text::numbers::saturating_hexadecimal;
use line_text::spans::is_hexadecimal;
use std::alloc::{AllocError, Global};

/// In which part of a frame a reader is.
#[derive(Clone, Copy, Debug, PartialEq, Eq)]
pub enum Stage {
    /// In none.
    Outside,
    /// After `$`.
    InData,
    /// After `#`.
    BehindData,
    /// After `#` and this digit.
    BehindDigit(u8),
}

/// A reader of packets. It keeps the body of one frame, and of one that is too long no more than a byte above what was
/// announced.
#[derive(Drop)]
pub struct PacketReader {
    limit: usize,
    stage: Stage,
    body: Vec<u8>,
    sum: u8,
}

impl PacketReader {
    /// A reader of which nothing is read yet, for frames whose bodies have at most this many bytes.
    pub fn new(alloc: Global, limit: usize) -> PacketReader
        requires { limit + 1 < 2 ^ 63 }
        ensures place { spec.place_of result ≡ spec.outside }
        ensures limit { result.limit ≡ limit }
    {
        PacketReader {
            limit,
            stage: Stage::Outside,
            body: Vec::new(alloc),
            sum: 0,
        }
    }

    /// Takes one byte, and answers what is read with it. After an error the reader may be anything.
    #[tactic(auto, unfolding(crate::specs::Packets::after, crate::specs::Packets::reading))]
    pub fn take(&mut self, alloc: Global, byte: u8) -> Result<Option<Reading>, AllocError>
        ensures reading { IfOk result (λ found. option_map spec.view found
            ≡ spec.reading self.old.limit (spec.place_of self.old) byte) }
        ensures place { OnOk result (spec.place_of self.new ≡ spec.after self.old.limit (spec.place_of self.old) byte) }
        ensures limit { self.new.limit ≡ self.old.limit }
    {
        if byte == b'$' {
            self.begin(Stage::InData);
            return Ok(None);
        }
        match self.stage {
            Stage::Outside => Ok(outside_frames(byte)),
            Stage::InData => {
                self.take_data(byte)?;
                Ok(None)
            }
            Stage::BehindData => {
                self.stage = Stage::BehindDigit(byte);
                Ok(None)
            }
            Stage::BehindDigit(first) => {
                let reading = self.end(alloc, first, byte)?;
                self.begin(Stage::Outside);
                Ok(Some(reading))
            }
        }
    }

    /// Takes bytes, and appends what is read with them. After an error the reader may be anything.
    pub fn read(
        &mut self,
        alloc: Global,
        bytes: &[u8],
        found: &mut Vec<Reading>,
    ) -> Result<(), AllocError>
        ensures readings { OnOk result (map spec.view found.new.items ≡ map spec.view found.old.items
            ++ spec.readings self.old.limit (spec.place_of self.old) bytes.now) }
        ensures place { OnOk result (spec.place_of self.new
            ≡ spec.behind self.old.limit (spec.place_of self.old) bytes.now) }
        ensures limit { self.new.limit ≡ self.old.limit }
    {
        for &byte in bytes {
            let reading = self.take(alloc, byte)?;
            push_reading(found, reading)?;
        }
        Ok(())
    }

    /// Stands there, with an empty body.
    fn begin(&mut self, stage: Stage)
        ensures place { spec.place_of self.new ≡ spec.at stage [] 0 }
        ensures limit { self.new.limit ≡ self.old.limit }
    {
        self.stage = stage;
        self.body.clear();
        self.sum = 0;
    }

    /// Takes a byte after `$`.
    fn take_data(&mut self, byte: u8) -> Result<(), AllocError>
        ensures place { OnOk result (spec.place_of self.new
            ≡ spec.led self.old.limit byte Stage.InData self.old.body.items self.old.sum) }
        ensures limit { self.new.limit ≡ self.old.limit }
    {
        if byte == b'#' {
            self.stage = Stage::BehindData;
            return Ok(());
        }
        self.stage = Stage::InData;
        self.sum = self.sum.wrapping_add(byte);
        if self.body.len() <= self.limit {
            self.body.push(byte)?;
        }
        Ok(())
    }

    /// What a frame says whose digits are these.
    fn end(&self, alloc: Global, first: u8, second: u8) -> Result<Reading, AllocError>
        ensures { IfOk result (λ reading. spec.view reading
            ≡ spec.said self.now.limit self.now.body.items self.now.sum first second) }
    {
        if !is_sum(self.sum, first, second) {
            return Ok(Reading::Bad);
        }
        if self.body.len() > self.limit {
            return Ok(Reading::TooLong);
        }
        unescape(alloc, &self.body)
    }
}

/// Appends a reading, if there is one.
fn push_reading(found: &mut Vec<Reading>, reading: Option<Reading>) -> Result<(), AllocError>
    ensures { OnOk result ((others : List spec.Reading) → map spec.view found.new.items ++ others
        ≡ map spec.view found.old.items ++ spec.before (option_map spec.view reading) others) }
{
    if let Some(reading) = reading {
        found.push(reading)?;
    }
    Ok(())
}

/// What a byte says that belongs to no frame.
fn outside_frames(byte: u8) -> Option<Reading>
    ensures { option_map spec.view result ≡ spec.told_outside byte }
{
    match byte {
        3 => Some(Reading::Interrupt),
        b'-' => Some(Reading::Again),
        _ => None,
    }
}

/// Whether two bytes are the digits of a sum.
fn is_sum(sum: u8, first: u8, second: u8) -> bool
    ensures { result ≡ spec.is_sum sum first second }
{
    is_hexadecimal(first)
        && is_hexadecimal(second)
        && saturating_hexadecimal(&[first, second], 255) == u64::from(sum)
}

/// The packet that a body spells.
fn unescape(alloc: Global, body: &[u8]) -> Result<Reading, AllocError>
    ensures { IfOk result (λ reading. spec.view reading ≡ spec.spelled (spec.unescaped body.now)) }
{
    let mut payload = Vec::new(alloc);
    let mut is_escaped = false;
    for &byte in body {
        is_escaped = unescape_byte(&mut payload, is_escaped, byte)?;
    }
    if is_escaped {
        return Ok(Reading::Bad);
    }
    Ok(Reading::Packet(payload))
}

/// Appends what a byte of a body spells, after `}` or not, and says whether the byte is a `}` that escapes the next.
#[tactic(auto, unfolding(crate::specs::Packets::unescaped_from), using(crate::proofs::Unescaping::one_more))]
fn unescape_byte(payload: &mut Vec<u8>, is_escaped: bool, byte: u8) -> Result<bool, AllocError>
    ensures { IfOk result (λ escapes. (rest : List ℕ)
        → spec.in_fronts payload.old.items (spec.unescaped_from is_escaped (byte ∷ rest))
        ≡ spec.in_fronts payload.new.items (spec.unescaped_from escapes rest)) }
{
    if is_escaped {
        payload.push(byte ^ 0x20)?;
        Ok(false)
    } else if byte == b'}' {
        Ok(true)
    } else {
        payload.push(byte)?;
        Ok(false)
    }
}
