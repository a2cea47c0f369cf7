//! What words ask about who wrote data.

ghost use Rattle.std.specs.Prelude.{◌≡◌, ◌<◌, ◌≤◌, length, IfOk};
ghost use Rattle.memory.specs.Access.{most_bytes};
ghost use Rattle.hrv_engines.specs.BlameQuestions as spec;
ghost use Rattle.hrv_engines.specs.Commands.{number_of};
ghost use Rattle.hrv_engines.specs.Dump.{pixel_address};
ghost use Rattle.hrv_engines.specs.Races.{left_out};

use crate::commands::read_number;
use debugger_blame::Marking;
use loader::{Image, Output};
use memory::DATA_START;

/// The words that a question is asked by: the numbers of a pixel, the address of a word of data, and whether turns are
/// told of in place of harts. Which of them go together, [`judge`] judges.
#[derive(Clone, Copy)]
pub struct Question<'a> {
    pub x: Option<&'a str>,
    pub y: Option<&'a str>,
    pub address: Option<&'a str>,
    pub with_turns: bool,
}

/// What a question asks for.
#[derive(Clone, Copy, Debug)]
pub enum BlameQuestion {
    /// The last write of a word of data.
    Word(u32),
    /// A mark for each pixel of the output.
    Pixels(Output, Marking),
}

/// Why a question isn't answered.
#[derive(Clone, Copy, Debug, PartialEq, Eq)]
pub enum BlameFault {
    /// These words don't go together.
    Words,
    /// A word is no number.
    Number,
    /// The image has no output.
    NoOutput,
    /// The output has no such pixel.
    OutsideOutput,
    /// There is no word of data at the address.
    NoDataWord,
}

impl BlameFault {
    /// The number of the refusal.
    pub fn number(&self) -> u8
        ensures { result ≡ spec.fault_number self.now }
    {
        match self {
            BlameFault::Words => 1,
            BlameFault::Number => 2,
            BlameFault::NoOutput => 3,
            BlameFault::OutsideOutput => 4,
            BlameFault::NoDataWord => 5,
        }
    }
}

/// What a question asks for of an image.
pub fn judge(image: &Image, question: Question) -> Result<BlameQuestion, BlameFault>
    ensures value { result ≡ spec.wanted_of image.now (spec.given_by question.entry) }
    ensures lies { IfOk result spec.PixelsLie }
{
    let with_turns = question.with_turns;
    match (question.x, question.y, question.address) {
        (None, None, None) => wanted_pixels(image, with_turns),
        (Some(x), Some(y), None) if !with_turns => wanted_pixel(image, x, y),
        (None, None, Some(address)) if !with_turns => wanted_word(image, address),
        _ => Err(BlameFault::Words),
    }
}

/// All pixels of an image's output.
fn wanted_pixels(image: &Image, with_turns: bool) -> Result<BlameQuestion, BlameFault>
    ensures value { result ≡ spec.pixels_of image.now.output with_turns }
    ensures lies { IfOk result spec.PixelsLie }
{
    let Some(output) = image.output() else {
        return Err(BlameFault::NoOutput);
    };
    Ok(BlameQuestion::Pixels(output, marking_of(with_turns)))
}

/// What pixels are marked with.
fn marking_of(with_turns: bool) -> Marking
    ensures { result ≡ spec.marking_of with_turns }
{
    if with_turns {
        Marking::Turns
    } else {
        Marking::Harts
    }
}

/// A pixel of an image's output, by its numbers' texts.
fn wanted_pixel(image: &Image, x: &str, y: &str) -> Result<BlameQuestion, BlameFault>
    ensures value { result ≡ spec.pixel_of image.now.output (number_of x.now) (number_of y.now) }
    ensures lies { IfOk result spec.PixelsLie }
{
    let Some(x) = read_number(x.as_bytes()) else {
        return Err(BlameFault::Number);
    };
    let Some(y) = read_number(y.as_bytes()) else {
        return Err(BlameFault::Number);
    };
    let Some(output) = image.output() else {
        return Err(BlameFault::NoOutput);
    };
    if x >= u64::from(output.width) || y >= u64::from(output.height) {
        return Err(BlameFault::OutsideOutput);
    }
    Ok(BlameQuestion::Word(address_of(output, x as u32, y as u32)))
}

/// The address of a pixel.
fn address_of(output: Output, x: u32, y: u32) -> u32
    requires lies { spec.LiesInData output }
    requires column { x < output.width }
    requires row { y < output.height }
    ensures { result ≡ pixel_address output x y }
{
    output.address + y * output.stride + 4 * x
}

/// The word of an image's data at an address, by its text.
fn wanted_word(image: &Image, address: &str) -> Result<BlameQuestion, BlameFault>
    ensures value { result ≡ spec.word_of (length image.now.bytes) (number_of address.now) }
    ensures lies { IfOk result spec.PixelsLie }
{
    let Some(address) = read_number(address.as_bytes()) else {
        return Err(BlameFault::Number);
    };
    if !is_data_word(image.data().len(), address) {
        return Err(BlameFault::NoDataWord);
    }
    Ok(BlameQuestion::Word(address as u32))
}

/// The word of data at an address, by its text, where there are this many bytes of data.
pub(crate) fn data_word(bytes: usize, address: &str) -> Result<u32, BlameFault>
    requires { bytes ≤ most_bytes }
    ensures { result ≡ left_out bytes (number_of address.now) }
{
    let Some(address) = read_number(address.as_bytes()) else {
        return Err(BlameFault::Number);
    };
    if !is_data_word(bytes, address) {
        return Err(BlameFault::NoDataWord);
    }
    Ok(address as u32)
}

/// Whether a word of data begins at an address, where there are this many bytes of data.
fn is_data_word(bytes: usize, address: u64) -> bool
    requires { bytes ≤ most_bytes }
    ensures { result ≡ spec.is_data_word bytes address }
{
    let start = u64::from(DATA_START);
    let end = start + bytes as u64;
    address.is_multiple_of(4) && start <= address && address < end && end - address >= 4
}
