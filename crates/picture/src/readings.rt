//! Reading pictures from texts.

ghost use Rattle.std.specs.Prelude.{◌≡◌, ◌==◌, ◌+◌, ◌-◌, ◌*◌, ◌%◌, ◌^◌, ◌<◌, ◌≤◌, ℕ, length, take, if◌then◌else◌};
ghost use Rattle.std.specs.Prelude.{IfOk, IfSome, IsTrue, Ok, codes, vec_len};
ghost use Rattle.std.specs.List.{prefix_len};
ghost use Rattle.line_text.specs.Lines.{Gives, decimal_number, is_digit};
ghost use Rattle.halide_pipeline.specs.WellFormed.{is_width, is_height};
ghost use Rattle.halide_pipeline.specs.Picture.{IsPicture};
ghost use Rattle.halide_pipeline.specs.Contents.{PictureContents};
ghost use Rattle.picture.specs.Reading.{spelled};
ghost use Rattle.picture.specs.Reading as spec;

use crate::faults::PictureFault;
use crate::pictures::{Picture, is_height, is_width};
use halide_pipeline::MOST_EXTENT;
use line_text::ReadError;
use line_text::numbers::saturating_number;
use line_text::spans::{digits_len, is_digit};
use std::alloc::{AllocError, Global};

/// How many bytes are looked at for a number of few digits and the byte after them. Fewer digits spell less than 2^31.
const SHORT_LEN: usize = 9;

/// What is after a word.
#[tactic(auto, unfolding(crate::specs::Reading::behind))]
fn behind<'a>(word: &[u8], text: &'a [u8]) -> Result<&'a [u8], PictureFault>
    ensures { spec.Shows (λ rest. rest.now) result (spec.behind word.now text.now) }
{
    match text.strip_prefix(word) {
        Some(rest) => Ok(rest),
        None => Err(PictureFault::Syntax),
    }
}

/// Whether digits have no leading zero and are no `-0`.
fn is_plain(negative: bool, digits: &[u8]) -> bool
    ensures { result ≡ spec.is_plain negative digits.now }
{
    match digits {
        [] => false,
        [first] => !(negative && *first == b'0'),
        [first, ..] => *first != b'0',
    }
}

/// The digits at the front and what is after them.
#[tactic(auto, unfolding(crate::specs::Reading::plain_at))]
fn plain_at(negative: bool, text: &[u8]) -> Result<(bool, &[u8], &[u8]), PictureFault>
    ensures { spec.Shows (λ numeral. (record { negative = numeral.0; digits = numeral.1.now }, numeral.2.now)) result
        (spec.plain_at negative text.now) }
{
    let (digits, rest) = text.split_at(digits_len(text));
    if is_plain(negative, digits) {
        Ok((negative, digits, rest))
    } else {
        Err(PictureFault::Syntax)
    }
}

/// Whether a number at the front has a sign, and what is after the sign.
#[tactic(auto, unfolding(crate::specs::Reading::numeral_at, crate::specs::Reading::plain_at))]
fn sign_at(text: &[u8]) -> (bool, &[u8])
    ensures { spec.numeral_at text.now ≡ spec.plain_at result.0 result.1.now }
{
    match text {
        [] => (false, text),
        [b'-', unsigned @ ..] => (true, unsigned),
        [_, ..] => (false, text),
    }
}

/// The number at the front: whether it has a sign, its digits, and what is after it.
fn numeral_at(text: &[u8]) -> Result<(bool, &[u8], &[u8]), PictureFault>
    ensures { spec.Shows (λ numeral. (record { negative = numeral.0; digits = numeral.1.now }, numeral.2.now)) result
        (spec.numeral_at text.now) }
{
    let (negative, unsigned) = sign_at(text);
    plain_at(negative, unsigned)
}

/// The pixel of a number, below 0 or not.
fn signed(negative: bool, size: u32) -> u32
    ensures { result ≡ (if negative then (2 ^ 32 - size) % 2 ^ 32 else size) }
{
    if negative { size.wrapping_neg() } else { size }
}

/// The pixel of a signed number of 32 bits.
fn pixel_of(negative: bool, digits: &[u8]) -> Result<u32, PictureFault>
    ensures { spec.Shows (λ pixel. pixel) result (spec.pixel_of (record { negative = negative; digits = digits.now })) }
{
    let most = if negative { 1 << 31 } else { (1 << 31) - 1 };
    let size = saturating_number(digits, most);
    if size > most {
        return Err(PictureFault::Number);
    }
    Ok(signed(negative, size as u32))
}

/// The width at the front and what is after it.
#[tactic(auto, unfolding(crate::specs::Reading::extent_at))]
fn width_at(text: &[u8]) -> Result<(u32, &[u8]), PictureFault>
    ensures value { spec.Shows (λ width. (width.0, width.1.now)) result (spec.extent_at is_width text.now) }
    ensures limit { IfOk result (λ width. IsTrue (is_width width.0)) }
{
    let (negative, digits, rest) = numeral_at(text)?;
    let width = saturating_number(digits, u64::from(MOST_EXTENT));
    if negative || !is_width(width) {
        return Err(PictureFault::Extents);
    }
    Ok((width as u32, rest))
}

/// The height at the front, beside this width, and what is after it.
#[tactic(auto, unfolding(crate::specs::Reading::extent_at))]
fn height_at(width: u32, text: &[u8]) -> Result<(u32, &[u8]), PictureFault>
    ensures value { spec.Shows (λ height. (height.0, height.1.now)) result (spec.extent_at (is_height width) text.now) }
    ensures limit { IfOk result (λ height. IsTrue (is_height width height.0)) }
{
    let (negative, digits, rest) = numeral_at(text)?;
    let height = saturating_number(digits, u64::from(MOST_EXTENT));
    if negative || !is_height(width, height) {
        return Err(PictureFault::Extents);
    }
    Ok((height as u32, rest))
}

/// Width and height at the front of a whole text, and what is after them.
#[tactic(auto, unfolding(crate::specs::Reading::heading_at))]
fn heading_at(text: &[u8]) -> Result<(u32, u32, &[u8]), PictureFault>
    ensures value { spec.Shows (λ heading. ((heading.0, heading.1), heading.2.now)) result (spec.heading_at text.now) }
    ensures width { IfOk result (λ heading. IsTrue (is_width heading.0)) }
    ensures height { IfOk result (λ heading. IsTrue (is_height heading.0 heading.1)) }
{
    let from_width = behind(b"picture ", text)?;
    let (width, after_width) = width_at(from_width)?;
    let from_height = behind(b" ", after_width)?;
    let (height, after_height) = height_at(width, from_height)?;
    let rest = behind(b"\n", after_height)?;
    Ok((width, height, rest))
}

/// The number that the digits at the front spell, and how many they are, where they are few and as many bytes are left
/// as are looked at.
fn short_number(text: &[u8]) -> Option<(u32, usize)>
    ensures len { IfSome result (λ short. short.1 ≡ prefix_len is_digit text.now) }
    ensures within { IfSome result (λ short. short.1 ≤ length text.now) }
    ensures number { IfSome result (λ short. short.0 ≡ decimal_number (take short.1 text.now)) }
    ensures few { IfSome result (λ short. short.0 < 10 ^ 8) }
{
    if text.len() < SHORT_LEN {
        return None;
    }
    let mut number = 0;
    for len in 0..SHORT_LEN {
        let byte = text[len];
        if !is_digit(byte) {
            return Some((number, len));
        }
        number = number * 10 + u32::from(byte - b'0');
    }
    None
}

/// A pixel of few digits and this word of one byte after it, and what is after both. The digits are added up
/// while their end is looked for.
fn short_pixel_then<'a>(word: &[u8], text: &'a [u8]) -> Option<(u32, &'a [u8])>
    ensures { IfSome result (λ pixel. spec.pixel_then word.now text.now ≡ Ok (pixel.0, pixel.1.now)) }
{
    let [front, ..] = text else {
        return None;
    };
    // Passed without a branch, since which pixels are below 0 can't be foreseen.
    let negative = *front == b'-';
    let (_, unsigned) = text.split_at(usize::from(negative));
    let (size, len) = short_number(unsigned)?;
    let (digits, after) = unsigned.split_at(len);
    let [separator] = word else {
        return None;
    };
    let [first, rest @ ..] = after else {
        return None;
    };
    if !is_plain(negative, digits) || first != separator {
        return None;
    }
    Some((signed(negative, size), rest))
}

/// A pixel and this word after it, and what is after both.
fn pixel_then<'a>(word: &[u8], text: &'a [u8]) -> Result<(u32, &'a [u8]), PictureFault>
    ensures { spec.Shows (λ pixel. (pixel.0, pixel.1.now)) result (spec.pixel_then word.now text.now) }
{
    match short_pixel_then(word, text) {
        Some(short) => Ok(short),
        None => any_pixel_then(word, text),
    }
}

/// The same, of any number of digits, and with the faults.
#[cold]
#[inline(never)]
#[tactic(auto, unfolding(crate::specs::Reading::pixel_then))]
fn any_pixel_then<'a>(word: &[u8], text: &'a [u8]) -> Result<(u32, &'a [u8]), PictureFault>
    ensures { spec.Shows (λ pixel. (pixel.0, pixel.1.now)) result (spec.pixel_then word.now text.now) }
{
    let (negative, digits, after_number) = numeral_at(text)?;
    let pixel = pixel_of(negative, digits)?;
    let rest = behind(word, after_number)?;
    Ok((pixel, rest))
}

/// What is after a pixel that this many follow, in rows of this width.
pub(crate) fn separator(width: usize, left: usize) -> &'static [u8]
    requires { 0 < width }
    ensures value { result.now ≡ spec.separator width left }
    ensures len { length result.now ≡ 1 }
{
    separator_ahead_of(left % width)
}

/// What is after a pixel that this many follow in its row.
fn separator_ahead_of(ahead: usize) -> &'static [u8]
    ensures value { result.now ≡ (if ahead == 0 then codes "\n" else codes " ") }
    ensures len { length result.now ≡ 1 }
{
    if ahead == 0 { b"\n" } else { b" " }
}

/// This many pixels at the front, in rows of this width, and what is after them.
fn pixels_at(
    alloc: Global,
    width: usize,
    count: usize,
    text: &[u8],
) -> Result<(Vec<u32>, &[u8]), ReadError<PictureFault>>
    requires { 0 < width }
    ensures value { Gives (λ pixels. (pixels.0.items, pixels.1.now)) result (spec.pixels_at width count text.now) }
    ensures len { IfOk result (λ pixels. vec_len pixels.0 ≡ count) }
{
    // A pixel takes two bytes of the text at least.
    let mut pixels = Vec::with_capacity(alloc, count.min(text.len() / 2))?;
    let mut rest = text;
    // How many of its row follow the last pixel that was read, counted down in place of a division for each.
    let mut ahead = count % width;
    for done in 0..count {
        ahead = if ahead == 0 { width - 1 } else { ahead - 1 };
        let (pixel, after) = pixel_then(separator_ahead_of(ahead), rest)?;
        pixels.push(pixel)?;
        rest = after;
    }
    Ok((pixels, rest))
}

/// The picture at the front, and what is after it.
#[tactic(auto, unfolding(crate::specs::Reading::picture_at))]
fn picture_at(alloc: Global, text: &[u8]) -> Result<(Picture, &[u8]), ReadError<PictureFault>>
    ensures value { Gives (λ picture. (picture.0, picture.1.now)) result (spec.picture_at text.now) }
    ensures rules { IfOk result (λ picture. IsPicture picture.0) }
{
    let (width, height, from_pixels) = heading_at(text)?;
    let count = width as usize * height as usize;
    let (pixels, rest) = pixels_at(alloc, width as usize, count, from_pixels)?;
    let picture = Picture::new(width, height, pixels).unwrap();
    Ok((picture, rest))
}

/// The picture that bytes are read as.
#[tactic(auto, unfolding(crate::specs::Reading::picture_of, crate::specs::Reading::ended))]
fn picture_of(alloc: Global, text: &[u8]) -> Result<Picture, ReadError<PictureFault>>
    ensures value { Gives (λ picture. picture) result (spec.picture_of text.now) }
    ensures rules { IfOk result IsPicture }
{
    let (picture, rest) = picture_at(alloc, text)?;
    if !rest.is_empty() {
        return Err(ReadError::Fault(PictureFault::Syntax));
    }
    Ok(picture)
}

impl Picture {
    /// The picture that a text spells, all of the text: `picture W H`, and a line for each row with
    /// the decimal numbers of its pixels, joined by one space. Each line is ended by a line feed.
    /// Refused by the first place that is faulty: there a width or height is outside the limits
    /// ([`PictureFault::Extents`]), a pixel isn't a signed number of 32 bits
    /// ([`PictureFault::Number`]), or something else is ([`PictureFault::Syntax`]).
    /// [`ReadError::Memory`] comes only where memory runs out; the memory that is taken is what the
    /// picture holds, and no more than two bytes for each byte of the text.
    pub fn read(alloc: Global, text: &str) -> Result<Picture, ReadError<PictureFault>>
        // What is read is spelled so.
        ensures found { IfOk result (λ picture. text.now ≡ spelled picture) }
        // What is spelled so is read, unless memory runs out.
        ensures only { (picture : PictureContents) → IsPicture picture → text.now ≡ spelled picture
            → Gives (λ read. read) result (Ok picture) }
        // The refusal is that of the first faulty place.
        ensures exact { Gives (λ read. read) result (spec.picture_of text.now) }
        // What is read keeps the rules.
        ensures rules { IfOk result IsPicture }
    {
        picture_of(alloc, text.as_bytes())
    }
}
