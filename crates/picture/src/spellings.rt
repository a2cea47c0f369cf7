//! Writing pictures as texts.

ghost use Rattle.std.specs.Fmt.{decimal};
ghost use Rattle.std.specs.Prelude.{◌≡◌, ◌+◌, ◌*◌, ◌<◌, ◌≤◌, ◌++◌, ℕ, List, OnOk, OnErr, length, vec_len, vec_capacity};
ghost use Rattle.halide_pipeline.specs.Picture.{IsPicture};
ghost use Rattle.halide_pipeline.specs.Contents.{PictureContents};
ghost use Rattle.picture.specs.Reading.{number_text, rows_text, heading, spelled};

use crate::pictures::Picture;
use crate::readings::separator;
use itoa::Buffer;
use std::alloc::AllocError;

/// A heading has at most this many bytes.
const MOST_HEADING: usize = 30;

/// A pixel and what is after it have at most this many bytes.
const MOST_PIXEL: usize = 12;

/// Appends bytes, where there is room for them.
fn push_bytes(out: &mut Vec<u8>, bytes: &[u8])
    requires { vec_len out.old + length bytes.now ≤ vec_capacity out.old }
    ensures items { out.new.items ≡ out.old.items ++ bytes.now }
    ensures len { vec_len out.new ≡ vec_len out.old + length bytes.now }
    ensures capacity { vec_capacity out.old ≤ vec_capacity out.new }
{
    out.extend_from_slice(bytes).unwrap();
}

/// Appends a number, where there is room for ten digits.
fn push_decimal(out: &mut Vec<u8>, number: u32)
    requires { vec_len out.old + 10 ≤ vec_capacity out.old }
    ensures items { out.new.items ≡ out.old.items ++ decimal number }
    ensures len { vec_len out.new ≤ vec_len out.old + 10 }
    ensures capacity { vec_capacity out.old ≤ vec_capacity out.new }
{
    let mut buffer = Buffer::new();
    push_bytes(out, buffer.format(number).as_bytes());
}

/// Appends the signed number of a pixel, where there is room for it.
#[tactic(auto, unfolding(crate::specs::Reading::number_text))]
fn push_number(out: &mut Vec<u8>, pixel: u32)
    requires { vec_len out.old + 11 ≤ vec_capacity out.old }
    ensures items { out.new.items ≡ out.old.items ++ number_text pixel }
    ensures len { vec_len out.new ≤ vec_len out.old + 11 }
    ensures capacity { vec_capacity out.old ≤ vec_capacity out.new }
{
    if pixel < 1 << 31 {
        push_decimal(out, pixel);
    } else {
        push_bytes(out, b"-");
        push_decimal(out, u32::MAX - pixel + 1);
    }
}

/// Appends `picture W H` and a line feed, where there is room for them.
#[tactic(auto, unfolding(crate::specs::Reading::heading))]
fn push_heading(out: &mut Vec<u8>, width: u32, height: u32)
    requires { vec_len out.old + 30 ≤ vec_capacity out.old }
    ensures items { out.new.items ≡ out.old.items ++ heading width height }
    ensures len { vec_len out.new ≤ vec_len out.old + 30 }
    ensures capacity { vec_capacity out.old ≤ vec_capacity out.new }
{
    push_bytes(out, b"picture ");
    push_decimal(out, width);
    push_bytes(out, b" ");
    push_decimal(out, height);
    push_bytes(out, b"\n");
}

/// Appends rows of this width, where there is room for them.
fn push_rows(out: &mut Vec<u8>, width: usize, height: usize, pixels: &[u32])
    requires wide { 0 < width }
    requires whole { length pixels.now ≡ height * width }
    requires room { vec_len out.old + 12 * length pixels.now ≤ vec_capacity out.old }
    ensures { out.new.items ≡ out.old.items ++ rows_text width height pixels.now }
{
    for (done, pixel) in pixels.iter().enumerate() {
        push_number(out, *pixel);
        push_bytes(out, separator(width, pixels.len() - 1 - done));
    }
}

impl Picture {
    /// Appends the picture's text. Refused, with what `out` held unchanged, only where memory runs
    /// out; the memory that is taken is at most 12 bytes a pixel and 30 for the heading.
    #[tactic(auto, unfolding(crate::specs::Reading::spelled))]
    pub fn write(&self, out: &mut Vec<u8>) -> Result<(), AllocError>
        ensures ok { OnOk result (out.new.items ≡ out.old.items ++ spelled self.now) }
        ensures err { OnErr result (out.new.items ≡ out.old.items) }
    {
        let pixels = self.pixels();
        out.reserve(MOST_HEADING + MOST_PIXEL * pixels.len())?;
        push_heading(out, self.width(), self.height());
        push_rows(out, self.width() as usize, self.height() as usize, pixels);
        Ok(())
    }
}

/// A law: each picture has one spelling, and no spelling begins another.
pub fn one_spelling()
    ensures { (a b : PictureContents) (x y : List ℕ) → IsPicture a → IsPicture b → spelled a ++ x ≡ spelled b ++ y
        → (a ≡ b) × (x ≡ y) }
{}
