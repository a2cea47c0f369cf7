//! Writing images as bytes.

ghost use Rattle.std.specs.Prelude.{◌≡◌, ◌+◌, ◌*◌, ◌<◌, ◌≤◌, ◌++◌, ℕ, IfSome, List, OnOk, OnErr, length};
ghost use Rattle.std.specs.Prelude.{vec_len, vec_capacity};
ghost use Rattle.std.specs.Int.{w32, to_le_bytes};
ghost use Rattle.loader.specs.Image.{ImageContents, IsImage};
ghost use Rattle.loader.specs.Parts.{AreParts, image_with};
ghost use Rattle.loader.specs.Spelling.{spelled, spelled_numbers, output_fields, spelled_start};
ghost use Rattle.loader.specs.Spelling.{trimmed};

use crate::formats::Format;
use crate::images::Image;
use crate::outputs::Output;
use crate::parts::ImageParts;
use byteorder::{ByteOrder, LittleEndian};
use std::alloc::AllocError;

/// A header's four numbers on the output.
fn output_fields(output: Option<Output>) -> [u32; 4]
    ensures { result ≡ output_fields output }
{
    match output {
        None => [0; 4],
        Some(output) => [output.address, output.width, output.height, output.stride],
    }
}

/// Appends bytes, where there is room for them.
fn push_bytes(out: &mut Vec<u8>, bytes: &[u8])
    requires { vec_len out.old + length bytes.now ≤ vec_capacity out.old }
    ensures items { out.new.items ≡ out.old.items ++ bytes.now }
    ensures len { vec_len out.new ≡ vec_len out.old + length bytes.now }
    ensures capacity { vec_capacity out.old ≤ vec_capacity out.new }
{
    out.extend_from_slice(bytes).unwrap();
}

/// Appends a number, where there is room for it.
fn push_number(out: &mut Vec<u8>, number: u32)
    requires { vec_len out.old + 4 ≤ vec_capacity out.old }
    ensures items { out.new.items ≡ out.old.items ++ to_le_bytes w32 number }
    ensures len { vec_len out.new ≡ vec_len out.old + 4 }
    ensures capacity { vec_capacity out.old ≤ vec_capacity out.new }
{
    let mut bytes = [0; 4];
    LittleEndian::write_u32(&mut bytes, number);
    push_bytes(out, &bytes);
}

/// Appends numbers, one after the other, where there is room for them.
fn push_numbers(out: &mut Vec<u8>, numbers: &[u32])
    requires { vec_len out.old + 4 * length numbers.now ≤ vec_capacity out.old }
    ensures items { out.new.items ≡ out.old.items ++ spelled_numbers numbers.now }
    ensures len { vec_len out.new ≡ vec_len out.old + 4 * length numbers.now }
    ensures capacity { vec_capacity out.old ≤ vec_capacity out.new }
{
    for number in numbers {
        push_number(out, *number);
    }
}

/// Appends the part of a header that both formats have, where there is room for it.
fn push_start(out: &mut Vec<u8>, parts: &ImageParts)
    requires room { vec_len out.old + 32 ≤ vec_capacity out.old }
    requires parts { AreParts parts.now }
    ensures items { out.new.items ≡ out.old.items ++ spelled_start Format.Hrv2 (image_with parts.now) }
    ensures len { vec_len out.new ≡ vec_len out.old + 32 }
    ensures capacity { vec_capacity out.old ≤ vec_capacity out.new }
{
    push_bytes(out, &Format::Hrv2.magic());
    push_number(out, parts.entry);
    push_number(out, parts.words.len() as u32);
    push_number(out, parts.size);
    push_numbers(out, &output_fields(parts.output));
}

/// The bytes in front of the last eight, where those are zeros.
fn in_front_of_zeros(bytes: &[u8]) -> Option<&[u8]>
    ensures same { IfSome result (λ front. trimmed front.now ≡ trimmed bytes.now) }
    ensures len { IfSome result (λ front. length front.now < length bytes.now) }
{
    let (front, last) = bytes.split_last_chunk::<8>()?;
    if u64::from_le_bytes(*last) == 0 {
        Some(front)
    } else {
        None
    }
}

/// The bytes without the zeros at their end.
fn trimmed(bytes: &[u8]) -> &[u8]
    ensures value { result.now ≡ trimmed bytes.now }
    ensures len { length result.now ≤ length bytes.now }
{
    let mut kept = bytes;
    // Eight at a time, since data often ends in many zeros.
    while let Some(front) = in_front_of_zeros(kept) {
        kept = front;
    }
    while let [front @ .., last] = kept
        && *last == 0
    {
        kept = front;
    }
    kept
}

/// Appends the bytes of an image that has these parts, in the second format. Whether they keep the rules on entry and
/// output isn't asked. Refused, with what `out` held unchanged, only where it has no room for them and memory runs out.
pub fn store_parts(parts: &ImageParts, out: &mut Vec<u8>) -> Result<(), AllocError>
    requires { AreParts parts.now }
    ensures ok { OnOk result (out.new.items ≡ out.old.items ++ spelled Format.Hrv2 (image_with parts.now)) }
    ensures err { OnErr result (out.new.items ≡ out.old.items) }
    ensures full { OnErr result
        (vec_capacity out.old < vec_len out.old + length (spelled Format.Hrv2 (image_with parts.now))) }
{
    let stored = trimmed(parts.front);
    out.reserve(Format::Hrv2.header_len() + 4 * parts.words.len() + stored.len())?;
    push_start(out, parts);
    push_number(out, stored.len() as u32);
    push_numbers(out, parts.words);
    push_bytes(out, stored);
    Ok(())
}

/// Appends an image's bytes, in the second format. Refused, with what `out` held unchanged, only where it has no room
/// for them and memory runs out.
pub fn store(image: &Image, out: &mut Vec<u8>) -> Result<(), AllocError>
    ensures ok { OnOk result (out.new.items ≡ out.old.items ++ spelled Format.Hrv2 image.now) }
    ensures err { OnErr result (out.new.items ≡ out.old.items) }
    ensures full { OnErr result (vec_capacity out.old < vec_len out.old + length (spelled Format.Hrv2 image.now)) }
{
    let parts = ImageParts {
        entry: image.entry(),
        words: image.words(),
        front: image.data(),
        size: image.data().len() as u32,
        output: image.output(),
    };
    store_parts(&parts, out)
}

/// A law: in each format an image has one spelling, and no spelling begins another.
pub fn one_spelling()
    ensures { (f g : Format) (a b : ImageContents) (x y : List ℕ) → IsImage a → IsImage b → spelled f a ++ x
        ≡ spelled g b ++ y
        → (f ≡ g) × (a ≡ b) × (x ≡ y) }
{}
