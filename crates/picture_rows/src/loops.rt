//! What operations make of lists of words, place by place: plain loops over slices.

ghost use Rattle.std.specs.Prelude.{◌≡◌, ◌==◌, ◌<◌, ◌≤◌, ◌+◌, ◌^◌, ℕ, IfOk, if◌then◌else◌, length, slice_index};
ghost use Rattle.halide_pipeline.specs.Words as word;
ghost use Rattle.picture_rows.specs.Rows.{AreValues, clamped};

use crate::clamps::Clamp;
use halide_pipeline::{Operation, words};
use std::alloc::{AllocError, Global};

/// What this operation makes of both words at each place, in place of the first. Where it is put in place with a
/// literal operation it is a loop over vectors.
#[inline(always)]
fn combine_as(operation: Operation, values: &mut [u32], others: &[u32])
    requires { length values.old ≡ length others.now }
    ensures { AreValues (length values.old) (λ at. word.applied operation (slice_index values.old at)
        (slice_index others.now at)) values.new }
{
    for at in 0..values.len() {
        values[at] = operation.apply(values[at], others[at]);
    }
}

/// What an operation makes of both words at each place, in place of the first: a loop for each operation, so that none
/// is told apart inside of it.
pub fn combine(operation: Operation, values: &mut [u32], others: &[u32])
    requires { length values.old ≡ length others.now }
    ensures { AreValues (length values.old) (λ at. word.applied operation (slice_index values.old at)
        (slice_index others.now at)) values.new }
{
    match operation {
        Operation::Add => combine_as(Operation::Add, values, others),
        Operation::Subtract => combine_as(Operation::Subtract, values, others),
        Operation::Multiply => combine_as(Operation::Multiply, values, others),
        Operation::Minimum => combine_as(Operation::Minimum, values, others),
        Operation::Maximum => combine_as(Operation::Maximum, values, others),
        Operation::Less => combine_as(Operation::Less, values, others),
        Operation::LessOrEqual => combine_as(Operation::LessOrEqual, values, others),
        Operation::Greater => combine_as(Operation::Greater, values, others),
        Operation::GreaterOrEqual => combine_as(Operation::GreaterOrEqual, values, others),
        Operation::Equal => combine_as(Operation::Equal, values, others),
        Operation::NotEqual => combine_as(Operation::NotEqual, values, others),
    }
}

/// What this operation makes of each word and this one, in its place; as [`combine_as`].
#[inline(always)]
fn combine_with_as(operation: Operation, values: &mut [u32], other: u32)
    ensures { AreValues (length values.old) (λ at. word.applied operation (slice_index values.old at) other)
        values.new }
{
    for at in 0..values.len() {
        values[at] = operation.apply(values[at], other);
    }
}

/// What an operation makes of each word and this one, in its place.
pub fn combine_with(operation: Operation, values: &mut [u32], other: u32)
    ensures { AreValues (length values.old) (λ at. word.applied operation (slice_index values.old at) other)
        values.new }
{
    match operation {
        Operation::Add => combine_with_as(Operation::Add, values, other),
        Operation::Subtract => combine_with_as(Operation::Subtract, values, other),
        Operation::Multiply => combine_with_as(Operation::Multiply, values, other),
        Operation::Minimum => combine_with_as(Operation::Minimum, values, other),
        Operation::Maximum => combine_with_as(Operation::Maximum, values, other),
        Operation::Less => combine_with_as(Operation::Less, values, other),
        Operation::LessOrEqual => combine_with_as(Operation::LessOrEqual, values, other),
        Operation::Greater => combine_with_as(Operation::Greater, values, other),
        Operation::GreaterOrEqual => combine_with_as(Operation::GreaterOrEqual, values, other),
        Operation::Equal => combine_with_as(Operation::Equal, values, other),
        Operation::NotEqual => combine_with_as(Operation::NotEqual, values, other),
    }
}

/// The quotient, with one division whatever the sign.
#[inline(always)]
#[tactic(auto, unfolding(halide_pipeline::specs::Words::divide))]
fn quotient(x: u32, divisor: u32) -> u32
    requires { 0 < divisor }
    ensures { result ≡ word.divide x divisor }
{
    let is_negative = x >= 0x8000_0000;
    let size = if is_negative { u32::MAX - x } else { x };
    let quotient = size / divisor;
    if is_negative {
        u32::MAX - quotient
    } else {
        quotient
    }
}

/// The remainder, with one division whatever the sign.
#[inline(always)]
#[tactic(auto, unfolding(halide_pipeline::specs::Words::remainder))]
fn remainder(x: u32, divisor: u32) -> u32
    requires { 0 < divisor }
    ensures { result ≡ word.remainder x divisor }
{
    let is_negative = x >= 0x8000_0000;
    let size = if is_negative { u32::MAX - x } else { x };
    let remainder = size % divisor;
    if is_negative {
        divisor - 1 - remainder
    } else {
        remainder
    }
}

/// Each word's quotient by a number that isn't 0, in its place.
fn divide_by_positive(values: &mut [u32], divisor: u32)
    requires { 0 < divisor }
    ensures { AreValues (length values.old) (λ at. word.divide (slice_index values.old at) divisor) values.new }
{
    for at in 0..values.len() {
        values[at] = quotient(values[at], divisor);
    }
}

/// Each word's quotient, in its place.
pub fn divide(values: &mut [u32], divisor: u32)
    ensures { AreValues (length values.old) (λ at. word.divide (slice_index values.old at) divisor) values.new }
{
    if divisor > 0 {
        divide_by_positive(values, divisor);
        return;
    }
    for at in 0..values.len() {
        values[at] = words::divide(values[at], divisor);
    }
}

/// Each word's remainder by a number that isn't 0, in its place.
fn remain_by_positive(values: &mut [u32], divisor: u32)
    requires { 0 < divisor }
    ensures { AreValues (length values.old) (λ at. word.remainder (slice_index values.old at) divisor) values.new }
{
    for at in 0..values.len() {
        values[at] = remainder(values[at], divisor);
    }
}

/// Each word's remainder, in its place.
pub fn remain(values: &mut [u32], divisor: u32)
    ensures { AreValues (length values.old) (λ at. word.remainder (slice_index values.old at) divisor) values.new }
{
    if divisor > 0 {
        remain_by_positive(values, divisor);
        return;
    }
    for at in 0..values.len() {
        values[at] = words::remainder(values[at], divisor);
    }
}

/// Where a condition is 0, the other word in place of the word that is there.
pub fn choose(conditions: &[u32], values: &mut [u32], others: &[u32])
    requires conditions { length values.old ≡ length conditions.now }
    requires others { length values.old ≡ length others.now }
    ensures { AreValues (length values.old) (λ at. if slice_index conditions.now at == 0 then slice_index others.now at
        else slice_index values.old at) values.new }
{
    for at in 0..values.len() {
        values[at] = if conditions[at] == 0 {
            others[at]
        } else {
            values[at]
        };
    }
}

/// This word at place 0, and one more at each next place.
pub fn count_up(values: &mut [u32], first: u32)
    requires { length values.old < 2 ^ 32 }
    ensures { AreValues (length values.old) (λ at. word.add first at) values.new }
{
    for at in 0..values.len() {
        values[at] = words::add(first, at as u32);
    }
}

/// The words of a clamp.
pub fn clamp_up(values: &mut [u32], clamp: Clamp)
    requires { length values.old < 2 ^ 32 }
    ensures { AreValues (length values.old) (clamped clamp) values.new }
{
    for at in 0..values.len() {
        values[at] = clamp.value_at(at as u32);
    }
}

/// This many words: one before a place, these words from there on, and another one after them.
pub fn spread(
    alloc: Global,
    width: usize,
    from: usize,
    inside: &[u32],
    before: u32,
    behind: u32,
) -> Result<Vec<u32>, AllocError>
    requires { from + length inside.now ≤ width }
    ensures { (says : ℕ → ℕ) → ((at : ℕ) → at < from → before ≡ says at)
        → ((at : ℕ) → at < length inside.now → slice_index inside.now at ≡ says (from + at))
        → ((at : ℕ) → from + length inside.now ≤ at → at < width → behind ≡ says at)
        → IfOk result (λ values. AreValues width says values.items) }
{
    let mut values = Vec::with_capacity(alloc, width)?;
    values.resize(from, before)?;
    values.extend_from_slice(inside)?;
    values.resize(width, behind)?;
    Ok(values)
}
