//! Whether numbers may be touched at addresses.

ghost use Rattle.std.specs.Prelude.{◌≡◌, ◌≤◌, ◌<◌, ◌∷◌, []};
ghost use Rattle.memory.specs.Access.{bytes_in, covers_load, fault_of, first_fault, in_data, in_text, most_words};
ghost use Rattle.hart_core.specs.VectorRows.{accesses_at, size_of};
ghost use Rattle.turn_accesses.specs.Accesses.{kind_in, reads_in, writes_in};
ghost use Rattle.turn_accesses.specs.inner.Fitting.{is_fit, read_if_fit, written_if_fit};

use crate::values::{AccessKind, Accesses};
use memory::{DATA_START, TEXT_START};
use rv_insn::ElementWidth;
use vector_unit::Numbers;

/// How much text and data there is.
#[derive(Clone, Copy, Debug, PartialEq, Eq)]
pub struct Sizes {
    /// Words of text.
    pub words: usize,
    /// Bytes of data.
    pub bytes: usize,
}

/// A number that is touched, where that makes no trap.
#[inline(always)]
pub(crate) fn number_touched(
    kind: AccessKind,
    address: u32,
    width: ElementWidth,
    sizes: Sizes,
) -> Accesses
    requires { sizes.words ≤ most_words }
    ensures reads { reads_in result ≡ read_if_fit sizes.words sizes.bytes (kind_in kind)
        (accesses_at width (address ∷ [])) }
    ensures writes { writes_in result ≡ written_if_fit sizes.words sizes.bytes (kind_in kind)
        (accesses_at width (address ∷ [])) }
{
    if !all_fit(kind, &[address], width, sizes) {
        return Accesses::Nothing;
    }
    Accesses::Number {
        kind,
        address,
        width,
    }
}

/// Elements that are touched, where none of them makes a trap.
pub(crate) fn elements_touched(
    kind: AccessKind,
    addresses: Numbers,
    width: ElementWidth,
    sizes: Sizes,
) -> Accesses
    requires { sizes.words ≤ most_words }
    ensures reads { reads_in result ≡ read_if_fit sizes.words sizes.bytes (kind_in kind)
        (accesses_at width addresses) }
    ensures writes { writes_in result ≡ written_if_fit sizes.words sizes.bytes (kind_in kind)
        (accesses_at width addresses) }
{
    if !all_fit(kind, addresses.as_slice(), width, sizes) {
        return Accesses::Nothing;
    }
    Accesses::Elements {
        kind,
        addresses,
        width,
    }
}

/// Whether all numbers of a width at addresses may be touched.
#[inline(always)]
fn all_fit(kind: AccessKind, addresses: &[u32], width: ElementWidth, sizes: Sizes) -> bool
    requires { sizes.words ≤ most_words }
    ensures { result ≡ is_fit (first_fault sizes.words sizes.bytes (kind_in kind) (accesses_at width addresses.now)) }
{
    let mut rest = addresses;
    while let [address, others @ ..] = rest {
        if !fits(kind, *address, width, sizes) {
            return false;
        }
        rest = others;
    }
    true
}

/// Whether a number of a width at an address may be touched.
#[inline(always)]
fn fits(kind: AccessKind, address: u32, width: ElementWidth, sizes: Sizes) -> bool
    requires { sizes.words ≤ most_words }
    ensures { result ≡ is_fit (fault_of sizes.words sizes.bytes (kind_in kind) address (bytes_in (size_of width))) }
{
    let count = bytes_of(width);
    if address % count != 0 {
        return false;
    }
    match kind {
        AccessKind::Loads => {
            lies_in_text(address, count, sizes.words) || lies_in_data(address, count, sizes.bytes)
        }
        AccessKind::Stores | AccessKind::Adds => lies_in_data(address, count, sizes.bytes),
    }
}

/// How many bytes a number of a width has.
#[inline(always)]
pub(crate) fn bytes_of(width: ElementWidth) -> u32
    ensures { result ≡ bytes_in (size_of width) }
{
    match width {
        ElementWidth::Bits8 => 1,
        ElementWidth::Bits16 => 2,
        ElementWidth::Bits32 => 4,
    }
}

/// Whether this many bytes from an address on lie in a text of this many words.
#[inline(always)]
fn lies_in_text(address: u32, count: u32, words: usize) -> bool
    requires words { words ≤ most_words }
    requires few { count ≤ 4 }
    ensures { result ≡ in_text words address count }
{
    let end = u64::from(address) + u64::from(count);
    address >= TEXT_START && end <= u64::from(TEXT_START) + 4 * words as u64
}

/// Whether this many bytes from an address on lie in a data of this many bytes.
#[inline(always)]
fn lies_in_data(address: u32, count: u32, bytes: usize) -> bool
    requires { count ≤ 4 }
    ensures { result ≡ in_data bytes address count }
{
    address >= DATA_START && u64::from(address - DATA_START) + u64::from(count) <= bytes as u64
}
