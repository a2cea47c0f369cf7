//! What a line of a text gives.

use loader::Output;

/// What a faultless line gives.
#[derive(Clone, Copy)]
pub enum LineProduct {
    /// Nothing: a label alone, a switch of section, an empty line.
    Nothing,
    /// A word of text.
    Word(u32),
    /// Two words of text, as `li` and `la` have.
    Words(u32, u32),
    /// Four bytes of data, the lowest of the number first.
    Number(u32),
    /// This many bytes of data that are 0.
    Zeros(u32),
    /// The entry's address.
    Entry(u32),
    /// The picture in the data.
    Output(Output),
}
