//! Images by their parts, without the zeros at the end of their data.

use crate::outputs::Output;

/// The parts of an image whose data are some bytes and zeros after them, so that the zeros need no memory.
/// `specs/Parts.antt` has what such an image holds.
#[derive(Clone, Copy)]
pub struct ImageParts<'a> {
    /// The address at which every hart starts.
    pub entry: u32,
    /// The words of text.
    pub words: &'a [u32],
    /// The first bytes of data. The others are zeros.
    pub front: &'a [u8],
    /// How many bytes data has.
    pub size: u32,
    /// The picture in the data, if there is one.
    pub output: Option<Output>,
}
