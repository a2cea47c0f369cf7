//! The picture in a machine's data.

ghost use Rattle.std.specs.Prelude.{◌≡◌, ◌≤◌, IsTrue};
ghost use Rattle.loader.specs.Image.{is_picture, end_of, is_output, most_pixels};

use memory::DATA_START;

/// The most pixels that a picture in a machine's data has.
pub const MOST_PIXELS: u64 = 1_048_576;

/// A picture in a machine's data: `height` rows of `width` pixels, each of 4 bytes. The first row
/// is at `address`, and each further one `stride` bytes after the one before.
#[derive(Clone, Copy, Debug, PartialEq, Eq)]
pub struct Output {
    /// The address of the first pixel.
    pub address: u32,
    /// Pixels in a row.
    pub width: u32,
    /// Rows.
    pub height: u32,
    /// Bytes from one row to the next.
    pub stride: u32,
}

impl Output {
    /// Whether its rows are of whole words, at least one and each of at least one pixel, at most
    /// 1,048,576 pixels in all, and don't overlap.
    fn is_picture(self) -> bool
        ensures value { result ≡ is_picture self }
        ensures width { IsTrue result → self.width ≤ most_pixels }
        ensures height { IsTrue result → self.height ≤ most_pixels }
    {
        self.address.is_multiple_of(4)
            && self.stride.is_multiple_of(4)
            && self.width >= 1
            && self.height >= 1
            && u64::from(self.width) * u64::from(self.height) <= MOST_PIXELS
            && 4 * u64::from(self.width) <= u64::from(self.stride)
    }

    /// The address after the last pixel of the last row.
    fn end(self) -> u64
        requires width { self.width ≤ most_pixels }
        requires height { self.height ≤ most_pixels }
        ensures { result ≡ end_of self }
    {
        let rows_before_last = u64::from(self.height.saturating_sub(1));
        u64::from(self.address)
            + rows_before_last * u64::from(self.stride)
            + 4 * u64::from(self.width)
    }

    /// Whether it is a picture that lies in data of this many bytes.
    pub fn lies_in(self, bytes: usize) -> bool
        ensures { result ≡ is_output bytes self }
    {
        self.is_picture()
            && self.address >= DATA_START
            && self.end() - u64::from(DATA_START) <= bytes as u64
    }
}
