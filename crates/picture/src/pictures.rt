//! Pictures as values.

ghost use Rattle.std.specs.Prelude.{◌≡◌, ◌<◌, IfSome};
ghost use Rattle.halide_pipeline.specs.WellFormed.{is_width, is_height};
ghost use Rattle.halide_pipeline.specs.Picture.{IsPicture, picture_if};
ghost use Rattle.halide_pipeline.specs.Contents.{pixel_at};

use halide_pipeline::{MOST_EXTENT, MOST_POINTS};
use std::marker::Model;

/// A picture of 1 to 65,536 columns and rows and at most 1,048,576 pixels. A pixel is a signed
/// number of 32 bits, given as the `u32` of the same bits. A contract sees a picture as a
/// `PictureContents` that is an `IsPicture`.
pub struct Picture {
    width: u32,
    height: u32,
    pixels: Vec<u32>,
}

impl Model for Picture {
    ghost use Rattle.halide_pipeline.specs.Picture.{IsPicture};
    ghost use Rattle.halide_pipeline.specs.Contents.{PictureContents};

    ghost Value = { PictureContents };

    ghost view = { λ p. record { width = p.width; height = p.height; pixels = p.pixels.items } };

    ghost invariant = { λ p. IsPicture (record { width = p.width; height = p.height; pixels = p.pixels.items }) };
}

impl Drop for Picture {
    fn drop(self) {
        let Picture {
            pixels,
            width: _,
            height: _,
        } = self;
        drop(pixels);
    }
}

/// Whether a picture can be so wide.
pub fn is_width(width: u64) -> bool
    ensures { result ≡ is_width width }
{
    1 <= width && width <= u64::from(MOST_EXTENT)
}

/// Whether a picture of this width can be so high.
pub fn is_height(width: u32, height: u64) -> bool
    ensures { result ≡ is_height width height }
{
    1 <= height && height <= u64::from(MOST_EXTENT) && u64::from(width) * height <= MOST_POINTS
}

impl Picture {
    /// A picture of these parts, the pixels by rows from the top, each row from the left; none where
    /// width and height are outside the limits, or there aren't as many pixels as places. It takes
    /// no memory.
    pub fn new(width: u32, height: u32, pixels: Vec<u32>) -> Option<Picture>
        ensures value { result ≡ picture_if (record { width = width; height = height; pixels = pixels.items }) }
        ensures rules { IfSome result IsPicture }
    {
        if !is_width(u64::from(width)) || !is_height(width, u64::from(height)) {
            return None;
        }
        if pixels.len() as u64 != u64::from(width) * u64::from(height) {
            return None;
        }
        Some(Picture {
            width,
            height,
            pixels,
        })
    }

    /// How many columns there are.
    pub fn width(&self) -> u32
        ensures value { result ≡ self.now.width }
        ensures rules { IsPicture self.now }
    {
        self.width
    }

    /// How many rows there are.
    pub fn height(&self) -> u32
        ensures value { result ≡ self.now.height }
        ensures rules { IsPicture self.now }
    {
        self.height
    }

    /// The pixel in a column and a row, counted from 0 at the top left.
    pub fn pixel(&self, x: u32, y: u32) -> u32
        requires column { x < self.now.width }
        requires row { y < self.now.height }
        ensures { result ≡ pixel_at self.now x y }
    {
        self.pixels[y as usize * self.width as usize + x as usize]
    }

    /// All pixels, by rows.
    pub fn pixels(&self) -> &[u32]
        ensures value { result.now ≡ self.now.pixels }
        ensures rules { IsPicture self.now }
    {
        &self.pixels
    }
}
