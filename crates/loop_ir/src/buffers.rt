//! Buffers of pixels.

ghost use Rattle.std.specs.Prelude.{◌≡◌, ◌≢◌, ◌<◌, ◌*◌, ◌^◌, ◌==◌, ◌&&◌, IfNone, IfSome, if◌then◌else◌, length};
ghost use Rattle.loop_ir.specs.Buffers.{IsBuffer, has_point, plane_of};

use std::marker::Model;

/// Pixels by rows, each row from the left. A contract sees a buffer as `BufferContents` that are an `IsBuffer`.
pub struct Buffer {
    width: u32,
    height: u32,
    pixels: Vec<u32>,
}

impl Model for Buffer {
    ghost use Rattle.loop_ir.specs.Buffers.{BufferContents, IsBuffer};

    ghost Value = { BufferContents };

    ghost view = { λ b. record { width = b.width; height = b.height; pixels = b.pixels.items } };

    ghost invariant = { λ b. IsBuffer (record { width = b.width; height = b.height; pixels = b.pixels.items }) };
}

impl Drop for Buffer {
    fn drop(self) {
        let Buffer {
            pixels,
            width: _,
            height: _,
        } = self;
        drop(pixels);
    }
}

impl Buffer {
    /// A buffer of these pixels; none where there aren't as many as points.
    pub fn new(width: u32, height: u32, pixels: Vec<u32>) -> Option<Buffer>
        ensures some { IfSome result (λ own. own ≡ record { width = width; height = height; pixels = pixels.items }) }
        ensures none { IfNone result (length pixels.items ≢ width * height) }
    {
        if pixels.len() as u64 != u64::from(width) * u64::from(height) {
            return None;
        }
        Some(Buffer {
            width,
            height,
            pixels,
        })
    }

    /// The pixel at a point; 0 outside.
    pub fn get(&self, x: u32, y: u32) -> u32
        ensures { result ≡ plane_of self.now x y }
    {
        if x < self.width && y < self.height {
            let place = y as usize * self.width as usize + x as usize;
            match self.pixels.get(place) {
                Some(pixel) => *pixel,
                None => 0,
            }
        } else {
            0
        }
    }

    /// Writes a pixel, where there is the point.
    pub fn set(&mut self, x: u32, y: u32, pixel: u32)
        ensures points { has_point self.new ≡ has_point self.old }
        ensures pixels { plane_of self.new
            ≡ (λ i j. if has_point self.old x y && (i == x && j == y) then pixel else plane_of self.old i j) }
    {
        if x < self.width && y < self.height {
            let place = y as usize * self.width as usize + x as usize;
            self.pixels[place] = pixel;
        }
    }
}
