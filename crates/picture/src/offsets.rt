//! Where pixels one beside the other, or one below the other, stand in a table.

ghost use Rattle.std.specs.Prelude.{◌<◌, ◌^◌, IfSome};
ghost use Rattle.picture.specs.inner.Apart.{AreBeside, AreBelow};

use crate::apart::has_words;
use crate::points::product;
use crate::scenes::Table;
use halide_pipeline::words;

/// The offset of the first one of so many pixels of a row, if a table has them all.
pub(crate) fn offset_beside(table: &Table, column: u32, line: u32, count: usize) -> Option<usize>
    requires { count < 2 ^ 32 }
    ensures { IfSome result (AreBeside table.now column line count) }
{
    let left = words::subtract(column, table.left);
    let top = words::subtract(line, table.top);
    if left as usize + count > table.width as usize || top >= table.height {
        return None;
    }
    let from = (product(top, table.pitch) + u64::from(left)) as usize;
    if has_words(table.pixels.len(), from, 1, count as u32) {
        Some(from)
    } else {
        None
    }
}

/// The offset of the first one of so many pixels of a column, if a table has them all.
pub(crate) fn offset_below(table: &Table, column: u32, line: u32, count: usize) -> Option<usize>
    requires { count < 2 ^ 32 }
    ensures { IfSome result (AreBelow table.now column line count) }
{
    let left = words::subtract(column, table.left);
    let top = words::subtract(line, table.top);
    if left >= table.width || top as usize + count > table.height as usize {
        return None;
    }
    let from = (product(top, table.pitch) + u64::from(left)) as usize;
    if has_words(table.pixels.len(), from, table.pitch, count as u32) {
        Some(from)
    } else {
        None
    }
}
