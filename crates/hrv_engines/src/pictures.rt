//! The picture that a machine's data holds, as text.

ghost use Rattle.std.specs.Prelude.{◌≡◌, ◌<◌, ◌≤◌, ◌+◌, ◌*◌, ◌++◌, ◌^◌, ◌==◌, [], if◌then◌else◌, codes, length, OnOk};
ghost use Rattle.std.specs.Prelude.{IsTrue};
ghost use Rattle.std.specs.String.{string_bytes};
ghost use Rattle.memory.specs.Access.{most_bytes};
ghost use Rattle.loader.specs.Image.{is_output};
ghost use Rattle.picture.specs.Reading.{heading, number_text, row_text};
ghost use Rattle.hrv_engines.specs.Dump.{pixel, row, picture_text};

use loader::Output;
use multi_hart::Machine;
use std::alloc::AllocError;

/// `picture W H` and a line for each row of pixels.
#[tactic(auto, unfolding(crate::specs::Dump::picture_text))]
pub fn push_picture(text: &mut String, machine: &Machine, output: Output) -> Result<(), AllocError>
    requires fits { IsTrue (is_output (length machine.now.memory) output) }
    requires bytes { length machine.now.memory ≤ most_bytes }
    ensures { OnOk result (string_bytes text.new ≡ string_bytes text.old ++ picture_text machine.now output) }
{
    push_picture_heading(text, output.width, output.height)?;
    for y in 0..output.height {
        push_row(text, machine, output, y)?;
    }
    Ok(())
}

/// `picture W H`
#[tactic(auto, unfolding(picture::specs::Reading::heading))]
pub(crate) fn push_picture_heading(
    text: &mut String,
    width: u32,
    height: u32,
) -> Result<(), AllocError>
    ensures { OnOk result (string_bytes text.new ≡ string_bytes text.old ++ heading width height) }
{
    writeln!(text, "picture {width} {height}")?;
    Ok(())
}

/// The numbers of one row, joined by one space, and a newline.
fn push_row(text: &mut String, machine: &Machine, output: Output, y: u32) -> Result<(), AllocError>
    requires fits { IsTrue (is_output (length machine.now.memory) output) }
    requires bytes { length machine.now.memory ≤ most_bytes }
    requires row { y < output.height }
    ensures { OnOk result (string_bytes text.new ≡ string_bytes text.old
        ++ row_text (row machine.now output y output.width)) }
{
    for x in 0..output.width {
        push_separated(text, x, pixel_of(machine, output, x, y))?;
    }
    text.push_str("\n")?;
    Ok(())
}

/// The number of a row at a place; each but the first has a space before it.
pub(crate) fn push_separated(text: &mut String, x: u32, pixel: u32) -> Result<(), AllocError>
    ensures { OnOk result (string_bytes text.new ≡ string_bytes text.old ++ ((if x == 0 then [] else codes " ")
        ++ number_text pixel)) }
{
    if x > 0 {
        text.push_str(" ")?;
    }
    push_number(text, pixel)?;
    Ok(())
}

/// The signed number that a word stands for.
#[tactic(auto, unfolding(picture::specs::Reading::number_text))]
pub(crate) fn push_number(text: &mut String, pixel: u32) -> Result<(), AllocError>
    ensures { OnOk result (string_bytes text.new ≡ string_bytes text.old ++ number_text pixel) }
{
    if pixel < 1 << 31 {
        write!(text, "{pixel}")?;
    } else {
        let size = u32::MAX - pixel + 1;
        write!(text, "-{size}")?;
    }
    Ok(())
}

/// The word of one pixel.
fn pixel_of(machine: &Machine, output: Output, x: u32, y: u32) -> u32
    requires fits { IsTrue (is_output (length machine.now.memory) output) }
    requires bytes { length machine.now.memory ≤ most_bytes }
    requires column { x < output.width }
    requires row { y < output.height }
    ensures { result ≡ pixel machine.now output x y }
{
    let address = output.address + y * output.stride + 4 * x;
    machine.word(address).unwrap()
}
