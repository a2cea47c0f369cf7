//! What a vtype says of the elements.

ghost use Rattle.std.specs.Prelude.{◌≡◌, ◌≤◌, true};
ghost use Rattle.vector_unit.specs.Vector.{is_supported, group_of, most_elements, width_of};
ghost use Rattle.vector_unit.specs.Vector.{bits_of};

use rv_insn::ElementWidth;

/// Whether a vtype is one of this machine's: elements of 8, 16 or 32 bits in groups of 1, 2 or 4 registers.
pub fn is_supported(vtype: u32) -> bool
    ensures { result ≡ is_supported vtype }
{
    vtype < 256 && vtype % 8 <= 2 && vtype / 8 % 8 <= 2
}

/// How many registers a group has under a vtype.
#[tactic(auto, using(crate::proofs::Configurations::few_registers))]
pub fn group_of(vtype: u32) -> u32
    ensures value { result ≡ group_of vtype }
    ensures few { result ≤ 128 }
    ensures supported { is_supported vtype ≡ true → result ≤ 4 }
{
    1 << (vtype % 8)
}

/// How many elements a group has under a vtype.
pub fn most_elements(vtype: u32) -> u32
    ensures value { result ≡ most_elements vtype }
    ensures supported { is_supported vtype ≡ true → result ≤ 64 }
{
    128 * group_of(vtype) / (8 << (vtype / 8 % 8))
}

/// How wide elements are under a vtype.
pub fn width_of(vtype: u32) -> ElementWidth
    requires { is_supported vtype ≡ true }
    ensures { bits_of result ≡ width_of vtype }
{
    match vtype / 8 % 8 {
        0 => ElementWidth::Bits8,
        1 => ElementWidth::Bits16,
        _ => ElementWidth::Bits32,
    }
}
