//! A program of two phases that meets every premise of the laws, and its machine.

ghost use Rattle.std.specs.Prelude.{◌≡◌, ◌≤◌, length, IfOk};
ghost use Rattle.multi_hart.specs.Run.{opened};
ghost use Rattle.work_sharing.specs.Example.{example_text, example_data, ExampleIsProgram, ExampleResult};
ghost use Rattle.work_sharing.specs.Example.{ExampleEnds};
ghost use Rattle.work_sharing.specs.Stuck.{NoCount};

use multi_hart::Machine;
use std::alloc::{AllocError, Global};

/// The program of `specs/Example.antt` shares its work as the laws ask, with 1 to 8 harts, leaves 16 and 15
/// wherever all harts have finished, and ends on every fair list, within a count of rounds that is written there.
pub fn two_phases()
    ensures program { ExampleIsProgram }
    ensures result { ExampleResult }
    ensures ends { ExampleEnds }
{}

/// The program of `specs/Stuck.antt`, whose two harts wait at a gate for a third, ends within no count of rounds.
pub fn waits_for_ever()
    ensures { NoCount }
{}

/// The words of the program's text, the first at 0x0001_0000.
pub fn example_words() -> [u32; 30]
    ensures { result ≡ example_text }
{
    [
        0x0020_06b7, // lui x13, 0x200
        0x0046_8713, // addi x14, x13, 4
        0x0010_0793, // addi x15, x0, 1
        0x0020_0813, // addi x16, x0, 2
        0x00f6_a62f, // amoadd.w x12, x15, (x13)
        0x0306_7463, // bgeu x12, x16, 40
        0x0025_1293, // slli x5, x10, 2
        0x00d2_82b3, // add x5, x5, x13
        0x02c2_a023, // sw x12, 32(x5)
        0x0202_a383, // lw x7, 32(x5)
        0x0026_1313, // slli x6, x12, 2
        0x00d3_0333, // add x6, x6, x13
        0x0053_8393, // addi x7, x7, 5
        0x0073_2823, // sw x7, 16(x6)
        0xfd9f_f06f, // jal x0, -40
        0x00f7_202f, // amoadd.w x0, x15, (x14)
        0x0007_2883, // lw x17, 0(x14)
        0xfeb8_9ee3, // bne x17, x11, -4
        0x0086_8693, // addi x13, x13, 8
        0x0087_0713, // addi x14, x14, 8
        0x00f6_a62f, // amoadd.w x12, x15, (x13)
        0x0306_7063, // bgeu x12, x16, 32
        0x0026_1313, // slli x6, x12, 2
        0x4066_82b3, // sub x5, x13, x6
        0x00c2_a383, // lw x7, 12(x5)
        0x00d3_0333, // add x6, x6, x13
        0x00a3_8393, // addi x7, x7, 10
        0x0073_2823, // sw x7, 16(x6)
        0xfe1f_f06f, // jal x0, -32
        0x0000_0073, // ecall
    ]
}

/// The machine of the program with 1 to 8 harts, at the start.
pub fn example_machine(alloc: Global, harts: usize) -> Result<Machine, AllocError>
    requires one { 1 ≤ harts }
    requires eight { harts ≤ 8 }
    ensures opened { IfOk result (λ machine. machine ≡ opened 65536 example_text example_data harts) }
    ensures harts { IfOk result (λ machine. length machine.harts ≡ harts) }
{
    let words = example_words().to_vec(alloc)?;
    let bytes = vec![in alloc; 0u8; 64]?;
    Machine::new(alloc, 0x0001_0000, words, bytes, harts)
}
