//! Turns over a memory that covers text alone.

ghost use Rattle.std.specs.Prelude.{◌≤◌, length};

use crate::comparing::same;
use hart_core::Hart;
use memory::{Bytes, Memory};
use rv_insn::{AluImmOp, Imm12, Insn, Outcome, Reg, Trap};
use std::process::Abort;
use std::test::Fail;

fn register(rt: &impl Abort, hart: &Hart, number: u8) -> u32 {
    hart.register(Reg::new(number).expect(rt, "a register"))
}

/// Another memory than the plain one, though it keeps its bytes in one.
#[derive(Drop)]
struct Wrapped {
    memory: Memory,
}

impl Bytes for Wrapped {
    ghost text = { λ m. m.memory.text };

    ghost memory = { λ m. m.memory.memory };

    fn fetch(&self, pc: u32) -> Option<u32> {
        self.memory.fetch(pc)
    }

    fn covers_load(&self, address: u32, count: u32) -> bool {
        self.memory.covers_load(address, count)
    }

    fn covers_store(&self, address: u32, count: u32) -> bool {
        self.memory.covers_store(address, count)
    }

    fn read(&self, address: u32) -> u8 {
        self.memory.read(address)
    }

    fn write(&mut self, address: u32, value: u8) {
        self.memory.write(address, value);
    }
}

/// A memory of text alone.
fn text_alone(rt: &impl AllocGlobal, words: &[u32]) -> Result<Wrapped, Fail>
    requires { length words.now ≤ 16 }
{
    let memory = Memory::new(words.to_vec(rt.alloc())?, Vec::new(rt.alloc()));
    Ok(Wrapped { memory })
}

/// Over text alone each aligned load outside text is trap 5, and each aligned store trap 7:
/// the instruction at x5 = 0x00200000, or at 0.
#[test]
fn text_alone_is_a_memory(rt: HostRuntime) -> Result<(), Fail> {
    let cases = [
        (0x0002_8283, Trap::LoadOutside), // lb x5,0(x5)
        (0x0002_9283, Trap::LoadOutside), // lh
        (0x0002_a283, Trap::LoadOutside), // lw
        (0x0002_c283, Trap::LoadOutside), // lbu
        (0x0002_d283, Trap::LoadOutside), // lhu
        (0x0000_2283, Trap::LoadOutside), // lw x5,0(x0)
        (0x0002_8023, Trap::StoreOutside), // sb x0,0(x5)
        (0x0002_9023, Trap::StoreOutside), // sh
        (0x0002_a023, Trap::StoreOutside), // sw
        (0x0002_a2af, Trap::StoreOutside), // amoadd.w x5,x0,(x5)
    ];
    for (word, trap) in cases {
        let mut memory = text_alone(&rt, &[0x0020_02b7, word])?; // lui x5,0x200
        let mut hart = Hart::new(0x0001_0000, 1, 0);
        same(&rt, &hart.step(&mut memory), &Outcome::Stepped);
        assert_eq!(rt;
            hart.step(&mut memory),
            Outcome::Trapped(trap),
            "{word:08x}"
        );
        same(&rt, &register(&rt, &hart, 5), &0x0020_0000);
    }
    Ok(())
}

/// Over the same memory, lw of the text: lui x5,0x10; lw x6,0(x5).
#[test]
fn text_can_be_loaded(rt: HostRuntime) -> Result<(), Fail> {
    let mut memory = text_alone(&rt, &[0x0001_02b7, 0x0002_a303])?;
    let mut hart = Hart::new(0x0001_0000, 1, 0);
    same(&rt, &hart.step(&mut memory), &Outcome::Stepped);
    same(&rt, &hart.step(&mut memory), &Outcome::Stepped);
    same(&rt, &register(&rt, &hart, 6), &0x0001_02b7);
    Ok(())
}

/// A turn whose instruction is given reads no word: over a memory that covers nothing `addi x5,x0,1` steps, and what
/// means nothing is trap 1.
#[test]
fn an_instruction_is_given(rt: HostRuntime) -> Result<(), Fail> {
    let mut memory = text_alone(&rt, &[])?;
    let mut hart = Hart::new(0x0001_0000, 1, 0);
    let one_more = Insn::AluImm {
        op: AluImmOp::Addi,
        rd: Reg::new(5).expect(&rt, "a register"),
        rs1: Reg::new(0).expect(&rt, "a register"),
        imm: Imm12::new(1).expect(&rt, "an immediate"),
    };
    same(
        &rt,
        &hart.step_with(&mut memory, Some(one_more)),
        &Outcome::Stepped,
    );
    same(&rt, &register(&rt, &hart, 5), &1);
    let illegal = Outcome::Trapped(Trap::IllegalInstruction);
    same(&rt, &hart.step_with(&mut memory, None), &illegal);
    same(&rt, &hart.step_with(&mut memory, None), &Outcome::Idle);
    Ok(())
}
