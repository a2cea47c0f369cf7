//! The table of the scalar instructions: what each does where it steps.

ghost use Rattle.std.specs.Prelude.{◌≡◌, None, Some, IfSome, OnSome, IfNone};
ghost use Rattle.rv_insn.specs.declared.instructions.Insn.TheVariants as insns;
ghost use Rattle.hart_core.specs.Scalar.{plus, extended, computed as computed_of};
ghost use Rattle.hart_core.specs.Scalar.{computed_with_immediate as computed_with_immediate_of, shifted as shifted_of};
ghost use Rattle.hart_core.specs.Scalar.{jump_fault, jump_of, jumped};
ghost use Rattle.hart_core.specs.HartState.{register, at_pc, given};
ghost use Rattle.hart_core.specs.Meanings.{insn_of};
ghost use Rattle.hart_core.specs.Turn.{IsDone};
ghost use Rattle.hart_core.specs.inner.Meanings.{IsLeft, IsDoneBy};

use crate::accesses::{count_of, load, store};
use crate::alu::{computed, computed_with_immediate, extend, is_taken, shifted};
use crate::harts::Hart;
use crate::meanings::Meaning;
use memory::Bytes;
use rv_insn::{
    AluImmOp, AluOp, BranchOffset, BranchOp, Imm12, LoadOp, Outcome, Reg, ShiftAmount, ShiftOp,
    StoreOp, Trap,
};

impl Hart {
    /// Does what most words mean, and answers where the hart goes on; or leaves it, with nothing changed: what needs
    /// more than a few steps, jumps with a link, what traps, and loads of text. It is the table of the instructions, with one jump, and
    /// each line lays in what it does: so it is one match, however long. The program counter is passed on, since a turn
    /// that reads it back has to wait for the turn before.
    #[inline(always)]
    pub(crate) fn execute<M: Bytes>(
        &mut self,
        pc: u32,
        memory: &mut M,
        meaning: &Meaning,
    ) -> Option<u32>
        requires { pc ≡ self.old.pc }
        ensures done { IfSome result (λ next. IsDoneBy (insn_of meaning.now) (M.text memory.old) (M.memory memory.old)
            self.old self.new (M.memory memory.new) Outcome.Stepped) }
        ensures next { IfSome result (λ next. next ≡ self.new.pc) }
        ensures left { IfNone result (IsLeft (insn_of meaning.now) self.old) }
        ensures hart { IfNone result (self.new ≡ self.old) }
        ensures memory { IfNone result (M.memory memory.new ≡ M.memory memory.old) }
        ensures text { M.text memory.new ≡ M.text memory.old }
    {
        match *meaning {
            Meaning::Lui { rd, imm } => self.give_from(pc, rd, imm.value() << 12),
            Meaning::Auipc { rd, imm } => self.give_from(
                pc,
                rd,
                pc.wrapping_add(imm.value() << 12),
            ),
            Meaning::Beq { rs1, rs2, offset } => self.branch(pc, BranchOp::Beq, rs1, rs2, offset),
            Meaning::Bne { rs1, rs2, offset } => self.branch(pc, BranchOp::Bne, rs1, rs2, offset),
            Meaning::Blt { rs1, rs2, offset } => self.branch(pc, BranchOp::Blt, rs1, rs2, offset),
            Meaning::Bge { rs1, rs2, offset } => self.branch(pc, BranchOp::Bge, rs1, rs2, offset),
            Meaning::Bltu { rs1, rs2, offset } => self.branch(pc, BranchOp::Bltu, rs1, rs2, offset),
            Meaning::Bgeu { rs1, rs2, offset } => self.branch(pc, BranchOp::Bgeu, rs1, rs2, offset),
            Meaning::Lb { rd, rs1, imm } => self.read(pc, LoadOp::Lb, rd, rs1, imm, memory),
            Meaning::Lh { rd, rs1, imm } => self.read(pc, LoadOp::Lh, rd, rs1, imm, memory),
            Meaning::Lw { rd, rs1, imm } => self.read(pc, LoadOp::Lw, rd, rs1, imm, memory),
            Meaning::Lbu { rd, rs1, imm } => self.read(pc, LoadOp::Lbu, rd, rs1, imm, memory),
            Meaning::Lhu { rd, rs1, imm } => self.read(pc, LoadOp::Lhu, rd, rs1, imm, memory),
            Meaning::Sb { rs1, rs2, imm } => self.write(pc, StoreOp::Sb, rs1, rs2, imm, memory),
            Meaning::Sh { rs1, rs2, imm } => self.write(pc, StoreOp::Sh, rs1, rs2, imm, memory),
            Meaning::Sw { rs1, rs2, imm } => self.write(pc, StoreOp::Sw, rs1, rs2, imm, memory),
            Meaning::Addi { rd, rs1, imm } => self.operate_with(pc, AluImmOp::Addi, rd, rs1, imm),
            Meaning::Slti { rd, rs1, imm } => self.operate_with(pc, AluImmOp::Slti, rd, rs1, imm),
            Meaning::Sltiu { rd, rs1, imm } => self.operate_with(pc, AluImmOp::Sltiu, rd, rs1, imm),
            Meaning::Xori { rd, rs1, imm } => self.operate_with(pc, AluImmOp::Xori, rd, rs1, imm),
            Meaning::Ori { rd, rs1, imm } => self.operate_with(pc, AluImmOp::Ori, rd, rs1, imm),
            Meaning::Andi { rd, rs1, imm } => self.operate_with(pc, AluImmOp::Andi, rd, rs1, imm),
            Meaning::Slli { rd, rs1, amount } => self.shift(pc, ShiftOp::Slli, rd, rs1, amount),
            Meaning::Srli { rd, rs1, amount } => self.shift(pc, ShiftOp::Srli, rd, rs1, amount),
            Meaning::Srai { rd, rs1, amount } => self.shift(pc, ShiftOp::Srai, rd, rs1, amount),
            Meaning::Add { rd, rs1, rs2 } => self.operate(pc, AluOp::Add, rd, rs1, rs2),
            Meaning::Sub { rd, rs1, rs2 } => self.operate(pc, AluOp::Sub, rd, rs1, rs2),
            Meaning::Sll { rd, rs1, rs2 } => self.operate(pc, AluOp::Sll, rd, rs1, rs2),
            Meaning::Slt { rd, rs1, rs2 } => self.operate(pc, AluOp::Slt, rd, rs1, rs2),
            Meaning::Sltu { rd, rs1, rs2 } => self.operate(pc, AluOp::Sltu, rd, rs1, rs2),
            Meaning::Xor { rd, rs1, rs2 } => self.operate(pc, AluOp::Xor, rd, rs1, rs2),
            Meaning::Srl { rd, rs1, rs2 } => self.operate(pc, AluOp::Srl, rd, rs1, rs2),
            Meaning::Sra { rd, rs1, rs2 } => self.operate(pc, AluOp::Sra, rd, rs1, rs2),
            Meaning::Or { rd, rs1, rs2 } => self.operate(pc, AluOp::Or, rd, rs1, rs2),
            Meaning::And { rd, rs1, rs2 } => self.operate(pc, AluOp::And, rd, rs1, rs2),
            Meaning::Mul { rd, rs1, rs2 } => self.operate(pc, AluOp::Mul, rd, rs1, rs2),
            Meaning::Mulh { rd, rs1, rs2 } => self.operate(pc, AluOp::Mulh, rd, rs1, rs2),
            Meaning::Mulhsu { rd, rs1, rs2 } => self.operate(pc, AluOp::Mulhsu, rd, rs1, rs2),
            Meaning::Mulhu { rd, rs1, rs2 } => self.operate(pc, AluOp::Mulhu, rd, rs1, rs2),
            Meaning::Div { rd, rs1, rs2 } => self.operate(pc, AluOp::Div, rd, rs1, rs2),
            Meaning::Divu { rd, rs1, rs2 } => self.operate(pc, AluOp::Divu, rd, rs1, rs2),
            Meaning::Rem { rd, rs1, rs2 } => self.operate(pc, AluOp::Rem, rd, rs1, rs2),
            Meaning::Remu { rd, rs1, rs2 } => self.operate(pc, AluOp::Remu, rd, rs1, rs2),
            Meaning::Fence => Some(self.go_to(pc.wrapping_add(4))),
            _ => None,
        }
    }

    /// Writes a register, and goes on with the next instruction.
    #[inline(always)]
    fn give_from(&mut self, pc: u32, rd: Reg, value: u32) -> Option<u32>
        requires { pc ≡ self.old.pc }
        ensures hart { self.new ≡ given self.old rd value }
        ensures next { result ≡ Some self.new.pc }
    {
        self.set_register(rd, value);
        Some(self.go_to(pc.wrapping_add(4)))
    }

    /// Writes what an operation comes to, which is known where this is laid in: so no turn asks which it is.
    #[inline(always)]
    fn operate(&mut self, pc: u32, op: AluOp, rd: Reg, rs1: Reg, rs2: Reg) -> Option<u32>
        requires { pc ≡ self.old.pc }
        ensures hart { self.new ≡ given self.old rd (computed_of op (register self.old rs1) (register self.old rs2)) }
        ensures next { result ≡ Some self.new.pc }
    {
        self.give_from(pc, rd, computed(op, self.register(rs1), self.register(rs2)))
    }

    /// The same of a register and an immediate.
    #[inline(always)]
    fn operate_with(&mut self, pc: u32, op: AluImmOp, rd: Reg, rs1: Reg, imm: Imm12) -> Option<u32>
        requires { pc ≡ self.old.pc }
        ensures hart { self.new ≡ given self.old rd (computed_with_immediate_of op (register self.old rs1)
            (extended imm)) }
        ensures next { result ≡ Some self.new.pc }
    {
        self.give_from(pc, rd, computed_with_immediate(op, self.register(rs1), imm))
    }

    /// The same of a shift by an amount in the word.
    #[inline(always)]
    fn shift(&mut self, pc: u32, op: ShiftOp, rd: Reg, rs1: Reg, amount: ShiftAmount) -> Option<u32>
        requires { pc ≡ self.old.pc }
        ensures hart { self.new ≡ given self.old rd (shifted_of op (register self.old rs1) amount) }
        ensures next { result ≡ Some self.new.pc }
    {
        self.give_from(pc, rd, shifted(op, self.register(rs1), amount))
    }

    /// A load of data, which is left where it traps. That all of it is data is asked first, so that a load asks nothing
    /// of text.
    #[inline(always)]
    fn read<M: Bytes>(
        &mut self,
        pc: u32,
        op: LoadOp,
        rd: Reg,
        rs1: Reg,
        imm: Imm12,
        memory: &M,
    ) -> Option<u32>
        requires { pc ≡ self.old.pc }
        ensures done { IfSome result (λ next. IsDone (M.text memory.now) (M.memory memory.now) self.old
            (insns.Load op rd rs1 imm) self.new (M.memory memory.now) Outcome.Stepped) }
        ensures next { IfSome result (λ next. next ≡ self.new.pc) }
        ensures unchanged { IfNone result (self.new ≡ self.old) }
    {
        let address = self.address(rs1, imm);
        if !memory.covers_store(address, count_of(op)) {
            return None;
        }
        match load(op, memory, address) {
            Ok(value) => self.give_from(pc, rd, value),
            Err(_) => None,
        }
    }

    /// A store, which is left where it traps.
    #[inline(always)]
    fn write<M: Bytes>(
        &mut self,
        pc: u32,
        op: StoreOp,
        rs1: Reg,
        rs2: Reg,
        imm: Imm12,
        memory: &mut M,
    ) -> Option<u32>
        requires { pc ≡ self.old.pc }
        ensures done { IfSome result (λ next. IsDone (M.text memory.old) (M.memory memory.old) self.old
            (insns.Store op rs1 rs2 imm) self.new (M.memory memory.new) Outcome.Stepped) }
        ensures next { IfSome result (λ next. next ≡ self.new.pc) }
        ensures hart { IfNone result (self.new ≡ self.old) }
        ensures memory { IfNone result (M.memory memory.new ≡ M.memory memory.old) }
        ensures text { M.text memory.new ≡ M.text memory.old }
    {
        match store(op, memory, self.address(rs1, imm), self.register(rs2)) {
            Ok(()) => Some(self.go_to(pc.wrapping_add(4))),
            Err(_) => None,
        }
    }

    /// Goes on at an offset where the comparison holds, else at the next instruction; or leaves it, where the target is
    /// misaligned.
    #[inline(always)]
    fn branch(
        &mut self,
        pc: u32,
        op: BranchOp,
        rs1: Reg,
        rs2: Reg,
        offset: BranchOffset,
    ) -> Option<u32>
        requires { pc ≡ self.old.pc }
        ensures allowed { OnSome result (jump_fault (jump_of (insns.Branch op rs1 rs2 offset) self.old) ≡ None) }
        ensures hart { OnSome result (self.new ≡ jumped self.old (jump_of (insns.Branch op rs1 rs2 offset) self.old)) }
        ensures next { IfSome result (λ next. next ≡ self.new.pc) }
        ensures misaligned { IfNone result (jump_fault (jump_of (insns.Branch op rs1 rs2 offset) self.old)
            ≡ Some Trap.MisalignedTarget) }
        ensures unchanged { IfNone result (self.new ≡ self.old) }
    {
        if is_taken(op, self.register(rs1), self.register(rs2)) {
            self.jump(target(pc, offset.bytes()))
        } else {
            Some(self.go_to(pc.wrapping_add(4)))
        }
    }

    /// A register plus an immediate, modulo 2^32.
    pub fn address(&self, rs1: Reg, imm: Imm12) -> u32
        ensures { result ≡ plus (register self.now rs1) imm }
    {
        self.register(rs1).wrapping_add(extend(imm))
    }

    /// Goes on at the target, unless that is no multiple of 4.
    #[inline(always)]
    pub(crate) fn jump(&mut self, target: u32) -> Option<u32>
        ensures allowed { OnSome result (jump_fault (Some target) ≡ None) }
        ensures hart { OnSome result (self.new ≡ at_pc self.old target) }
        ensures next { IfSome result (λ next. next ≡ target) }
        ensures misaligned { IfNone result (jump_fault (Some target) ≡ Some Trap.MisalignedTarget) }
        ensures unchanged { IfNone result (self.new ≡ self.old) }
    {
        if target % 4 != 0 {
            return None;
        }
        Some(self.go_to(target))
    }
}

/// This many bytes from a program counter, modulo 2^32.
pub(crate) fn target(pc: u32, offset: i32) -> u32
    ensures { result ≡ plus pc offset }
{
    pc.wrapping_add(offset.cast_unsigned())
}
