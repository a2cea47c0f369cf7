//! What a hart does in a turn.

ghost use Rattle.std.specs.Prelude.{◌≡◌, ◌≢◌, false, None, Some, length, IfOk, OnOk, IfErr, OnErr};
ghost use Rattle.rv_insn.specs.declared.instructions.Insn.TheVariants as insns;
ghost use Rattle.hart_core.specs.Scalar.{jump_fault, linked};
ghost use Rattle.hart_core.specs.Meanings.{insn_of};
ghost use Rattle.hart_core.specs.Turn.{step, step_with, fault, IsDone};
ghost use Rattle.hart_core.specs.inner.Meanings.{IsScalar, IsLeft, IsDoneBy, fault_by};

use crate::accesses::{load, store};
use crate::harts::{Hart, Status};
use crate::meanings::Meaning;
use crate::scalars::target;
use memory::Bytes;
use memory_accesses::add_to_word;
use rv_encoding::decode;
use rv_insn::{Imm12, Insn, LoadOp, Outcome, Reg, StoreOp, Trap, VectorInsn};

impl Hart {
    /// One turn of the hart: the instruction that is at the program counter, or nothing where the
    /// hart has finished or trapped. A trap changes nothing but the hart's status.
    #[inline(never)]
    pub fn step<M: Bytes>(&mut self, memory: &mut M) -> Outcome
        ensures hart { self.new ≡ (step (M.text memory.old) (M.memory memory.old) self.old).hart }
        ensures memory { M.memory memory.new ≡ (step (M.text memory.old) (M.memory memory.old) self.old).memory }
        ensures text { M.text memory.new ≡ M.text memory.old }
        ensures outcome { result ≡ (step (M.text memory.old) (M.memory memory.old) self.old).outcome }
    {
        let Status::Running = self.status() else {
            return Outcome::Idle;
        };
        let Some(word) = memory.fetch(self.pc()) else {
            return self.trap(Trap::FetchOutside);
        };
        self.step_with(memory, decode(word))
    }

    /// One turn of the hart, its program counter taken as in text and the given value as what the word there
    /// means, which isn't read: so a word that was decoded once serves every turn.
    #[inline(always)]
    pub fn step_with<M: Bytes>(&mut self, memory: &mut M, insn: Option<Insn>) -> Outcome
        ensures hart { self.new ≡ (step_with (M.text memory.old) (M.memory memory.old) self.old insn).hart }
        ensures memory { M.memory memory.new
            ≡ (step_with (M.text memory.old) (M.memory memory.old) self.old insn).memory }
        ensures text { M.text memory.new ≡ M.text memory.old }
        ensures outcome { result ≡ (step_with (M.text memory.old) (M.memory memory.old) self.old insn).outcome }
    {
        if self.status() != Status::Running {
            return Outcome::Idle;
        }
        self.step_running(memory, &Meaning::of(insn))
    }

    /// The same turn, of a hart that is known to run, so that its status isn't read, and of a meaning that is kept.
    #[inline(never)]
    pub fn step_running<M: Bytes>(&mut self, memory: &mut M, meaning: &Meaning) -> Outcome
        requires { self.old.status ≡ Status.Running }
        ensures hart { self.new ≡ (step_with (M.text memory.old) (M.memory memory.old) self.old
            (insn_of meaning.now)).hart }
        ensures memory { M.memory memory.new
            ≡ (step_with (M.text memory.old) (M.memory memory.old) self.old (insn_of meaning.now)).memory }
        ensures text { M.text memory.new ≡ M.text memory.old }
        ensures outcome { result ≡ (step_with (M.text memory.old) (M.memory memory.old) self.old
            (insn_of meaning.now)).outcome }
    {
        match self.step_from(self.pc(), memory, meaning) {
            Ok(_) => Outcome::Stepped,
            Err(outcome) => outcome,
        }
    }

    /// The same turn, which answers where the hart goes on, so that turns one after the other hold their program
    /// counter in a register; and its outcome, where it doesn't step.
    #[inline(always)]
    pub fn step_from<M: Bytes>(
        &mut self,
        pc: u32,
        memory: &mut M,
        meaning: &Meaning,
    ) -> Result<u32, Outcome>
        requires runs { self.old.status ≡ Status.Running }
        requires here { pc ≡ self.old.pc }
        ensures hart { self.new ≡ (step_with (M.text memory.old) (M.memory memory.old) self.old
            (insn_of meaning.now)).hart }
        ensures memory { M.memory memory.new
            ≡ (step_with (M.text memory.old) (M.memory memory.old) self.old (insn_of meaning.now)).memory }
        ensures text { M.text memory.new ≡ M.text memory.old }
        ensures next { IfOk result (λ next. next ≡ self.new.pc) }
        ensures stepped { OnOk result ((step_with (M.text memory.old) (M.memory memory.old) self.old
            (insn_of meaning.now)).outcome ≡ Outcome.Stepped) }
        ensures outcome { IfErr result (λ outcome. outcome ≡ (step_with (M.text memory.old) (M.memory memory.old)
            self.old (insn_of meaning.now)).outcome) }
        ensures ended { IfErr result (λ outcome. outcome ≢ Outcome.Stepped) }
    {
        if let Meaning::Vector(ref insn) = *meaning {
            let outcome = self.step_vector(memory, insn);
            return self.came_to(outcome);
        }
        if let Some(next) = self.execute(pc, memory, meaning) {
            return Ok(next);
        }
        let outcome = self.step_apart(memory, meaning);
        self.came_to(outcome)
    }

    /// Where a hart goes on whose turn came to this, if it stepped.
    pub fn came_to(&self, outcome: Outcome) -> Result<u32, Outcome>
        ensures next { IfOk result (λ next. next ≡ self.now.pc) }
        ensures stepped { OnOk result (outcome ≡ Outcome.Stepped) }
        ensures outcome { IfErr result (λ came. came ≡ outcome) }
        ensures ended { OnErr result (outcome ≢ Outcome.Stepped) }
    {
        match outcome {
            Outcome::Stepped => Ok(self.pc()),
            _ => Err(outcome),
        }
    }

    /// A turn of what `execute` left and means no vector instruction: apart, so that all that stays in a loop of turns
    /// is short.
    #[cold]
    #[inline(never)]
    fn step_apart<M: Bytes>(&mut self, memory: &mut M, meaning: &Meaning) -> Outcome
        requires runs { self.old.status ≡ Status.Running }
        requires scalar { IsScalar meaning.now }
        requires left { IsLeft (insn_of meaning.now) self.old }
        ensures hart { self.new ≡ (step_with (M.text memory.old) (M.memory memory.old) self.old
            (insn_of meaning.now)).hart }
        ensures memory { M.memory memory.new
            ≡ (step_with (M.text memory.old) (M.memory memory.old) self.old (insn_of meaning.now)).memory }
        ensures text { M.text memory.new ≡ M.text memory.old }
        ensures outcome { result ≡ (step_with (M.text memory.old) (M.memory memory.old) self.old
            (insn_of meaning.now)).outcome }
    {
        match self.execute_apart(memory, meaning) {
            Ok(outcome) => outcome,
            Err(trap) => self.trap(trap),
        }
    }

    /// A turn of a hart that runs, of a vector instruction: apart from the others, whose answers then stay in
    /// registers.
    #[inline(never)]
    fn step_vector<M: Bytes>(&mut self, memory: &mut M, insn: &VectorInsn) -> Outcome
        requires { self.old.status ≡ Status.Running }
        ensures hart { self.new ≡ (step_with (M.text memory.old) (M.memory memory.old) self.old
            (Some (insns.Vector insn.now))).hart }
        ensures memory { M.memory memory.new
            ≡ (step_with (M.text memory.old) (M.memory memory.old) self.old (Some (insns.Vector insn.now))).memory }
        ensures text { M.text memory.new ≡ M.text memory.old }
        ensures outcome { result ≡ (step_with (M.text memory.old) (M.memory memory.old) self.old
            (Some (insns.Vector insn.now))).outcome }
    {
        match self.execute_vector(insn, memory) {
            Ok(outcome) => outcome,
            Err(trap) => self.trap(trap),
        }
    }

    /// Does what `execute` left and means no vector instruction, or says which trap it makes and changes nothing.
    fn execute_apart<M: Bytes>(
        &mut self,
        memory: &mut M,
        meaning: &Meaning,
    ) -> Result<Outcome, Trap>
        requires scalar { IsScalar meaning.now }
        requires left { IsLeft (insn_of meaning.now) self.old }
        ensures ok { IfOk result (λ outcome. IsDoneBy (insn_of meaning.now) (M.text memory.old) (M.memory memory.old)
            self.old self.new (M.memory memory.new) outcome) }
        ensures trap { IfErr result (λ trap. fault_by (insn_of meaning.now) (length (M.text memory.old))
            (length (M.memory memory.old)) self.old ≡ Some trap) }
        ensures hart { OnErr result (self.new ≡ self.old) }
        ensures memory { OnErr result (M.memory memory.new ≡ M.memory memory.old) }
        ensures text { M.text memory.new ≡ M.text memory.old }
    {
        match *meaning {
            Meaning::Nothing => Err(Trap::IllegalInstruction),
            Meaning::Ebreak => Err(Trap::Breakpoint),
            Meaning::Ecall => Ok(self.finish()),
            Meaning::Jal { rd, offset } => self.jump_and_link(
                rd,
                target(self.pc(), offset.bytes()),
            ),
            Meaning::Jalr { rd, rs1, imm } => self.jump_and_link(rd, self.address(rs1, imm) & !1),
            Meaning::Beq { .. } | Meaning::Bne { .. } => Err(Trap::MisalignedTarget),
            Meaning::Blt { .. } | Meaning::Bge { .. } => Err(Trap::MisalignedTarget),
            Meaning::Bltu { .. } | Meaning::Bgeu { .. } => Err(Trap::MisalignedTarget),
            Meaning::Lb { rd, rs1, imm } => self.load(LoadOp::Lb, rd, rs1, imm, memory),
            Meaning::Lh { rd, rs1, imm } => self.load(LoadOp::Lh, rd, rs1, imm, memory),
            Meaning::Lw { rd, rs1, imm } => self.load(LoadOp::Lw, rd, rs1, imm, memory),
            Meaning::Lbu { rd, rs1, imm } => self.load(LoadOp::Lbu, rd, rs1, imm, memory),
            Meaning::Lhu { rd, rs1, imm } => self.load(LoadOp::Lhu, rd, rs1, imm, memory),
            Meaning::Sb { rs1, rs2, imm } => self.store(StoreOp::Sb, rs1, rs2, imm, memory),
            Meaning::Sh { rs1, rs2, imm } => self.store(StoreOp::Sh, rs1, rs2, imm, memory),
            Meaning::Sw { rs1, rs2, imm } => self.store(StoreOp::Sw, rs1, rs2, imm, memory),
            Meaning::AmoaddW { rd, rs1, rs2, .. } => self.add_in_memory(rd, rs1, rs2, memory),
            _ => unreachable!(),
        }
    }

    #[inline]
    fn load<M: Bytes>(
        &mut self,
        op: LoadOp,
        rd: Reg,
        rs1: Reg,
        imm: Imm12,
        memory: &mut M,
    ) -> Result<Outcome, Trap>
        ensures ok { IfOk result (λ outcome. IsDone (M.text memory.old) (M.memory memory.old) self.old
            (insns.Load op rd rs1 imm) self.new (M.memory memory.new) outcome) }
        ensures trap { IfErr result (λ trap. fault (length (M.text memory.old)) (length (M.memory memory.old))
            (insns.Load op rd rs1 imm) self.old ≡ Some trap) }
        ensures hart { OnErr result (self.new ≡ self.old) }
        ensures memory { OnErr result (M.memory memory.new ≡ M.memory memory.old) }
        ensures text { M.text memory.new ≡ M.text memory.old }
    {
        let value = load(op, memory, self.address(rs1, imm))?;
        Ok(self.give(rd, value))
    }

    #[inline]
    fn store<M: Bytes>(
        &mut self,
        op: StoreOp,
        rs1: Reg,
        rs2: Reg,
        imm: Imm12,
        memory: &mut M,
    ) -> Result<Outcome, Trap>
        ensures ok { IfOk result (λ outcome. IsDone (M.text memory.old) (M.memory memory.old) self.old
            (insns.Store op rs1 rs2 imm) self.new (M.memory memory.new) outcome) }
        ensures trap { IfErr result (λ trap. fault (length (M.text memory.old)) (length (M.memory memory.old))
            (insns.Store op rs1 rs2 imm) self.old ≡ Some trap) }
        ensures hart { OnErr result (self.new ≡ self.old) }
        ensures memory { OnErr result (M.memory memory.new ≡ M.memory memory.old) }
        ensures text { M.text memory.new ≡ M.text memory.old }
    {
        store(op, memory, self.address(rs1, imm), self.register(rs2))?;
        Ok(self.advance())
    }

    /// Adds a register to a word in memory, whose number before goes to `rd`.
    #[inline]
    fn add_in_memory<M: Bytes>(
        &mut self,
        rd: Reg,
        rs1: Reg,
        rs2: Reg,
        memory: &mut M,
    ) -> Result<Outcome, Trap>
        ensures ok { IfOk result (λ outcome. IsDone (M.text memory.old) (M.memory memory.old) self.old
            (insns.AmoaddW rd rs1 rs2 false false) self.new (M.memory memory.new) outcome) }
        ensures trap { IfErr result (λ trap. fault (length (M.text memory.old)) (length (M.memory memory.old))
            (insns.AmoaddW rd rs1 rs2 false false) self.old ≡ Some trap) }
        ensures hart { OnErr result (self.new ≡ self.old) }
        ensures memory { OnErr result (M.memory memory.new ≡ M.memory memory.old) }
        ensures text { M.text memory.new ≡ M.text memory.old }
    {
        let address = self.register(rs1);
        let before = add_to_word(memory, address, self.register(rs2))?;
        Ok(self.give(rd, before))
    }

    /// Jumps, with the address of the next instruction in `rd`; where the target traps, no link is
    /// written.
    fn jump_and_link(&mut self, rd: Reg, target: u32) -> Result<Outcome, Trap>
        ensures ok { IfOk result (λ outcome. outcome ≡ Outcome.Stepped) }
        ensures allowed { OnOk result (jump_fault (Some target) ≡ None) }
        ensures hart { OnOk result (self.new ≡ linked self.old rd target) }
        ensures err { IfErr result (λ trap. jump_fault (Some target) ≡ Some trap) }
        ensures unchanged { OnErr result (self.new ≡ self.old) }
    {
        let link = self.pc().wrapping_add(4);
        let Some(_) = self.jump(target) else {
            return Err(Trap::MisalignedTarget);
        };
        self.set_register(rd, link);
        Ok(Outcome::Stepped)
    }
}
