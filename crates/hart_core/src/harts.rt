//! The state of one hart.

ghost use Rattle.std.specs.Prelude.{◌≡◌, ◌<◌, ◌≤◌, ◌+◌, ◌*◌, ◌^◌, ◌&&◌};
ghost use Rattle.std.specs.Prelude.{not, None, true, false, slice_index, OnOk, OnErr};
ghost use Rattle.std.specs.Prelude.{IfOk, IfErr};
ghost use Rattle.vector_unit.specs.Vector.{configured, has_vill, is_illegal_configuration};
ghost use Rattle.vector_unit.specs.Vector.{bits_of, is_own, is_refused, vector_after, scalar_given, number_of};
ghost use Rattle.vector_unit.specs.Accesses.{loaded, with_element_from};
ghost use Rattle.hart_core.specs.HartState.{register, vector, has_finished, with_register, at_pc, advanced};
ghost use Rattle.hart_core.specs.HartState.{with_status, opening_hart, vectors_of, with_vectors, given};

use rv_insn::{ElementWidth, Outcome, Reg, Trap, VReg, VectorInsn};
use std::marker::Model;
use vector_unit::{RequestedLength, VectorState};

/// Whether a hart runs, or why it doesn't.
#[derive(Clone, Copy, Debug, PartialEq, Eq)]
pub enum Status {
    /// It executes an instruction in each of its turns.
    Running,
    /// It has executed ECALL.
    Finished,
    /// An instruction trapped, and is at the program counter for good.
    Trapped(Trap),
}

/// One hart: program counter, integer and vector registers, vector configuration and status. A
/// contract sees all of them as a `HartState`. The field of x0 stays 0, so that a register is read without a test.
#[derive(Drop)]
pub struct Hart {
    pc: u32,
    registers: [u32; 32],
    unit: VectorState,
    status: Status,
}

impl Model for Hart {
    ghost use Rattle.std.specs.Prelude.{◌≡◌, slice_index};
    ghost use Rattle.hart_core.specs.HartState.{HartState};

    ghost Value = { HartState };

    ghost view = { λ h. record {
      pc = h.pc;
      registers = h.registers;
      vectors = h.unit.registers;
      vl = h.unit.vl;
      vtype = h.unit.vtype;
      status = h.status;
    } };

    ghost invariant = { λ h. slice_index h.registers 0 ≡ 0 };
}

impl Hart {
    /// A hart at the start: it runs at the entry, x10 holds its number and x11 the count of harts, and
    /// every other register is 0.
    pub fn new(entry: u32, count: u32, number: u32) -> Hart
        ensures { result ≡ opening_hart entry count number }
    {
        let mut registers = [0; 32];
        registers[10] = number;
        registers[11] = count;
        Hart {
            pc: entry,
            registers,
            unit: VectorState::new(),
            status: Status::Running,
        }
    }

    /// The same hart once more.
    pub fn duplicate(&self) -> Hart
        ensures { result ≡ self.now }
    {
        Hart {
            pc: self.pc,
            registers: self.registers,
            unit: self.unit.duplicate(),
            status: self.status,
        }
    }

    /// The address of the instruction that is due.
    pub fn pc(&self) -> u32
        ensures { result ≡ self.now.pc }
    {
        self.pc
    }

    /// What an integer register holds; x0 holds 0.
    pub fn register(&self, r: Reg) -> u32
        ensures { result ≡ register self.now r }
    {
        self.registers[r.number() as usize]
    }

    /// The 16 bytes of a vector register, byte 0 first.
    pub fn vector(&self, v: VReg) -> [u8; 16]
        ensures { result ≡ vector self.now v }
    {
        self.unit.register(v)
    }

    /// The number of elements that vector instructions work on.
    pub fn vl(&self) -> u32
        ensures { result ≡ self.now.vl }
    {
        self.unit.vl()
    }

    /// The vector configuration, as the vtype register spells it.
    pub fn vtype(&self) -> u32
        ensures { result ≡ self.now.vtype }
    {
        self.unit.vtype()
    }

    /// Whether the hart runs, or why it doesn't.
    pub fn status(&self) -> Status
        ensures { result ≡ self.now.status }
    {
        self.status
    }

    /// Whether the hart has executed ECALL.
    pub fn has_finished(&self) -> bool
        ensures { result ≡ has_finished self.now.status }
    {
        matches!(self.status, Status::Finished)
    }

    /// Writes a register; a write to x0 is lost. That 0 is written there after each write costs less than a test.
    #[tactic(auto, using(crate::proofs::Registers::x0_stays))]
    pub(crate) fn set_register(&mut self, r: Reg, value: u32)
        ensures { self.new ≡ with_register self.old r value }
    {
        self.registers[r.number() as usize] = value;
        self.registers[0] = 0;
    }

    /// Goes on at the next instruction in text.
    pub(crate) fn advance(&mut self) -> Outcome
        ensures hart { self.new ≡ advanced self.old }
        ensures outcome { result ≡ Outcome.Stepped }
    {
        self.pc = self.pc.wrapping_add(4);
        Outcome::Stepped
    }

    /// Goes on at an address, and answers it.
    pub(crate) fn go_to(&mut self, pc: u32) -> u32
        ensures hart { self.new ≡ at_pc self.old pc }
        ensures pc { result ≡ pc }
    {
        self.pc = pc;
        pc
    }

    /// Stops for good, as ECALL does.
    pub(crate) fn finish(&mut self) -> Outcome
        ensures hart { self.new ≡ with_status self.old Status.Finished }
        ensures outcome { result ≡ Outcome.Finished }
    {
        self.status = Status::Finished;
        Outcome::Finished
    }

    /// Stops for good at a trap. Nothing but the status changes.
    pub(crate) fn trap(&mut self, trap: Trap) -> Outcome
        ensures hart { self.new ≡ with_status self.old (Status.Trapped trap) }
        ensures outcome { result ≡ Outcome.Trapped trap }
    {
        self.status = Status::Trapped(trap);
        Outcome::Trapped(trap)
    }

    /// Writes a register and goes on at the next instruction.
    pub(crate) fn give(&mut self, rd: Reg, value: u32) -> Outcome
        ensures hart { self.new ≡ given self.old rd value }
        ensures outcome { result ≡ Outcome.Stepped }
    {
        self.set_register(rd, value);
        self.advance()
    }

    /// The vector unit's part.
    pub fn vectors(&self) -> &VectorState
        ensures { result.now ≡ vectors_of self.now }
    {
        &self.unit
    }

    /// Configures the vector unit.
    pub(crate) fn configure(&mut self, vtype: u32, asked: RequestedLength) -> Result<u32, Trap>
        ensures legal { OnOk result (is_illegal_configuration (vectors_of self.old) vtype asked ≡ false) }
        ensures done { OnOk result (self.new ≡ with_vectors self.old (configured (vectors_of self.old) vtype asked)) }
        ensures vl { IfOk result (λ vl. vl ≡ (configured (vectors_of self.old) vtype asked).vl) }
        ensures illegal { OnErr result (is_illegal_configuration (vectors_of self.old) vtype asked ≡ true) }
        ensures trap { IfErr result (λ trap. trap ≡ Trap.IllegalInstruction) }
        ensures unchanged { OnErr result (self.new ≡ self.old) }
    {
        self.unit.configure(vtype, asked)
    }

    /// Executes a vector instruction that neither configures the unit nor touches memory, but for the number
    /// that its `rd` gets.
    pub(crate) fn compute(&mut self, insn: &VectorInsn, scalar: u32) -> Result<Option<u32>, Trap>
        ensures own { OnOk result (is_own insn.now ≡ true) }
        ensures legal { OnOk result (is_refused insn.now (vectors_of self.old) ≡ false) }
        ensures state { OnOk result (self.new
            ≡ with_vectors self.old (vector_after insn.now (λ r. scalar) (vectors_of self.old))) }
        ensures given { IfOk result (λ number. number ≡ number_of (scalar_given insn.now (vectors_of self.old))) }
        ensures illegal { OnErr result (is_own insn.now && not (is_refused insn.now (vectors_of self.old)) ≡ false) }
        ensures trap { IfErr result (λ trap. trap ≡ Trap.IllegalInstruction) }
        ensures unchanged { OnErr result (self.new ≡ self.old) }
    {
        self.unit.execute(insn, scalar)
    }

    /// Executes an instruction on whole groups of words, and answers whether it was one that is legal here. With any
    /// other nothing is changed.
    #[inline(always)]
    pub(crate) fn compute_on_wholes(&mut self, insn: &VectorInsn, scalar: u32) -> bool
        ensures own { result ≡ true → is_own insn.now ≡ true }
        ensures legal { result ≡ true → is_refused insn.now (vectors_of self.old) ≡ false }
        ensures state { result ≡ true
            → self.new ≡ with_vectors self.old (vector_after insn.now (λ r. scalar) (vectors_of self.old)) }
        ensures given { result ≡ true → scalar_given insn.now (vectors_of self.old) ≡ None }
        ensures unchanged { result ≡ false → self.new ≡ self.old }
    {
        self.unit.execute_on_wholes(insn, scalar)
    }

    /// Writes numbers to the active elements of a vector register or group.
    pub(crate) fn load_elements(&mut self, width: ElementWidth, vd: VReg, vm: bool, numbers: &[u32])
        requires { has_vill (vectors_of self.old) ≡ false }
        ensures { self.new ≡ with_vectors self.old (loaded (vectors_of self.old) width vd vm numbers.now) }
    {
        self.unit.load(width, vd, vm, numbers);
    }

    /// Writes the low bits of a number to an element of a width, of those of the registers from one on.
    #[inline(always)]
    pub(crate) fn put_element(&mut self, width: ElementWidth, vd: VReg, index: u32, number: u32)
        requires { index < 64 }
        ensures { self.new ≡ with_vectors self.old (with_element_from (vectors_of self.old) (bits_of width) vd index
            number) }
    {
        self.unit.put_element(width, vd, index, number);
    }

    /// Writes the four words of a register of a group.
    #[inline(always)]
    pub(crate) fn put_four_words(&mut self, vd: VReg, part: usize, words: [u32; 4])
        requires { vd + part < 32 }
        ensures { self.new ≡ with_vectors self.old (with_element_from (with_element_from (with_element_from
            (with_element_from (vectors_of self.old) 32 vd (4 * part) (slice_index words 0))
            32 vd (4 * part + 1) (slice_index words 1)) 32 vd (4 * part + 2) (slice_index words 2))
            32 vd (4 * part + 3) (slice_index words 3)) }
    {
        self.unit.put_four_words(vd, part, words);
    }
}
