//! The instructions that touch no memory.

ghost use Rattle.std.specs.Prelude.{◌≡◌, ◌==◌, ◌%◌, ℕ, true, false, ◌&&◌, not, None, Some, OnOk, OnErr, IfOk, IfErr};
ghost use Rattle.rv_insn.specs.declared.outcomes.Trap.TheVariants.{IllegalInstruction};
ghost use Rattle.vector_unit.specs.Vector.{has_vill};
ghost use Rattle.vector_unit.specs.Vector.{vector_after, scalar_given, number_of, is_own, is_other_width, is_refused};
ghost use Rattle.vector_unit.specs.Vector.{overwrites_mask, fixed_width, group, groups_in, is_misplaced, moved_in};
ghost use Rattle.vector_unit.specs.Vector.{is_unfit, width, of_group, merged_by_mask, with_elements};
ghost use Rattle.vector_unit.specs.Operations as op;
ghost use Rattle.lanes.specs.Words.{zip_with};
ghost use Rattle.vector_unit.specs.Operands.{operand_elements, pair_of};

use crate::elements::NewElements;
use crate::operands::{OtherOperand, PairOperands};
use crate::states::VectorState;
use crate::{comparisons, operations};
use rv_insn::{Addressing, ArithmeticVxOp, ElementWidth, MultiplyOp, Trap, VReg, VectorInsn};

impl VectorState {
    /// Executes an instruction that neither configures the unit nor touches memory; `scalar` is the number in
    /// its `rs1`. Answers the number that its `rd` gets, if it has one. Every other instruction, and one that
    /// is illegal in this state, is refused, with nothing changed.
    pub fn execute(&mut self, insn: &VectorInsn, scalar: u32) -> Result<Option<u32>, Trap>
        ensures own { OnOk result (is_own insn.now ≡ true) }
        ensures legal { OnOk result (is_refused insn.now self.old ≡ false) }
        ensures state { OnOk result (self.new ≡ vector_after insn.now (λ r. scalar) self.old) }
        ensures given { IfOk result (λ number. number ≡ number_of (scalar_given insn.now self.old)) }
        ensures illegal { OnErr result (is_own insn.now && not (is_refused insn.now self.old) ≡ false) }
        ensures trap { IfErr result (λ trap. trap ≡ IllegalInstruction) }
        ensures unchanged { OnErr result (self.new ≡ self.old) }
    {
        if self.refuses(insn) {
            return Err(Trap::IllegalInstruction);
        }
        match PairOperands::of(insn, scalar) {
            Some(pair) => {
                self.execute_on_pairs(insn, pair);
                Ok(None)
            }
            None => self.execute_other(insn, scalar),
        }
    }

    /// Whether an instruction that doesn't configure the unit is illegal in this state.
    #[inline(always)]
    pub fn refuses(&self, insn: &VectorInsn) -> bool
        ensures { result ≡ is_refused insn.now self.now }
    {
        if self.has_vill() || overwrites_mask(insn) {
            return true;
        }
        if let Some(width) = fixed_width(insn)
            && width != self.width()
        {
            return true;
        }
        self.is_misplaced(insn) || self.is_unfit(insn)
    }

    /// Whether a register doesn't begin a group.
    #[inline(always)]
    pub(crate) fn is_inside(&self, v: VReg) -> bool
        ensures { result ≡ not (v % group self.now == 0) }
    {
        v.number() as usize % self.group() != 0
    }

    /// Whether a group of an instruction doesn't begin at a multiple of its size.
    #[inline(always)]
    fn is_misplaced(&self, insn: &VectorInsn) -> bool
        ensures { result ≡ is_misplaced self.now (groups_in insn.now) }
    {
        match *insn {
            VectorInsn::ArithmeticVv { vd, vs2, vs1, .. }
            | VectorInsn::MultiplyVv { vd, vs2, vs1, .. }
            | VectorInsn::MergeVv { vd, vs2, vs1 } => {
                self.is_inside(vd) || self.is_inside(vs2) || self.is_inside(vs1)
            }
            VectorInsn::ArithmeticVx { vd, vs2, .. }
            | VectorInsn::ArithmeticVi { vd, vs2, .. }
            | VectorInsn::ShiftVi { vd, vs2, .. }
            | VectorInsn::MultiplyVx { vd, vs2, .. }
            | VectorInsn::MergeVx { vd, vs2, .. }
            | VectorInsn::MergeVi { vd, vs2, .. }
            | VectorInsn::LoadElements {
                vd,
                addressing: Addressing::Indexed { vs2 },
                ..
            } => self.is_inside(vd) || self.is_inside(vs2),
            VectorInsn::StoreElements {
                vs3,
                addressing: Addressing::Indexed { vs2 },
                ..
            } => self.is_inside(vs3) || self.is_inside(vs2),
            VectorInsn::CompareVv { vs2, vs1, .. } => self.is_inside(vs2) || self.is_inside(vs1),
            VectorInsn::CompareVx { vs2, .. }
            | VectorInsn::CompareVi { vs2, .. }
            | VectorInsn::Reduce { vs2, .. } => self.is_inside(vs2),
            VectorInsn::MoveVv { vd, vs1 } => self.is_inside(vd) || self.is_inside(vs1),
            VectorInsn::MoveVx { vd, .. }
            | VectorInsn::MoveVi { vd, .. }
            | VectorInsn::ElementNumbers { vd, .. }
            | VectorInsn::ExtendBytes { vd, .. } => self.is_inside(vd),
            _ => false,
        }
    }

    /// Whether a load or store at its own width takes more than 4 registers, or a group that doesn't begin at a
    /// multiple of its size.
    #[inline(always)]
    fn is_unfit(&self, insn: &VectorInsn) -> bool
        requires { has_vill self.now ≡ false }
        ensures { result ≡ is_unfit self.now (moved_in insn.now) }
    {
        let (width, v, addressing) = match *insn {
            VectorInsn::LoadElements {
                width,
                vd,
                addressing,
                ..
            } => (width, vd, addressing),
            VectorInsn::StoreElements {
                width,
                vs3,
                addressing,
                ..
            } => (width, vs3, addressing),
            _ => return false,
        };
        if let Addressing::Indexed { .. } = addressing {
            return false;
        }
        let registers = self.group_at(width);
        registers > 4 || (registers > 1 && v.number() as usize % registers != 0)
    }

    /// Executes an instruction with these operands.
    fn execute_on_pairs(&mut self, insn: &VectorInsn, pair: PairOperands)
        requires { has_vill self.old ≡ false }
        ensures { (number : ℕ) → pair_of insn.now number ≡ Some pair
            → self.new ≡ vector_after insn.now (λ r. number) self.old }
    {
        match *insn {
            VectorInsn::ArithmeticVv { op, .. } => {
                self.compute(operations::of_two_registers(op), pair)
            }
            VectorInsn::ArithmeticVx { op, .. } => self.compute(op, pair),
            VectorInsn::ArithmeticVi { op, .. } => {
                self.compute(operations::with_immediate(op), pair)
            }
            VectorInsn::ShiftVi { op, .. } => self.compute(operations::shift(op), pair),
            VectorInsn::CompareVv { op, .. } => {
                self.compare(comparisons::of_two_registers(op), pair)
            }
            VectorInsn::CompareVx { op, .. } => self.compare(op, pair),
            VectorInsn::CompareVi { op, .. } => {
                self.compare(comparisons::with_immediate(op), pair)
            }
            VectorInsn::MultiplyVv { op, .. } | VectorInsn::MultiplyVx { op, .. } => {
                self.multiply(op, pair)
            }
            _ => {}
        }
    }

    /// Writes what an operation makes of each pair.
    fn compute(&mut self, operation: ArithmeticVxOp, pair: PairOperands)
        requires { has_vill self.old ≡ false }
        ensures { self.new ≡ with_elements self.old pair.vd pair.vm
            (zip_with (op.arithmetic_vx operation (width self.old)) (of_group self.old pair.vs2)
            (operand_elements self.old pair.other)) }
    {
        let PairOperands { vd, vs2, other, vm } = pair;
        let new = NewElements::Arithmetic {
            op: operation,
            vs2,
            other,
        };
        self.write_elements(vd, vm, new);
    }

    /// Writes what a multiplication or division makes of each pair.
    fn multiply(&mut self, operation: MultiplyOp, pair: PairOperands)
        requires { has_vill self.old ≡ false }
        ensures { self.new ≡ with_elements self.old pair.vd pair.vm (zip_with (op.multiply operation (width self.old))
            (of_group self.old pair.vs2) (operand_elements self.old pair.other)) }
    {
        let PairOperands { vd, vs2, other, vm } = pair;
        let new = NewElements::Multiply {
            op: operation,
            vs2,
            other,
        };
        self.write_elements(vd, vm, new);
    }

    /// Writes the other operand where the mask has a 1, and the elements of `vs2` where it has a 0.
    fn merge(&mut self, vd: VReg, vs2: VReg, other: OtherOperand)
        requires { has_vill self.old ≡ false }
        ensures { self.new ≡ with_elements self.old vd true (merged_by_mask self.old (operand_elements self.old other)
            (of_group self.old vs2)) }
    {
        self.write_elements(vd, true, NewElements::Merge { vs2, other });
    }

    /// Writes an operand.
    fn copy(&mut self, vd: VReg, other: OtherOperand)
        requires { has_vill self.old ≡ false }
        ensures { self.new ≡ with_elements self.old vd true (operand_elements self.old other) }
    {
        self.write_elements(vd, true, NewElements::Copy { other });
    }

    /// Executes an instruction that doesn't work on pairs.
    fn execute_other(&mut self, insn: &VectorInsn, scalar: u32) -> Result<Option<u32>, Trap>
        requires configured { has_vill self.old ≡ false }
        requires width { is_other_width self.old (fixed_width insn.now) ≡ false }
        requires other { pair_of insn.now scalar ≡ None }
        ensures own { OnOk result (is_own insn.now ≡ true) }
        ensures state { OnOk result (self.new ≡ vector_after insn.now (λ r. scalar) self.old) }
        ensures given { IfOk result (λ number. number ≡ number_of (scalar_given insn.now self.old)) }
        ensures illegal { OnErr result (is_own insn.now ≡ false) }
        ensures trap { IfErr result (λ trap. trap ≡ IllegalInstruction) }
        ensures unchanged { OnErr result (self.new ≡ self.old) }
    {
        match *insn {
            VectorInsn::Reduce {
                op,
                vd,
                vs2,
                vs1,
                vm,
            } => self.reduce(op, vd, vs2, vs1, vm),
            VectorInsn::MergeVv { vd, vs2, vs1 } => self.merge(
                vd,
                vs2,
                OtherOperand::Register(vs1),
            ),
            VectorInsn::MergeVx { vd, vs2, .. } => self.merge(
                vd,
                vs2,
                OtherOperand::Number(scalar),
            ),
            VectorInsn::MergeVi { vd, vs2, imm } => self.merge(
                vd,
                vs2,
                OtherOperand::Immediate(imm),
            ),
            VectorInsn::MoveVv { vd, vs1 } => self.copy(vd, OtherOperand::Register(vs1)),
            VectorInsn::MoveVx { vd, .. } => self.copy(vd, OtherOperand::Number(scalar)),
            VectorInsn::MoveVi { vd, imm } => self.copy(vd, OtherOperand::Immediate(imm)),
            VectorInsn::MoveToScalar { vs2, .. } => return Ok(Some(self.scalar(vs2))),
            VectorInsn::MoveFromScalar { vd, .. } => self.put_scalar(vd, scalar),
            VectorInsn::ElementNumbers { vd, vm } => {
                self.write_elements(vd, vm, NewElements::Numbers)
            }
            VectorInsn::ExtendBytes { vd, vs2, vm } => {
                self.write_elements(vd, vm, NewElements::Bytes { vs2 })
            }
            _ => return Err(Trap::IllegalInstruction),
        }
        Ok(None)
    }
}

/// Whether a masked instruction writes the mask itself.
#[inline(always)]
pub(crate) fn overwrites_mask(insn: &VectorInsn) -> bool
    ensures { result ≡ overwrites_mask insn.now }
{
    match *insn {
        VectorInsn::ArithmeticVv { vd, vm, .. }
        | VectorInsn::ArithmeticVx { vd, vm, .. }
        | VectorInsn::ArithmeticVi { vd, vm, .. }
        | VectorInsn::ShiftVi { vd, vm, .. }
        | VectorInsn::MultiplyVv { vd, vm, .. }
        | VectorInsn::MultiplyVx { vd, vm, .. }
        | VectorInsn::ElementNumbers { vd, vm }
        | VectorInsn::ExtendBytes { vd, vm, .. }
        | VectorInsn::LoadElements { vd, vm, .. } => !vm && vd.number() == 0,
        VectorInsn::MergeVv { vd, .. }
        | VectorInsn::MergeVx { vd, .. }
        | VectorInsn::MergeVi { vd, .. } => vd.number() == 0,
        _ => false,
    }
}

/// The width that has to be the configured one.
#[inline(always)]
fn fixed_width(insn: &VectorInsn) -> Option<ElementWidth>
    ensures { result ≡ fixed_width insn.now }
{
    match *insn {
        VectorInsn::LoadElements {
            width,
            addressing: Addressing::Indexed { .. },
            ..
        }
        | VectorInsn::StoreElements {
            width,
            addressing: Addressing::Indexed { .. },
            ..
        } => Some(width),
        VectorInsn::ExtendBytes { .. } => Some(ElementWidth::Bits32),
        _ => None,
    }
}
