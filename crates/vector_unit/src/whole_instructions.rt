//! The instructions on whole groups of words, told apart.

ghost use Rattle.std.specs.Prelude.{◌≡◌, true, false, None};
ghost use Rattle.vector_unit.specs.Vector.{is_own, is_refused, scalar_given, vector_after};

use crate::states::VectorState;
use rv_insn::VectorInsn;

impl VectorState {
    /// Executes an instruction on whole groups of words, and answers whether it was one that is legal here. With any
    /// other nothing is changed, and [`VectorState::execute`] says what comes of it.
    #[inline(always)]
    pub fn execute_on_wholes(&mut self, insn: &VectorInsn, scalar: u32) -> bool
        ensures own { result ≡ true → is_own insn.now ≡ true }
        ensures legal { result ≡ true → is_refused insn.now self.old ≡ false }
        ensures state { result ≡ true → self.new ≡ vector_after insn.now (λ r. scalar) self.old }
        ensures given { result ≡ true → scalar_given insn.now self.old ≡ None }
        ensures unchanged { result ≡ false → self.new ≡ self.old }
    {
        match *insn {
            VectorInsn::ArithmeticVv {
                op,
                vd,
                vs2,
                vs1,
                vm: true,
            } => self.arithmetic_on_groups(op, vd, vs2, vs1),
            VectorInsn::ArithmeticVx {
                op,
                vd,
                vs2,
                vm: true,
                ..
            } => self.arithmetic_on_numbers(op, vd, vs2, scalar),
            VectorInsn::ArithmeticVi {
                op,
                vd,
                vs2,
                imm,
                vm: true,
            } => self.arithmetic_on_immediates(op, vd, vs2, imm),
            VectorInsn::ShiftVi {
                op,
                vd,
                vs2,
                amount,
                vm: true,
            } => self.shift_by_amount(op, vd, vs2, amount),
            VectorInsn::MultiplyVv {
                op,
                vd,
                vs2,
                vs1,
                vm: true,
            } => self.multiply_groups(op, vd, vs2, vs1),
            VectorInsn::MultiplyVx {
                op,
                vd,
                vs2,
                vm: true,
                ..
            } => self.multiply_numbers(op, vd, vs2, scalar),
            VectorInsn::CompareVv {
                op,
                vd,
                vs2,
                vs1,
                vm: true,
            } => self.compare_groups(op, vd, vs2, vs1),
            VectorInsn::CompareVx {
                op,
                vd,
                vs2,
                vm: true,
                ..
            } => self.compare_number(op, vd, vs2, scalar),
            VectorInsn::CompareVi {
                op,
                vd,
                vs2,
                imm,
                vm: true,
            } => self.compare_immediate(op, vd, vs2, imm),
            VectorInsn::MergeVv { vd, vs2, vs1 } => self.merge_groups(vd, vs2, vs1),
            VectorInsn::MergeVx { vd, vs2, .. } => self.merge_operand(vd, vs2, scalar),
            VectorInsn::MergeVi { vd, vs2, imm } => self.merge_operand(vd, vs2, imm),
            VectorInsn::MoveVv { vd, vs1 } => self.copy_group(vd, vs1),
            VectorInsn::MoveVx { vd, .. } => self.copy_operand(vd, scalar),
            VectorInsn::MoveVi { vd, imm } => self.copy_operand(vd, imm),
            VectorInsn::ElementNumbers { vd, vm: true } => self.number_whole(vd),
            VectorInsn::ExtendBytes { vd, vs2, vm: true } => self.extend_bytes(vd, vs2),
            _ => false,
        }
    }
}
