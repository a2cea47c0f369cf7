//! Instructions on single registers of words, the most that programs do: none of what is judged and looked up of groups
//! and widths is needed there.

ghost use Rattle.std.specs.Prelude.{◌≡◌, ℕ, true, false, None};
ghost use Rattle.lanes.specs.Words.{zip_with};
ghost use Rattle.vector_unit.specs.Vector.{has_vill};
ghost use Rattle.vector_unit.specs.Vector.{group, is_own, is_refused, of_group, scalar_given, vector_after, width};
ghost use Rattle.vector_unit.specs.Vector.{with_elements};
ghost use Rattle.vector_unit.specs.Operations as op;

use crate::elements::NewElements;
use crate::execution::overwrites_mask;
use crate::operands::OtherOperand;
use crate::operations;
use crate::states::VectorState;
use rv_insn::{ArithmeticVvOp, VReg, VectorInsn};

impl VectorState {
    /// Executes an operation on two single registers of words, and answers whether it was one that is legal here. With
    /// any other nothing is changed, and [`VectorState::execute`] says what comes of it.
    #[inline(always)]
    pub fn execute_on_words(&mut self, insn: &VectorInsn) -> bool
        ensures own { result ≡ true → is_own insn.now ≡ true }
        ensures legal { result ≡ true → is_refused insn.now self.old ≡ false }
        ensures state { result ≡ true → (x : ℕ → ℕ) → self.new ≡ vector_after insn.now x self.old }
        ensures given { result ≡ true → scalar_given insn.now self.old ≡ None }
        ensures unchanged { result ≡ false → self.new ≡ self.old }
    {
        let VectorInsn::ArithmeticVv {
            op,
            vd,
            vs2,
            vs1,
            vm,
        } = *insn
        else {
            return false;
        };
        if !self.has_single_words() || overwrites_mask(insn) {
            return false;
        }
        self.compute_words(op, vd, vs2, vs1, vm);
        true
    }

    /// Whether elements are words in groups of one register.
    #[tactic(auto, using(crate::proofs::Configurations::single_words))]
    #[inline(always)]
    fn has_single_words(&self) -> bool
        ensures configured { result ≡ true → has_vill self.now ≡ false }
        ensures words { result ≡ true → width self.now ≡ 32 }
        ensures single { result ≡ true → group self.now ≡ 1 }
    {
        self.is_configured && self.vtype % 64 == 16
    }

    /// Writes what an operation makes of each pair of words.
    #[inline(always)]
    fn compute_words(&mut self, operation: ArithmeticVvOp, vd: VReg, vs2: VReg, vs1: VReg, vm: bool)
        requires configured { has_vill self.old ≡ false }
        requires words { width self.old ≡ 32 }
        requires single { group self.old ≡ 1 }
        ensures { self.new ≡ with_elements self.old vd vm (zip_with (op.arithmetic_vv operation (width self.old))
            (of_group self.old vs2) (of_group self.old vs1)) }
    {
        let new = NewElements::Arithmetic {
            op: operations::of_two_registers(operation),
            vs2,
            other: OtherOperand::Register(vs1),
        };
        self.write_single(vd, vm, new);
    }
}
