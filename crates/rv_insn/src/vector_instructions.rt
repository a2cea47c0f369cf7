//! Vector instructions as values.

ghost use Rattle.std.specs.Prelude.{◌≡◌};
ghost use Rattle.rv_insn.specs.Encoding.{mode_of};

use crate::immediates::{Imm5, Length5, ShiftAmount, Vtype10, Vtype11};
use crate::registers::{Reg, VReg};
use crate::vector_operations::{
    AddressMode, ArithmeticViOp, ArithmeticVvOp, ArithmeticVxOp, CompareViOp, CompareVvOp,
    CompareVxOp, ElementWidth, MultiplyOp, ReductionOp, ShiftViOp,
};

/// A vector instruction with all the fields of its row of the instruction table. Where `vm` is false,
/// the elements whose bit in v0 is 0 are left out.
#[derive(Clone, Copy)]
pub enum VectorInsn {
    /// An operation on the elements of `vs2` and `vs1`.
    ArithmeticVv {
        op: ArithmeticVvOp,
        vd: VReg,
        vs2: VReg,
        vs1: VReg,
        vm: bool,
    },
    /// An operation on the elements of `vs2` and the low bits of `rs1`.
    ArithmeticVx {
        op: ArithmeticVxOp,
        vd: VReg,
        vs2: VReg,
        rs1: Reg,
        vm: bool,
    },
    /// An operation on the elements of `vs2` and a signed immediate.
    ArithmeticVi {
        op: ArithmeticViOp,
        vd: VReg,
        vs2: VReg,
        imm: Imm5,
        vm: bool,
    },
    /// A shift of the elements of `vs2` by an amount in the word.
    ShiftVi {
        op: ShiftViOp,
        vd: VReg,
        vs2: VReg,
        amount: ShiftAmount,
        vm: bool,
    },
    /// A comparison of the elements of `vs2` and `vs1`, with one bit of `vd` for each.
    CompareVv {
        op: CompareVvOp,
        vd: VReg,
        vs2: VReg,
        vs1: VReg,
        vm: bool,
    },
    /// A comparison of the elements of `vs2` and the low bits of `rs1`.
    CompareVx {
        op: CompareVxOp,
        vd: VReg,
        vs2: VReg,
        rs1: Reg,
        vm: bool,
    },
    /// A comparison of the elements of `vs2` and a signed immediate.
    CompareVi {
        op: CompareViOp,
        vd: VReg,
        vs2: VReg,
        imm: Imm5,
        vm: bool,
    },
    /// A multiplication or division of the elements of `vs2` by those of `vs1`.
    MultiplyVv {
        op: MultiplyOp,
        vd: VReg,
        vs2: VReg,
        vs1: VReg,
        vm: bool,
    },
    /// A multiplication or division of the elements of `vs2` by the low bits of `rs1`.
    MultiplyVx {
        op: MultiplyOp,
        vd: VReg,
        vs2: VReg,
        rs1: Reg,
        vm: bool,
    },
    /// A reduction of element 0 of `vs1` and the active elements of `vs2` to element 0 of `vd`.
    Reduce {
        op: ReductionOp,
        vd: VReg,
        vs2: VReg,
        vs1: VReg,
        vm: bool,
    },
    /// `vmerge.vvm vd,vs2,vs1,v0`: elements of `vs1` where v0 has a 1, else of `vs2`.
    MergeVv {
        vd: VReg,
        vs2: VReg,
        vs1: VReg,
    },
    /// `vmerge.vxm vd,vs2,rs1,v0`: the low bits of `rs1` where v0 has a 1, else elements of `vs2`.
    MergeVx {
        vd: VReg,
        vs2: VReg,
        rs1: Reg,
    },
    /// `vmerge.vim vd,vs2,imm,v0`: the immediate where v0 has a 1, else elements of `vs2`.
    MergeVi {
        vd: VReg,
        vs2: VReg,
        imm: Imm5,
    },
    /// `vmv.v.v vd,vs1`: the elements of `vs1`.
    MoveVv {
        vd: VReg,
        vs1: VReg,
    },
    /// `vmv.v.x vd,rs1`: the low bits of `rs1` in each element.
    MoveVx {
        vd: VReg,
        rs1: Reg,
    },
    /// `vmv.v.i vd,imm`: the immediate in each element.
    MoveVi {
        vd: VReg,
        imm: Imm5,
    },
    /// `vmv.x.s rd,vs2`: element 0 of `vs2`, its sign extended.
    MoveToScalar {
        rd: Reg,
        vs2: VReg,
    },
    /// `vmv.s.x vd,rs1`: the low bits of `rs1` in element 0.
    MoveFromScalar {
        vd: VReg,
        rs1: Reg,
    },
    /// `vid.v vd`: each element's number.
    ElementNumbers {
        vd: VReg,
        vm: bool,
    },
    /// `vzext.vf4 vd,vs2`: the bytes of `vs2`, each unsigned in an element of 32 bits.
    ExtendBytes {
        vd: VReg,
        vs2: VReg,
        vm: bool,
    },
    /// `vsetvli rd,rs1,vtype`: a configuration for as many elements as `rs1` asks for.
    Vsetvli {
        rd: Reg,
        rs1: Reg,
        vtype: Vtype11,
    },
    /// `vsetivli rd,length,vtype`: a configuration for as many elements as the word asks for.
    Vsetivli {
        rd: Reg,
        length: Length5,
        vtype: Vtype10,
    },
    /// `vsetvl rd,rs1,rs2`: a configuration whose vtype is in `rs2`.
    Vsetvl {
        rd: Reg,
        rs1: Reg,
        rs2: Reg,
    },
    /// A load of elements from `rs1` on.
    LoadElements {
        width: ElementWidth,
        vd: VReg,
        rs1: Reg,
        addressing: Addressing,
        vm: bool,
    },
    /// A store of the elements of `vs3` from `rs1` on.
    StoreElements {
        width: ElementWidth,
        vs3: VReg,
        rs1: Reg,
        addressing: Addressing,
        vm: bool,
    },
}

/// Where the elements of a vector load or store lie from `rs1` on.
#[derive(Clone, Copy)]
pub enum Addressing {
    /// One after the other.
    UnitStride,
    /// `rs2` bytes apart.
    Strided { rs2: Reg },
    /// At the offsets in `vs2`.
    Indexed { vs2: VReg },
}

impl Addressing {
    /// The mode, without its register.
    pub fn mode(self) -> AddressMode
        ensures { result ≡ mode_of self }
    {
        match self {
            Addressing::UnitStride => AddressMode::UnitStride,
            Addressing::Strided { .. } => AddressMode::Strided,
            Addressing::Indexed { .. } => AddressMode::Indexed,
        }
    }
}
