//! Encoding of the vector instructions.

ghost use Rattle.std.specs.Prelude.{◌≡◌, ◌<◌, ◌^◌, ℕ, None, Some, IfSome, pos, [], ◌∷◌, ◌++◌};
ghost use Rattle.rv_insn.specs.Encoding.{bit_of};
ghost use Rattle.rv_insn.specs.Encoding.{offset_fields};
ghost use Rattle.rv_insn.specs.VectorTable.{vector_fields_of};
ghost use Rattle.rv_insn.specs.VectorTable.{opivi_type, merge_vi_type, move_vi_type, to_scalar_type, from_scalar_type};
ghost use Rattle.rv_insn.specs.VectorTable.{numbers_type, extend_type, vsetvli_type, vsetivli_type, vsetvl_type};
ghost use Rattle.rv_insn.specs.VectorTable.{unit_type};
ghost use Rattle.rv_encoding.specs.Formats.{Stands, vector_shape_of, registers_shape, merge_shape, move_shape};
ghost use Rattle.rv_encoding.specs.Formats.{offset_shape, access_shape, operands_in};

use crate::opcodes;
use crate::packing::{VectorFields, digits_5, pack_i, pack_r, pack_v};
use operation_keys::{
    arithmetic_vi_funct6, arithmetic_vv_funct6, arithmetic_vx_funct6, compare_vi_funct6,
    compare_vv_funct6, compare_vx_funct6, multiply_funct6, reduction_funct6, shift_vi_funct6,
    width_funct3,
};
use rv_insn::{Addressing, ElementWidth, Imm5, Length5, Reg, VReg, VectorInsn, Vtype10, Vtype11};

/// The field funct3 of each form.
const OPIVV: u32 = 0b000;

const OPMVV: u32 = 0b010;

const OPIVI: u32 = 0b011;

const OPIVX: u32 = 0b100;

const OPMVX: u32 = 0b110;

const CONFIGURATION: u32 = 0b111;

/// The fields funct6 of merges and moves, of the moves between a register and element 0, and of the
/// elements' numbers and of extended elements.
const MERGE: u32 = 0b01_0111;

const SCALAR_MOVE: u32 = 0b01_0000;

const NUMBERS: u32 = 0b01_0100;

const EXTENSION: u32 = 0b01_0010;

/// The addressing modes, in the place of funct6.
const UNIT: u32 = 0b00;

const INDEXED: u32 = 0b01;

const STRIDED: u32 = 0b10;

#[tactic(auto, using(crate::proofs::VectorFormats::registers_made), unfolding(crate::specs::Decoding::rd_of, crate::specs::Decoding::rs1_of, crate::specs::Decoding::rs2_of, crate::specs::Decoding::vector_immediate_of, crate::specs::Decoding::vtype10_of, crate::specs::Decoding::vtype11_of))]
fn registers_word(funct3: u32, funct6: u32, vd: VReg, vs2: VReg, third: u32, vm: bool) -> u32
    requires funct3 { funct3 < 2 ^ 3 }
    requires funct6 { funct6 < 2 ^ 6 }
    requires third { third < 2 ^ 5 }
    ensures { Stands result (registers_shape funct3 funct6) (pos vd ∷ pos vs2 ∷ pos third ∷ pos (bit_of vm) ∷ []) }
{
    pack_v(
        opcodes::OP_V,
        VectorFields {
            vd: vd.number() as u32,
            funct3,
            vs1: third,
            vs2: vs2.number() as u32,
            vm,
            funct6,
        },
    )
}

#[tactic(auto, using(crate::proofs::VectorFormats::immediate_made), unfolding(crate::specs::Decoding::rd_of, crate::specs::Decoding::rs1_of, crate::specs::Decoding::rs2_of, crate::specs::Decoding::vector_immediate_of, crate::specs::Decoding::vtype10_of, crate::specs::Decoding::vtype11_of))]
fn immediate_word(funct6: u32, vd: VReg, vs2: VReg, imm: Imm5, vm: bool) -> u32
    requires { funct6 < 2 ^ 6 }
    ensures { Stands result (opivi_type [] funct6) (pos vd ∷ pos vs2 ∷ imm ∷ pos (bit_of vm) ∷ []) }
{
    pack_v(
        opcodes::OP_V,
        VectorFields {
            vd: vd.number() as u32,
            funct3: OPIVI,
            vs1: digits_5(imm.value()),
            vs2: vs2.number() as u32,
            vm,
            funct6,
        },
    )
}

#[tactic(auto, using(crate::proofs::VectorFormats::merge_made), unfolding(crate::specs::Decoding::rd_of, crate::specs::Decoding::rs1_of, crate::specs::Decoding::rs2_of, crate::specs::Decoding::vector_immediate_of, crate::specs::Decoding::vtype10_of, crate::specs::Decoding::vtype11_of))]
fn merge_word(funct3: u32, vd: VReg, vs2: VReg, third: u32) -> u32
    requires funct3 { funct3 < 2 ^ 3 }
    requires third { third < 2 ^ 5 }
    ensures { Stands result (merge_shape funct3) (pos vd ∷ pos vs2 ∷ pos third ∷ []) }
{
    pack_v(
        opcodes::OP_V,
        VectorFields {
            vd: vd.number() as u32,
            funct3,
            vs1: third,
            vs2: vs2.number() as u32,
            vm: false,
            funct6: MERGE,
        },
    )
}

#[tactic(auto, using(crate::proofs::VectorFormats::merge_immediate_made), unfolding(crate::specs::Decoding::rd_of, crate::specs::Decoding::rs1_of, crate::specs::Decoding::rs2_of, crate::specs::Decoding::vector_immediate_of, crate::specs::Decoding::vtype10_of, crate::specs::Decoding::vtype11_of))]
fn merge_immediate_word(vd: VReg, vs2: VReg, imm: Imm5) -> u32
    ensures { Stands result (merge_vi_type []) (pos vd ∷ pos vs2 ∷ imm ∷ []) }
{
    pack_v(
        opcodes::OP_V,
        VectorFields {
            vd: vd.number() as u32,
            funct3: OPIVI,
            vs1: digits_5(imm.value()),
            vs2: vs2.number() as u32,
            vm: false,
            funct6: MERGE,
        },
    )
}

#[tactic(auto, using(crate::proofs::VectorFormats::move_made), unfolding(crate::specs::Decoding::rd_of, crate::specs::Decoding::rs1_of, crate::specs::Decoding::rs2_of, crate::specs::Decoding::vector_immediate_of, crate::specs::Decoding::vtype10_of, crate::specs::Decoding::vtype11_of))]
fn move_word(funct3: u32, vd: VReg, third: u32) -> u32
    requires funct3 { funct3 < 2 ^ 3 }
    requires third { third < 2 ^ 5 }
    ensures { Stands result (move_shape funct3) (pos vd ∷ pos third ∷ []) }
{
    pack_v(
        opcodes::OP_V,
        VectorFields {
            vd: vd.number() as u32,
            funct3,
            vs1: third,
            vs2: 0,
            vm: true,
            funct6: MERGE,
        },
    )
}

#[tactic(auto, using(crate::proofs::VectorFormats::move_immediate_made), unfolding(crate::specs::Decoding::rd_of, crate::specs::Decoding::rs1_of, crate::specs::Decoding::rs2_of, crate::specs::Decoding::vector_immediate_of, crate::specs::Decoding::vtype10_of, crate::specs::Decoding::vtype11_of))]
fn move_immediate_word(vd: VReg, imm: Imm5) -> u32
    ensures { Stands result (move_vi_type []) (pos vd ∷ imm ∷ []) }
{
    pack_v(
        opcodes::OP_V,
        VectorFields {
            vd: vd.number() as u32,
            funct3: OPIVI,
            vs1: digits_5(imm.value()),
            vs2: 0,
            vm: true,
            funct6: MERGE,
        },
    )
}

#[tactic(auto, using(crate::proofs::VectorFormats::to_scalar_made), unfolding(crate::specs::Decoding::rd_of, crate::specs::Decoding::rs1_of, crate::specs::Decoding::rs2_of, crate::specs::Decoding::vector_immediate_of, crate::specs::Decoding::vtype10_of, crate::specs::Decoding::vtype11_of))]
fn to_scalar_word(rd: Reg, vs2: VReg) -> u32
    ensures { Stands result (to_scalar_type []) (pos rd ∷ pos vs2 ∷ []) }
{
    pack_v(
        opcodes::OP_V,
        VectorFields {
            vd: rd.number() as u32,
            funct3: OPMVV,
            vs1: 0,
            vs2: vs2.number() as u32,
            vm: true,
            funct6: SCALAR_MOVE,
        },
    )
}

#[tactic(auto, using(crate::proofs::VectorFormats::from_scalar_made), unfolding(crate::specs::Decoding::rd_of, crate::specs::Decoding::rs1_of, crate::specs::Decoding::rs2_of, crate::specs::Decoding::vector_immediate_of, crate::specs::Decoding::vtype10_of, crate::specs::Decoding::vtype11_of))]
fn from_scalar_word(vd: VReg, rs1: Reg) -> u32
    ensures { Stands result (from_scalar_type []) (pos vd ∷ pos rs1 ∷ []) }
{
    pack_v(
        opcodes::OP_V,
        VectorFields {
            vd: vd.number() as u32,
            funct3: OPMVX,
            vs1: rs1.number() as u32,
            vs2: 0,
            vm: true,
            funct6: SCALAR_MOVE,
        },
    )
}

#[tactic(auto, using(crate::proofs::VectorFormats::numbers_made), unfolding(crate::specs::Decoding::rd_of, crate::specs::Decoding::rs1_of, crate::specs::Decoding::rs2_of, crate::specs::Decoding::vector_immediate_of, crate::specs::Decoding::vtype10_of, crate::specs::Decoding::vtype11_of))]
fn numbers_word(vd: VReg, vm: bool) -> u32
    ensures { Stands result (numbers_type []) (pos vd ∷ pos (bit_of vm) ∷ []) }
{
    pack_v(
        opcodes::OP_V,
        VectorFields {
            vd: vd.number() as u32,
            funct3: OPMVV,
            vs1: 0b1_0001,
            vs2: 0,
            vm,
            funct6: NUMBERS,
        },
    )
}

#[tactic(auto, using(crate::proofs::VectorFormats::extended_made), unfolding(crate::specs::Decoding::rd_of, crate::specs::Decoding::rs1_of, crate::specs::Decoding::rs2_of, crate::specs::Decoding::vector_immediate_of, crate::specs::Decoding::vtype10_of, crate::specs::Decoding::vtype11_of))]
fn extended_word(vd: VReg, vs2: VReg, vm: bool) -> u32
    ensures { Stands result (extend_type []) (pos vd ∷ pos vs2 ∷ pos (bit_of vm) ∷ []) }
{
    pack_v(
        opcodes::OP_V,
        VectorFields {
            vd: vd.number() as u32,
            funct3: OPMVV,
            vs1: 0b0_0100,
            vs2: vs2.number() as u32,
            vm,
            funct6: EXTENSION,
        },
    )
}

#[tactic(auto, using(crate::proofs::VectorFormats::vsetvli_made), unfolding(crate::specs::Decoding::rd_of, crate::specs::Decoding::rs1_of, crate::specs::Decoding::rs2_of, crate::specs::Decoding::vector_immediate_of, crate::specs::Decoding::vtype10_of, crate::specs::Decoding::vtype11_of))]
fn vsetvli_word(rd: Reg, rs1: Reg, vtype: Vtype11) -> u32
    ensures { Stands result (vsetvli_type []) (pos rd ∷ pos rs1 ∷ pos vtype ∷ []) }
{
    pack_i(
        opcodes::OP_V,
        rd.number() as u32,
        CONFIGURATION,
        rs1.number() as u32,
        vtype.value(),
    )
}

#[tactic(auto, using(crate::proofs::VectorFormats::vsetivli_made), unfolding(crate::specs::Decoding::rd_of, crate::specs::Decoding::rs1_of, crate::specs::Decoding::rs2_of, crate::specs::Decoding::vector_immediate_of, crate::specs::Decoding::vtype10_of, crate::specs::Decoding::vtype11_of))]
fn vsetivli_word(rd: Reg, length: Length5, vtype: Vtype10) -> u32
    ensures { Stands result (vsetivli_type []) (pos rd ∷ pos length ∷ pos vtype ∷ []) }
{
    pack_i(
        opcodes::OP_V,
        rd.number() as u32,
        CONFIGURATION,
        length.value(),
        vtype.value() + 0xc00,
    )
}

#[tactic(auto, using(crate::proofs::VectorFormats::vsetvl_made), unfolding(crate::specs::Decoding::rd_of, crate::specs::Decoding::rs1_of, crate::specs::Decoding::rs2_of, crate::specs::Decoding::vector_immediate_of, crate::specs::Decoding::vtype10_of, crate::specs::Decoding::vtype11_of))]
fn vsetvl_word(rd: Reg, rs1: Reg, rs2: Reg) -> u32
    ensures { Stands result (vsetvl_type []) (pos rd ∷ pos rs1 ∷ pos rs2 ∷ []) }
{
    pack_r(
        opcodes::OP_V,
        rd.number() as u32,
        CONFIGURATION,
        rs1.number() as u32,
        rs2.number() as u32,
        0b100_0000,
    )
}

/// What is in the word of a load or store beside its width and how its elements lie.
#[derive(Clone, Copy)]
struct Access {
    v: VReg,
    rs1: Reg,
    vm: bool,
}

#[tactic(auto, using(crate::proofs::VectorFormats::unit_made), unfolding(crate::specs::Decoding::rd_of, crate::specs::Decoding::rs1_of, crate::specs::Decoding::rs2_of, crate::specs::Decoding::vector_immediate_of, crate::specs::Decoding::vtype10_of, crate::specs::Decoding::vtype11_of))]
fn unit_word(opcode: u32, width: u32, own: Access) -> u32
    requires opcode { opcode < 2 ^ 7 }
    requires width { width < 2 ^ 3 }
    ensures { Stands result (unit_type [] opcode width) (pos own.v ∷ pos own.rs1 ∷ pos (bit_of own.vm) ∷ []) }
{
    pack_v(
        opcode,
        VectorFields {
            vd: own.v.number() as u32,
            funct3: width,
            vs1: own.rs1.number() as u32,
            vs2: 0,
            vm: own.vm,
            funct6: UNIT,
        },
    )
}

#[tactic(auto, using(crate::proofs::VectorFormats::offset_made), unfolding(crate::specs::Decoding::rd_of, crate::specs::Decoding::rs1_of, crate::specs::Decoding::rs2_of, crate::specs::Decoding::vector_immediate_of, crate::specs::Decoding::vtype10_of, crate::specs::Decoding::vtype11_of))]
fn offset_word(opcode: u32, width: u32, mode: u32, own: Access, offset: u32) -> u32
    requires opcode { opcode < 2 ^ 7 }
    requires width { width < 2 ^ 3 }
    requires mode { mode < 2 ^ 2 }
    requires offset { offset < 2 ^ 5 }
    ensures { Stands result (offset_shape opcode width mode) (pos own.v ∷ pos own.rs1 ∷ pos offset
        ∷ pos (bit_of own.vm) ∷ []) }
{
    pack_v(
        opcode,
        VectorFields {
            vd: own.v.number() as u32,
            funct3: width,
            vs1: own.rs1.number() as u32,
            vs2: offset,
            vm: own.vm,
            funct6: mode,
        },
    )
}

// The word of a vector load or store.
fn access_word(opcode: u32, width: ElementWidth, own: Access, addressing: Addressing) -> u32
    requires { opcode < 2 ^ 7 }
    ensures { Stands result (access_shape opcode width addressing) (pos own.v ∷ pos own.rs1
        ∷ (offset_fields addressing ++ (pos (bit_of own.vm) ∷ []))) }
{
    let width = width_funct3(width);
    match addressing {
        Addressing::UnitStride => unit_word(opcode, width, own),
        Addressing::Strided { rs2 } => {
            offset_word(opcode, width, STRIDED, own, rs2.number() as u32)
        }
        Addressing::Indexed { vs2 } => {
            offset_word(opcode, width, INDEXED, own, vs2.number() as u32)
        }
    }
}

// The word of a vector load.
fn load_elements_word(width: ElementWidth, own: Access, addressing: Addressing) -> u32
    ensures { Stands result (access_shape 0b0000111 width addressing) (pos own.v ∷ pos own.rs1
        ∷ (offset_fields addressing ++ (pos (bit_of own.vm) ∷ []))) }
{
    access_word(opcodes::LOAD_VECTOR, width, own, addressing)
}

// The word of a vector store.
fn store_elements_word(width: ElementWidth, own: Access, addressing: Addressing) -> u32
    ensures { Stands result (access_shape 0b0100111 width addressing) (pos own.v ∷ pos own.rs1
        ∷ (offset_fields addressing ++ (pos (bit_of own.vm) ∷ []))) }
{
    access_word(opcodes::STORE_VECTOR, width, own, addressing)
}

/// What is in the word of an operation on elements beside its third operand.
#[derive(Clone, Copy)]
struct Operands {
    vd: VReg,
    vs2: VReg,
    vm: bool,
}

/// Those of an operation on elements, or None where the instruction is another.
fn operands_of(insn: &VectorInsn) -> Option<Operands>
    ensures some { IfSome result (λ own. operands_in insn.now ≡ Some (own.vd, own.vs2, own.vm)) }
    ensures none { result ≡ None → operands_in insn.now ≡ None }
{
    match *insn {
        VectorInsn::ArithmeticVv { vd, vs2, vm, .. }
        | VectorInsn::ArithmeticVx { vd, vs2, vm, .. }
        | VectorInsn::ArithmeticVi { vd, vs2, vm, .. }
        | VectorInsn::ShiftVi { vd, vs2, vm, .. }
        | VectorInsn::CompareVv { vd, vs2, vm, .. }
        | VectorInsn::CompareVx { vd, vs2, vm, .. }
        | VectorInsn::CompareVi { vd, vs2, vm, .. }
        | VectorInsn::MultiplyVv { vd, vs2, vm, .. }
        | VectorInsn::MultiplyVx { vd, vs2, vm, .. }
        | VectorInsn::Reduce { vd, vs2, vm, .. } => Some(Operands { vd, vs2, vm }),
        _ => None,
    }
}

fn with_vector(funct3: u32, funct6: u32, own: Operands, vs1: VReg) -> u32
    requires funct3 { funct3 < 2 ^ 3 }
    requires funct6 { funct6 < 2 ^ 6 }
    ensures { Stands result (registers_shape funct3 funct6) (pos own.vd ∷ pos own.vs2 ∷ pos vs1 ∷ pos (bit_of own.vm)
        ∷ []) }
{
    registers_word(funct3, funct6, own.vd, own.vs2, vs1.number() as u32, own.vm)
}

fn with_scalar(funct3: u32, funct6: u32, own: Operands, rs1: Reg) -> u32
    requires funct3 { funct3 < 2 ^ 3 }
    requires funct6 { funct6 < 2 ^ 6 }
    ensures { Stands result (registers_shape funct3 funct6) (pos own.vd ∷ pos own.vs2 ∷ pos rs1 ∷ pos (bit_of own.vm)
        ∷ []) }
{
    registers_word(funct3, funct6, own.vd, own.vs2, rs1.number() as u32, own.vm)
}

fn with_immediate(funct6: u32, own: Operands, imm: Imm5) -> u32
    requires { funct6 < 2 ^ 6 }
    ensures { Stands result (opivi_type [] funct6) (pos own.vd ∷ pos own.vs2 ∷ imm ∷ pos (bit_of own.vm) ∷ []) }
{
    immediate_word(funct6, own.vd, own.vs2, imm, own.vm)
}

/// The word of an operation on elements.
fn operation_word(insn: &VectorInsn, own: Operands) -> u32
    requires { operands_in insn.now ≡ Some (own.vd, own.vs2, own.vm) }
    ensures { Stands result (vector_shape_of insn.now) (vector_fields_of insn.now) }
{
    match *insn {
        VectorInsn::ArithmeticVv { op, vs1, .. } => {
            with_vector(OPIVV, arithmetic_vv_funct6(op), own, vs1)
        }
        VectorInsn::ArithmeticVx { op, rs1, .. } => {
            with_scalar(OPIVX, arithmetic_vx_funct6(op), own, rs1)
        }
        VectorInsn::ArithmeticVi { op, imm, .. } => {
            with_immediate(arithmetic_vi_funct6(op), own, imm)
        }
        VectorInsn::ShiftVi { op, amount, .. } => registers_word(
            OPIVI,
            shift_vi_funct6(op),
            own.vd,
            own.vs2,
            amount.value() as u32,
            own.vm,
        ),
        VectorInsn::CompareVv { op, vs1, .. } => {
            with_vector(OPIVV, compare_vv_funct6(op), own, vs1)
        }
        VectorInsn::CompareVx { op, rs1, .. } => {
            with_scalar(OPIVX, compare_vx_funct6(op), own, rs1)
        }
        VectorInsn::CompareVi { op, imm, .. } => with_immediate(compare_vi_funct6(op), own, imm),
        VectorInsn::MultiplyVv { op, vs1, .. } => {
            with_vector(OPMVV, multiply_funct6(op), own, vs1)
        }
        VectorInsn::MultiplyVx { op, rs1, .. } => {
            with_scalar(OPMVX, multiply_funct6(op), own, rs1)
        }
        VectorInsn::Reduce { op, vs1, .. } => with_vector(OPMVV, reduction_funct6(op), own, vs1),
        _ => unreachable!(),
    }
}

/// The word of a vector instruction.
pub fn vector_word(insn: VectorInsn) -> u32
    ensures { Stands result (vector_shape_of insn) (vector_fields_of insn) }
{
    if let Some(own) = operands_of(&insn) {
        return operation_word(&insn, own);
    }
    match insn {
        VectorInsn::MergeVv { vd, vs2, vs1 } => merge_word(OPIVV, vd, vs2, vs1.number() as u32),
        VectorInsn::MergeVx { vd, vs2, rs1 } => merge_word(OPIVX, vd, vs2, rs1.number() as u32),
        VectorInsn::MergeVi { vd, vs2, imm } => merge_immediate_word(vd, vs2, imm),
        VectorInsn::MoveVv { vd, vs1 } => move_word(OPIVV, vd, vs1.number() as u32),
        VectorInsn::MoveVx { vd, rs1 } => move_word(OPIVX, vd, rs1.number() as u32),
        VectorInsn::MoveVi { vd, imm } => move_immediate_word(vd, imm),
        VectorInsn::MoveToScalar { rd, vs2 } => to_scalar_word(rd, vs2),
        VectorInsn::MoveFromScalar { vd, rs1 } => from_scalar_word(vd, rs1),
        VectorInsn::ElementNumbers { vd, vm } => numbers_word(vd, vm),
        VectorInsn::ExtendBytes { vd, vs2, vm } => extended_word(vd, vs2, vm),
        VectorInsn::Vsetvli { rd, rs1, vtype } => vsetvli_word(rd, rs1, vtype),
        VectorInsn::Vsetivli { rd, length, vtype } => vsetivli_word(rd, length, vtype),
        VectorInsn::Vsetvl { rd, rs1, rs2 } => vsetvl_word(rd, rs1, rs2),
        VectorInsn::LoadElements {
            width,
            vd,
            rs1,
            addressing,
            vm,
        } => load_elements_word(width, Access { v: vd, rs1, vm }, addressing),
        VectorInsn::StoreElements {
            width,
            vs3,
            rs1,
            addressing,
            vm,
        } => store_elements_word(width, Access { v: vs3, rs1, vm }, addressing),
        _ => unreachable!(),
    }
}
