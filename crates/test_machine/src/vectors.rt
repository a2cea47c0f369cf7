//! A vector state that is set and read.

use crate::comparing::same;
use rv_insn::{Addressing, ArithmeticVvOp, ElementWidth, Reg, Trap, VReg, VectorInsn};
use std::process::Abort;
use std::test::Fail;
use vector_unit::{RequestedLength, VectorState};

fn v(rt: &impl Abort, number: u8) -> VReg {
    VReg::new(number).expect(rt, "a vector register")
}

/// Two elements of 32 bits are added, and the others stay. A load is none of the unit's own, and changes nothing.
#[test]
fn sets_and_executes(rt: HostRuntime) -> Result<(), Fail> {
    let mut state = VectorState::new();
    assert!(rt; state.has_vill());
    same(
        &rt,
        &state.configure(0b010_000, RequestedLength::AtMost(2)),
        &Ok(2),
    );
    state.set_register(v(&rt, 1), [1; 16]);
    state.set_register(v(&rt, 2), [3; 16]);
    state.set_register(v(&rt, 3), [9; 16]);
    let sum = VectorInsn::ArithmeticVv {
        op: ArithmeticVvOp::Vadd,
        vd: v(&rt, 3),
        vs2: v(&rt, 2),
        vs1: v(&rt, 1),
        vm: true,
    };
    same(&rt, &state.execute(&sum, 0), &Ok(None));
    let wanted = [4, 4, 4, 4, 4, 4, 4, 4, 9, 9, 9, 9, 9, 9, 9, 9];
    same(&rt, &state.register(v(&rt, 3)), &wanted);
    let load = VectorInsn::LoadElements {
        width: ElementWidth::Bits32,
        vd: v(&rt, 3),
        rs1: Reg::new(5).expect(&rt, "an integer register"),
        addressing: Addressing::UnitStride,
        vm: true,
    };
    same(
        &rt,
        &state.execute(&load, 0),
        &Err(Trap::IllegalInstruction),
    );
    same(&rt, &state.register(v(&rt, 3)), &wanted);
    same(&rt, &(state.vl(), state.vtype()), &(2, 0b010_000));
    Ok(())
}
