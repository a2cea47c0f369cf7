//! Lanes at the corners of division, and sums of masked and of all elements: numbers as the tables of instructions give
//! them.

ghost use Rattle.std.specs.Prelude.{◌<◌};

use crate::comparing::same;
use rv_insn::{ArithmeticVvOp, MultiplyOp, ReductionOp, VReg, VectorInsn};
use std::process::Abort;
use std::test::Fail;
use vector_unit::{RequestedLength, VectorState};

/// What `vtype` says of elements of 8, 16 and 32 bits in single registers.
const E8: u32 = 0b000_000;

const E16: u32 = 0b001_000;

const E32: u32 = 0b010_000;

fn v(rt: &impl Abort, number: u8) -> VReg
    requires { number < 32 }
{
    VReg::new(number).expect(rt, "a vector register")
}

/// Four words as the bytes of a register.
fn words(lanes: [i32; 4]) -> [u8; 16] {
    let [a, b, c, d] = lanes;
    let [a0, a1, a2, a3] = a.to_le_bytes();
    let [b0, b1, b2, b3] = b.to_le_bytes();
    let [c0, c1, c2, c3] = c.to_le_bytes();
    let [d0, d1, d2, d3] = d.to_le_bytes();
    [
        a0, a1, a2, a3, b0, b1, b2, b3, c0, c1, c2, c3, d0, d1, d2, d3,
    ]
}

/// A state with this many elements of a kind, in which v1, v2 and v3 hold these bytes.
fn state_with(rt: &impl Abort, vtype: u32, count: u32, registers: [[u8; 16]; 3]) -> VectorState {
    let mut state = VectorState::new();
    same(
        rt,
        &state.configure(vtype, RequestedLength::AtMost(count)),
        &Ok(count),
    );
    let [first, second, third] = registers;
    state.set_register(v(rt, 1), first);
    state.set_register(v(rt, 2), second);
    state.set_register(v(rt, 3), third);
    state
}

/// What an operation on v2 and v1 leaves in v3.
fn operated(rt: &impl Abort, mut state: VectorState, op: MultiplyOp) -> [u8; 16] {
    let insn = VectorInsn::MultiplyVv {
        op,
        vd: v(rt, 3),
        vs2: v(rt, 2),
        vs1: v(rt, 1),
        vm: true,
    };
    same(rt, &state.execute(&insn, 0), &Ok(None));
    state.register(v(rt, 3))
}

#[test]
fn division_corners(rt: HostRuntime) -> Result<(), Fail> {
    let by = words([-1, 0, 2, -2]);
    let of = words([i32::MIN, 7, -7, 7]);
    let quotients = operated(
        &rt,
        state_with(&rt, E32, 4, [by, of, [0; 16]]),
        MultiplyOp::Vdiv,
    );
    same(&rt, &quotients, &words([i32::MIN, -1, -3, -3]));
    let remainders = operated(
        &rt,
        state_with(&rt, E32, 4, [by, of, [0; 16]]),
        MultiplyOp::Vrem,
    );
    same(&rt, &remainders, &words([0, 7, -1, 1]));
    Ok(())
}

/// The least number by -1 is itself, and leaves nothing, in elements of each width.
#[test]
fn the_least_number_by_minus_one(rt: HostRuntime) -> Result<(), Fail> {
    let least_bytes = [0x80; 16];
    let least_halves = [
        0, 0x80, 0, 0x80, 0, 0x80, 0, 0x80, 0, 0x80, 0, 0x80, 0, 0x80, 0, 0x80,
    ];
    let least_words = words([i32::MIN; 4]);
    for (vtype, count, least) in [
        (E8, 16, least_bytes),
        (E16, 8, least_halves),
        (E32, 4, least_words),
    ] {
        let before = [[0xff; 16], least, [9; 16]];
        let quotients = operated(&rt, state_with(&rt, vtype, count, before), MultiplyOp::Vdiv);
        same(&rt, &quotients, &least);
        let remainders = operated(&rt, state_with(&rt, vtype, count, before), MultiplyOp::Vrem);
        same(&rt, &remainders, &[0; 16]);
    }
    Ok(())
}

/// Of three elements the mask has the first and the last.
#[test]
fn masked_add(rt: HostRuntime) -> Result<(), Fail> {
    let before = [
        words([1, 1, 1, 1]),
        words([10, 20, 30, 40]),
        words([7, 7, 7, 7]),
    ];
    let mut state = state_with(&rt, E32, 3, before);
    let mut mask = [0; 16];
    mask[0] = 0b101;
    state.set_register(v(&rt, 0), mask);
    let sum = VectorInsn::ArithmeticVv {
        op: ArithmeticVvOp::Vadd,
        vd: v(&rt, 3),
        vs2: v(&rt, 2),
        vs1: v(&rt, 1),
        vm: false,
    };
    same(&rt, &state.execute(&sum, 0), &Ok(None));
    same(&rt, &state.register(v(&rt, 3)), &words([11, 7, 31, 7]));
    Ok(())
}

/// What a reduction of v2 from v1 leaves in v3.
fn reduced(rt: &impl Abort, count: u32, op: ReductionOp) -> [u8; 16] {
    let before = [
        words([100, 5, 5, 5]),
        words([1, 2, 3, 4]),
        words([7, 7, 7, 7]),
    ];
    let mut state = state_with(rt, E32, count, before);
    let insn = VectorInsn::Reduce {
        op,
        vd: v(rt, 3),
        vs2: v(rt, 2),
        vs1: v(rt, 1),
        vm: true,
    };
    same(rt, &state.execute(&insn, 0), &Ok(None));
    state.register(v(rt, 3))
}

/// Three elements and the first of v1 come to one number; no elements change nothing.
#[test]
fn reductions(rt: HostRuntime) -> Result<(), Fail> {
    same(
        &rt,
        &reduced(&rt, 3, ReductionOp::Vredsum),
        &words([106, 7, 7, 7]),
    );
    same(
        &rt,
        &reduced(&rt, 3, ReductionOp::Vredmin),
        &words([1, 7, 7, 7]),
    );
    same(
        &rt,
        &reduced(&rt, 3, ReductionOp::Vredmax),
        &words([100, 7, 7, 7]),
    );
    same(
        &rt,
        &reduced(&rt, 0, ReductionOp::Vredsum),
        &words([7, 7, 7, 7]),
    );
    Ok(())
}
