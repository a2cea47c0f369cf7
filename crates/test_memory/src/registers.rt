//! Vector registers as lanes, and the vector unit.

use crate::comparing::same;
use lanes::{Lanes, active, mask_bit, mask_bits, write_mask_bits};
use rv_insn::{ArithmeticVvOp, ElementWidth, Reg, Trap, VReg, VectorInsn};
use std::process::Abort;
use vector_unit::{RequestedLength, Spacing, VectorState};

/// The first operands.
const A: [u32; 4] = [7, 0xffff_ffff, 5, 0x8000_0000];

/// The second operands.
const B: [u32; 4] = [2, 3, 0xffff_fffe, 1];

/// Four words as lanes.
fn lanes_of(words: [u32; 4]) -> Lanes<u32, 4> {
    let mut lanes = Lanes::splat(0);
    for index in 0..4 {
        lanes.set(index, words[index]);
    }
    lanes
}

/// Lanes hold these words.
fn check<R: Abort>(rt: &R, lanes: Lanes<u32, 4>, wanted: [u32; 4]) {
    for index in 0..4 {
        same(rt, &lanes.get(index), &wanted[index]);
    }
}

/// The calls of lanes, whose results are lanes.
pub fn check_operations<R: Abort>(rt: &R) {
    let (a, b) = (lanes_of(A), lanes_of(B));
    check(rt, a.add(&b), [9, 2, 3, 0x8000_0001]);
    check(rt, a.sub(&b), [5, 0xffff_fffc, 7, 0x7fff_ffff]);
    check(rt, a.min_unsigned(&b), [2, 3, 5, 1]);
    check(
        rt,
        a.min_signed(&b),
        [2, 0xffff_ffff, 0xffff_fffe, 0x8000_0000],
    );
    check(
        rt,
        a.max_unsigned(&b),
        [7, 0xffff_ffff, 0xffff_fffe, 0x8000_0000],
    );
    check(rt, a.max_signed(&b), [7, 3, 5, 1]);
    check(rt, a.and(&b), [2, 3, 4, 0]);
    check(rt, a.or(&b), [7, 0xffff_ffff, 0xffff_ffff, 0x8000_0001]);
    check(rt, a.xor(&b), [5, 0xffff_fffc, 0xffff_fffb, 0x8000_0001]);
    check(rt, a.shift_left(&b), [28, 0xffff_fff8, 0x4000_0000, 0]);
    check(
        rt,
        a.shift_right_logical(&b),
        [1, 0x1fff_ffff, 0, 0x4000_0000],
    );
    check(
        rt,
        a.shift_right_arithmetic(&b),
        [1, 0xffff_ffff, 0, 0xc000_0000],
    );
}

/// Products, quotients and remainders.
pub fn check_products<R: Abort>(rt: &R) {
    let (a, b) = (lanes_of(A), lanes_of(B));
    check(
        rt,
        a.multiply(&b),
        [14, 0xffff_fffd, 0xffff_fff6, 0x8000_0000],
    );
    check(rt, a.multiply_high_unsigned(&b), [0, 2, 4, 0]);
    check(
        rt,
        a.multiply_high_signed(&b),
        [0, 0xffff_ffff, 0xffff_ffff, 0xffff_ffff],
    );
    check(
        rt,
        a.multiply_high_signed_unsigned(&b),
        [0, 0xffff_ffff, 4, 0xffff_ffff],
    );
    check(rt, a.divide_unsigned(&b), [3, 0x5555_5555, 0, 0x8000_0000]);
    check(rt, a.divide_signed(&b), [3, 0, 0xffff_fffe, 0x8000_0000]);
    check(rt, a.remainder_unsigned(&b), [1, 0, 5, 0]);
    check(rt, a.remainder_signed(&b), [1, 0xffff_ffff, 1, 0]);
}

/// Comparisons, and what one word is made of.
pub fn check_comparisons<R: Abort>(rt: &R) {
    let (a, b) = (lanes_of(A), lanes_of(B));
    same(rt, &a.equal(&b), &[false, false, false, false]);
    same(rt, &a.not_equal(&b), &[true, true, true, true]);
    same(rt, &a.less_unsigned(&b), &[false, false, true, false]);
    same(rt, &a.less_signed(&b), &[false, true, false, true]);
    same(
        rt,
        &a.less_or_equal_unsigned(&b),
        &[false, false, true, false],
    );
    same(rt, &a.less_or_equal_signed(&b), &[false, true, false, true]);
    let active = [true, false, true, true];
    same(rt, &a.sum(9, &active), &0x8000_0015);
    same(rt, &a.least_unsigned(9, &active), &5);
    same(rt, &a.least_signed(9, &active), &0x8000_0000);
    same(rt, &a.greatest_unsigned(9, &active), &0x8000_0000);
    same(rt, &a.greatest_signed(9, &active), &9);
}

/// Lanes from registers and back, of each width.
pub fn check_registers<R: Abort>(rt: &R) {
    let bytes = [
        1, 0, 0, 0, 2, 0, 0, 0, 3, 0, 0, 0, 0xff, 0xff, 0xff, 0xff, //
    ];
    let words = Lanes::<u32, 4>::from_register(&bytes);
    same(rt, &words.to_register(), &bytes);
    check(rt, Lanes::indices(5), [5, 6, 7, 8]);
    check(rt, Lanes::from_bytes(&bytes, 8), [3, 0, 0, 0]);
    let old = lanes_of(A);
    check(
        rt,
        old.merge(&words, &[true, false, true, false]),
        [1, 0xffff_ffff, 3, 0x8000_0000],
    );
    check(
        rt,
        old.merge_active(&words, 0, 2, true, &bytes),
        [1, 2, 5, 0x8000_0000],
    );
    assert_eq!(rt;
        Lanes::<u8, 16>::splat(200).add(&Lanes::splat(100)).get(15),
        44
    );
    assert_eq!(rt;
        Lanes::<u16, 8>::splat(40_000)
            .add(&Lanes::splat(40_000))
            .get(7),
        14_464
    );
}

/// Bits of mask registers.
pub fn check_masks<R: Abort>(rt: &R) {
    let mut register = [0b0110; 16];
    assert!(rt; mask_bit(&register, 1) && !mask_bit(&register, 3));
    same(
        rt,
        &(mask_bits::<4>(0, &register)),
        &[false, true, true, false],
    );
    same(
        rt,
        &(active::<4>(0, 2, false, &register)),
        &[false, true, false, false],
    );
    write_mask_bits(
        &mut register,
        0,
        &[true, true, false, false],
        &[true, false, true, true],
    );
    same(
        rt,
        &(mask_bits::<4>(0, &register)),
        &[true, false, true, false],
    );
}

fn v<R: Abort>(rt: &R, number: u8) -> VReg {
    VReg::new(number).expect(rt, "a vector register")
}

/// v3 = v1 + v2.
fn sum<R: Abort>(rt: &R) -> VectorInsn {
    VectorInsn::ArithmeticVv {
        op: ArithmeticVvOp::Vadd,
        vd: v(rt, 3),
        vs2: v(rt, 2),
        vs1: v(rt, 1),
        vm: true,
    }
}

/// The vector unit with three words of 0x01010101 and of 0x03030303.
pub fn check_unit<R: Abort>(rt: &R) {
    let mut state = VectorState::new();
    assert!(rt; state.has_vill() && state.refuses(&sum(rt)));
    same(
        rt,
        &state.execute(&sum(rt), 0),
        &Err(Trap::IllegalInstruction),
    );
    let x5 = Reg::new(5).expect(rt, "a register");
    same(
        rt,
        &state.configure(0b010_000, RequestedLength::by(x5, x5, 3)),
        &Ok(3),
    );
    same(rt, &(state.vl(), state.vtype()), &(3, 0b010_000));
    state.set_register(v(rt, 1), [1; 16]);
    state.set_register(v(rt, 2), [3; 16]);
    same(rt, &state.execute(&sum(rt), 0), &Ok(None));
    let wanted = [4, 4, 4, 4, 4, 4, 4, 4, 4, 4, 4, 4, 0, 0, 0, 0];
    same(rt, &state.register(v(rt, 3)), &wanted);
    assert!(rt; !state.execute_on_words(&sum(rt)) || state.register(v(rt, 3)) == wanted);
    check_elements(rt, &state.duplicate());
    check_load(rt, &mut state);
}

/// Where the elements of a vector access lie, and which ones it has.
fn check_elements<R: Abort>(rt: &R, state: &VectorState) {
    assert!(rt; !state.has_vill());
    same(rt, &(state.count(), state.group()), &(4, 1));
    assert!(rt; matches!(state.width(), ElementWidth::Bits32));
    same(
        rt,
        &state.element(ElementWidth::Bits32, v(rt, 3), 2),
        &0x0404_0404,
    );
    assert!(rt; state.is_active(true, 2) && !state.is_active(true, 3) && !state.is_full(true));
    same(rt, &state.offset(Spacing::Strided(8), 3), &24);
    let addresses = state.addresses(Spacing::UnitStride(ElementWidth::Bits32), true, 16);
    same(rt, &addresses.as_slice(), &[16, 20, 24].as_slice());
    let numbers = state.active_numbers(ElementWidth::Bits8, v(rt, 1), true);
    same(rt, &numbers.as_slice(), &[1, 1, 1].as_slice());
}

/// Numbers are loaded into the active elements, and one is put.
fn check_load<R: Abort>(rt: &R, state: &mut VectorState) {
    assert!(rt; !state.has_vill());
    state.load(ElementWidth::Bits32, v(rt, 4), true, &[5, 6, 7]);
    state.put_element(ElementWidth::Bits32, v(rt, 4), 3, 8);
    for index in 0..4 {
        same(
            rt,
            &state.element(ElementWidth::Bits32, v(rt, 4), index),
            &(5 + index),
        );
    }
}
