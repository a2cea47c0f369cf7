//! What instructions store: numbers of one width, by their addresses.

ghost use Rattle.std.specs.Prelude.{◌≡◌, ◌∷◌, [], IfSome, None, false};
ghost use Rattle.memory.specs.Access.{touched};
ghost use Rattle.vector_unit.specs.Accesses.{addresses_by, spacing_of};
ghost use Rattle.vector_unit.specs.Vector.{has_vill};
ghost use Rattle.hart_core.specs.Scalar.{store_size};
ghost use Rattle.hart_core.specs.HartState.{register, vectors_of};
ghost use Rattle.hart_core.specs.Scalar.{illegal_fault};
ghost use Rattle.hart_core.specs.VectorRows.{accesses_at, size_of};
ghost use Rattle.debugger_writes.specs.Stored.{is_store, is_vector, places_in, places_stored, store_in};
ghost use Rattle.rv_insn.specs.declared.instructions.Insn.TheVariants as insns;

use hart_core::Hart;
use rv_encoding::decode;
use rv_insn::{ElementWidth, Insn, StoreOp, VectorInsn};
use vector_unit::Numbers;

/// Numbers of one width that an instruction stores.
#[derive(Drop)]
pub enum Stored {
    Nothing,
    Number {
        address: u32,
        width: ElementWidth,
    },
    /// The active elements of vector registers.
    Elements {
        addresses: Numbers,
        width: ElementWidth,
    },
}

/// The instruction that a word means, if that stores.
pub fn store_of(word: u32) -> Option<Insn>
    ensures { result ≡ store_in word }
{
    match decode(word) {
        Some(insn) if is_store(&insn) => Some(insn),
        _ => None,
    }
}

/// Whether an instruction stores.
fn is_store(insn: &Insn) -> bool
    ensures { result ≡ is_store insn.now }
{
    match insn {
        Insn::Store { .. } | Insn::AmoaddW { .. } => true,
        Insn::Vector(VectorInsn::StoreElements { .. }) => true,
        _ => false,
    }
}

/// A number that an instruction stores.
#[derive(Clone, Copy, Debug)]
pub struct StoredNumber {
    pub address: u32,
    pub width: ElementWidth,
}

/// What an instruction stores that stores one number alone, where it is legal in the hart's state and makes no other
/// trap.
#[inline(always)]
pub fn number_stored(hart: &Hart, insn: &Insn) -> Option<StoredNumber>
    ensures one { IfSome result (λ number. illegal_fault insn.now hart.now ≡ None
        → touched (accesses_at number.width (number.address ∷ [])) ≡ places_stored insn.now hart.now) }
    ensures none { result ≡ None → is_vector insn.now ≡ false → places_stored insn.now hart.now ≡ [] }
{
    match insn {
        Insn::Store { op, rs1, imm, .. } => Some(StoredNumber {
            address: hart.address(*rs1, *imm),
            width: width_of(*op),
        }),
        Insn::AmoaddW { rs1, .. } => Some(StoredNumber {
            address: hart.register(*rs1),
            width: ElementWidth::Bits32,
        }),
        _ => None,
    }
}

/// What an instruction that is legal in the hart's state stores, where it makes no other trap.
pub fn numbers_stored(hart: &Hart, insn: &Insn) -> Stored
    ensures { illegal_fault insn.now hart.now ≡ None → places_in result ≡ places_stored insn.now hart.now }
{
    match insn {
        Insn::Vector(vector) => stored_elements(hart, vector),
        _ => match number_stored(hart, insn) {
            Some(StoredNumber { address, width }) => Stored::Number { address, width },
            None => Stored::Nothing,
        },
    }
}

/// The same of a vector instruction.
fn stored_elements(hart: &Hart, insn: &VectorInsn) -> Stored
    ensures { illegal_fault (insns.Vector insn.now) hart.now ≡ None → places_in result
        ≡ places_stored (insns.Vector insn.now) hart.now }
{
    match *insn {
        VectorInsn::StoreElements {
            width,
            rs1,
            addressing,
            vm,
            ..
        } => {
            if hart.vectors().has_vill() {
                return Stored::Nothing;
            }
            let spacing = hart.spacing(width, addressing);
            let addresses = hart.addresses(spacing, vm, rs1);
            Stored::Elements { addresses, width }
        }
        _ => Stored::Nothing,
    }
}

/// How wide a store's number is.
fn width_of(op: StoreOp) -> ElementWidth
    ensures { size_of result ≡ store_size op }
{
    match op {
        StoreOp::Sb => ElementWidth::Bits8,
        StoreOp::Sh => ElementWidth::Bits16,
        StoreOp::Sw => ElementWidth::Bits32,
    }
}
