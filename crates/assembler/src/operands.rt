//! What operands give in the slots of a form.

ghost use Rattle.std.specs.Prelude.{◌≡◌, ℤ, List, option_map};
ghost use Rattle.assembler_mnemonics.specs.Registers.{integer_letter, vector_letter};
ghost use Rattle.assembler_syntax.specs.declared.statements.Operand.TheVariants as operands;
ghost use Rattle.assembler.specs.Judging as spec;
ghost use Rattle.assembler.specs.Filling.{Fills, together as together_of};

use crate::faults::{AsmFault, both, unless};
use crate::labels::Label;
use crate::surveys::{Here, Survey};
use assembler_mnemonics::{Fields, Slot, integer_register, vector_register, vtype_named};
use assembler_syntax::{Operand, is_label};

/// A number, or the fault where it is out of bounds.
pub fn number_within(least: i64, greatest: i64, number: i64) -> Result<i64, AsmFault>
    ensures { result ≡ spec.number_within least greatest number }
{
    if least <= number && number <= greatest {
        Ok(number)
    } else {
        Err(AsmFault::Immediate)
    }
}

/// The number of the integer register that a word names.
pub fn integer_of(word: &[u8]) -> Result<i64, AsmFault>
    ensures { result ≡ spec.register_of integer_letter word.now }
{
    match integer_register(word) {
        Some(register) => Ok(i64::from(register.number())),
        None => Err(AsmFault::Register),
    }
}

/// The number of the vector register that a word names.
fn vector_of(word: &[u8]) -> Result<i64, AsmFault>
    ensures { result ≡ spec.register_of vector_letter word.now }
{
    match vector_register(word) {
        Some(register) => Ok(i64::from(register.number())),
        None => Err(AsmFault::Register),
    }
}

/// The label that a word names.
pub fn labelled(survey: &Survey, word: &[u8]) -> Result<Label, AsmFault>
    ensures { result ≡ spec.labelled survey.now word.now }
{
    if !is_label(word) {
        return Err(AsmFault::Syntax);
    }
    match survey.labels.get(word) {
        Some(label) => Ok(label),
        None => Err(AsmFault::UnknownLabel),
    }
}

/// The address that a word names as a label.
pub fn referenced(survey: &Survey, word: &[u8]) -> Result<u64, AsmFault>
    ensures { result ≡ spec.referenced survey.now word.now }
{
    Ok(labelled(survey, word)?.address)
}

/// Whether a distance in bytes is odd.
fn is_odd(bytes: i128) -> bool
    ensures { result ≡ spec.is_odd bytes }
{
    bytes.rem_euclid(2) != 0
}

/// Half-words that lie within reach.
fn reached(reach: i64, halves: i128) -> Option<i64>
    ensures { result ≡ spec.reached reach halves }
{
    let reach = i128::from(reach);
    if 0 - reach <= halves && halves <= reach - 1 {
        Some(halves as i64)
    } else {
        None
    }
}

/// A distance in bytes, as half-words; where it is odd it has this fault.
fn halves_of(reach: i64, odd: AsmFault, bytes: i128) -> Result<i64, AsmFault>
    ensures { result ≡ spec.halves_of reach odd bytes }
{
    if is_odd(bytes) {
        return Err(odd);
    }
    match reached(reach, bytes >> 1) {
        Some(halves) => Ok(halves),
        None => Err(AsmFault::Target),
    }
}

/// The half-words from a line to an address.
fn halves_to(here: Here, reach: i64, target: u64) -> Result<i64, AsmFault>
    ensures { result ≡ spec.halves_to here reach target }
{
    let from = i128::from(here.place.address());
    halves_of(reach, AsmFault::Target, i128::from(target) - from)
}

/// The half-words from a line to a label.
fn halves_to_label(survey: &Survey, here: Here, reach: i64, label: &[u8]) -> Result<i64, AsmFault>
    ensures { result ≡ spec.halves_to_label survey.now here reach label.now }
{
    halves_to(here, reach, referenced(survey, label)?)
}

/// Puts a number into a field, unless it has a fault.
fn put(fields: &mut Fields, field: usize, judged: Result<i64, AsmFault>) -> Result<(), AsmFault>
    ensures { Fills (spec.in_field field judged) result fields.old fields.new }
{
    let number = judged?;
    if field < fields.len() {
        fields.set(field, number);
    }
    Ok(())
}

/// Puts an offset and its base into their fields, or gives the least fault.
fn put_based(
    fields: &mut Fields,
    offset: usize,
    base: usize,
    number: i64,
    word: &[u8],
) -> Result<(), AsmFault>
    ensures { Fills (spec.based offset base number word.now) result fields.old fields.new }
{
    let (number, register) = both(number_within(-2048, 2047, number), integer_of(word))?;
    put(fields, offset, Ok(number))?;
    put(fields, base, Ok(register))
}

/// Puts what an operand gives in its slot into the fields.
#[tactic(auto, unfolding(crate::specs::Judging::given))]
fn fill_slot(
    survey: &Survey,
    here: Here,
    slot: Slot,
    operand: &Operand,
    fields: &mut Fields,
) -> Result<(), AsmFault>
    ensures { Fills (spec.given (record { survey = survey.now; here = here }) slot operand.now) result fields.old
        fields.new }
{
    match operand {
        Operand::Word(word) => fill_by_word(survey, here, slot, word.as_slice(), fields),
        Operand::Number(number) => fill_by_number(slot, *number, fields),
        Operand::Based(number, word) => match slot {
            Slot::Based { offset, base } => {
                put_based(fields, offset, base, *number, word.as_slice())
            }
            _ => Err(AsmFault::Syntax),
        },
        Operand::Bracketed(word) => match slot {
            Slot::Address(field) => put(fields, field, integer_of(word.as_slice())),
            _ => Err(AsmFault::Syntax),
        },
    }
}

/// Puts what a word gives in its slot into the fields.
#[tactic(auto, unfolding(crate::specs::Judging::given))]
fn fill_by_word(
    survey: &Survey,
    here: Here,
    slot: Slot,
    word: &[u8],
    fields: &mut Fields,
) -> Result<(), AsmFault>
    ensures { Fills (spec.given (record { survey = survey.now; here = here }) slot (operands.Word word.now)) result
        fields.old fields.new }
{
    match slot {
        Slot::Integer(field) => put(fields, field, integer_of(word)),
        Slot::Vector(field) => put(fields, field, vector_of(word)),
        Slot::MaskRegister => unless(AsmFault::Register, word == b"v0".as_slice()),
        Slot::Target { field, reach } => {
            put(fields, field, halves_to_label(survey, here, reach, word))
        }
        Slot::Mask(field) => put_mask(fields, field, word),
        _ => Err(AsmFault::Syntax),
    }
}

/// Puts what a number gives in its slot into the fields.
#[tactic(auto, unfolding(crate::specs::Judging::given))]
fn fill_by_number(slot: Slot, number: i64, fields: &mut Fields) -> Result<(), AsmFault>
    ensures { (context : spec.Context) → Fills (spec.given context slot (operands.Number number)) result fields.old
        fields.new }
{
    match slot {
        Slot::Number {
            field,
            least,
            greatest,
        } => put(fields, field, number_within(least, greatest, number)),
        Slot::Upper(field) => put(fields, field, number_within(0, 1_048_575, number)),
        Slot::Target { field, reach } => {
            let halves = halves_of(reach, AsmFault::Syntax, i128::from(number));
            put(fields, field, halves)
        }
        Slot::Configuration { field, greatest } => {
            put(fields, field, number_within(0, greatest, number))
        }
        _ => Err(AsmFault::Syntax),
    }
}

/// Clears the mask's field where the operand is the mask.
fn put_mask(fields: &mut Fields, field: usize, word: &[u8]) -> Result<(), AsmFault>
    ensures { Fills (spec.masked field word.now) result fields.old fields.new }
{
    unless(AsmFault::Syntax, word == b"v0.t".as_slice())?;
    put(fields, field, Ok(0))
}

/// A vtype by its names, as a number.
fn type_within(greatest: i64, vtype: Option<u32>) -> Result<i64, AsmFault>
    ensures { result ≡ spec.type_within greatest vtype }
{
    match vtype {
        Some(vtype) => number_within(0, greatest, i64::from(vtype)),
        None => Err(AsmFault::Syntax),
    }
}

/// Two judgements as one, with the least fault.
fn together(first: Result<(), AsmFault>, others: Result<(), AsmFault>) -> Result<(), AsmFault>
    ensures { result ≡ together_of first others }
{
    both(first, others)?;
    Ok(())
}

/// Nothing for a slot without an operand, if it is a mask and the last.
fn left_out(slot: Slot, slots: &[Slot]) -> Result<(), AsmFault>
    ensures { (fields : List ℤ) → Fills (spec.left_out slot slots.now) result fields fields }
{
    match slot {
        Slot::Mask(_) if slots.is_empty() => Ok(()),
        _ => Err(AsmFault::Syntax),
    }
}

/// The vtype that four names say, if the operands are four words.
fn four_names(operands: &[Operand]) -> Option<Option<u32>>
    ensures { result ≡ spec.four_names operands.now }
{
    match operands {
        [
            Operand::Word(width),
            Operand::Word(group),
            Operand::Word(tail),
            Operand::Word(mask),
        ] => Some(vtype_named(
            width.as_slice(),
            group.as_slice(),
            tail.as_slice(),
            mask.as_slice(),
        )),
        _ => None,
    }
}

/// The field of a vtype, and the vtype as a number, where four names stand in its slot.
fn named_at(slots: &[Slot], operands: &[Operand]) -> Option<(usize, Result<i64, AsmFault>)>
    ensures { spec.named_at slots.now operands.now ≡ option_map (λ x. spec.in_field x.0 x.1) result }
{
    match slots {
        [Slot::Configuration { field, greatest }] => match four_names(operands) {
            Some(vtype) => Some((*field, type_within(*greatest, vtype))),
            None => None,
        },
        _ => None,
    }
}

/// Puts what the operands give in the slots into the fields, or gives the least fault. A mask may be left out, and a
/// vtype may be four names.
#[tactic(auto, unfolding(crate::specs::Judging::given_all), using(crate::proofs::Filling::joins))]
pub fn fill(
    survey: &Survey,
    here: Here,
    slots: &[Slot],
    operands: &[Operand],
    fields: &mut Fields,
) -> Result<(), AsmFault>
    ensures { Fills (spec.given_all (record { survey = survey.now; here = here }) slots.now operands.now) result
        fields.old fields.new }
{
    let [slot, later_slots @ ..] = slots else {
        return unless(AsmFault::Syntax, operands.is_empty());
    };
    let [operand, later @ ..] = operands else {
        return left_out(*slot, later_slots);
    };
    if let Some((field, vtype)) = named_at(slots, operands) {
        return put(fields, field, vtype);
    }
    let first = fill_slot(survey, here, *slot, operand, fields);
    let others = fill(survey, here, later_slots, later, fields);
    together(first, others)
}
