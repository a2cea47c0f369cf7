//! What mnemonics with their operands give.

ghost use Rattle.std.specs.Prelude.{◌≡◌, ◌+◌, ◌/◌, ◌%◌, ◌^◌, ◌≤◌, IsTrue};
ghost use Rattle.std.specs.Prelude.{unsigned_abs};
ghost use Rattle.memory.specs.Access.{is_text_word};
ghost use Rattle.rv_insn.specs.Encoding.{signed};
ghost use Rattle.loader.specs.Image.{most_pixels};
ghost use Rattle.assembler_mnemonics.specs.Registers.{integer_letter};
ghost use Rattle.assembler.specs.Judging as spec;
ghost use Rattle.assembler.specs.Products.{Performs, Makes};

use crate::faults::{AsmFault, both};
use crate::labels::Label;
use crate::locations::Section;
use crate::operands::{fill, labelled, number_within, referenced};
use crate::operations::LineOperation;
use crate::products::LineProduct;
use crate::surveys::{Here, Survey};
use assembler_mnemonics::{MnemonicForm, integer_register};
use assembler_syntax::Operand;
use loader::{MOST_PIXELS, Output};
use memory::{MOST_BYTES, TEXT_START};
use rv_encoding::encode;
use rv_insn::{AluImmOp, Imm12, Imm20, Insn, Reg};

/// The word of a form with its operands.
fn instruction(
    survey: &Survey,
    here: Here,
    form: MnemonicForm,
    operands: &[Operand],
) -> Result<LineProduct, AsmFault>
    ensures { Performs (spec.instruction (record { survey = survey.now; here = here }) form operands.now) result }
{
    let mut fields = form.blank();
    fill(survey, here, form.shape(), operands, &mut fields)?;
    Ok(LineProduct::Word(encode(&form.instruction(&fields))))
}

/// The integer register that a word names.
fn register_named(word: &[u8]) -> Result<Reg, AsmFault>
    ensures { result ≡ spec.register_named integer_letter word.now }
{
    match integer_register(word) {
        Some(register) => Ok(register),
        None => Err(AsmFault::Register),
    }
}

/// The upper 20 bits of a number, rounded so that the low 12 bits, signed, are what is left.
fn upper_part(number: u32) -> Imm20
    ensures { result ≡ (number + 0x800) / 4096 % 2 ^ 20 }
{
    let rounded = (u64::from(number) + 0x800) / 4096 % (1 << 20);
    Imm20::new(rounded as u32).unwrap()
}

/// The low 12 bits of a number, signed.
fn lower_part(number: u32) -> Imm12
    ensures { result ≡ signed 12 (number % 4096) }
{
    let low = (number % 4096) as i32;
    let signed = if low < 2048 { low } else { low - 4096 };
    Imm12::new(signed).unwrap()
}

/// LUI with the upper part of a number and ADDI with its lower part.
fn loaded(rd: Reg, number: u32) -> LineProduct
    ensures { Makes result (spec.loaded rd number) }
{
    let upper = Insn::Lui {
        rd,
        imm: upper_part(number),
    };
    let lower = Insn::AluImm {
        op: AluImmOp::Addi,
        rd,
        rs1: rd,
        imm: lower_part(number),
    };
    LineProduct::Words(encode(&upper), encode(&lower))
}

/// A number of 32 bits, signed or not, as a word.
fn word_number(number: i64) -> Result<u32, AsmFault>
    ensures { result ≡ spec.word_number number }
{
    let number = number_within(-2_147_483_648, 4_294_967_295, number)?;
    if number >= 0 {
        Ok(number as u32)
    } else {
        Ok((number as i32).cast_unsigned())
    }
}

fn load_immediate(operands: &[Operand]) -> Result<LineProduct, AsmFault>
    ensures { Performs (spec.load_immediate operands.now) result }
{
    match operands {
        [Operand::Word(rd), Operand::Number(number)] => {
            let (rd, number) = both(register_named(rd.as_slice()), word_number(*number))?;
            Ok(loaded(rd, number))
        }
        _ => Err(AsmFault::Syntax),
    }
}

fn load_address(survey: &Survey, here: Here, operands: &[Operand]) -> Result<LineProduct, AsmFault>
    ensures { Performs (spec.load_address (record { survey = survey.now; here = here }) operands.now) result }
{
    match operands {
        [Operand::Word(rd), Operand::Word(label)] => {
            let address = referenced(survey, label.as_slice());
            let (rd, address) = both(register_named(rd.as_slice()), address)?;
            Ok(loaded(rd, (address % (1 << 32)) as u32))
        }
        _ => Err(AsmFault::Syntax),
    }
}

/// A word of text, or a number in data.
fn word_in(section: Section, number: u32) -> LineProduct
    ensures { Makes result (spec.word_in section number) }
{
    match section {
        Section::Text => LineProduct::Word(number),
        Section::Data => LineProduct::Number(number),
    }
}

fn word(survey: &Survey, here: Here, operands: &[Operand]) -> Result<LineProduct, AsmFault>
    ensures { Performs (spec.word (record { survey = survey.now; here = here }) operands.now) result }
{
    match operands {
        [Operand::Number(number)] => Ok(word_in(here.place.section, word_number(*number)?)),
        [Operand::Word(label)] => {
            let address = referenced(survey, label.as_slice())?;
            Ok(word_in(here.place.section, (address % (1 << 32)) as u32))
        }
        _ => Err(AsmFault::Syntax),
    }
}

fn space(section: Section, operands: &[Operand]) -> Result<LineProduct, AsmFault>
    ensures { Performs (spec.space section operands.now) result }
{
    if section == Section::Text {
        return Err(AsmFault::Syntax);
    }
    match operands {
        [Operand::Number(count)] => {
            if *count < 0 {
                return Err(AsmFault::Immediate);
            }
            if *count > MOST_BYTES as i64 {
                return Err(AsmFault::TooLarge);
            }
            Ok(LineProduct::Zeros(*count as u32))
        }
        _ => Err(AsmFault::Syntax),
    }
}

/// Whether a line is the first with its directive.
fn is_first(first: Option<u64>, line: u64) -> bool
    ensures { result ≡ spec.is_first first line }
{
    match first {
        None => true,
        Some(first) => first == line,
    }
}

/// Whether it is the address of a word, where text has this many words.
fn is_word_of_text(words: u64, address: u64) -> bool
    ensures { result ≡ is_text_word words address }
{
    address.is_multiple_of(4)
        && address >= u64::from(TEXT_START)
        && (address - u64::from(TEXT_START)) / 4 < words
}

/// The entry at a label.
fn entry_in(survey: &Survey, label: Label) -> Result<LineProduct, AsmFault>
    ensures { Performs (spec.entry_in survey.now label.section label.address) result }
{
    let address = label.address;
    match label.section {
        Section::Text => {
            if address >> 32 == 0 && is_word_of_text(survey.here.place.words, address) {
                Ok(LineProduct::Entry(address as u32))
            } else {
                Err(AsmFault::Target)
            }
        }
        Section::Data => Err(AsmFault::Target),
    }
}

/// The entry at the label of a name, if no line before has `.entry`.
fn entry_named(survey: &Survey, here: Here, label: &[u8]) -> Result<LineProduct, AsmFault>
    ensures { Performs (spec.entry_named (record { survey = survey.now; here = here }) label.now) result }
{
    if !is_first(survey.entry, here.line) {
        return Err(AsmFault::Syntax);
    }
    match labelled(survey, label) {
        Ok(label) => entry_in(survey, label),
        Err(fault) => Err(fault),
    }
}

fn entry(survey: &Survey, here: Here, operands: &[Operand]) -> Result<LineProduct, AsmFault>
    ensures { Performs (spec.entry (record { survey = survey.now; here = here }) here.place.section operands.now)
        result }
{
    match here.place.section {
        Section::Text => match operands {
            [Operand::Word(label)] => entry_named(survey, here, label.as_slice()),
            _ => Err(AsmFault::Syntax),
        },
        Section::Data => Err(AsmFault::Syntax),
    }
}

/// Whether an output may have this many rows, or this many pixels in a row.
fn is_extent(number: i64) -> bool
    ensures value { result ≡ spec.is_extent number }
    ensures small { IsTrue result → unsigned_abs number ≤ most_pixels }
{
    0 <= number && number <= MOST_PIXELS as i64
}

/// A picture of this many pixels a row and this many rows at an address, in data of this many bytes.
fn picture_at(bytes: u64, address: u32, width: u32, height: u32) -> Result<LineProduct, AsmFault>
    requires { width ≤ most_pixels }
    ensures { Performs (spec.picture_at bytes address width height) result }
{
    let picture = Output {
        address,
        width,
        height,
        stride: 4 * width,
    };
    if picture.lies_in(bytes as usize) {
        Ok(LineProduct::Output(picture))
    } else {
        Err(AsmFault::Target)
    }
}

/// The same at a label.
fn picture_of(bytes: u64, label: Label, width: i64, height: i64) -> Result<LineProduct, AsmFault>
    ensures { Performs (spec.picture_of bytes label.section label.address width height) result }
{
    match label.section {
        Section::Text => Err(AsmFault::Target),
        Section::Data => {
            if !is_extent(width) || !is_extent(height) || label.address >> 32 != 0 {
                return Err(AsmFault::Target);
            }
            let width = width.unsigned_abs() as u32;
            picture_at(
                bytes,
                label.address as u32,
                width,
                height.unsigned_abs() as u32,
            )
        }
    }
}

/// The picture at the label of a name, if no line before has `.output`.
fn output_named(
    survey: &Survey,
    here: Here,
    label: &[u8],
    extents: (i64, i64),
) -> Result<LineProduct, AsmFault>
    ensures { Performs (spec.output_named (record { survey = survey.now; here = here }) label.now extents.0 extents.1)
        result }
{
    if !is_first(survey.output, here.line) {
        return Err(AsmFault::Syntax);
    }
    match labelled(survey, label) {
        Ok(label) => picture_of(survey.here.place.bytes, label, extents.0, extents.1),
        Err(fault) => Err(fault),
    }
}

fn output(survey: &Survey, here: Here, operands: &[Operand]) -> Result<LineProduct, AsmFault>
    ensures { Performs (spec.output (record { survey = survey.now; here = here }) operands.now) result }
{
    match operands {
        [
            Operand::Word(label),
            Operand::Number(width),
            Operand::Number(height),
        ] => output_named(survey, here, label.as_slice(), (*width, *height)),
        _ => Err(AsmFault::Syntax),
    }
}

fn no_operands(operands: &[Operand]) -> Result<LineProduct, AsmFault>
    ensures { Performs (spec.no_operands operands.now) result }
{
    if operands.is_empty() {
        Ok(LineProduct::Nothing)
    } else {
        Err(AsmFault::Syntax)
    }
}

/// What an operation with its operands gives, or the least fault.
#[tactic(auto, unfolding(crate::specs::Judging::performed))]
pub fn perform(
    survey: &Survey,
    here: Here,
    operation: Option<LineOperation>,
    operands: &[Operand],
) -> Result<LineProduct, AsmFault>
    ensures { Performs (spec.performed (record { survey = survey.now; here = here }) operation operands.now) result }
{
    let Some(operation) = operation else {
        return Err(AsmFault::Mnemonic);
    };
    let section = here.place.section;
    match operation {
        LineOperation::Instruction(form) => match section {
            Section::Text => instruction(survey, here, form, operands),
            Section::Data => Err(AsmFault::Syntax),
        },
        LineOperation::LoadImmediate => match section {
            Section::Text => load_immediate(operands),
            Section::Data => Err(AsmFault::Syntax),
        },
        LineOperation::LoadAddress => match section {
            Section::Text => load_address(survey, here, operands),
            Section::Data => Err(AsmFault::Syntax),
        },
        LineOperation::TextSection | LineOperation::DataSection => no_operands(operands),
        LineOperation::Word => word(survey, here, operands),
        LineOperation::Space => space(section, operands),
        LineOperation::Entry => entry(survey, here, operands),
        LineOperation::Output => output(survey, here, operands),
    }
}
