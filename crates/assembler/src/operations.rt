//! What mnemonics name.

ghost use Rattle.std.specs.Prelude.{◌≡◌};
ghost use Rattle.assembler.specs.Places as spec;

use crate::locations::{LineLocation, Section};
use assembler_mnemonics::MnemonicForm;
use assembler_syntax::Head;

/// What a mnemonic or a directive asks for.
#[derive(Clone, Copy)]
pub enum LineOperation {
    /// A row of the instruction table.
    Instruction(MnemonicForm),
    /// `li`
    LoadImmediate,
    /// `la`
    LoadAddress,
    /// `.text`
    TextSection,
    /// `.data`
    DataSection,
    /// `.word`
    Word,
    /// `.space`
    Space,
    /// `.entry`
    Entry,
    /// `.output`
    Output,
}

impl LineOperation {
    /// What a mnemonic or directive names.
    #[tactic(auto, unfolding(crate::specs::Places::operation_named))]
    pub fn named(name: &[u8]) -> Option<LineOperation>
        ensures { result ≡ spec.operation_named name.now }
    {
        if name == b"li".as_slice() {
            Some(LineOperation::LoadImmediate)
        } else if name == b"la".as_slice() {
            Some(LineOperation::LoadAddress)
        } else if name == b".text".as_slice() {
            Some(LineOperation::TextSection)
        } else if name == b".data".as_slice() {
            Some(LineOperation::DataSection)
        } else if name == b".word".as_slice() {
            Some(LineOperation::Word)
        } else if name == b".space".as_slice() {
            Some(LineOperation::Space)
        } else if name == b".entry".as_slice() {
            Some(LineOperation::Entry)
        } else if name == b".output".as_slice() {
            Some(LineOperation::Output)
        } else {
            MnemonicForm::named(name).map(LineOperation::Instruction)
        }
    }

    /// The operation of a line's front, if it has one.
    pub fn of(head: &Head) -> Option<LineOperation>
        ensures { result ≡ spec.named_operation head.now.mnemonic }
    {
        match &head.mnemonic {
            Some(mnemonic) => LineOperation::named(mnemonic.as_slice()),
            None => None,
        }
    }

    /// The place after the operation at a place, whatever its operands are worth; the number is the only operand, if
    /// it is one.
    pub fn after(self, place: LineLocation, number: Option<i64>) -> LineLocation
        ensures { result ≡ spec.after_operation place number (Some self) }
    {
        match self {
            LineOperation::Instruction(_) => place.after_words(1),
            LineOperation::LoadImmediate | LineOperation::LoadAddress => place.after_words(2),
            LineOperation::TextSection => place.within(Section::Text),
            LineOperation::DataSection => place.within(Section::Data),
            LineOperation::Word => place.after_word(),
            LineOperation::Space => place.after_space(number),
            LineOperation::Entry | LineOperation::Output => place,
        }
    }
}
