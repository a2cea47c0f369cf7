//! Laws of the table, each the contract of a function that does nothing: its caller learns the law.

ghost use Rattle.std.specs.Prelude.{◌≡◌, ◌<◌, ℕ, ℤ, ◌↔◌, List, length, Some, true};
ghost use Rattle.rv_insn.specs.Table.{name_of, fields_of, Means};
ghost use Rattle.rv_insn.specs.declared.instructions.Insn.{Insn};
ghost use Rattle.assembler_mnemonics.specs.declared.forms.MnemonicForm.{MnemonicForm};
ghost use Rattle.assembler_mnemonics.specs.Forms.{form_of, mnemonic, row_name, IsWord};
ghost use Rattle.assembler_mnemonics.specs.Named.{form_named};
ghost use Rattle.assembler_mnemonics.specs.Slots.{shape, blank, FitsSlots, Keeps};
ghost use Rattle.assembler_mnemonics.specs.Placing.{placed, AllGive};
ghost use Rattle.assembler_mnemonics.specs.Registers.{register_number, register_text};
ghost use Rattle.assembler_mnemonics.specs.Configuration.{width_names, group_names, tail_names, mask_names, width_code};
ghost use Rattle.assembler_mnemonics.specs.Configuration.{group_code, tail_code, mask_code, has_names, vtype_named};
ghost use Rattle.assembler_mnemonics.specs.Configuration.{name_at};

/// A law: each form is found by its mnemonic, and by nothing else.
pub fn mnemonics_tell_apart()
    ensures found { (form : MnemonicForm) → form_named (mnemonic form) ≡ Some form }
    ensures alone { (name : List ℕ) (form : MnemonicForm) → form_named name ≡ Some form → mnemonic form ≡ name }
{}

/// A law: an instruction's name in the instruction table is that of its form.
pub fn names_agree()
    ensures { (insn : Insn) → name_of insn ≡ row_name (form_of insn) }
{}

/// A law: a word means an instruction exactly where it is the word of its form with its fields.
pub fn means_is_word()
    ensures { (word : ℕ) (insn : Insn) → (Means word insn ↔ IsWord word (form_of insn) (fields_of insn)) }
{}

/// A law: two instructions of one form with the same fields are one.
pub fn told_apart()
    ensures { (first second : Insn) → form_of first ≡ form_of second → fields_of first ≡ fields_of second
        → first ≡ second }
{}

/// A law: blank fields that a form's operands filled are fields of the form.
pub fn operands_fill()
    ensures count { (form : MnemonicForm) (pairs : List (ℕ × ℤ)) → AllGive (shape form) pairs
        → length (placed (blank form) pairs) ≡ length (blank form) }
    ensures fits { (form : MnemonicForm) (pairs : List (ℕ × ℤ)) → AllGive (shape form) pairs
        → FitsSlots (placed (blank form) pairs) (shape form) }
    ensures kept { (form : MnemonicForm) (pairs : List (ℕ × ℤ)) → AllGive (shape form) pairs
        → Keeps form (placed (blank form) pairs) }
{}

/// A law: what is written for a register names it.
pub fn registers_read_back()
    ensures { (letter number : ℕ) → number < 32 → register_number letter (register_text letter number) ≡ Some number }
{}

/// A law: the four names of a vtype that has names give it back.
pub fn vtypes_read_back()
    ensures { (vtype : ℕ) → has_names vtype ≡ true
        → vtype_named (name_at width_names (width_code vtype)) (name_at group_names (group_code vtype))
        (name_at tail_names (tail_code vtype)) (name_at mask_names (mask_code vtype)) ≡ Some vtype }
{}

/// A law: the fields of an instruction are as many as its form has, and keep the form's bits; where a
/// word means it, they are numbers that the form's operands can give.
pub fn fields_fit()
    ensures count { (insn : Insn) → length (fields_of insn) ≡ length (blank (form_of insn)) }
    ensures kept { (insn : Insn) → Keeps (form_of insn) (fields_of insn) }
    ensures fits { (word : ℕ) (insn : Insn) → Means word insn → FitsSlots (fields_of insn) (shape (form_of insn)) }
{}
