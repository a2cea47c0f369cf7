//! Laws of the instruction table, each the contract of a function that does nothing: its caller
//! learns the law.

ghost use Rattle.std.specs.Prelude.{◌≡◌, ◌≢◌, ℕ, ◌^◌, ◌<◌, ◌↔◌, Some, AllPairs};
ghost use Rattle.rv_insn.specs.Encoding.{Holds, Row};
ghost use Rattle.rv_insn.specs.Table.{table};
ghost use Rattle.rv_insn.specs.Table.{Means};
ghost use Rattle.rv_insn.specs.declared.instructions.Insn.{Insn};
ghost use Rattle.rv_encoding.specs.Decoding.{decoded};

/// A law: a word means at most one instruction.
pub fn one_meaning()
    ensures { (word : ℕ) (i j : Insn) → word < 2 ^ 32 → Means word i → Means word j → i ≡ j }
{}

/// A law: `decoded`, over which the machine's turn is defined, is the table's meaning.
pub fn decoded_is_meant()
    ensures { (word : ℕ) (insn : Insn) → word < 2 ^ 32 → ((decoded word ≡ Some insn) ↔ Means word insn) }
{}

/// A law: no two rows of the table have the same name.
pub fn names_are_distinct()
    ensures { AllPairs (λ (first second : Row). first.name ≢ second.name) table }
{}

/// A law: no word fits two rows of the table.
pub fn rows_are_apart()
    ensures { (word : ℕ) → AllPairs (λ (first second : Row). Holds word first.pairs → Holds word second.pairs
        → ⊥) table }
{}
