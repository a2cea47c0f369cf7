//! What the definitions of the grammar and of reading come to. The functions do nothing: their contracts
//! are the laws.

ghost use Rattle.std.specs.Prelude.{◌≡◌, List, Option, Some, false};
ghost use Rattle.halide_parser_syntax.specs.declared.tokens.Token.{Token};
ghost use Rattle.halide_parser_syntax.specs.declared.lines.AlgorithmLine.{AlgorithmLine};
ghost use Rattle.halide_parser_syntax.specs.inner.Algebra.{Algebra, writing};
ghost use Rattle.halide_parser_syntax.specs.Grammar.{Written, IsRight, spell, is_open};
ghost use Rattle.halide_parser_syntax.specs.inner.Machine.{expression, is_operator};
ghost use Rattle.halide_parser_syntax.specs.LineGrammar.{FollowsGrammar};
ghost use Rattle.halide_parser_syntax.specs.inner.LineReading.{read_line, with_made, line_of};

/// What is made of the tokens of a line is what is made of the line that is written there.
pub fn lines_are_made<V>()
    ensures { (alg : Algebra V) (tokens : List Token) → read_line alg tokens
        ≡ with_made alg (read_line writing tokens) }
{}

/// What is read at the front is an expression of the grammar, and its tokens stand there.
pub fn expressions_are_written()
    ensures { (tokens : List Token) (w : Written) (rest : List Token) → expression writing tokens ≡ Some (w, rest)
        → IsRight w × (tokens ≡ spell w rest) }
{}

/// An expression of the grammar is read whole, where neither an operator nor a bracket is after it.
pub fn expressions_are_read()
    ensures { (w : Written) (rest : List Token) → IsRight w → is_open rest ≡ false → is_operator rest ≡ false
        → expression writing (spell w rest) ≡ Some (w, rest) }
{}

/// The line that is read of tokens is the line of the grammar that they spell: each line of the grammar is read
/// as itself, and of no other tokens a line is read.
pub fn lines_follow_the_grammar()
    ensures { FollowsGrammar line_of }
{}

/// There is one way to read lines that follows the grammar, so no tokens spell two lines.
pub fn readings_agree()
    ensures { (read other : List Token → Option (AlgorithmLine Written)) → FollowsGrammar read → FollowsGrammar other
        → (tokens : List Token) → read tokens ≡ other tokens }
{}
