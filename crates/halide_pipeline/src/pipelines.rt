//! A whole pipeline.

ghost use Rattle.std.specs.Prelude.{◌≡◌, slice_get};
ghost use Rattle.std.specs.Option.{option_copied};
ghost use Rattle.halide_pipeline.specs.Pipelines.{lookup};
ghost use Rattle.halide_pipeline.specs.WellFormed.{IsWellFormed};

use crate::definitions::{Func, Input, Output};
use crate::expressions::Source;
use crate::names::Names;
use sqlite_items::Items;
use std::marker::Model;

/// What an algorithm text names. Each pipeline is well-formed (`specs/WellFormed.antt`): a call goes to an
/// input or an earlier Func, the right side of an update may also call its own Func, and the limits hold.
/// A contract sees a pipeline as its parts (`specs/Pipelines.antt`).
pub struct Pipeline {
    names: Names,
    inputs: Items<Input>,
    funcs: Items<Func>,
    output: Output,
}

impl Model for Pipeline {
    ghost use Rattle.std.specs.Coded.{codes};
    ghost use Rattle.halide_pipeline.specs.contracts.expressions.Expr as e;
    ghost use Rattle.halide_pipeline.specs.Pipelines as parts;
    ghost use Rattle.halide_pipeline.specs.WellFormed.{IsWellFormed};

    ghost Value = { parts.Pipeline };

    ghost coded = { Prim.hlevel (codes, e.the_row.coded) };

    ghost view = { λ p. record { names = p.names; inputs = p.inputs; funcs = p.funcs; output = p.output } };

    ghost invariant = { λ p. IsWellFormed (record {
      names = p.names;
      inputs = p.inputs;
      funcs = p.funcs;
      output = p.output;
    }) };
}

impl Drop for Pipeline {
    fn drop(self) {
        let Pipeline {
            names,
            inputs,
            funcs,
            output: _,
        } = self;
        drop(names);
        drop(inputs);
        drop(funcs);
    }
}

impl Pipeline {
    /// A pipeline of these parts, which are well-formed: the names of the inputs and Funcs, the inputs, the
    /// Funcs in the order of the text, and the output.
    pub fn new(names: Names, inputs: Items<Input>, funcs: Items<Func>, output: Output) -> Pipeline
        requires { IsWellFormed (record { names = names; inputs = inputs; funcs = funcs; output = output }) }
        ensures { result ≡ record { names = names; inputs = inputs; funcs = funcs; output = output } }
    {
        Pipeline {
            names,
            inputs,
            funcs,
            output,
        }
    }

    /// The inputs, at most 4, in the order of the text.
    pub fn inputs(&self) -> &[Input]
        ensures value { result.now ≡ self.now.inputs }
        ensures rules { IsWellFormed self.now }
    {
        self.inputs.as_slice()
    }

    /// The Funcs, at most 12, in the order of the text.
    pub fn funcs(&self) -> &[Func]
        ensures value { result.now ≡ self.now.funcs }
        ensures rules { IsWellFormed self.now }
    {
        self.funcs.as_slice()
    }

    /// What is asked for.
    pub fn output(&self) -> Output
        ensures value { result ≡ self.now.output }
        ensures rules { IsWellFormed self.now }
    {
        self.output
    }

    /// The input at a place.
    pub fn input(&self, index: usize) -> Option<&Input>
        ensures { option_copied result ≡ slice_get self.now.inputs index }
    {
        self.inputs.get(index)
    }

    /// The Func at a place.
    pub fn func(&self, func_index: usize) -> Option<&Func>
        ensures { option_copied result ≡ slice_get self.now.funcs func_index }
    {
        self.funcs.get(func_index)
    }

    /// The input or Func with this name.
    pub fn source(&self, name: &[u8]) -> Option<Source>
        ensures { result ≡ lookup name.now self.now.names }
    {
        self.names.get(name)
    }
}
