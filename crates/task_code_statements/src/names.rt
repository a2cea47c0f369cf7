//! Names: registers that hold the values of expressions which stay the same while a loop runs.

ghost use Rattle.std.specs.Prelude.{◌≡◌, IfOk, IfSome, true};
ghost use Rattle.task_code_registers.specs.Scopes.{IsLeft};
ghost use Rattle.task_code_vector_loops.specs.Naming.{is_name};
ghost use Rattle.task_code_statements.specs.Naming.{KeepsValue, NamesIf};

use crate::contexts::{Context, is_bounded, with_value};
use crate::plain::name;
use loop_ir::expressions::{Counter, Expr};
use std::alloc::Global;
use task_code_loops::tests::variable;
use task_code_names::copies::is_load_free;
use task_code_registers::numbers::emit_plus;
use task_code_registers::scopes::{Held, free_register, with_held};
use task_code_scalar::layouts::Places;
use task_code_scalar::{CodeFault, append};
use task_code_values::sites::Site;
use task_code_values::stores::emit_value;
use task_code_vector_loops::terms::mentions;

/// How many names are tried.
const TRIED: usize = 64;

/// How far names go.
#[derive(Clone, Copy)]
pub struct Limits {
    /// How many there are at most.
    pub names: usize,
    /// How many registers they leave.
    pub registers: usize,
}

/// What registers hold after code that gives names their values, and what is known there.
#[derive(Debug)]
pub struct Naming {
    pub scope: Vec<Held>,
    pub context: Context,
}

impl Drop for Naming {
    fn drop(self) {
        let Naming { scope, context } = self;
        drop(scope);
        drop(context);
    }
}

/// Code that leaves an expression's value in a register, if it is made of forms that registers hold.
fn kept_words(
    alloc: Global,
    places: &Places,
    scope: &[Held],
    e: &Expr,
    register: u8,
) -> Result<Option<Vec<u32>>, CodeFault>
    requires { IsLeft scope.now register }
    ensures { IfOk result (λ found. IfSome found (λ words. KeepsValue places.now scope.now register e.now
        words.items)) }
{
    let mut words = Vec::new(alloc);
    match emit_value(alloc, &mut words, places, scope, e) {
        Ok(s) => {
            emit_plus(&mut words, register, s, 0)?;
            Ok(Some(words))
        }
        Err(CodeFault::OutOfMemory(error)) => Err(CodeFault::OutOfMemory(error)),
        Err(_) => Ok(None),
    }
}

/// A name that no held form has, and of which nothing is known.
pub fn free_name(context: &Context, scope: &[Held]) -> Counter
    ensures { is_name result ≡ true }
{
    let first = context.names.len();
    for number in first..first.saturating_add(TRIED) {
        let own = name(number);
        if !mentions(scope, own) && !is_bounded(context.bounds.as_slice(), own) {
            return own;
        }
    }
    name(first)
}

/// Appends code that gives a new name to an expression, if there is a register for it.
pub fn emit_name(
    alloc: Global,
    code: &mut Vec<u32>,
    site: &Site<'_>,
    context: &Context,
    e: &Expr,
    limits: Limits,
) -> Result<Option<Naming>, CodeFault>
    ensures { IfOk result (NamesIf code.old.items code.new.items site.now.places.now site.now.scope.now context.now) }
{
    let counter = free_name(context, site.scope);
    if context.names.len() >= limits.names || !is_load_free(e) || mentions(site.scope, counter) {
        return Ok(None);
    }
    let Some(context) = with_value(alloc, context, counter, e)? else {
        return Ok(None);
    };
    let Some(register) = free_register(site.scope, limits.registers) else {
        return Ok(None);
    };
    let Some(words) = kept_words(alloc, site.places, site.scope, e, register)? else {
        return Ok(None);
    };
    append(code, words.as_slice())?;
    let form = variable(alloc, counter)?;
    let scope = with_held(alloc, site.scope, register, &form)?;
    Ok(Some(Naming { scope, context }))
}

/// Appends code that gives names to expressions, as far as limits go.
///
/// # Errors
///
/// Memory ran out.
pub fn emit_names(
    alloc: Global,
    code: &mut Vec<u32>,
    site: &Site<'_>,
    context: &Context,
    all: &[Expr],
    limits: Limits,
) -> Result<Option<Naming>, CodeFault>
    ensures { IfOk result (NamesIf code.old.items code.new.items site.now.places.now site.now.scope.now context.now) }
{
    match all {
        [] => Ok(None),
        [first, others @ ..] => match emit_name(alloc, code, site, context, first, limits)? {
            None => {
                let naming = emit_names(alloc, code, site, context, others, limits)?;
                Ok(naming)
            }
            Some(one) => {
                let inner = Site {
                    places: site.places,
                    scope: one.scope.as_slice(),
                };
                match emit_names(alloc, code, &inner, &one.context, others, limits)? {
                    None => Ok(Some(one)),
                    Some(more) => Ok(Some(more)),
                }
            }
        },
    }
}
