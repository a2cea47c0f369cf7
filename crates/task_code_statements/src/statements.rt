//! The code of statements, with forms that registers hold.

ghost use Rattle.std.specs.Prelude.{◌≡◌, ◌≤◌, IfOk, OnOk, false};
ghost use Rattle.loop_ir.specs.declared.statements.Stmt.TheVariants as stmts;
ghost use Rattle.task_code_registers.specs.Holding as holding;
ghost use Rattle.task_code_loops.specs.Beginning.{Begins};
ghost use Rattle.task_code_loops.specs.Guarding.{GuardsWords};
ghost use Rattle.task_code_statements.specs.Contexts.{Meets};
ghost use Rattle.task_code_statements.specs.Making.{BeginsIterations, IsMadeStore};
ghost use Rattle.task_code_statements.specs.Statements.{EmitsLoop, EmitsStatement};

use crate::contexts::{Context, in_loop, with_sum};
use crate::guessing::Guess;
use crate::making::unclamped_store;
use crate::methods::{LoopMethod, method_of};
use crate::parting::{is_idle, loop_part};
use crate::plain::is_plain_store;
use crate::room::{depth, reserve, wanted_by, wanted_in};
use crate::splits::enter_split;
use crate::stages::{Code, add_first, add_last, add_second, no_words_beside};
use crate::starts::{emit_before, emit_start};
use crate::vectorizing::emit_vectorized;
use loop_ir::expressions::{Counter, Linear};
use loop_ir::statements::{Stmt, Store, Whole};
use std::alloc::{AllocError, Global};
use task_code_loops::beginning::{BegunLoop, begin_loop};
use task_code_loops::bounds::{Bound, is_below};
use task_code_loops::ending::end_loop;
use task_code_loops::guards::emit_guarded;
use task_code_names::renaming::renamed_store;
use task_code_registers::scopes::{AffineForm, Held};
use task_code_scalar::CodeFault;
use task_code_scalar::layouts::Places;
use task_code_values::sites::Site;
use task_code_values::stores::emit_store;
use task_code_vector_loops::terms::mentions;

/// How many words a text may have.
const MOST_WORDS: usize = 1 << 18;

/// A loop variable that stands for a split loop, and the number below which its body is run.
#[derive(Clone, Copy, Debug)]
pub struct SplitTest {
    pub counter: Counter,
    pub whole: Whole,
    pub extent: u32,
}

// ---- stores

/// A store by the loop variables that aren't known, without clamps that cut nothing off, and by names.
pub(crate) fn made_store(
    alloc: Global,
    places: &Places,
    context: &Context,
    store: &Store,
) -> Result<Store, AllocError>
    ensures { IfOk result (IsMadeStore places.now context.now store.now) }
{
    let known = context.known.as_slice();
    let plain = unclamped_store(alloc, places, known, context.bounds.as_slice(), true, store)?;
    let named = renamed_store(alloc, context.names.as_slice(), plain)?;
    Ok(named)
}

/// Appends a store.
fn emit_known_store(
    alloc: Global,
    code: &mut Vec<u32>,
    site: &Site<'_>,
    context: &Context,
    store: &Store,
) -> Result<(), CodeFault>
    ensures { OnOk result (EmitsStatement code.old.items code.new.items site.now.places.now site.now.scope.now (Meets
        context.now)
        (stmts.Store store.now)) }
{
    if !is_plain_store(store) {
        return Err(CodeFault::TooDeep);
    }
    let made = made_store(alloc, site.places, context, store)?;
    let emitted = emit_store(alloc, code, site.places, site.scope, &made);
    drop(made);
    emitted?;
    Ok(())
}

// ---- loops

/// Appends what is in front of a loop whose variable no held form has.
fn begin(
    alloc: Global,
    code: &mut Vec<u32>,
    scope: &[Held],
    bound: Bound,
    wanted: &[AffineForm],
    reserved: usize,
) -> Result<BegunLoop, CodeFault>
    requires { 1 ≤ bound.count }
    ensures ok { IfOk result (Begins code.old.items code.new.items wanted.now bound.counter bound.count scope.now
        reserved) }
    ensures loop_invariant { OnOk result (holding.mentions bound.counter scope.now ≡ false) }
{
    if mentions(scope, bound.counter) || reserved >= 1 << 32 {
        return Err(CodeFault::TooDeep);
    }
    let begun = begin_loop(alloc, code, scope, bound, wanted, reserved)?;
    Ok(begun)
}

// ---- statements

/// A loop whose iterations come one after the other, and its body as its code is made, if that is guessed already.
#[derive(Clone, Copy, Debug)]
struct Iterations<'a> {
    own: Bound,
    body: &'a Stmt,
    guess: &'a [Guess],
}

/// Appends what is in front of a loop: forms that its body wants in registers.
fn begin_iterations(
    alloc: Global,
    code: &mut Vec<u32>,
    site: &Site<'_>,
    inner: &Context,
    iterations: &Iterations<'_>,
) -> Result<BegunLoop, CodeFault>
    requires { 1 ≤ iterations.now.own.count }
    ensures { IfOk result (BeginsIterations code.old.items code.new.items iterations.now.own site.now.scope.now) }
{
    let own = iterations.own;
    let wanted = match iterations.guess {
        [] => wanted_in(alloc, site.places, inner, own.counter, iterations.body)?,
        [guess, ..] => wanted_by(alloc, site.places, inner, own.counter, guess)?,
    };
    let reserved = reserve(site.scope, depth(iterations.body), inner.manner.holding);
    let begun = begin(alloc, code, site.scope, own, wanted.as_slice(), reserved)?;
    Ok(begun)
}

/// Appends a loop whose iterations come one after the other.
#[cycle(statements)]
fn emit_iterations(
    alloc: Global,
    code: &mut Code,
    site: &Site<'_>,
    context: &Context,
    iterations: &Iterations<'_>,
) -> Result<(), CodeFault>
    requires { 1 ≤ iterations.now.own.count }
    ensures { OnOk result (EmitsLoop code.old.words.items code.new.words.items site.now.places.now site.now.scope.now
        (Meets context.now)
        iterations.now.own.counter iterations.now.own.count iterations.now.body.now) }
{
    let inner = in_loop(alloc, context, iterations.own)?;
    let begun = begin_iterations(alloc, &mut code.words, site, &inner, iterations)?;
    let start = code.words.len();
    let within = Site {
        places: site.places,
        scope: begun.inner.as_slice(),
    };
    emit_statement(alloc, code, &within, &inner, iterations.body)?;
    end_loop(&mut code.words, &begun, start)?;
    Ok(())
}

/// Appends a loop, after what stays the same in its iterations.
#[cycle(statements)]
fn emit_loop(
    alloc: Global,
    code: &mut Code,
    site: &Site<'_>,
    context: &Context,
    bound: Bound,
    body: &Stmt,
) -> Result<(), CodeFault>
    ensures { OnOk result (EmitsLoop code.old.words.items code.new.words.items site.now.places.now site.now.scope.now
        (Meets context.now)
        bound.counter bound.count body.now) }
{
    if bound.count == 0 {
        return Ok(());
    }
    let before = emit_before(alloc, &mut code.words, site, context, bound, body)?;
    let guess = before.guess.as_slice();
    let iterations = Iterations {
        own: bound,
        body,
        guess,
    };
    match &before.naming {
        None => {
            emit_iterations(alloc, code, site, context, &iterations)?;
            Ok(())
        }
        Some(naming) => {
            let inner = Site {
                places: site.places,
                scope: naming.scope.as_slice(),
            };
            emit_iterations(alloc, code, &inner, &naming.context, &iterations)?;
            Ok(())
        }
    }
}

/// Appends the iterations of a loop, each with code of its own.
#[cycle(statements)]
fn emit_laid_out(
    alloc: Global,
    code: &mut Code,
    site: &Site<'_>,
    context: &Context,
    bound: Bound,
    body: &Stmt,
) -> Result<(), CodeFault>
    ensures { OnOk result (EmitsLoop code.old.words.items code.new.words.items site.now.places.now site.now.scope.now
        (Meets context.now)
        bound.counter bound.count body.now) }
{
    if mentions(site.scope, bound.counter) {
        return Err(CodeFault::TooDeep);
    }
    for iteration in 0..bound.count {
        if code.words.len() >= MOST_WORDS {
            return Err(CodeFault::TooLong);
        }
        let number = Linear::of_number(alloc, iteration);
        let inner = with_sum(alloc, context, bound.counter, &number)?;
        emit_unless_idle(alloc, code, site, &inner, body)?;
    }
    Ok(())
}

/// Appends a loop of one iteration, after what has names in it.
#[cycle(statements)]
fn emit_once(
    alloc: Global,
    code: &mut Code,
    site: &Site<'_>,
    context: &Context,
    bound: Bound,
    body: &Stmt,
) -> Result<(), CodeFault>
    ensures { OnOk result (EmitsLoop code.old.words.items code.new.words.items site.now.places.now site.now.scope.now
        (Meets context.now)
        bound.counter bound.count body.now) }
{
    let before = emit_before(alloc, &mut code.words, site, context, bound, body)?;
    match &before.naming {
        None => {
            emit_laid_out(alloc, code, site, context, bound, body)?;
            Ok(())
        }
        Some(naming) => {
            let inner = Site {
                places: site.places,
                scope: naming.scope.as_slice(),
            };
            emit_laid_out(alloc, code, &inner, &naming.context, bound, body)?;
            Ok(())
        }
    }
}

/// Appends a loop, in two parts where last iterations are other ones.
#[cycle(statements)]
fn emit_serial(
    alloc: Global,
    code: &mut Code,
    site: &Site<'_>,
    context: &Context,
    bound: Bound,
    body: &Stmt,
) -> Result<(), CodeFault>
    ensures { OnOk result (EmitsLoop code.old.words.items code.new.words.items site.now.places.now site.now.scope.now
        (Meets context.now)
        bound.counter bound.count body.now) }
{
    let first = loop_part(alloc, context, bound, body)?;
    if first < bound.count {
        emit_parted(alloc, code, site, context, bound, first, body)?;
        return Ok(());
    }
    emit_loop(alloc, code, site, context, bound, body)?;
    Ok(())
}

/// Appends a loop of this many first iterations, and those after them, each with code of its own.
#[cycle(statements)]
fn emit_parted(
    alloc: Global,
    code: &mut Code,
    site: &Site<'_>,
    context: &Context,
    bound: Bound,
    first: u32,
    body: &Stmt,
) -> Result<(), CodeFault>
    requires { first ≤ bound.count }
    ensures { OnOk result (EmitsLoop code.old.words.items code.new.words.items site.now.places.now site.now.scope.now
        (Meets context.now)
        bound.counter bound.count body.now) }
{
    let counter = bound.counter;
    if mentions(site.scope, counter) {
        return Err(CodeFault::TooDeep);
    }
    let others = Bound {
        counter,
        count: first,
    };
    emit_loop(alloc, code, site, context, others, body)?;
    for iteration in first..bound.count {
        if code.words.len() >= MOST_WORDS {
            return Err(CodeFault::TooLong);
        }
        let number = Linear::of_number(alloc, iteration);
        let inner = with_sum(alloc, context, counter, &number)?;
        emit_unless_idle(alloc, code, site, &inner, body)?;
    }
    Ok(())
}

/// Appends the code of a statement, which is none where it is known to do nothing.
#[cycle(statements)]
fn emit_unless_idle(
    alloc: Global,
    code: &mut Code,
    site: &Site<'_>,
    context: &Context,
    statement: &Stmt,
) -> Result<(), CodeFault>
    ensures { OnOk result (EmitsStatement code.old.words.items code.new.words.items site.now.places.now
        site.now.scope.now (Meets context.now) statement.now) }
{
    if context.manner.is_parted {
        if is_idle(alloc, context, statement)? {
            return Ok(());
        }
    }
    emit_statement(alloc, code, site, context, statement)?;
    Ok(())
}

/// Appends code that was made beside, under a test on a form.
fn emit_tested(
    code: &mut Code,
    scope: &[Held],
    form: &AffineForm,
    extent: u32,
    new_code: &Code,
) -> Result<(), CodeFault>
    ensures { OnOk result (GuardsWords code.old.words.items code.new.words.items scope.now form.now extent
        new_code.now.words.items) }
{
    let words = new_code.words.as_slice();
    emit_guarded(&mut code.words, scope, form, extent, words)?;
    let found = new_code.stages.list.as_slice();
    let behind = code.words.len();
    add_last(&mut code.stages.list, found, words.len(), behind)?;
    Ok(())
}

/// Appends the body of a split loop, after what gives a name to where its run begins, where that needs one.
#[cycle(statements)]
fn emit_split(
    alloc: Global,
    code: &mut Code,
    site: &Site<'_>,
    context: &Context,
    split: SplitTest,
    body: &Stmt,
) -> Result<(), CodeFault>
    ensures { OnOk result (EmitsStatement code.old.words.items code.new.words.items site.now.places.now
        site.now.scope.now (Meets context.now) (stmts.Bind split.counter split.whole split.extent body.now)) }
{
    match emit_start(alloc, &mut code.words, site, context, &split.whole)? {
        None => {
            emit_entered(alloc, code, site, context, split, body)?;
            Ok(())
        }
        Some(before) => {
            let inner = Site {
                places: site.places,
                scope: before.scope.as_slice(),
            };
            emit_entered(alloc, code, &inner, &before.context, split, body)?;
            Ok(())
        }
    }
}

/// Appends the body of a split loop, under a test on its value where it isn't known that it passes.
#[cycle(statements)]
fn emit_entered(
    alloc: Global,
    code: &mut Code,
    site: &Site<'_>,
    context: &Context,
    split: SplitTest,
    body: &Stmt,
) -> Result<(), CodeFault>
    ensures { OnOk result (EmitsStatement code.old.words.items code.new.words.items site.now.places.now
        site.now.scope.now (Meets context.now) (stmts.Bind split.counter split.whole split.extent body.now)) }
{
    if mentions(site.scope, split.counter) {
        return Err(CodeFault::TooDeep);
    }
    let entered = enter_split(alloc, context, split.counter, &split.whole)?;
    if is_below(&entered.form, context.bounds.as_slice(), split.extent) {
        emit_statement(alloc, code, site, &entered.inner, body)?;
        return Ok(());
    }
    let mut made = no_words_beside(alloc, code);
    emit_statement(alloc, &mut made, site, &entered.inner, body)?;
    emit_tested(code, site.scope, &entered.form, split.extent, &made)?;
    Ok(())
}

/// Appends the code of a statement, with forms in the registers that loops and expressions leave.
///
/// # Errors
///
/// Memory ran out, the code is too long, registers do not suffice for this way of making code, or
/// one loop variable stands for two loops.
#[cycle(statements)]
pub fn emit_statement(
    alloc: Global,
    code: &mut Code,
    site: &Site<'_>,
    context: &Context,
    statement: &Stmt,
) -> Result<(), CodeFault>
    ensures { OnOk result (EmitsStatement code.old.words.items code.new.words.items site.now.places.now
        site.now.scope.now (Meets context.now) statement.now) }
{
    match statement {
        Stmt::Store(store) => {
            emit_known_store(alloc, &mut code.words, site, context, store)?;
            Ok(())
        }
        Stmt::Sequence(first, second) => {
            let front = code.words.len();
            emit_statement(alloc, code, site, context, first.get())?;
            let middle = code.words.len();
            add_first(&mut code.stages, first, front, middle)?;
            emit_statement(alloc, code, site, context, second.get())?;
            let end = code.words.len();
            add_second(&mut code.stages, second, middle, end)?;
            Ok(())
        }
        Stmt::For(counter, count, kind, body) => {
            let own = Bound {
                counter: *counter,
                count: *count,
            };
            match method_of(*kind, *count) {
                LoopMethod::AtOnce => {
                    emit_vectorized(alloc, &mut code.words, site, context, own, body.get())?;
                }
                LoopMethod::Once => emit_once(alloc, code, site, context, own, body.get())?,
                LoopMethod::LaidOut => emit_laid_out(alloc, code, site, context, own, body.get())?,
                LoopMethod::InOrder => emit_serial(alloc, code, site, context, own, body.get())?,
            }
            Ok(())
        }
        Stmt::Bind(counter, whole, extent, body) => {
            let split = SplitTest {
                counter: *counter,
                whole: *whole,
                extent: *extent,
            };
            emit_split(alloc, code, site, context, split, body.get())?;
            Ok(())
        }
    }
}
