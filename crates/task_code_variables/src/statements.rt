//! The code of statements, with loop variables alone in registers.

ghost use Rattle.std.specs.Prelude.{◌≡◌, ◌≤◌, ◌+◌, ◌^◌, IfErr, OnOk, length, min};
ghost use Rattle.loop_ir.specs.Depths as depths;
ghost use Rattle.loop_ir.specs.declared.statements.Stmt.TheVariants as stmts;
ghost use Rattle.task_code_loops.specs.Beginning as beginning;
ghost use Rattle.task_code_loops.specs.Beginning.{HasNoRegister};
ghost use Rattle.task_code_loops.specs.Guarding.{GuardsWords};
ghost use Rattle.task_code_scalar.specs.Faults.{IsFault};
ghost use Rattle.task_code_variables.specs.Renaming.{HoldsAround};
ghost use Rattle.task_code_variables.specs.Statements.{AppendsLoop, AppendsStatement, IsLoopFault, IsStatementFault};

use crate::collecting::{VectorLoop, emit_collected, group_collected};
use crate::renaming::{numbered, renamed_store};
use crate::splits::enter_split;
use loop_ir::expressions::Counter;
use loop_ir::statements::{LoopKind, Stmt, Store, Whole};
use std::alloc::Global;
use task_code_loops::beginning::begin_loop;
use task_code_loops::bounds::Bound;
use task_code_loops::ending::end_loop;
use task_code_loops::guards::emit_guarded;
use task_code_loops::tests::variable;
use task_code_registers::scopes::Held;
use task_code_scalar::CodeFault;
use task_code_scalar::loops::with_counter;
use task_code_statements::stages::{Code, add_first, add_last, add_second, no_words_beside};
use task_code_values::sites::Site;
use task_code_values::stores::emit_store;

/// More loops than have registers.
const MANY: usize = 20;

/// How many loops stand around the innermost store of a statement, counted up to more than have registers.
#[tactic(auto, unfolding(loop_ir::specs::Depths::depth))]
pub(crate) fn depth(statement: &Stmt) -> usize
    ensures { result ≡ min (depths.depth statement.now) 20 }
{
    match statement {
        Stmt::Store(_) => 0,
        Stmt::Sequence(first, second) => {
            let one = depth(first.get());
            let other = depth(second.get());
            if one < other { other } else { one }
        }
        Stmt::For(_, _, _, body) => one_more(depth(body.get())),
        Stmt::Bind(_, _, _, body) => one_more(depth(body.get())),
    }
}

/// One more, up to more than have registers.
fn one_more(count: usize) -> usize
    requires { count ≤ 20 }
    ensures { result ≡ min (count + 1) 20 }
{
    if count < MANY { count + 1 } else { MANY }
}

/// Appends a store.
fn emit_numbered(
    alloc: Global,
    code: &mut Vec<u32>,
    site: &Site<'_>,
    around: &[Counter],
    store: &Store,
) -> Result<(), CodeFault>
    requires { HoldsAround around.now site.now.scope.now }
    ensures ok { OnOk result (AppendsStatement code.old.items code.new.items site.now.places.now site.now.scope.now
        around.now (stmts.Store store.now)) }
    ensures err { IfErr result (IsStatementFault site.now.places.now site.now.scope.now (stmts.Store store.now)) }
{
    let made = renamed_store(alloc, around, store)?;
    let emitted = emit_store(alloc, code, site.places, site.scope, &made);
    drop(made);
    emitted?;
    Ok(())
}

/// Appends a loop whose iterations come one after the other.
#[cycle(statements)]
fn emit_iterations(
    alloc: Global,
    code: &mut Code,
    site: &Site<'_>,
    around: &[Counter],
    bound: Bound,
    body: &Stmt,
) -> Result<(), CodeFault>
    requires { HoldsAround around.now site.now.scope.now }
    ensures ok { OnOk result (AppendsLoop code.old.words.items code.new.words.items site.now.places.now
        site.now.scope.now around.now bound.counter bound.count body.now) }
    ensures err { IfErr result (IsLoopFault site.now.places.now site.now.scope.now bound.counter bound.count body.now) }
{
    if bound.count == 0 {
        return Ok(());
    }
    let numbers = Bound {
        counter: numbered(around.len()),
        count: bound.count,
    };
    let begun = begin_loop(
        alloc,
        &mut code.words,
        site.scope,
        numbers,
        &[],
        depth(body),
    )?;
    let start = code.words.len();
    let within = Site {
        places: site.places,
        scope: begun.inner.as_slice(),
    };
    let inner = with_counter(alloc, around, bound.counter)?;
    emit_statement(alloc, code, &within, inner.as_slice(), body)?;
    end_loop(&mut code.words, &begun, start)?;
    Ok(())
}

/// Appends code that was made beside, under a test on a loop variable.
fn emit_tested(
    alloc: Global,
    code: &mut Code,
    scope: &[Held],
    counter: Counter,
    extent: u32,
    new_code: &Code,
) -> Result<(), CodeFault>
    ensures ok { OnOk result (GuardsWords code.old.words.items code.new.words.items scope.now
        (beginning.variable counter) extent new_code.now.words.items) }
    ensures err { IfErr result (IsFault (2 ^ 18 ≤ length new_code.now.words.items + 1)
        (HasNoRegister scope.now (beginning.variable counter))) }
{
    let form = variable(alloc, counter)?;
    let words = new_code.words.as_slice();
    emit_guarded(&mut code.words, scope, &form, extent, words)?;
    let found = new_code.stages.list.as_slice();
    let behind = code.words.len();
    add_last(&mut code.stages.list, found, words.len(), behind)?;
    Ok(())
}

/// A loop without its body: its variable, how many iterations it has, and of which kind it is.
#[derive(Clone, Copy, Debug)]
pub(crate) struct LoopHead {
    pub counter: Counter,
    pub count: u32,
    pub kind: LoopKind,
}

/// Appends a loop: its iterations collect their pixels where they are to store at once, else they come in order. A
/// vectorized loop that isn't of 4, 8 or 16 iterations of one store each is one that nothing asks for (`AtOnceIn`).
#[cycle(statements)]
fn emit_loop(
    alloc: Global,
    code: &mut Code,
    site: &Site<'_>,
    around: &[Counter],
    loop_head: LoopHead,
    body: &Stmt,
) -> Result<(), CodeFault>
    requires { HoldsAround around.now site.now.scope.now }
    ensures ok { OnOk result (AppendsStatement code.old.words.items code.new.words.items site.now.places.now
        site.now.scope.now around.now (stmts.For loop_head.counter loop_head.count loop_head.kind body.now)) }
    ensures err { IfErr result (IsStatementFault site.now.places.now site.now.scope.now
        (stmts.For loop_head.counter loop_head.count loop_head.kind body.now)) }
{
    let LoopHead {
        counter,
        count,
        kind,
    } = loop_head;
    match group_collected(count, kind, body) {
        None => {
            let numbers = Bound { counter, count };
            emit_iterations(alloc, code, site, around, numbers, body)?;
            Ok(())
        }
        Some(group) => {
            let collecting = VectorLoop {
                counter,
                group,
                body,
            };
            emit_collected(alloc, &mut code.words, site, around, &collecting)?;
            Ok(())
        }
    }
}

/// A loop variable that stands for a split loop, and the number below which its body is run.
#[derive(Clone, Copy, Debug)]
pub(crate) struct TestedSplit {
    pub counter: Counter,
    pub whole: Whole,
    pub extent: u32,
}

/// Appends the body of a split loop, under a test on its value.
#[cycle(statements)]
fn emit_split(
    alloc: Global,
    code: &mut Code,
    site: &Site<'_>,
    around: &[Counter],
    split: TestedSplit,
    body: &Stmt,
) -> Result<(), CodeFault>
    requires { HoldsAround around.now site.now.scope.now }
    ensures ok { OnOk result (AppendsStatement code.old.words.items code.new.words.items site.now.places.now
        site.now.scope.now around.now (stmts.Bind split.counter split.whole split.extent body.now)) }
    ensures err { IfErr result (IsStatementFault site.now.places.now site.now.scope.now
        (stmts.Bind split.counter split.whole split.extent body.now)) }
{
    let scope = enter_split(alloc, &mut code.words, site.scope, around, &split.whole)?;
    let within = Site {
        places: site.places,
        scope: scope.as_slice(),
    };
    let inner = with_counter(alloc, around, split.counter)?;
    let mut made = no_words_beside(alloc, code);
    emit_statement(alloc, &mut made, &within, inner.as_slice(), body)?;
    let counter = numbered(around.len());
    emit_tested(alloc, code, within.scope, counter, split.extent, &made)?;
    Ok(())
}

/// Appends the code of a statement, where registers hold the variables of the loops around it.
///
/// # Errors
///
/// Memory ran out, the statement asks for as many words as a text may have, or it doesn't fit
/// (`specs/Statements.antt`).
#[cycle(statements)]
pub(crate) fn emit_statement(
    alloc: Global,
    code: &mut Code,
    site: &Site<'_>,
    around: &[Counter],
    statement: &Stmt,
) -> Result<(), CodeFault>
    requires { HoldsAround around.now site.now.scope.now }
    ensures ok { OnOk result (AppendsStatement code.old.words.items code.new.words.items site.now.places.now
        site.now.scope.now around.now statement.now) }
    ensures err { IfErr result (IsStatementFault site.now.places.now site.now.scope.now statement.now) }
{
    match statement {
        Stmt::Store(store) => {
            emit_numbered(alloc, &mut code.words, site, around, store)?;
            Ok(())
        }
        Stmt::Sequence(first, second) => {
            let front = code.words.len();
            emit_statement(alloc, code, site, around, first.get())?;
            let middle = code.words.len();
            add_first(&mut code.stages, first, front, middle)?;
            emit_statement(alloc, code, site, around, second.get())?;
            let end = code.words.len();
            add_second(&mut code.stages, second, middle, end)?;
            Ok(())
        }
        Stmt::For(counter, count, kind, body) => {
            let own = LoopHead {
                counter: *counter,
                count: *count,
                kind: *kind,
            };
            emit_loop(alloc, code, site, around, own, body.get())?;
            Ok(())
        }
        Stmt::Bind(counter, whole, extent, body) => {
            let split = TestedSplit {
                counter: *counter,
                whole: *whole,
                extent: *extent,
            };
            emit_split(alloc, code, site, around, split, body.get())?;
            Ok(())
        }
    }
}
