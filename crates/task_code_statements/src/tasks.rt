//! The code of one task of a phase.

ghost use Rattle.std.specs.Prelude.{◌≡◌, ◌<◌, ◌+◌, ◌^◌, [], IfOk, IfSome, OnOk};
ghost use Rattle.task_code_scalar.specs.Words.{Emits};
ghost use Rattle.task_code_statements.specs.Drawing as spec;
ghost use Rattle.task_code_statements.specs.Drawing.{Begins, StaysMet};
ghost use Rattle.task_code_statements.specs.Starts.{AppendsStarted};
ghost use Rattle.task_code_statements.specs.Tasks.{AppendsTask, restored};

use crate::contexts::{Context, Holding, Manner, Parting, in_loop, nothing_known, with_number};
use crate::costs::{ANY, MUCH, is_faster, is_no_longer, is_worth_more};
use crate::mentions::mentioned_variables;
use crate::parting::{has_few_runs, has_test};
use crate::room::depth;
use crate::stages::{Code, CodeStage, add_moved, no_stages};
use crate::statements::emit_statement;
use loop_ir::expressions::{Counter, same_counter};
use loop_ir::statements::{Phase, Stmt};
use sqlite_items::Items;
use std::alloc::{AllocError, Global};
use task_code_borders::blindness::is_blind_statement;
use task_code_borders::parting::{PartedLoops, PartingScope, has_parts, parted};
use task_code_borders::spans::open_clamps;
use task_code_borders::variables::{is_border, number_of};
use task_code_loops::bounds::Bound;
use task_code_loops::tests::variable;
use task_code_registers::scopes::{Held, with_held};
use task_code_scalar::instructions::emit_literal;
use task_code_scalar::layouts::Places;
use task_code_scalar::{CodeFault, append};
use task_code_values::sites::Site;

/// Where the number of the task is that was drawn.
const DRAWN: u8 = 12;
/// Where the draw and the gate look for the address of the ticket, that of the gate, 1, and the number of tasks.
const TICKET: u8 = 13;

const GATE: u8 = 14;

const ONE: u8 = 15;

const TASKS: u8 = 16;

/// What registers hold where a task begins, and what is known of its loop variable.
#[derive(Debug, Drop)]
struct TaskStart {
    scope: Vec<Held>,
    context: Context,
}

/// A loop variable that is at the task's number, in the register where that is drawn.
///
/// # Errors
///
/// Memory ran out.
pub fn with_drawn(alloc: Global, counter: Counter) -> Result<Vec<Held>, AllocError>
    ensures { IfOk result (λ made. made.items ≡ spec.drawn counter) }
{
    let form = variable(alloc, counter)?;
    let made = with_held(alloc, &[], DRAWN, &form)?;
    Ok(made)
}

/// Whether a loop variable is the task's own.
fn is_own(loop_counter: Option<Counter>, counter: Counter) -> bool
    ensures { result ≡ spec.is_own loop_counter counter }
{
    match loop_counter {
        None => false,
        Some(loop_counter) => same_counter(counter, loop_counter),
    }
}

/// What is known where a loop variable, if it isn't the task's own, is at 0, or at its number if it has one.
fn with_start(
    alloc: Global,
    context: Context,
    loop_counter: Option<Counter>,
    counter: Counter,
) -> Result<Context, AllocError>
    ensures { IfOk result (StaysMet loop_counter context) }
{
    if is_own(loop_counter, counter) {
        return Ok(context);
    }
    if !is_border(counter) {
        let new_context = with_number(alloc, context, counter, 0)?;
        return Ok(new_context);
    }
    match number_of(counter) {
        None => Ok(context),
        Some(number) => {
            let new_context = with_number(alloc, context, counter, number)?;
            Ok(new_context)
        }
    }
}

/// What is known where each of these loop variables, but the task's own, is where it does before a task.
fn with_starts(
    alloc: Global,
    context: Context,
    counter: Option<Counter>,
    others: &[Counter],
) -> Result<Context, AllocError>
    ensures { IfOk result (StaysMet counter context) }
{
    match others {
        [] => Ok(context),
        [first, rest @ ..] => {
            let next = with_start(alloc, context, counter, *first)?;
            let new_context = with_starts(alloc, next, counter, rest)?;
            Ok(new_context)
        }
    }
}

/// What is so where one of this many tasks begins.
fn beginning(
    alloc: Global,
    counter: Option<Counter>,
    tasks: u32,
    manner: Manner,
) -> Result<TaskStart, CodeFault>
    ensures { IfOk result (λ made. Begins counter tasks made.scope.items made.context) }
{
    match counter {
        None => Ok(TaskStart {
            scope: Vec::new(alloc),
            context: nothing_known(alloc, manner),
        }),
        Some(counter) => {
            if is_border(counter) {
                return Err(CodeFault::TooDeep);
            }
            let scope = with_drawn(alloc, counter)?;
            let outside = nothing_known(alloc, manner);
            let own = Bound {
                counter,
                count: tasks,
            };
            let context = in_loop(alloc, &outside, own)?;
            Ok(TaskStart { scope, context })
        }
    }
}

/// Appends what leaves the numbers that the draw and the gate look for.
///
/// # Errors
///
/// Memory ran out.
pub fn emit_restored(code: &mut Vec<u32>, ticket: u32, tasks: u32) -> Result<(), AllocError>
    requires { ticket + 4 < 2 ^ 32 }
    ensures { OnOk result (Emits code.old.items code.new.items (restored ticket tasks) × (tasks < 2 ^ 32)) }
{
    emit_literal(code, TICKET, ticket)?;
    emit_literal(code, GATE, ticket + 4)?;
    emit_literal(code, ONE, 1)?;
    emit_literal(code, TASKS, tasks)?;
    Ok(())
}

/// Appends the code of one task of a phase, in which loops hold what they are to hold.
fn emit_words(
    alloc: Global,
    phase: &Phase,
    places: &Places,
    ticket: u32,
    manner: Manner,
    code: &mut Code,
) -> Result<(), CodeFault>
    requires { ticket + 4 < 2 ^ 32 }
    ensures { OnOk result (AppendsStarted code.old.words.items code.new.words.items phase.now places.now ticket) }
{
    let begun = beginning(alloc, phase.counter, phase.tasks, manner)?;
    let others = mentioned_variables(alloc, &phase.body)?;
    let context = with_starts(alloc, begun.context, phase.counter, others.as_slice())?;
    let site = Site {
        places,
        scope: begun.scope.as_slice(),
    };
    emit_statement(alloc, code, &site, &context, &phase.body)?;
    emit_restored(&mut code.words, ticket, phase.tasks)?;
    Ok(())
}

/// The words of one task of a phase, where there are some.
fn tried_words(
    alloc: Global,
    phase: &Phase,
    places: &Places,
    ticket: u32,
    manner: Manner,
) -> Result<Option<Code>, AllocError>
    requires { ticket + 4 < 2 ^ 32 }
    ensures { IfOk result (λ found. IfSome found (λ code. AppendsStarted [] code.words.items phase.now places.now
        ticket)) }
{
    let mut code = Code {
        words: Vec::new(alloc),
        stages: no_stages(alloc, &phase.body),
    };
    match emit_words(alloc, phase, places, ticket, manner, &mut code) {
        Ok(()) => Ok(Some(code)),
        Err(CodeFault::OutOfMemory(error)) => Err(error),
        Err(CodeFault::TooLong) => Ok(None),
        Err(CodeFault::TooDeep) => Ok(None),
    }
}

/// The words of one task of a phase made in this manner, where these are guessed to take fewer turns than others, by
/// one in this many, or else those.
fn faster_of(
    alloc: Global,
    phase: &Phase,
    places: &Places,
    ticket: u32,
    manner: Manner,
    others: Option<Code>,
    one_in: u64,
) -> Result<Option<Code>, AllocError>
    requires ticket { ticket + 4 < 2 ^ 32 }
    requires others { IfSome others (λ code. AppendsStarted [] code.words.items phase.now places.now ticket) }
    ensures { IfOk result (λ found. IfSome found (λ code. AppendsStarted [] code.words.items phase.now places.now
        ticket)) }
{
    let code = tried_words(alloc, phase, places, ticket, manner)?;
    if is_faster(alloc, &code, &others, one_in)? {
        return Ok(code);
    }
    Ok(others)
}

/// The words of one task of a phase whose loops hold their variables first, where there are some: those that are
/// guessed to take the fewest turns.
fn words_by_variables(
    alloc: Global,
    phase: &Phase,
    places: &Places,
    ticket: u32,
    parting: Parting,
) -> Result<Option<Code>, AllocError>
    requires { ticket + 4 < 2 ^ 32 }
    ensures { IfOk result (λ code. IfSome code (λ made. AppendsStarted [] made.words.items phase.now places.now
        ticket)) }
{
    let outer = Holding::OuterVariables.made(parting);
    let one = tried_words(alloc, phase, places, ticket, outer)?;
    let all = Holding::Variables.made(parting);
    let two = faster_of(alloc, phase, places, ticket, all, one, ANY)?;
    let plain = Holding::VariablesWithoutNames.made(parting);
    let three = faster_of(alloc, phase, places, ticket, plain, two, ANY)?;
    let alone = Holding::OuterVariablesAlone.made(parting);
    let code = faster_of(alloc, phase, places, ticket, alone, three, MUCH)?;
    Ok(code)
}

/// The words of one task of a phase, where there are some: those of pointers, or of variables where these don't fit, or
/// are guessed to take fewer turns under many loops.
fn words_of(
    alloc: Global,
    phase: &Phase,
    places: &Places,
    ticket: u32,
    parting: Parting,
) -> Result<Option<Code>, AllocError>
    requires { ticket + 4 < 2 ^ 32 }
    ensures { IfOk result (λ found. IfSome found (λ made. AppendsStarted [] made.words.items phase.now places.now
        ticket)) }
{
    let pointers = tried_words(
        alloc,
        phase,
        places,
        ticket,
        Holding::Pointers.made(parting),
    )?;
    if !is_worth_more(alloc, depth(&phase.body), &pointers)? {
        return Ok(pointers);
    }
    let variables = words_by_variables(alloc, phase, places, ticket, parting)?;
    if is_faster(alloc, &variables, &pointers, ANY)? {
        return Ok(variables);
    }
    Ok(pointers)
}

/// The words of one task of a phase whose loops are made in parts, where there are some and they are no more than so
/// many, or else of one whose loops aren't. Rows are laid out where pointers suffice for that.
fn words_up_to(
    alloc: Global,
    phase: &Phase,
    places: &Places,
    ticket: u32,
    most: usize,
) -> Result<Option<Code>, AllocError>
    requires { ticket + 4 < 2 ^ 32 }
    ensures { IfOk result (λ code. IfSome code (λ made. AppendsStarted [] made.words.items phase.now places.now
        ticket)) }
{
    if has_few_runs(&phase.body) {
        let manner = Holding::Pointers.made(Parting::TestsAndRows);
        let rows = tried_words(alloc, phase, places, ticket, manner)?;
        let is_made_anew = is_worth_more(alloc, depth(&phase.body), &rows)?;
        if !is_made_anew && is_no_longer(&rows, most) {
            return Ok(rows);
        }
    }
    if has_test(&phase.body) {
        let parted = words_of(alloc, phase, places, ticket, Parting::Tests)?;
        if is_no_longer(&parted, most) {
            return Ok(parted);
        }
    }
    let code = words_of(alloc, phase, places, ticket, Parting::None)?;
    Ok(code)
}

/// A phase with another body, for the code of its tasks alone.
fn with_body(alloc: Global, phase: &Phase, body: Stmt) -> Phase
    ensures { result ≡ record {
      tasks = phase.now.tasks;
      counter = phase.now.counter;
      body = body;
      private = [];
      bytes = [];
    } }
{
    Phase {
        tasks: phase.tasks,
        counter: phase.counter,
        body,
        private: Items::new(alloc),
        bytes: Items::new(alloc),
    }
}

/// The words of one task of a phase, if its statement names no variables but those of stages, of this many if they may
/// be.
fn whole_words(
    alloc: Global,
    phase: &Phase,
    places: &Places,
    ticket: u32,
    most: usize,
) -> Result<Option<Code>, AllocError>
    requires { ticket + 4 < 2 ^ 32 }
    ensures { IfOk result (λ code. IfSome code (λ made. AppendsTask [] made.words.items phase.now places.now
        ticket)) }
{
    if !is_blind_statement(&phase.body) {
        return Ok(None);
    }
    let code = words_up_to(alloc, phase, places, ticket, most)?;
    Ok(code)
}

/// The words of one task of a phase whose loops are in parts where that decides clamps, if there are such parts.
fn parted_words(
    alloc: Global,
    phase: &Phase,
    places: &Places,
    ticket: u32,
    most: usize,
    reach: PartedLoops,
) -> Result<Option<Code>, AllocError>
    requires { ticket + 4 < 2 ^ 32 }
    ensures { IfOk result (λ code. IfSome code (λ made. AppendsTask [] made.words.items phase.now places.now
        ticket)) }
{
    let standing = PartingScope {
        spans: &[],
        reach,
        level: 0,
    };
    match parted(alloc, standing, &phase.body)? {
        None => Ok(None),
        Some(body) => {
            if !has_parts(&body) {
                return Ok(None);
            }
            let other = with_body(alloc, phase, body);
            let code = words_up_to(alloc, &other, places, ticket, most)?;
            Ok(code)
        }
    }
}

/// The first words of one task of a phase whose loops are in parts so far that are guessed to take fewer turns than
/// those whose loops aren't, and are this many at most, or else those.
fn first_better(
    alloc: Global,
    phase: &Phase,
    places: &Places,
    ticket: u32,
    most: usize,
    reaches: &[PartedLoops],
    whole: Option<Code>,
) -> Result<Option<Code>, AllocError>
    requires ticket { ticket + 4 < 2 ^ 32 }
    requires whole { IfSome whole (λ code. AppendsTask [] code.words.items phase.now places.now ticket) }
    ensures { IfOk result (λ new_code. IfSome new_code (λ code. AppendsTask [] code.words.items phase.now places.now
        ticket)) }
{
    match reaches {
        [] => Ok(whole),
        [reach, others @ ..] => {
            let code = parted_words(alloc, phase, places, ticket, most, *reach)?;
            if is_no_longer(&code, most) && is_faster(alloc, &code, &whole, ANY)? {
                return Ok(code);
            }
            let new_code = first_better(alloc, phase, places, ticket, most, others, whole)?;
            Ok(new_code)
        }
    }
}

/// The words of one task of a phase, where there are some: with loops in parts where clamps are decided by that.
fn best_words(
    alloc: Global,
    phase: &Phase,
    places: &Places,
    ticket: u32,
    most: usize,
) -> Result<Option<Code>, AllocError>
    requires { ticket + 4 < 2 ^ 32 }
    ensures { IfOk result (λ code. IfSome code (λ made. AppendsTask [] made.words.items phase.now places.now
        ticket)) }
{
    let whole = whole_words(alloc, phase, places, ticket, most)?;
    if open_clamps(alloc, &[], &phase.body)? == 0 {
        return Ok(whole);
    }
    let reaches = [PartedLoops::All, PartedLoops::Inner, PartedLoops::Innermost];
    let code = first_better(alloc, phase, places, ticket, most, &reaches, whole)?;
    Ok(code)
}

/// Appends the code of one task of a phase, with forms in the registers that loops and expressions leave: pointers
/// first, and where registers do not suffice for this, loop variables first, and last without names.
///
/// It also adds which of the words it takes for the code of stages inside the phase; no clause speaks of that.
///
/// It finds the task's number in x12 and the hart's in x10, and ends after its last word, with the addresses of the
/// ticket word and of the gate word after it in x13 and x14, 1 in x15 and the number of tasks in x16.
///
/// # Errors
///
/// Memory ran out, or there is no such code, which is answered as [`CodeFault::TooDeep`].
pub fn emit_task(
    alloc: Global,
    phase: &Phase,
    places: &Places,
    ticket: u32,
    code: &mut Vec<u32>,
    stages: &mut Vec<CodeStage>,
    most: usize,
) -> Result<(), CodeFault>
    requires { ticket + 4 < 2 ^ 32 }
    ensures { OnOk result (AppendsTask code.old.items code.new.items phase.now places.now ticket) }
{
    match best_words(alloc, phase, places, ticket, most)? {
        Some(made) => {
            let found = made.stages.list.as_slice();
            add_moved(stages, found, code.len())?;
            append(code, made.words.as_slice())?;
            Ok(())
        }
        None => Err(CodeFault::TooDeep),
    }
}
