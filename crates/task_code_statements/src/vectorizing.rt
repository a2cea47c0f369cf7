//! Vectorized loops, whose iterations store all at once.

ghost use Rattle.std.specs.Prelude.{◌≡◌, IfOk, OnOk, true};
ghost use Rattle.loop_ir.specs.declared.statements.LoopKind.TheVariants.{Vectorized as vectorized};
ghost use Rattle.loop_ir.specs.declared.statements.Stmt.TheVariants as stmts;
ghost use Rattle.task_code_names.specs.Alike.{IsAlikeStore};
ghost use Rattle.task_code_statements.specs.Contexts.{Meets};
ghost use Rattle.task_code_statements.specs.Statements.{EmitsStatement};
ghost use Rattle.task_code_statements.specs.Vectorizing.{AreLanes, GuardedLacks, IsRunOf, IsStoreOf, ReplacesIn};

use crate::contexts::{Context, in_loop};
use crate::guards::{Guard, Tests, add_test, emit_behind, guards_lack, tests_of};
use crate::lacking::{lacks, store_lacks};
use crate::making::unclamped_store;
use crate::plain::is_plain_store;
use crate::replacing::{Replacement, store_with};
use crate::splits::{enter_split, split_value};
use crate::starts::emit_starts;
use loop_ir::expressions::Counter;
use loop_ir::statements::{LoopKind, Stmt, Store};
use sqlite_items::Items;
use std::alloc::{AllocError, Global};
use task_code_lanes::groups::LaneGroup;
use task_code_loops::bounds::Bound;
use task_code_names::renaming::renamed_store;
use task_code_registers::scopes::Held;
use task_code_scalar::CodeFault;
use task_code_scalar::layouts::Places;
use task_code_values::sites::Site;
use task_code_vector_loops::VectorLanes;
use task_code_vector_loops::left::Left;
use task_code_vector_loops::runs::emit_run;
use task_code_vector_loops::terms::mentions;

/// A store, and the tests that it is under.
#[derive(Debug)]
pub struct GuardedStore {
    pub store: Store,
    pub guards: Vec<Guard>,
}

impl Drop for GuardedStore {
    fn drop(self) {
        let GuardedStore { store, guards: _ } = self;
        drop(store);
    }
}

impl GuardedStore {
    /// The store alone.
    fn into_store(self) -> Store
        ensures { result ≡ self.store }
    {
        let GuardedStore { store, guards: _ } = self;
        store
    }

    /// The tests alone.
    fn into_guards(self) -> Vec<Guard>
        ensures { result ≡ self.guards }
    {
        let GuardedStore { store, guards } = self;
        drop(store);
        guards
    }
}

/// Whether a loop's iterations may be done at once.
pub fn is_at_once(kind: LoopKind) -> bool
    ensures { result ≡ true → kind ≡ vectorized }
{
    match kind {
        LoopKind::Serial => false,
        LoopKind::Unrolled => false,
        LoopKind::Vectorized => true,
    }
}

/// A store of a run by the loop variables that aren't known, without clamps that cut nothing off, and by names.
pub(crate) fn run_store(
    alloc: Global,
    context: &Context,
    store: &Store,
) -> Result<Store, AllocError>
    ensures { IfOk result (IsAlikeStore (Meets context.now) store.now) }
{
    // Of bytes nothing is known here.
    let places = Places {
        inputs: Items::new(alloc),
        funcs: Items::new(alloc),
        frames: None,
    };
    let known = context.known.as_slice();
    let bounds = context.bounds.as_slice();
    let plain = unclamped_store(alloc, &places, known, bounds, false, store)?;
    let named = renamed_store(alloc, context.names.as_slice(), plain)?;
    Ok(named)
}

/// A store by the loop variables that aren't known and by names, under no test.
fn stored_alone(alloc: Global, context: &Context, store: &Store) -> Result<GuardedStore, CodeFault>
    ensures { IfOk result (IsStoreOf context.now (stmts.Store store.now)) }
{
    if !is_plain_store(store) {
        return Err(CodeFault::TooDeep);
    }
    let made = run_store(alloc, context, store)?;
    Ok(GuardedStore {
        store: made,
        guards: Vec::new(alloc),
    })
}

/// Whether neither a store nor its tests have a loop variable.
fn guarded_lacks(guarded: &GuardedStore, counter: Counter) -> bool
    ensures { result ≡ true → GuardedLacks counter guarded.now }
{
    store_lacks(&guarded.store, counter) && guards_lack(guarded.guards.as_slice(), counter)
}

/// A store and its tests with an expression for a loop variable that none of the tests has.
fn guarded_with(
    alloc: Global,
    guarded_store: GuardedStore,
    replacement: Replacement,
) -> Result<GuardedStore, CodeFault>
    ensures { IfOk result (ReplacesIn guarded_store replacement) }
{
    if !lacks(&replacement.e, replacement.counter) {
        return Err(CodeFault::TooDeep);
    }
    let store = store_with(alloc, &guarded_store.store, &replacement)?;
    let guarded = GuardedStore {
        store,
        guards: guarded_store.into_guards(),
    };
    if !guarded_lacks(&guarded, replacement.counter) {
        return Err(CodeFault::TooDeep);
    }
    Ok(guarded)
}

/// The store that a vectorized loop's body is, by the loop variables that aren't known.
fn stored_by(alloc: Global, context: &Context, body: &Stmt) -> Result<GuardedStore, CodeFault>
    ensures { IfOk result (IsStoreOf context.now body.now) }
{
    match body {
        Stmt::Store(store) => {
            let guarded_store = stored_alone(alloc, context, store)?;
            Ok(guarded_store)
        }
        Stmt::Bind(counter, whole, extent, inside) => {
            if let Some(e) = split_value(alloc, context, whole, *extent)? {
                let bound = Bound {
                    counter: *counter,
                    count: *extent,
                };
                let inner = in_loop(alloc, context, bound)?;
                let guarded_store = stored_by(alloc, &inner, inside.get())?;
                let guarded = guarded_with(
                    alloc,
                    guarded_store,
                    Replacement {
                        counter: *counter,
                        e,
                    },
                )?;
                return Ok(guarded);
            }
            let entered = enter_split(alloc, context, *counter, whole)?;
            let mut guarded_store = stored_by(alloc, &entered.inner, inside.get())?;
            if !guarded_lacks(&guarded_store, *counter) {
                return Err(CodeFault::TooDeep);
            }
            let form = entered.into_form();
            add_test(
                context.bounds.as_slice(),
                &mut guarded_store.guards,
                form,
                *extent,
            )?;
            Ok(guarded_store)
        }
        Stmt::Sequence(_, _) => Err(CodeFault::TooDeep),
        Stmt::For(_, _, _, _) => Err(CodeFault::TooDeep),
    }
}

/// A store that the first iterations of a loop do under tests, and what says how many.
#[derive(Debug)]
pub struct VectorStore {
    pub store: Store,
    pub fixed: Vec<Guard>,
    pub left: Vec<Left>,
}

impl Drop for VectorStore {
    fn drop(self) {
        let VectorStore {
            store,
            fixed: _,
            left: _,
        } = self;
        drop(store);
    }
}

/// What the iterations of a loop with such lanes do.
fn run_of_body(
    alloc: Global,
    context: &Context,
    lanes: VectorLanes,
    body: &Stmt,
) -> Result<VectorStore, CodeFault>
    ensures { IfOk result (IsRunOf context.now lanes body.now) }
{
    let own = Bound {
        counter: lanes.counter,
        count: lanes.group.lanes(),
    };
    let inner = in_loop(alloc, context, own)?;
    let made = stored_by(alloc, &inner, body)?;
    let bounds = inner.bounds.as_slice();
    let Tests { fixed, left } = tests_of(alloc, bounds, own.counter, made.guards.as_slice())?;
    Ok(VectorStore {
        store: made.into_store(),
        fixed,
        left,
    })
}

/// A lane for each iteration of a loop whose variable no held form has.
fn lanes_for(scope: &[Held], bound: Bound) -> Result<VectorLanes, CodeFault>
    ensures { IfOk result (AreLanes scope.now bound) }
{
    if mentions(scope, bound.counter) {
        return Err(CodeFault::TooDeep);
    }
    match LaneGroup::of_lanes(bound.count) {
        None => Err(CodeFault::TooDeep),
        Some(group) => Ok(VectorLanes {
            counter: bound.counter,
            group,
        }),
    }
}

/// Appends a vectorized loop, where starts of runs inside have names, if they stay the same in all iterations.
fn emit_at_once(
    alloc: Global,
    code: &mut Vec<u32>,
    site: &Site<'_>,
    context: &Context,
    bound: Bound,
    body: &Stmt,
) -> Result<(), CodeFault>
    ensures { OnOk result (EmitsStatement code.old.items code.new.items site.now.places.now site.now.scope.now (Meets
        context.now)
        (stmts.For bound.counter bound.count vectorized body.now)) }
{
    let lanes = lanes_for(site.scope, bound)?;
    let found = run_of_body(alloc, context, lanes, body)?;
    let mut words = Vec::new(alloc);
    let left = found.left.as_slice();
    emit_run(alloc, &mut words, site, lanes, left, &found.store)?;
    emit_behind(
        alloc,
        code,
        site.scope,
        found.fixed.as_slice(),
        words.as_slice(),
    )?;
    Ok(())
}

/// Appends a vectorized loop.
///
/// # Errors
///
/// Memory ran out, the body is no single store, the sum of a test may overflow, or groups and registers do not suffice
/// for this way of making code.
pub fn emit_vectorized(
    alloc: Global,
    code: &mut Vec<u32>,
    site: &Site<'_>,
    context: &Context,
    bound: Bound,
    body: &Stmt,
) -> Result<(), CodeFault>
    ensures { OnOk result (EmitsStatement code.old.items code.new.items site.now.places.now site.now.scope.now (Meets
        context.now)
        (stmts.For bound.counter bound.count vectorized body.now)) }
{
    match emit_starts(alloc, code, site, context, bound, body)? {
        None => {
            emit_at_once(alloc, code, site, context, bound, body)?;
            Ok(())
        }
        Some(before) => {
            let inner = Site {
                places: site.places,
                scope: before.scope.as_slice(),
            };
            emit_at_once(alloc, code, &inner, &before.context, bound, body)?;
            Ok(())
        }
    }
}
