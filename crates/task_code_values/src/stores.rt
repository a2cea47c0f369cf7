//! Values of expressions whatever they need, and stores of them.

ghost use Rattle.std.specs.Prelude.{◌≡◌, IfErr, IfOk, OnOk, true};
ghost use Rattle.task_code_scalar.specs.Faults.{FitsFrame, FitsStack, IsFault};
ghost use Rattle.loop_ir.specs.Needs.{need_of};
ghost use Rattle.task_code_registers.specs.Scopes as scopes;
ghost use Rattle.task_code_values.specs.Operands.{IsSum};
ghost use Rattle.task_code_values.specs.Parking.{MakesPoint, PreparesStore, ReachesStore};
ghost use Rattle.task_code_values.specs.Variables.{are_held};
ghost use Rattle.task_code_values.specs.Spilling as spec;
ghost use Rattle.task_code_values.specs.Storing.{FitsDirect, FitsParked, FitsStore, MakesStore, MakesValue};

use crate::accesses::emit_save;
use crate::depths::STACK;
use crate::expressions::{emit_index, sum_of};
use crate::needs::{is_leaf, need};
use crate::operands::emit_reached_address;
use crate::parking::{emit_park, emit_parking, emit_unpark};
use crate::points::{PointIndex, PointIndexes};
use crate::scatters::reach_point;
use crate::sites::{BufferSite, Site};
use crate::spilling::{SECOND_VALUE, THIRD_VALUE, emit_deep};
use crate::updates::{emit_update, is_own_pixel};
use halide_pipeline::Source;
use loop_ir::expressions::{Expr, Linear};
use loop_ir::statements::Store;
use std::alloc::Global;
use task_code_registers::numbers::emit_plus;
use task_code_registers::points::point_form;
use task_code_registers::registers::ADDRESS;
use task_code_registers::scopes::{Held, are_registers};
use task_code_scalar::CodeFault;
use task_code_scalar::layouts::{Places, place_of};

/// How many words a frame has.
const FRAME_WORDS: u32 = 1024;
/// Where frames may begin, so that those of all harts lie below 2^32.
const LAST_START: u32 = 0xffff_0000;

/// How many registers the stack has from a second value on, and from a third one on.
const COLUMN_STACK: u32 = 11;

const ROW_STACK: u32 = 10;

/// How much an expression may need: the registers of the stack, or the words of a frame.
fn room_limit(frames: Option<u32>) -> u32
    ensures { result ≡ spec.room_limit frames }
{
    match frames {
        None => STACK,
        Some(start) => { if start <= LAST_START { FRAME_WORDS } else { 0 } }
    }
}

/// Appends what leaves an expression's value in the stack's first register, where none of the scope holds it. It
/// returns the register.
///
/// # Errors
///
/// Memory ran out, the expression needs more registers than there are and more words than a hart's frame has, or a
/// loop variable has no register and no held form makes up for it.
pub fn emit_value(
    alloc: Global,
    code: &mut Vec<u32>,
    places: &Places,
    scope: &[Held],
    e: &Expr,
) -> Result<u8, CodeFault>
    ensures ok { IfOk result (λ s. MakesValue code.old.items code.new.items places.now scope.now 0 s e.now) }
    ensures err { IfErr result
        (IsFault ⊥ (are_held scope.now e.now ≡ true → FitsFrame places.now.frames e.now 0 → ⊥)) }
{
    if need(e) > room_limit(places.frames) {
        return Err(CodeFault::TooDeep);
    }
    let site = Site { places, scope };
    let s = emit_deep(alloc, code, &site, e, 0, 0)?;
    Ok(s)
}

/// The sum that an expression is.
fn needed_sum(alloc: Global, e: &Expr) -> Result<Linear, CodeFault>
    ensures ok { IfOk result (IsSum e.now) }
    ensures err { IfErr result (IsFault ⊥ ((need_of e.now).is_leaf ≡ true → ⊥)) }
{
    match sum_of(alloc, e)? {
        Some(sum) => Ok(sum),
        None => Err(CodeFault::TooDeep),
    }
}

/// Appends a store, whose indexes are sums.
fn emit_direct(
    alloc: Global,
    code: &mut Vec<u32>,
    site: &Site<'_>,
    store: &Store,
) -> Result<(), CodeFault>
    ensures ok { OnOk result (MakesStore code.old.items code.new.items site.now.places.now site.now.scope.now
        store.now) }
    ensures err { IfErr result (IsFault ⊥ (FitsDirect site.now.places.now site.now.scope.now store.now → ⊥)) }
{
    let column = needed_sum(alloc, &store.x)?;
    let row = needed_sum(alloc, &store.y)?;
    let place = place_of(site.places, Source::Func(store.func));
    let s = emit_value(alloc, code, site.places, site.scope, &store.value)?;
    let form = point_form(alloc, &place, &column, &row)?;
    let at = emit_reached_address(alloc, code, site.scope, &form, ADDRESS)?;
    emit_save(code, at.register, s, at.offset)?;
    Ok(())
}

/// Appends a store, whose indexes are computed after the value.
fn emit_scattered(
    alloc: Global,
    code: &mut Vec<u32>,
    site: &Site<'_>,
    store: &Store,
) -> Result<(), CodeFault>
    requires column { FitsStack store.now.x 21 }
    requires row { FitsStack store.now.y 22 }
    ensures ok { OnOk result (MakesStore code.old.items code.new.items site.now.places.now site.now.scope.now
        store.now) }
    ensures err { IfErr result (IsFault ⊥ (FitsStore site.now.places.now site.now.scope.now store.now → ⊥)) }
{
    let place = place_of(site.places, Source::Func(store.func));
    let s = emit_value(alloc, code, site.places, site.scope, &store.value)?;
    let column = emit_index(alloc, code, site, &store.x, SECOND_VALUE)?;
    let row = emit_index(alloc, code, site, &store.y, THIRD_VALUE)?;
    let point = PointIndexes { column, row };
    let buffer = BufferSite {
        place: &place,
        scope: site.scope,
    };
    let offset = reach_point(alloc, code, &buffer, &point, SECOND_VALUE)?;
    emit_save(code, SECOND_VALUE, s, offset)?;
    Ok(())
}

/// Appends a store with an index that is computed: where it stores what an operation makes of the pixel that it
/// overwrites, the address is made once.
fn emit_computed(
    alloc: Global,
    code: &mut Vec<u32>,
    site: &Site<'_>,
    store: &Store,
) -> Result<(), CodeFault>
    requires column { FitsStack store.now.x 21 }
    requires row { FitsStack store.now.y 22 }
    ensures ok { OnOk result (MakesStore code.old.items code.new.items site.now.places.now site.now.scope.now
        store.now) }
    ensures err { IfErr result (IsFault ⊥ (FitsStore site.now.places.now site.now.scope.now store.now → ⊥)) }
{
    match &store.value {
        Expr::Binary(operation, a, b) => {
            let other = b.get();
            if is_own_pixel(a.get(), store) && need(other) <= ROW_STACK {
                emit_update(alloc, code, site, store, *operation, other)?;
                return Ok(());
            }
            emit_scattered(alloc, code, site, store)?;
            Ok(())
        }
        _ => {
            emit_scattered(alloc, code, site, store)?;
            Ok(())
        }
    }
}

/// Appends what makes the address of the point of a store, where registers hold all of the scope's forms: it is the
/// second value and the offset that is returned. The column waits in a lane while the row is made.
fn emit_store_point(
    alloc: Global,
    code: &mut Vec<u32>,
    site: &Site<'_>,
    store: &Store,
) -> Result<u32, CodeFault>
    requires { scopes.are_registers site.now.scope.now ≡ true }
    ensures ok { IfOk result (λ offset. MakesPoint code.old.items code.new.items site.now.places.now site.now.scope.now
        offset store.now) }
    ensures err { IfErr result (IsFault ⊥ (FitsParked site.now.places.now site.now.scope.now store.now → ⊥)) }
{
    let place = place_of(site.places, Source::Func(store.func));
    emit_parking(code)?;
    let first = emit_value(alloc, code, site.places, site.scope, &store.x)?;
    emit_park(code, first)?;
    let second = emit_value(alloc, code, site.places, site.scope, &store.y)?;
    emit_unpark(code, SECOND_VALUE)?;
    let column = PointIndex::Register(SECOND_VALUE);
    let row = PointIndex::Register(second);
    let point = PointIndexes { column, row };
    let buffer = BufferSite {
        place: &place,
        scope: site.scope,
    };
    let offset = reach_point(alloc, code, &buffer, &point, SECOND_VALUE)?;
    Ok(offset)
}

/// The register of a store's pixel, and how far past the register for addresses it is to lie.
#[derive(Clone, Copy, Debug)]
struct PixelAt {
    register: u8,
    offset: u32,
}

/// Appends what leaves a store's pixel in a register, and where it is to lie in the one for addresses and an offset,
/// with one lane configured: what comes first waits in it while what comes next is made.
fn reach_store(
    alloc: Global,
    code: &mut Vec<u32>,
    site: &Site<'_>,
    store: &Store,
) -> Result<PixelAt, CodeFault>
    requires { scopes.are_registers site.now.scope.now ≡ true }
    ensures ok { IfOk result (λ at. ReachesStore code.old.items code.new.items site.now.places.now site.now.scope.now
        at.register at.offset store.now) }
    ensures err { IfErr result (IsFault ⊥ (FitsParked site.now.places.now site.now.scope.now store.now → ⊥)) }
{
    let offset = emit_store_point(alloc, code, site, store)?;
    emit_park(code, SECOND_VALUE)?;
    let register = emit_value(alloc, code, site.places, site.scope, &store.value)?;
    emit_unpark(code, ADDRESS)?;
    Ok(PixelAt { register, offset })
}

/// Appends a store whose indexes and value the stack or the frame has room for alone.
fn emit_parked(
    alloc: Global,
    code: &mut Vec<u32>,
    site: &Site<'_>,
    store: &Store,
) -> Result<(), CodeFault>
    ensures ok { OnOk result (MakesStore code.old.items code.new.items site.now.places.now site.now.scope.now
        store.now) }
    ensures err { IfErr result (IsFault ⊥ (FitsParked site.now.places.now site.now.scope.now store.now → ⊥)) }
{
    if !are_registers(site.scope) {
        return Err(CodeFault::TooDeep);
    }
    let at = reach_store(alloc, code, site, store)?;
    emit_save(code, ADDRESS, at.register, at.offset)?;
    Ok(())
}

/// Appends what leaves a store's pixel in a register, which it returns, and where it is to lie in the one for
/// addresses. No lanes from the third vector register on change: the column and the address wait in a lane of v1, with
/// one lane configured.
///
/// # Errors
///
/// Memory ran out, the value or an index needs more registers than there are and more words than a hart's frame has, or
/// a loop variable has no register and no held form makes up for it.
pub fn prepare_store(
    alloc: Global,
    code: &mut Vec<u32>,
    places: &Places,
    scope: &[Held],
    store: &Store,
) -> Result<u8, CodeFault>
    requires { scopes.are_registers scope.now ≡ true }
    ensures ok { IfOk result (λ s. PreparesStore code.old.items code.new.items places.now scope.now s store.now) }
    ensures err { IfErr result (IsFault ⊥ (FitsParked places.now scope.now store.now → ⊥)) }
{
    let site = Site { places, scope };
    let at = reach_store(alloc, code, &site, store)?;
    emit_plus(code, ADDRESS, ADDRESS, at.offset)?;
    Ok(at.register)
}

/// Appends a store.
///
/// # Errors
///
/// Memory ran out, the value or an index needs more registers than there are and more words than a hart's frame has, a
/// loop variable has no register and no held form makes up for it, or an index beside the value needs more registers
/// than there are and the scope has lanes.
pub fn emit_store(
    alloc: Global,
    code: &mut Vec<u32>,
    places: &Places,
    scope: &[Held],
    store: &Store,
) -> Result<(), CodeFault>
    ensures ok { OnOk result (MakesStore code.old.items code.new.items places.now scope.now store.now) }
    ensures err { IfErr result (IsFault ⊥ (FitsStore places.now scope.now store.now → ⊥)) }
{
    let site = Site { places, scope };
    if is_leaf(&store.x) && is_leaf(&store.y) {
        emit_direct(alloc, code, &site, store)?;
        return Ok(());
    }
    if need(&store.x) > COLUMN_STACK || need(&store.y) > ROW_STACK {
        emit_parked(alloc, code, &site, store)?;
        return Ok(());
    }
    emit_computed(alloc, code, &site, store)?;
    Ok(())
}
