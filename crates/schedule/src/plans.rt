//! What the lines so far say of each Func.

ghost use Rattle.std.specs.Prelude.{◌≡◌, ◌<◌, [], ◌∷◌, ◌++◌, Some, OnOk, OnSome, IfOk, length, slice_get, slice_set};
ghost use Rattle.std.specs.Prelude.{map};
ghost use Rattle.std.specs.Option.{option_copied};
ghost use Rattle.schedule.specs.declared.plans.FuncPlan.{FuncPlan};
ghost use Rattle.schedule.specs.Plans as spec;

use halide_pipeline::{Func, Reduction, Update, Variable};
use schedule_lines::lines::Computed;
use schedule_lines::stages::{Loop, LoopId, Stage};
use sqlite_items::Items;
use std::alloc::{AllocError, Global};
use std::marker::Model;

/// A compute line.
#[derive(Drop)]
pub struct ComputeLine {
    /// Its number, from 1.
    pub line: u64,
    pub computed: Computed,
}

/// What is said of a Func.
pub struct FuncPlan {
    /// Where it is to be computed; None where no line says so.
    pub compute: Option<ComputeLine>,
    /// Whether a line is about the loops of one of its stages.
    pub is_directed: bool,
    /// The stage of its pure definition.
    pub pure: Stage,
    /// Those of its updates, in order.
    pub updates: Items<Stage>,
}

impl Drop for FuncPlan {
    fn drop(self) {
        let FuncPlan {
            compute,
            pure,
            updates,
            is_directed: _,
        } = self;
        drop(compute);
        drop(pure);
        drop(updates);
    }
}

/// What is said of each Func, in the pipeline's order. Contracts see the list.
#[derive(Drop)]
pub struct Plans {
    plans: Vec<FuncPlan>,
}

impl Model for Plans {
    ghost use Rattle.std.specs.Prelude.{List};
    ghost use Rattle.schedule.specs.declared.plans.FuncPlan.{FuncPlan};

    ghost Value = { List FuncPlan };

    ghost view = { λ p. p.plans.items };
}

impl FuncPlan {
    /// A stage, where it is there.
    pub fn stage(&self, update: Option<usize>) -> Option<&Stage>
        ensures { option_copied result ≡ spec.stage self.now update }
    {
        match update {
            None => Some(&self.pure),
            Some(at) => self.updates.get(at),
        }
    }

    /// Puts a stage in the place of one that is there.
    fn set_stage(&mut self, update: Option<usize>, stage: Stage)
        ensures { self.new ≡ spec.with_stage self.old update stage }
    {
        self.is_directed = true;
        match update {
            None => self.pure = stage,
            Some(at) if at < self.updates.len() => self.updates.set(at, stage),
            Some(_) => drop(stage),
        }
    }
}

impl Plans {
    /// No Funcs.
    pub fn new(alloc: Global) -> Plans
        ensures { result ≡ [] }
    {
        Plans {
            plans: Vec::new(alloc),
        }
    }

    /// The plans in order.
    pub fn as_slice(&self) -> &[FuncPlan]
        ensures { result.now ≡ self.now }
    {
        self.plans.as_slice()
    }

    /// The plan of the Func at a place.
    pub fn get(&self, at: usize) -> Option<&FuncPlan>
        ensures value { option_copied result ≡ slice_get self.now at }
        ensures within { OnSome result (at < length self.now) }
    {
        self.plans.get(at)
    }

    /// Appends the plan of the next Func.
    pub fn push(&mut self, plan: FuncPlan) -> Result<(), AllocError>
        ensures { OnOk result (self.new ≡ self.old ++ plan ∷ []) }
    {
        self.plans.push(plan)?;
        Ok(())
    }

    /// Puts a stage of a Func that is there in the place of the one before.
    pub fn set_stage(&mut self, at: usize, update: Option<usize>, stage: Stage)
        requires { at < length self.old }
        ensures { (plan : FuncPlan) → slice_get self.old at ≡ Some plan
            → self.new ≡ slice_set self.old at (spec.with_stage plan update stage) }
    {
        let plan = &mut self.plans[at];
        plan.set_stage(update, stage);
    }

    /// Says where a Func that is there is computed.
    pub fn set_compute(&mut self, at: usize, compute: ComputeLine)
        requires { at < length self.old }
        ensures { (plan : FuncPlan) → slice_get self.old at ≡ Some plan
            → self.new ≡ slice_set self.old at (spec.with_compute plan compute) }
    {
        let plan = &mut self.plans[at];
        plan.compute = Some(compute);
    }
}

/// Appends a loop over a whole variable.
fn add_loop(
    alloc: Global,
    loops: &mut Items<Loop>,
    name: &Items<u8>,
    variable: Variable,
) -> Result<(), AllocError>
    ensures { OnOk result (loops.new ≡ spec.with_loop loops.old name.now variable) }
{
    loops.push(Loop {
        id: LoopId::Whole(variable),
        name: Items::from_slice(alloc, name.as_slice())?,
        variable,
        inner_of: None,
        is_from_shift: false,
        marked: None,
    })?;
    Ok(())
}

/// The same, where there is such a variable.
fn add_second(
    alloc: Global,
    loops: &mut Items<Loop>,
    name: &Option<Items<u8>>,
    variable: Variable,
) -> Result<(), AllocError>
    ensures { OnOk result (loops.new ≡ spec.with_second loops.old name.now variable) }
{
    match name {
        None => Ok(()),
        Some(name) => {
            add_loop(alloc, loops, name, variable)?;
            Ok(())
        }
    }
}

/// The same for a second reduction variable.
fn add_reduction(
    alloc: Global,
    loops: &mut Items<Loop>,
    reduction: &Option<Reduction>,
) -> Result<(), AllocError>
    ensures { OnOk result (loops.new ≡ spec.with_reduction loops.old reduction.now) }
{
    match reduction {
        None => Ok(()),
        Some(reduction) => {
            add_loop(alloc, loops, &reduction.name, Variable::SecondReduction)?;
            Ok(())
        }
    }
}

/// The loops of a pure definition: its arguments.
fn pure_loops(alloc: Global, func: &Func) -> Result<Items<Loop>, AllocError>
    ensures { IfOk result (λ loops. loops ≡ spec.pure_loops func.now) }
{
    let mut loops = Items::new(alloc);
    add_loop(
        alloc,
        &mut loops,
        &func.first_argument,
        Variable::FirstArgument,
    )?;
    add_second(
        alloc,
        &mut loops,
        &func.second_argument,
        Variable::SecondArgument,
    )?;
    Ok(loops)
}

/// The loops of an update: its reduction variables, then its arguments in place.
fn update_loops(alloc: Global, func: &Func, update: &Update) -> Result<Items<Loop>, AllocError>
    ensures { IfOk result (λ loops. loops ≡ spec.update_loops func.now update.now) }
{
    let mut loops = Items::new(alloc);
    add_loop(
        alloc,
        &mut loops,
        &update.first.name,
        Variable::FirstReduction,
    )?;
    add_reduction(alloc, &mut loops, &update.second)?;
    if update.is_first_in_place() {
        add_loop(
            alloc,
            &mut loops,
            &func.first_argument,
            Variable::FirstArgument,
        )?;
    }
    if update.is_second_in_place() {
        add_second(
            alloc,
            &mut loops,
            &func.second_argument,
            Variable::SecondArgument,
        )?;
    }
    Ok(loops)
}

/// The stages of updates.
fn update_stages(alloc: Global, func: &Func, updates: &[Update]) -> Result<Items<Stage>, AllocError>
    ensures { IfOk result (λ stages. stages ≡ map (spec.update_stage func.now) updates.now) }
{
    let mut stages = Items::new(alloc);
    for update in updates {
        stages.push(Stage {
            loops: update_loops(alloc, func, update)?,
            splits: Items::new(alloc),
        })?;
    }
    Ok(stages)
}

/// A Func before any line.
fn plan_of(alloc: Global, func: &Func) -> Result<FuncPlan, AllocError>
    ensures { IfOk result (λ plan. plan ≡ spec.plan_of func.now) }
{
    Ok(FuncPlan {
        compute: None,
        is_directed: false,
        pure: Stage {
            loops: pure_loops(alloc, func)?,
            splits: Items::new(alloc),
        },
        updates: update_stages(alloc, func, func.updates.as_slice())?,
    })
}

/// All Funcs before any line.
pub fn plans_of(alloc: Global, funcs: &[Func]) -> Result<Plans, AllocError>
    ensures { IfOk result (λ plans. plans ≡ map spec.plan_of funcs.now) }
{
    let mut plans = Plans::new(alloc);
    for func in funcs {
        plans.push(plan_of(alloc, func)?)?;
    }
    Ok(plans)
}
