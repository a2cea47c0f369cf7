//! Many turns at once.

ghost use Rattle.std.specs.Prelude.{◌≡◌, ◌<◌, ◌≤◌, IfOk, length};

use crate::comparing::same;
use multi_hart::{Machine, UnknownHart};
use rv_insn::Outcome;
use std::alloc::{AllocError, Global};
use std::test::Fail;

/// Two harts that each add 1 to the word of data, and finish.
fn counter(alloc: Global) -> Result<Machine, AllocError>
    ensures { IfOk result (λ machine. length machine.harts ≡ 2) }
{
    let words = [0x0020_02b7, 0x0010_0313, 0x0062_a3af, 0x0000_0073].to_vec(alloc)?;
    let bytes = [0; 4].to_vec(alloc)?;
    Machine::new(alloc, 0x0001_0000, words, bytes, 2)
}

/// This many turns of hart 0.
fn turns_of_first(machine: &mut Machine, turns: u64) -> Outcome
    requires there { 0 < length machine.old.harts }
    requires some { 1 ≤ turns }
    ensures { length machine.new.harts ≡ length machine.old.harts }
{
    machine.run_same(0, turns)
}

#[test]
fn turns_of_one_hart(rt: HostRuntime) -> Result<(), Fail> {
    let mut machine = counter(rt.alloc())?;
    same(&rt, &turns_of_first(&mut machine, 3), &Outcome::Stepped);
    same(&rt, &turns_of_first(&mut machine, 1), &Outcome::Finished);
    same(&rt, &turns_of_first(&mut machine, 1 << 40), &Outcome::Idle);
    same(&rt, &machine.word(0x0020_0000), &Some(1));
    Ok(())
}

/// A list of turns is made up to the first hart that isn't there.
#[test]
fn turns_of_a_list(rt: HostRuntime) -> Result<(), Fail> {
    let mut machine = counter(rt.alloc())?;
    same(
        &rt,
        &machine.run(&[0, 1, 0, 0, 1, 1, 1, 2, 0]),
        &Err(UnknownHart { at: 7 }),
    );
    same(&rt, &machine.word(0x0020_0000), &Some(2));
    assert!(rt; !machine.is_finished());
    same(&rt, &machine.run(&[0]), &Ok(()));
    assert!(rt; machine.is_finished());
    Ok(())
}
