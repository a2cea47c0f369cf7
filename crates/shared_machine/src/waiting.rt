//! Whether a hart waits for others.

ghost use Rattle.std.specs.Prelude.{◌<◌, length};

use hart_core::Hart;
use multi_hart::Machine;
use rv_insn::Reg;

/// How often a thread gives way while no hart gets on.
const MOST_WAYS: u32 = 1_000;

/// What a thread remembers of the hart whose turns it makes: how that was after its last turns, and what came since
/// of all harts.
#[derive(Clone, Copy, Debug)]
pub(crate) struct Stance {
    pc: u32,
    registers: u32,
    worked: u64,
    ways: u32,
}

impl Stance {
    /// That of a hart at which nobody has looked.
    pub(crate) fn new() -> Stance {
        Stance {
            pc: 0,
            registers: 0,
            worked: 0,
            ways: 0,
        }
    }

    /// Looks at a hart after its turns. Whether it is as it was after those before: then it went round a loop
    /// that changed none of its registers, as one that waits at a gate does. Registers are compared by a number that is
    /// made of all of them, and where the pc is the same alone, so that a look costs little beside the turns.
    pub(crate) fn stays(&mut self, machine: &Machine, hart: usize) -> bool
        requires { hart < length machine.now.harts }
    {
        let pc = machine.pc(hart);
        if pc != self.pc {
            self.pc = pc;
            return false;
        }
        let registers = mixed(machine.hart(hart));
        let same = registers == self.registers;
        self.registers = registers;
        same
    }

    /// Whether the thread of a hart that stays is to give way, where harts have got on so often. It gives way again and
    /// again as long as another gets on, and so often where none does, since that one may sleep.
    pub(crate) fn gives_way(&mut self, worked: u64) -> bool {
        if worked != self.worked {
            self.worked = worked;
            self.ways = 0;
        }
        if self.ways >= MOST_WAYS {
            return false;
        }
        self.ways += 1;
        true
    }
}

/// A number that is made of all integer registers of a hart.
fn mixed(hart: &Hart) -> u32 {
    let mut sum: u32 = 0;
    for number in 1..32 {
        if let Some(register) = Reg::new(number) {
            sum = sum.rotate_left(5) ^ hart.register(register);
        }
    }
    sum
}
