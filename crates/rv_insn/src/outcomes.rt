//! What a turn of a hart may come to.

ghost use Rattle.std.specs.Prelude.{◌≡◌};
ghost use Rattle.rv_insn.specs.Trap.{trap_number};

/// Why a hart stops for good. The numbers are this project's own.
#[derive(Clone, Copy, Debug, PartialEq, Eq)]
pub enum Trap {
    /// 1: the word means no instruction.
    IllegalInstruction,
    /// 2: no text word is at the program counter.
    FetchOutside,
    /// 3: a branch or jump goes to an address that is no multiple of 4.
    MisalignedTarget,
    /// 4: a load's address is no multiple of its size.
    LoadMisaligned,
    /// 5: a load touches a byte that is neither text nor data.
    LoadOutside,
    /// 6: the address of a store or an atomic addition is no multiple of its size.
    StoreMisaligned,
    /// 7: a store or an atomic addition touches a byte that isn't data.
    StoreOutside,
    /// 8: the instruction is `ebreak`.
    Breakpoint,
}

impl Trap {
    /// The trap's number, from 1 on.
    pub fn number(self) -> u8
        ensures { result ≡ trap_number self }
    {
        match self {
            Trap::IllegalInstruction => 1,
            Trap::FetchOutside => 2,
            Trap::MisalignedTarget => 3,
            Trap::LoadMisaligned => 4,
            Trap::LoadOutside => 5,
            Trap::StoreMisaligned => 6,
            Trap::StoreOutside => 7,
            Trap::Breakpoint => 8,
        }
    }
}

/// What one turn of a hart did.
#[derive(Clone, Copy, Debug, PartialEq, Eq)]
pub enum Outcome {
    /// It executed an instruction and goes on.
    Stepped,
    /// It executed ECALL and has finished.
    Finished,
    /// It trapped; nothing but its status changed.
    Trapped(Trap),
    /// It had finished or trapped before; nothing changed.
    Idle,
}
