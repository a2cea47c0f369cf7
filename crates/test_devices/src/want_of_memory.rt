//! What each command answers with nothing left, and with more and more.

use crate::commands::{COMMANDS, CommandOutput, Files, TestedCommand};
use crate::exhaustion::Exhaustion;
use hrv_engines::{Fault, Resources};
use std::process::Abort;
use std::sync::Wait;
use std::test::Fail;
use std::thread::Threads;

/// How often a command is tried at most, with more memory each time.
const MOST_TRIES: u32 = 1_000;

/// Each time one block more is given back than the last time, and one more for each so many that were given back then.
const GROWTH: usize = 32;

/// How many calls further down the stack a command is run than where memory is refused. A stack grows only where memory
/// is left; what it has grown by then is below all that a refused command needs.
const CALLS_BELOW: u32 = 64;

/// How a command ended.
#[derive(Clone, Copy, PartialEq, Eq, Debug)]
enum End {
    /// As with ample memory.
    Own,
    /// By want of memory, with nothing written, but of a talk a beginning.
    Refused,
    /// Otherwise.
    Other,
}

/// A command, with what it writes where memory is ample.
#[derive(Drop)]
struct Trial {
    command: TestedCommand,
    written: CommandOutput,
    out: Vec<u8>,
    log: Vec<u8>,
    kept: Vec<u8>,
}

impl Trial {
    /// The trial of a command, which is run.
    fn new<R: Threads + Wait + Sync>(
        resources: &Resources<'_, R>,
        files: &Files,
        command: TestedCommand,
    ) -> Result<Trial, Fault> {
        let mut written = CommandOutput::new(resources.alloc);
        files.answer(resources, command, &mut written)?;
        let (out, log) = (written.out.bytes.clone()?, written.log.bytes.clone()?);
        let kept = written.kept.bytes.clone()?;
        Ok(Trial {
            command,
            written,
            out,
            log,
            kept,
        })
    }

    /// Runs the command. What it writes has room already, so that no device takes memory.
    fn run<R: Threads + Wait + Sync>(
        &mut self,
        resources: &Resources<'_, R>,
        files: &Files,
    ) -> End {
        let answered = files.answer(resources, self.command, &mut self.written);
        self.end_of(answered)
    }

    /// Runs the command at each of this many calls down the stack, the lowest first, until it answers otherwise than
    /// with ample memory.
    fn run_below<R: Threads + Wait + Sync>(
        &mut self,
        resources: &Resources<'_, R>,
        files: &Files,
        calls: u32,
    ) -> End {
        if calls > 0 {
            let below = self.run_below(resources, files, calls - 1);
            if below != End::Own {
                return below;
            }
        }
        self.run(resources, files)
    }

    /// How the command ended, by its answer and what it wrote.
    fn end_of(&self, answered: Result<(), Fault>) -> End {
        match answered {
            Ok(()) if self.is_whole() => End::Own,
            Err(Fault::Memory) if self.is_begun() => End::Refused,
            _ => End::Other,
        }
    }

    /// Whether the command wrote what it writes where memory is ample.
    fn is_whole(&self) -> bool {
        self.written.out.bytes.as_slice() == self.out.as_slice()
            && self.written.log.bytes.as_slice() == self.log.as_slice()
            && self.written.kept.bytes.as_slice() == self.kept.as_slice()
    }

    /// Whether the command wrote no more than it may when it is refused memory.
    fn is_begun(&self) -> bool {
        let out = self.written.out.bytes.as_slice();
        let is_begun = match self.command {
            TestedCommand::Debug => self.out.starts_with(out),
            _ => out.is_empty(),
        };
        is_begun && self.written.log.bytes.is_empty() && self.written.kept.bytes.is_empty()
    }

    /// How often the command is refused memory, with nothing left, and then with more and more until it answers as with
    /// ample memory.
    fn refusals<R: Abort + Threads + Wait + Sync>(
        &mut self,
        resources: &Resources<'_, R>,
        files: &Files,
        memory: &mut Exhaustion,
    ) -> u32 {
        let rt = resources.threads;
        let mut left = 0usize;
        for tries in 0..MOST_TRIES {
            assert!(rt; memory.take_all(), "not all memory could be taken");
            memory.give_back(left);
            match self.run(resources, files) {
                End::Own => return tries,
                End::Refused => left = left.saturating_add(1 + left / GROWTH),
                End::Other => panic!(rt; "another answer with {left} blocks left"),
            }
        }
        panic!(rt; "no answer with {left} blocks left")
    }
}

/// Each command answers rightly or by want of memory, however much is left.
#[test]
fn want_of_memory_is_answered_by_commands(rt: HostRuntime) -> Result<(), Fail> {
    let resources = Resources {
        threads: &rt,
        alloc: rt.alloc(),
    };
    let files = Files::new(&resources)?;
    let mut memory = Exhaustion::new(rt.alloc())?;
    for command in COMMANDS {
        let mut trial = Trial::new(&resources, &files, command)?;
        assert!(rt;
            trial.run_below(&resources, &files, CALLS_BELOW) == End::Own,
            "{command:?} answers otherwise once more"
        );
        let refusals = trial.refusals(&resources, &files, &mut memory);
        assert!(rt; refusals > 0, "{command:?} wants no memory");
        memory.give_back_all();
        assert!(rt;
            trial.run(&resources, &files) == End::Own,
            "{command:?} answers otherwise"
        );
    }
    Ok(())
}
