//! Commands over devices in memory, each with its files.

ghost use Rattle.std.specs.Prelude.{◌≡◌};

use crate::{Page, Tape, empty_page, tape_of};
use hrv_engines::{
    DrawRules, Fault, Question, Resources, asm_bytes, blame_bytes, compile_bytes, debug_bytes,
    digest_bytes, dis_addresses_bytes, dis_bytes, make_log_bytes, map_bytes, picture_bytes,
    print_log_bytes, profile_bytes, renew_bytes, replay_bytes, resume_bytes, resume_recorded_bytes,
    run_bytes, run_drawn_bytes, run_drawn_recorded_bytes, run_recorded_bytes, verify_bytes,
};
use std::alloc::{AllocError, Global};
use std::sync::Wait;
use std::thread::Threads;

/// A source of two words of text and one of data.
const SOURCE: &[u8] = b"start: li x5,-1\nbeq x5,x0,start\n.data\n.word 7\n";

/// A blur of eight pixels, by vectors, and its input.
const ALGORITHM: &[u8] =
    b"input in 8\nfunc b(x) = (in(clamp(x-1,0,7)) + in(x) + in(clamp(x+1,0,7))) / 3\noutput b 8\n";

const SCHEDULE: &[u8] = b"b split x xo xi 4 guard\nb vectorize xi\n";

const INPUT: &[u8] = b"picture 8 1\n0 3 6 9 12 15 18 21\n";

/// Lines of a talk.
const LINES: &[u8] =
    b"goto 40\nwatch 0x00200008\nreverse\nforward\nbreak 0x00010004\nback\nstatus\n";

/// The text of a log.
const RUNS: &[u8] = b"harts 2\n0 3\n1 4\n0 1\n";

/// How many turns a run makes at most.
const TURNS: u64 = 10_000;

/// How the turns of a drawn run are drawn.
const RULES: DrawRules = DrawRules {
    seed: 1,
    every: 16,
    limit: TURNS,
};

/// A command of the program.
#[derive(Clone, Copy, Debug)]
pub enum TestedCommand {
    Assemble,
    Compile,
    Renew,
    List,
    ListAddresses,
    Run,
    Resume,
    RunDrawn,
    RunRecorded,
    ResumeRecorded,
    RunDrawnRecorded,
    Replay,
    Debug,
    Blame,
    Profile,
    PrintLog,
    MakeLog,
    Digest,
    Verify,
    Map,
    Draw,
}

/// All commands that want memory.
pub const COMMANDS: [TestedCommand; 21] = [
    TestedCommand::Assemble,
    TestedCommand::Compile,
    TestedCommand::Renew,
    TestedCommand::List,
    TestedCommand::ListAddresses,
    TestedCommand::Run,
    TestedCommand::Resume,
    TestedCommand::RunDrawn,
    TestedCommand::RunRecorded,
    TestedCommand::ResumeRecorded,
    TestedCommand::RunDrawnRecorded,
    TestedCommand::Replay,
    TestedCommand::Debug,
    TestedCommand::Blame,
    TestedCommand::Profile,
    TestedCommand::PrintLog,
    TestedCommand::MakeLog,
    TestedCommand::Digest,
    TestedCommand::Verify,
    TestedCommand::Map,
    TestedCommand::Draw,
];

/// What a command writes: an image or standard output, and the log and the record of a run.
#[derive(Drop)]
pub struct CommandOutput {
    pub out: Page,
    pub log: Page,
    pub kept: Page,
}

impl CommandOutput {
    /// Nothing.
    pub fn new(alloc: Global) -> CommandOutput {
        CommandOutput {
            out: empty_page(alloc),
            log: empty_page(alloc),
            kept: empty_page(alloc),
        }
    }

    /// Nothing, with the room that there is.
    fn clear(&mut self)
        ensures out { self.new.out.failures ≡ 0 }
        ensures log { self.new.log.failures ≡ 0 }
        ensures kept { self.new.kept.failures ≡ 0 }
    {
        self.out.bytes.clear();
        self.out.failures = 0;
        self.log.bytes.clear();
        self.log.failures = 0;
        self.kept.bytes.clear();
        self.kept.failures = 0;
    }
}

/// The files that commands read beside texts: a compiled image, and the log and the record of its run.
#[derive(Drop)]
pub struct Files {
    image: Vec<u8>,
    log: Vec<u8>,
    kept: Vec<u8>,
}

impl Files {
    /// The files, by the commands that write them.
    pub fn new<R: Threads + Wait + Sync>(resources: &Resources<'_, R>) -> Result<Files, Fault> {
        let alloc = resources.alloc;
        let mut written = CommandOutput::new(alloc);
        let mut files = Files {
            image: Vec::new(alloc),
            log: Vec::new(alloc),
            kept: Vec::new(alloc),
        };
        files.answer(resources, TestedCommand::Compile, &mut written)?;
        files.image = written.out.bytes.clone()?;
        files.answer(resources, TestedCommand::RunRecorded, &mut written)?;
        files.log = written.log.bytes.clone()?;
        files.kept = written.kept.bytes.clone()?;
        Ok(files)
    }

    /// What a command answers, and writes.
    pub fn answer<R: Threads + Wait + Sync>(
        &self,
        resources: &Resources<'_, R>,
        command: TestedCommand,
        written: &mut CommandOutput,
    ) -> Result<(), Fault> {
        written.clear();
        let alloc = resources.alloc;
        let CommandOutput { out, log, kept } = written;
        let (image, old) = (&mut self.image(), &mut self.log());
        match command {
            TestedCommand::Assemble => asm_bytes(alloc, &mut tape_of("source", SOURCE), out),
            TestedCommand::Compile => compile(alloc, out),
            TestedCommand::Renew => renew_bytes(alloc, image, out),
            TestedCommand::List => dis_bytes(alloc, image, out),
            TestedCommand::ListAddresses => dis_addresses_bytes(alloc, image, out),
            TestedCommand::Run => run_bytes(resources, image, log, out, 1, TURNS),
            TestedCommand::Resume => resume_bytes(resources, image, old, log, out, TURNS),
            TestedCommand::RunDrawn => run_drawn_bytes(alloc, image, log, out, 2, RULES),
            TestedCommand::RunRecorded => {
                run_recorded_bytes(resources, image, log, kept, out, 1, TURNS)
            }
            TestedCommand::ResumeRecorded => {
                resume_recorded_bytes(resources, image, old, log, kept, out, TURNS)
            }
            TestedCommand::RunDrawnRecorded => {
                run_drawn_recorded_bytes(alloc, image, log, kept, out, 2, RULES)
            }
            TestedCommand::Replay => replay_bytes(alloc, image, old, out),
            TestedCommand::Debug => {
                debug_bytes(alloc, image, old, &mut tape_of("lines", LINES), out)
            }
            TestedCommand::Blame => blame_bytes(alloc, image, old, PIXELS, out),
            TestedCommand::Profile => profile_bytes(alloc, image, old, out),
            TestedCommand::PrintLog => print_log_bytes(alloc, old, out),
            TestedCommand::MakeLog => make_log_bytes(alloc, &mut tape_of("turns", RUNS), out),
            TestedCommand::Digest => digest_bytes(alloc, &["image"], &mut [self.image()], out),
            TestedCommand::Verify => self.verify(alloc, out),
            TestedCommand::Map => map_bytes(alloc, &mut algorithm(), &mut schedule(), out),
            TestedCommand::Draw => draw(resources, out),
        }
    }

    fn verify(&self, alloc: Global, out: &mut Page) -> Result<(), Fault>
        requires { out.old.failures ≡ 0 }
    {
        let mut kept = tape_of("record", &self.kept);
        verify_bytes(alloc, &mut kept, &mut self.image(), &mut self.log(), out)?;
        Ok(())
    }

    fn image(&self) -> Tape<'_>
        ensures { result.failures ≡ 0 }
    {
        tape_of("image", &self.image)
    }

    fn log(&self) -> Tape<'_>
        ensures { result.failures ≡ 0 }
    {
        tape_of("log", &self.log)
    }
}

/// Which hart wrote each pixel last.
const PIXELS: Question<'static> = Question {
    x: None,
    y: None,
    address: None,
    with_turns: false,
};

fn algorithm() -> Tape<'static>
    ensures { result.failures ≡ 0 }
{
    tape_of("algorithm", ALGORITHM)
}

fn schedule() -> Tape<'static>
    ensures { result.failures ≡ 0 }
{
    tape_of("schedule", SCHEDULE)
}

fn input() -> Tape<'static>
    ensures { result.failures ≡ 0 }
{
    tape_of("input", INPUT)
}

fn compile(alloc: Global, image: &mut Page) -> Result<(), Fault>
    requires { image.old.failures ≡ 0 }
{
    let mut inputs = [input()];
    compile_bytes(alloc, &mut algorithm(), &mut schedule(), &mut inputs, image)
}

fn draw<R: Threads + Wait + Sync>(resources: &Resources<'_, R>, out: &mut Page) -> Result<(), Fault>
    requires { out.old.failures ≡ 0 }
{
    let mut inputs = [input()];
    picture_bytes(
        resources.threads,
        resources.alloc,
        &mut algorithm(),
        &mut inputs,
        out,
    )
}
