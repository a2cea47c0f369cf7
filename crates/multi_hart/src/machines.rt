//! Harts over one memory, stepped one at a time.

ghost use Rattle.std.specs.Prelude.{◌≡◌, ◌≢◌, ◌+◌, ◌-◌, ◌*◌, ◌/◌, ◌%◌, ◌^◌, ◌<◌, ◌≤◌, ℕ, List, length, map, option_map};
ghost use Rattle.std.specs.Prelude.{take, replicate, slice_index, OnOk, IfOk, IfErr, All, IsTrue};
ghost use Rattle.memory.specs.Access.{most_words, most_bytes, text_start, is_text_word, fetched};
ghost use Rattle.rv_encoding.specs.Decoding.{decoded};
ghost use Rattle.hart_core.specs.HartState.{register, vector};
ghost use Rattle.hart_core.specs.Meanings.{insn_of, word_meaning};
ghost use Rattle.multi_hart.specs.Run.{all_finished};
ghost use Rattle.multi_hart.specs.inner.Alone.{alone};
ghost use Rattle.multi_hart.specs.Run.{opened, turn, outcome, run, KeepsShape, hart_at, word_in};
ghost use Rattle.multi_hart.specs.TurnsInARow.{AreTurnsMade};

use hart_core::{Hart, Meaning, Status};
use memory::{Bytes, Memory, TEXT_START, read_u32};
use rv_insn::{Outcome, Reg, VReg};
use std::alloc::{AllocError, Global};
use std::boxed::BoxedSlice;
use std::marker::Model;

/// A list of turns names a hart that the machine doesn't have.
#[derive(Clone, Copy, Debug, PartialEq, Eq)]
pub struct UnknownHart {
    /// The place in the list, from 0 on.
    pub at: usize,
}

/// Turns of one hart, one after the other.
#[derive(Clone, Copy, Debug, PartialEq, Eq)]
pub struct TurnsMade {
    /// How many they are, at least one.
    pub made: u64,
    /// What the last of them came to.
    pub last: Outcome,
}

/// One to eight harts over one memory. A contract sees text, data and the harts as a `State`. Nothing in it can grow,
/// so that no turn takes memory.
pub struct Machine {
    pub(crate) memory: Memory,
    pub(crate) harts: BoxedSlice<Hart>,
    /// What each word of text means, found once, so that a turn decodes nothing.
    meanings: BoxedSlice<Meaning>,
}

impl Model for Machine {
    ghost use Rattle.std.specs.Prelude.{◌≡◌, ◌≤◌, length, map};
    ghost use Rattle.std.specs.Box.{boxed_slice_items};
    ghost use Rattle.memory.specs.Access.{most_words};
    ghost use Rattle.hart_core.specs.Meanings.{word_meaning};
    ghost use Rattle.multi_hart.specs.Run.{State};

    ghost Value = { State };

    ghost view = { λ m. record { text = m.memory.text; memory = m.memory.memory; harts = boxed_slice_items m.harts } };

    ghost invariant = { λ m. (boxed_slice_items m.meanings ≡ map word_meaning m.memory.text) ×
        (length (boxed_slice_items m.meanings) ≤ most_words) };
}

impl Drop for Machine {
    fn drop(self) {
        let Machine {
            memory,
            harts,
            meanings,
        } = self;
        drop(memory);
        drop(harts);
        drop(meanings);
    }
}

impl Machine {
    /// A machine at the start: 1 to 8 harts, all at the entry, over 1 to 262,144 words of text and at
    /// most 33,554,432 bytes of data. The entry is the address of a text word.
    pub fn new(
        alloc: Global,
        entry: u32,
        words: Vec<u32>,
        bytes: Vec<u8>,
        harts: usize,
    ) -> Result<Machine, AllocError>
        requires words { length words.items ≤ most_words }
        requires bytes { length bytes.items ≤ most_bytes }
        requires entry { IsTrue (is_text_word (length words.items) entry) }
        requires one { 1 ≤ harts }
        requires eight { harts ≤ 8 }
        ensures opened { IfOk result (λ machine. machine ≡ opened entry words.items bytes.items harts) }
        ensures harts { IfOk result (λ machine. length machine.harts ≡ harts) }
    {
        let meanings = Meaning::of_words(alloc, words.as_slice())?;
        let mut all = Vec::new(alloc);
        for number in 0..harts {
            all.push(Hart::new(entry, harts as u32, number as u32))?;
        }
        Ok(Machine {
            memory: Memory::new(words, bytes),
            harts: all.into_boxed_slice(),
            meanings: meanings.into_boxed_slice(),
        })
    }

    /// One turn of a hart, as the instruction table has it. Takes no memory.
    #[inline(always)]
    pub fn turn(&mut self, hart: usize) -> Outcome
        requires { hart < length self.old.harts }
        ensures state { self.new ≡ turn self.old hart }
        ensures outcome { result ≡ outcome self.old hart }
    {
        match self.status(hart) {
            Status::Running => self.turn_running(hart),
            _ => Outcome::Idle,
        }
    }

    /// The turns, one after the other, up to the first that names a hart which isn't there. Takes no
    /// memory.
    pub fn run(&mut self, turns: &[u8]) -> Result<(), UnknownHart>
        ensures shape { KeepsShape self.old self.new }
        ensures ok { OnOk result (self.new ≡ run self.old turns.now) }
        ensures all_known { OnOk result (All (λ hart. hart < length self.old.harts) turns.now) }
        ensures err { IfErr result (λ e. self.new ≡ run self.old (take e.at turns.now)) }
        ensures within { IfErr result (λ e. e.at < length turns.now) }
        ensures unknown { IfErr result (λ e. length self.old.harts ≤ slice_index turns.now e.at) }
        ensures first { IfErr result (λ e. All (λ hart. hart < length self.old.harts) (take e.at turns.now)) }
    {
        for (at, hart) in turns.iter().enumerate() {
            let hart = *hart as usize;
            if hart >= self.harts() {
                return Err(UnknownHart { at });
            }
            let _ = self.turn(hart);
        }
        Ok(())
    }

    /// Turns of one hart, one after the other, until one doesn't step or this many are made. Takes no memory.
    pub fn step_on(&mut self, hart: usize, most: u64) -> TurnsMade
        requires there { hart < length self.old.harts }
        requires some { 1 ≤ most }
        ensures state { self.new ≡ run self.old (replicate result.made hart) }
        ensures stretch { AreTurnsMade self.old hart most result.made result.last }
        ensures shape { KeepsShape self.old self.new }
    {
        let Status::Running = self.status(hart) else {
            return TurnsMade {
                made: 1,
                last: Outcome::Idle,
            };
        };
        let running = &mut self.harts[hart];
        run_alone(running, &mut self.memory, &self.meanings, most)
    }

    /// This many turns of one hart, one after the other, and the last one's outcome. A hart that isn't
    /// running makes all that are left at once, since they change nothing. Takes no memory.
    pub fn run_same(&mut self, hart: usize, turns: u64) -> Outcome
        requires there { hart < length self.old.harts }
        requires some { 1 ≤ turns }
        ensures state { self.new ≡ run self.old (replicate turns hart) }
        ensures outcome { result ≡ outcome (run self.old (replicate (turns - 1) hart)) hart }
        ensures shape { KeepsShape self.old self.new }
    {
        let stretch = self.step_on(hart, turns);
        if stretch.made == turns {
            stretch.last
        } else {
            Outcome::Idle
        }
    }

    /// One turn of a hart that runs.
    #[inline(always)]
    fn turn_running(&mut self, hart: usize) -> Outcome
        requires there { hart < length self.old.harts }
        requires runs { (hart_at self.old hart).status ≡ Status.Running }
        ensures state { self.new ≡ turn self.old hart }
        ensures outcome { result ≡ outcome self.old hart }
    {
        let running = &mut self.harts[hart];
        run_alone(running, &mut self.memory, &self.meanings, 1).last
    }

    /// How many harts there are.
    pub fn harts(&self) -> usize
        ensures { result ≡ length self.now.harts }
    {
        self.harts.len()
    }

    /// A hart, to be looked at.
    pub fn hart(&self, hart: usize) -> &Hart
        requires { hart < length self.now.harts }
        ensures { result.now ≡ hart_at self.now hart }
    {
        &self.harts[hart]
    }

    /// A hart's program counter.
    pub fn pc(&self, hart: usize) -> u32
        requires { hart < length self.now.harts }
        ensures { result ≡ (hart_at self.now hart).pc }
    {
        self.harts[hart].pc()
    }

    /// What an integer register of a hart holds.
    pub fn register(&self, hart: usize, r: Reg) -> u32
        requires { hart < length self.now.harts }
        ensures { result ≡ register (hart_at self.now hart) r }
    {
        self.harts[hart].register(r)
    }

    /// The 16 bytes of a vector register of a hart, byte 0 first.
    pub fn vector(&self, hart: usize, v: VReg) -> [u8; 16]
        requires { hart < length self.now.harts }
        ensures { result ≡ vector (hart_at self.now hart) v }
    {
        self.harts[hart].vector(v)
    }

    /// A hart's vl, the number of elements that vector instructions work on.
    pub fn vl(&self, hart: usize) -> u32
        requires { hart < length self.now.harts }
        ensures { result ≡ (hart_at self.now hart).vl }
    {
        self.harts[hart].vl()
    }

    /// A hart's vtype register.
    pub fn vtype(&self, hart: usize) -> u32
        requires { hart < length self.now.harts }
        ensures { result ≡ (hart_at self.now hart).vtype }
    {
        self.harts[hart].vtype()
    }

    /// Whether a hart runs, has finished, or has trapped.
    pub fn status(&self, hart: usize) -> Status
        requires { hart < length self.now.harts }
        ensures { result ≡ (hart_at self.now hart).status }
    {
        self.harts[hart].status()
    }

    /// Whether all harts have finished.
    pub fn is_finished(&self) -> bool
        ensures { result ≡ all_finished self.now }
    {
        self.harts.iter().all(|hart| hart.has_finished())
    }

    /// The word at an address, and `None` where the address is no multiple of 4 or not all four bytes
    /// are text or data.
    pub fn word(&self, address: u32) -> Option<u32>
        ensures { result ≡ word_in self.now address }
    {
        match read_u32(&self.memory, address) {
            Ok(word) => Some(word),
            Err(_) => None,
        }
    }
}

/// Turns of a hart that runs, over a memory whose words mean this, until one doesn't step or so many are made: it runs
/// on exactly where a turn steps, so that its status is never read. Hart, memory and meanings are found once for all
/// turns, and the program counter is held beside the hart.
fn run_alone(hart: &mut Hart, memory: &mut Memory, meanings: &[Meaning], most: u64) -> TurnsMade
    requires runs { hart.old.status ≡ Status.Running }
    requires meant { meanings.now ≡ map word_meaning memory.old.text }
    requires few { length meanings.now ≤ most_words }
    requires some { 1 ≤ most }
    ensures state { alone memory.new hart.new ≡ run (alone memory.old hart.old) (replicate result.made 0) }
    ensures text { memory.new.text ≡ memory.old.text }
    ensures stretch { AreTurnsMade (alone memory.old hart.old) 0 most result.made result.last }
{
    let (left, last) = run_down(hart, memory, meanings, most);
    TurnsMade {
        made: most - (left - 1),
        last,
    }
}

/// The same, with how many turns were left before the last one. A loop that counts them down keeps nothing else of
/// them; and all turns are made in it, so that the table of the instructions is laid in once.
#[inline(never)]
fn run_down(hart: &mut Hart, memory: &mut Memory, meanings: &[Meaning], most: u64) -> (u64, Outcome)
    requires runs { hart.old.status ≡ Status.Running }
    requires meant { meanings.now ≡ map word_meaning memory.old.text }
    requires few { length meanings.now ≤ most_words }
    requires some { 1 ≤ most }
    ensures within { (1 ≤ result.0) × (result.0 ≤ most) }
    ensures state { alone memory.new hart.new
        ≡ run (alone memory.old hart.old) (replicate (most - (result.0 - 1)) 0) }
    ensures text { memory.new.text ≡ memory.old.text }
    ensures stretch { AreTurnsMade (alone memory.old hart.old) 0 most (most - (result.0 - 1)) result.1 }
{
    let mut left = most;
    let mut pc = hart.pc();
    loop {
        match step_meant(hart, pc, memory, meanings) {
            Ok(next) => pc = next,
            Err(last) => return (left, last),
        }
        left -= 1;
        if left == 0 {
            return (1, Outcome::Stepped);
        }
    }
}

/// One turn of a hart that runs and is there, over a memory whose words mean this: where it goes on, or the turn's
/// outcome, where it doesn't step.
#[inline(always)]
fn step_meant(
    hart: &mut Hart,
    pc: u32,
    memory: &mut Memory,
    meanings: &[Meaning],
) -> Result<u32, Outcome>
    requires runs { hart.old.status ≡ Status.Running }
    requires here { pc ≡ hart.old.pc }
    requires meant { meanings.now ≡ map word_meaning memory.old.text }
    requires few { length meanings.now ≤ most_words }
    ensures state { alone memory.new hart.new ≡ turn (alone memory.old hart.old) 0 }
    ensures text { memory.new.text ≡ memory.old.text }
    ensures next { IfOk result (λ next. next ≡ hart.new.pc) }
    ensures stepped { OnOk result (outcome (alone memory.old hart.old) 0 ≡ Outcome.Stepped) }
    ensures outcome { IfErr result (λ last. last ≡ outcome (alone memory.old hart.old) 0) }
    ensures ended { IfErr result (λ last. last ≢ Outcome.Stepped) }
{
    match meaning_at(meanings, pc) {
        Some(meaning) => hart.step_from(pc, memory, meaning),
        None => {
            let outcome = hart.step(memory);
            hart.came_to(outcome)
        }
    }
}

/// What the word at an address of text means, found among what all words of the text mean, and `None` where no word
/// begins there.
fn meaning_at(meanings: &[Meaning], pc: u32) -> Option<&Meaning>
    requires { length meanings.now ≤ most_words }
    ensures { (text : List ℕ) → meanings.now ≡ map word_meaning text
        → option_map (λ meaning. insn_of meaning.now) result ≡ option_map decoded (fetched text pc) }
{
    meanings.get(place_at(offset_in_text(pc)) as usize)
}

/// The place of the word at an offset, and a place past every text where the offset is no multiple of 4: rotated to
/// the right, its low bits are the highest.
fn place_at(offset: u32) -> u32
    ensures { result ≡ offset % 4 * 2 ^ 30 + offset / 4 }
{
    offset.rotate_right(2)
}

/// How far an address lies after the start of text, and a number beyond every text where it lies before.
fn offset_in_text(pc: u32) -> u32
    ensures behind { text_start ≤ pc → result ≡ pc - text_start }
    ensures before { pc < text_start → 4 * most_words ≤ result }
{
    pc.wrapping_sub(TEXT_START)
}
