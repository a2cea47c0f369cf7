//! A text whose turns are traced, and what is known of its words.

ghost use Rattle.std.specs.Prelude.{◌≡◌, ◌≤◌, ◌<◌, ◌||◌, length, unwrap_or, IfOk};
ghost use Rattle.memory.specs.Access.{fetched, most_words};
ghost use Rattle.turn_accesses.specs.Accesses.{reads_in, writes_in};
ghost use Rattle.turn_accesses.specs.Quiet.{IsQuietFrom};
ghost use Rattle.turn_traces.specs.TraceText.{reads_next, writes_next};

use memory::TEXT_START;
use multi_hart::Machine;
use rv_insn::Insn;
use std::alloc::{AllocError, Global};
use std::marker::Model;
use turn_accesses::{Accesses, accesses_of, next_accesses, quiet_at, quiets_of};

/// The words of a text, which of them touch memory, and how many don't from each on. A contract sees the words.
pub struct TracedText {
    words: Vec<u32>,
    insns: Vec<Option<Insn>>,
    quiets: Vec<u32>,
}

impl Model for TracedText {
    ghost use Rattle.std.specs.Prelude.{◌≡◌, ◌≤◌, ℕ, List, length, map};
    ghost use Rattle.memory.specs.Access.{most_words};
    ghost use Rattle.turn_accesses.specs.Accesses.{access_in};
    ghost use Rattle.turn_accesses.specs.Quiet.{AreCounts};

    ghost Value = { List ℕ };

    ghost view = { λ t. t.words.items };

    ghost invariant = { λ t. (t.insns.items ≡ map access_in t.words.items) × (length t.insns.items ≤ most_words) ×
        (length t.words.items ≤ most_words) × AreCounts t.words.items t.quiets.items };
}

impl Drop for TracedText {
    fn drop(self) {
        let TracedText {
            words,
            insns,
            quiets,
        } = self;
        drop(words);
        drop(insns);
        drop(quiets);
    }
}

impl TracedText {
    /// The text of these words. It takes memory by the word.
    pub fn of(alloc: Global, words: &[u32]) -> Result<TracedText, AllocError>
        requires { length words.now ≤ most_words }
        ensures { IfOk result (λ traced. traced ≡ words.now) }
    {
        let insns = accesses_of(alloc, words)?;
        let quiets = quiets_of(alloc, words)?;
        Ok(TracedText {
            words: words.to_vec(alloc)?,
            insns,
            quiets,
        })
    }

    /// The word at an address, and 0 where there is none.
    pub(crate) fn word_at(&self, pc: u32) -> u32
        ensures { result ≡ unwrap_or (fetched self.now pc) 0 }
    {
        if pc < TEXT_START || !pc.is_multiple_of(4) {
            return 0;
        }
        self.words
            .get(((pc - TEXT_START) / 4) as usize)
            .copied()
            .unwrap_or(0)
    }

    /// How many of the words from an address on are executed one after the other and touch no memory.
    pub(crate) fn quiet_at(&self, pc: u32) -> u32
        ensures quiet { 1 ≤ result → IsQuietFrom self.now pc result }
        ensures few { length self.now ≤ most_words }
    {
        quiet_at(&self.quiets, pc)
    }

    /// What the next turn of a hart touches.
    pub(crate) fn next_accesses(&self, machine: &Machine, hart: usize) -> Accesses
        requires text { self.now ≡ machine.now.text }
        requires there { hart < length machine.now.harts }
        ensures reads { reads_in result ≡ reads_next machine.now hart }
        ensures writes { writes_in result ≡ writes_next machine.now hart }
    {
        next_accesses(machine.hart(hart), &self.insns, machine.data().len())
    }
}
