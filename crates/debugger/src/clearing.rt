//! Marks that are taken away.

ghost use Rattle.std.specs.Prelude.{◌≡◌, ◌≤◌, length};
ghost use Rattle.debugger.specs.Clearing.{without};

use crate::sessions::Session;

impl Session {
    /// Takes the break at an address away, if one is set there.
    pub fn clear_break(&mut self, pc: u32)
        ensures state { self.new.state ≡ record self.old.state { breaks = without self.old.state.breaks pc } }
        ensures steps { self.new.steps ≡ self.old.steps }
    {
        clear(&mut self.breaks, pc);
    }

    /// Takes the watch of a word away, if one is set there.
    pub fn clear_watch(&mut self, address: u32)
        ensures state { self.new.state ≡ record self.old.state { watches = without self.old.state.watches address } }
        ensures steps { self.new.steps ≡ self.old.steps }
    {
        clear(&mut self.watches, address);
    }
}

/// Takes the marks at an address away.
fn clear(marks: &mut Vec<u32>, address: u32)
    ensures others { marks.new.items ≡ without marks.old.items address }
    ensures fewer { length marks.new.items ≤ length marks.old.items }
{
    marks.retain(|mark| *mark != address);
}
