//! Configuration: how many elements of which width instructions work on.

ghost use Rattle.std.specs.Prelude.{◌≡◌, true, false, OnOk, OnErr, IfOk, IfErr};
ghost use Rattle.rv_insn.specs.declared.outcomes.Trap.TheVariants.{IllegalInstruction};
ghost use Rattle.vector_unit.specs.Vector.{asked_by, configured, is_illegal_configuration, is_supported};
ghost use Rattle.vector_unit.specs.inner.Wholes.{is_whole_of};

use crate::states::{VILL, VILL_COUNT, VectorState};
use crate::vtypes::{is_supported, most_elements};
use rv_insn::{Reg, Trap};

/// How many elements a configuration asks for.
#[derive(Clone, Copy, Debug, PartialEq, Eq)]
pub enum RequestedLength {
    /// This many, if they fit.
    AtMost(u32),
    /// As many as a group has.
    AsManyAsFit,
    /// As many as before.
    AsBefore,
}

impl RequestedLength {
    /// What vsetvli and vsetvl ask for, by their registers and the number in `rs1`.
    pub fn by(rd: Reg, rs1: Reg, number: u32) -> RequestedLength
        ensures { result ≡ asked_by rd rs1 number }
    {
        if rs1.number() != 0 {
            RequestedLength::AtMost(number)
        } else if rd.number() == 0 {
            RequestedLength::AsBefore
        } else {
            RequestedLength::AsManyAsFit
        }
    }
}

impl VectorState {
    /// Configures the unit, and says how many elements it works on now. A vtype that is not supported
    /// leaves no configuration and no elements. Refused, with nothing changed, where the number of
    /// elements is to be as before and can't be.
    pub fn configure(&mut self, vtype: u32, asked: RequestedLength) -> Result<u32, Trap>
        ensures legal { OnOk result (is_illegal_configuration self.old vtype asked ≡ false) }
        ensures done { OnOk result (self.new ≡ configured self.old vtype asked) }
        ensures vl { IfOk result (λ vl. vl ≡ self.new.vl) }
        ensures illegal { OnErr result (is_illegal_configuration self.old vtype asked ≡ true) }
        ensures trap { IfErr result (λ trap. trap ≡ IllegalInstruction) }
        ensures unchanged { OnErr result (self.new ≡ self.old) }
    {
        if !is_supported(vtype) {
            self.vl = 0;
            self.vtype = VILL;
            self.count = VILL_COUNT;
            self.is_configured = false;
            self.is_whole = false;
            return Ok(0);
        }
        let most = most_elements(vtype);
        let vl = match asked {
            RequestedLength::AtMost(count) => count.min(most),
            RequestedLength::AsManyAsFit => most,
            RequestedLength::AsBefore => {
                if self.has_vill() || self.count != most {
                    return Err(Trap::IllegalInstruction);
                }
                self.vl
            }
        };
        self.vl = vl;
        self.vtype = vtype;
        self.count = most;
        self.is_configured = true;
        self.is_whole = is_whole(vtype, vl);
        Ok(vl)
    }
}

/// Whether elements are words under a supported vtype, and this many are all of a group.
fn is_whole(vtype: u32, vl: u32) -> bool
    requires { is_supported vtype ≡ true }
    ensures { result ≡ is_whole_of vtype vl }
{
    vtype / 8 % 8 == 2 && most_elements(vtype) <= vl
}
