//! Groups of vector registers that hold a number for each iteration of a loop.

ghost use Rattle.std.specs.Prelude.{◌≡◌, ◌*◌, ◌<◌, ◌≤◌};
ghost use Rattle.task_code_lanes.specs.Groups as spec;

use rv_insn::Vtype11;

/// The register in which bytes wait before they become lanes.
pub const BYTE_SPARE: u8 = 1;

/// How many vector registers a group has: 4, 8 or 16 lanes take 1, 2 or 4.
#[derive(Clone, Copy, Debug, PartialEq, Eq)]
pub enum LaneGroup {
    One,
    Two,
    Four,
}

impl LaneGroup {
    /// The group with this many lanes, if there is one.
    pub fn of_lanes(count: u32) -> Option<LaneGroup>
        ensures { result ≡ spec.group_of_lanes count }
    {
        if count == 4 {
            Some(LaneGroup::One)
        } else if count == 8 {
            Some(LaneGroup::Two)
        } else if count == 16 {
            Some(LaneGroup::Four)
        } else {
            None
        }
    }

    /// How many registers it has.
    fn registers(self) -> u8
        ensures { (result ≡ spec.registers self) × (result ≤ 4) }
    {
        match self {
            LaneGroup::One => 1,
            LaneGroup::Two => 2,
            LaneGroup::Four => 4,
        }
    }

    /// How many lanes of 32 bits it has.
    pub fn lanes(self) -> u32
        ensures { result ≡ 4 * spec.registers self }
    {
        4 * u32::from(self.registers())
    }

    /// How many groups the stack has.
    pub fn slots(self) -> u8
        ensures { (result ≡ spec.slots self) × (result ≤ 30) }
    {
        match self {
            LaneGroup::One => 30,
            LaneGroup::Two => 14,
            LaneGroup::Four => 7,
        }
    }

    /// The configuration of lanes of 32 bits in such groups.
    pub fn vtype(self) -> Vtype11
        ensures { result ≡ spec.vtype_of self }
    {
        let bits = match self {
            LaneGroup::One => 16,
            LaneGroup::Two => 17,
            LaneGroup::Four => 18,
        };
        Vtype11::new(bits).unwrap()
    }

    /// The first register of the scratch group.
    pub fn spare(self) -> u8
        ensures { (result ≡ spec.spare self) × (result < 32) }
    {
        match self {
            LaneGroup::One => 1,
            LaneGroup::Two => 2,
            LaneGroup::Four => 0,
        }
    }

    /// The first register of a group of the stack.
    pub fn slot(self, number: u8) -> u8
        requires { number < spec.slots self }
        ensures { (result ≡ spec.slot self number) × (result < 32) }
    {
        match self {
            LaneGroup::One => number + 2,
            LaneGroup::Two => 2 * (number + 2),
            LaneGroup::Four => 4 * (number + 1),
        }
    }
}
