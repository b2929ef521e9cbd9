// What is counted over random lines.
ghost use Rattle.std.specs.Prelude.{◌+◌, ◌^◌, ◌<◌, ◌≡◌};
ghost use Rattle.line_check.specs.Tallied.{Tallied};

use std::fmt;
use std::ops::AddAssign;

// How many lines were tried, how many places they have, and how many of these had a wrong winner.
#[derive(Clone, Copy, Debug)]
pub struct Tally {
    pub lines: u32,
    pub places: u64,
    pub wrong: u64,
    ghost tallied: { Tallied lines places wrong },
}

// A tally of no line.
impl Default for Tally {
    ghost is_default = { λ tally. tally.lines ≡ 0 };

    fn default() -> Self {
        Tally {
            lines: 0,
            places: 0,
            wrong: 0,
        }
    }
}

impl AddAssign for Tally {
    ghost can_add_assign = { λ before more. before.lines + more.lines < 2 ^ 32 };

    ghost add_assign_gives = { λ before more after. (after.lines ≡ before.lines + more.lines)
        × (after.places ≡ before.places + more.places) × (after.wrong ≡ before.wrong + more.wrong) };

    fn add_assign(&mut self, more: Tally) {
        *self = Tally {
            lines: self.lines + more.lines,
            places: self.places + more.places,
            wrong: self.wrong + more.wrong,
        };
    }
}

// "10000 lines, 500000 places, 0 wrong"
impl fmt::Display for Tally {
    fn fmt<W: fmt::Write>(&self, f: &mut fmt::Formatter<W>) -> fmt::Result {
        write!(
            f,
            "{} lines, {} places, {} wrong",
            self.lines, self.places, self.wrong
        )
    }
}
