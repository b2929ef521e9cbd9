// The board of kind 3: with its two weights.
ghost use Rattle.rules.specs.Measures.{Weights};
ghost use Rattle.rules.specs.Table.{weight};
ghost use Rattle.std.specs.Prelude.{◌≡◌};

use rules::Choice;
use rules::sized::Board;

// A board, with the weights of a straight and of a slanted step.
#[derive(Clone, Copy)]
pub struct Chamfer {
    pub board: Board,
    pub d1: u32,
    pub d2: u32,
    ghost weights: { Weights d1 d2 },
}

impl Chamfer {
    // The weight that a step chooses.
    pub(crate) fn weight_of(self, choice: Choice) -> u32
        ensures { result ≡ weight self.d1 self.d2 choice }
    {
        match choice {
            Choice::D1 => self.d1,
            Choice::D2 => self.d2,
        }
    }
}
