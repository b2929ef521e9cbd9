// The board: how many columns and rows it has.
ghost use Rattle.std.specs.Prelude.{◌*◌, ◌≡◌};
ghost use Rattle.rules.specs.Board.{Sides};

// A board of w columns and h rows, each from 1 to the side limit.
#[derive(Clone, Copy)]
pub struct Board {
    pub w: usize,
    pub h: usize,
    ghost sides: { Sides w h },
}

impl Board {
    // How many cells it has.
    pub fn cells(self) -> usize
        ensures { result ≡ self.w * self.h }
    {
        self.w * self.h
    }
}
