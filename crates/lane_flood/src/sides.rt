// The four sides of a cell.
ghost use Rattle.std.specs.Prelude.{◌<◌, ◌≡◌};
ghost use Rattle.rules.specs.Board.{column};
ghost use Rattle.lane_flood.specs.Around.{InRows, side_number, Beside};

// A side of a cell.
#[derive(Clone, Copy, Debug, PartialEq, Eq)]
pub enum Side {
    Above,
    Left,
    Right,
    Below,
}

// The four, in the order in which the cells on them have rising numbers.
pub const SIDES: [Side; 4] = [Side::Above, Side::Left, Side::Right, Side::Below];

// The cell on that side of the cell c, which stands in column x, or none where the board ends.
pub fn beside(w: usize, n: usize, x: usize, c: usize, side: Side) -> Option<usize>
    requires rows { InRows w n }
    requires inside { c < n }
    requires column { x ≡ column w c }
    ensures { Beside w n c (side_number side) result }
{
    match side {
        Side::Above if w <= c => Some(c - w),
        Side::Left if x != 0 => Some(c - 1),
        Side::Right if x + 1 != w => Some(c + 1),
        Side::Below if c + w < n => Some(c + w),
        _ => None,
    }
}
