// The two sweeps over a band of columns, and the test of the band's bytes. Rows are taken one after the other, so that
// memory is read in order.
#![tactic(auto)]

ghost use Rattle.std.specs.Prelude.{◌+◌, ◌*◌, ◌≤◌, ◌≡◌, length};
ghost use Rattle.columns.specs.Bands.{Swept, BadBand};
ghost use Rattle.columns.specs.Rows.{Most};

use crate::down::down_rows;
use crate::up::up_rows;
use rules::sized::Board;

mod down;
mod up;

// A band of a board: its columns from `from` up to `to`, with `from` and without `to`.
#[derive(Clone, Copy)]
pub struct Band {
    pub board: Board,
    pub from: usize,
    pub to: usize,
    ghost ordered: { from ≤ to },
    ghost columns_in: { to ≤ board.w },
}

// Down, then up: each cell of the band gets the row of the nearest bore of its column, the upper one on a tie, or the
// mark where the column has none.
pub fn sweep(band: Band, picture: &[u8], words: &mut [u32])
    requires picture_is { length picture.now ≡ band.board.w * band.board.h }
    requires words_from { band.board.w * band.board.h ≤ length words.old }
    ensures { Swept band.board.w band.board.h band.from band.to picture.now words.old words.new }
{
    down_rows(band, picture, words);
    up_rows(band, words);
}

// 5, of a band: some byte of it is neither 0 nor 1.
pub fn bad_band(band: Band, picture: &[u8]) -> bool
    requires { length picture.now ≡ band.board.w * band.board.h }
    ensures { BadBand band.board.w band.board.h band.from band.to picture.now result }
{
    (0..band.board.h).any(|y| 1 < row_most(band, y * band.board.w, picture))
}

// The greatest byte of the band in the row that begins at `start`, or 0 where the band has no column.
fn row_most(band: Band, start: usize, picture: &[u8]) -> u8
    requires { start + band.to ≤ length picture.now }
    ensures { Most start band.from band.to picture.now result }
{
    picture[start + band.from..start + band.to]
        .iter()
        .copied()
        .fold(0, u8::max)
}
