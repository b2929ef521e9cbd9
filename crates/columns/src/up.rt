// The up sweep: each cell gets the row of the nearest bore of its column, from what the down sweep left.
ghost use Rattle.std.specs.Prelude.{◌+◌, ◌*◌, ◌≤◌, length};
ghost use Rattle.columns.specs.Words.{Nearer};
ghost use Rattle.columns.specs.Rows.{BandRow, BandRows, Lifted, Raised};

use crate::Band;

// The word of a cell in row y, from the word that it has from above and the word of the row below. The mark is greater
// than any row, so it needs no test of its own.
fn nearer(y: u32, above: u32, below: u32) -> u32
    ensures { Nearer y above below result }
{
    if below <= y {
        return above;
    }
    if y < above {
        return below;
    }
    if below - y < y - above { below } else { above }
}

// Row y, which begins at `start`, from the row below it.
fn up_row(band: Band, start: usize, y: u32, words: &mut [u32])
    requires { start + band.board.w + band.board.w ≤ length words.old }
    ensures { BandRow start band.from band.to (Lifted start (start + band.board.w) y words.old)
        words.old words.new }
{
    let below = start + band.board.w;
    for x in band.from..band.to {
        words[start + x] = nearer(y, words[start + x], words[below + x]);
    }
}

// The whole sweep, from the last row but one up.
pub fn up_rows(band: Band, words: &mut [u32])
    requires { band.board.w * band.board.h ≤ length words.old }
    ensures { BandRows band.board.w band.from band.to 0 band.board.h (Raised band.board.w band.board.h words.old)
        words.old words.new }
{
    let last = band.board.h - 1;
    let mut start = last * band.board.w;
    let mut y = last as u32;
    // A `for` over y, tried, is slower here too, for the reason of the down sweep.
    while 0 < start {
        start -= band.board.w;
        y -= 1;
        up_row(band, start, y, words);
    }
}
