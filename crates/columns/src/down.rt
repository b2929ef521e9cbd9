// The down sweep: each cell gets the last bored row at or above it, or the mark.
ghost use Rattle.std.specs.Prelude.{◌+◌, ◌-◌, ◌*◌, ◌≤◌, ◌≡◌, length};
ghost use Rattle.columns.specs.Words.{Carried};
ghost use Rattle.columns.specs.Rows.{BandRow, BandRows, Topped, Stepped, Lowered};

use crate::Band;
use rules::MARK;

// The word of a cell in row y, from its byte and the word above it.
fn carried(byte: u8, y: u32, above: u32) -> u32
    ensures { Carried byte y above result }
{
    if byte == 1 { y } else { above }
}

// The top row, over which nothing is bored.
fn top_row(band: Band, picture: &[u8], words: &mut [u32])
    requires picture_to { band.to ≤ length picture.now }
    requires words_to { band.to ≤ length words.old }
    ensures { BandRow 0 band.from band.to (Topped picture.now) words.old words.new }
{
    for x in band.from..band.to {
        words[x] = carried(picture[x], 0, MARK);
    }
}

// Row y, which begins at `start`, from the row over it.
fn down_row(band: Band, start: usize, y: u32, picture: &[u8], words: &mut [u32])
    requires row_over { band.board.w ≤ start }
    requires picture_to { start + band.board.w ≤ length picture.now }
    requires words_to { start + band.board.w ≤ length words.old }
    ensures { BandRow start band.from band.to (Stepped (start - band.board.w) start y picture.now words.old)
        words.old words.new }
{
    let above = start - band.board.w;
    for x in band.from..band.to {
        words[start + x] = carried(picture[start + x], y, words[above + x]);
    }
}

// The whole sweep, from the top row down.
pub fn down_rows(band: Band, picture: &[u8], words: &mut [u32])
    requires picture_is { length picture.now ≡ band.board.w * band.board.h }
    requires words_from { band.board.w * band.board.h ≤ length words.old }
    ensures { BandRows band.board.w band.from band.to 0 band.board.h (Lowered band.board.w picture.now)
        words.old words.new }
{
    top_row(band, picture, words);
    let mut start = band.board.w;
    let mut y = 1;
    // A `for` over y, tried, is eight times slower: by the start alone the compiler sees in each row that the two lie apart.
    while start < picture.len() {
        down_row(band, start, y, picture, words);
        start += band.board.w;
        y += 1;
    }
}
