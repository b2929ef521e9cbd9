// The records of a bench file: 4 bytes each, the column and then the row of a bore, each a little-endian u16. The tests
// of its bytes, and the picture that its records bore: all that reads the bytes, and nothing that knows of maps.
#![tactic(auto)]

ghost use Rattle.std.specs.Prelude.{◌*◌, ◌<◌, ◌≡◌, false, length};
ghost use Rattle.std.specs.Int.{from_bool};
ghost use Rattle.rules.specs.Limits.{bench_side};
ghost use Rattle.rules.specs.BenchFile.{u16_of, off_board};
ghost use Rattle.rules.specs.Refusals.{bad_length};
ghost use Rattle.bench_records.specs.Boring.{BoredCell, BoredBy};

use rules::{BENCH_SIDE, FILE_LIMIT};

// The board's side, as a number of columns or rows.
pub const BOARD_SIDE: usize = BENCH_SIDE as usize;

// 10: the length is not a multiple of 4, or over the limit.
#[tactic(auto, unfolding(rules::specs::Refusals::bad_length))]
pub fn bad_length(bytes: usize) -> bool
    ensures { result ≡ bad_length bytes }
{
    bytes % 4 != 0 || FILE_LIMIT < bytes
}

// The coordinate of two bytes.
fn coordinate(low: u8, high: u8) -> usize
    ensures { result ≡ u16_of low high }
{
    usize::from(u16::from_le_bytes([low, high]))
}

// 11: a coordinate of some record is off the board. Fewer than 4 bytes at the end are no record.
pub fn off_board(file: &[u8]) -> bool
    ensures { result ≡ off_board file.now }
{
    file.chunks_exact(4).any(|record| {
        BOARD_SIDE <= coordinate(record[0], record[1])
            || BOARD_SIDE <= coordinate(record[2], record[3])
    })
}

// Bores one cell, and answers whether it was sound, so that a repeated record counts once.
fn bore_cell(picture: &mut [u8], cell: usize) -> bool
    requires { cell < length picture.old }
    ensures { BoredCell cell picture.old picture.new (from_bool result) }
{
    let sound = picture[cell] != 1;
    picture[cell] = 1;
    sound
}

// Bores the cell of each record in turn, and answers how many cells were sound before.
pub fn bore(file: &[u8], picture: &mut [u8]) -> u32
    requires on_board { off_board file.now ≡ false }
    requires picture_is { length picture.old ≡ bench_side * bench_side }
    ensures { BoredBy file.now picture.old picture.new result }
{
    let mut bores = 0;
    for record in file.chunks_exact(4) {
        let x = coordinate(record[0], record[1]);
        let y = coordinate(record[2], record[3]);
        bores += u32::from(bore_cell(picture, y * BOARD_SIDE + x));
    }
    bores
}
