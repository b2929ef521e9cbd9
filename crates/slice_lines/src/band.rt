// The column lines of a slice. They are swept as one band, row by row, so that memory is read in order.
ghost use Rattle.std.specs.Prelude.{◌*◌, ◌≤◌, ◌<◌, ◌≡◌, length, IfSome};
ghost use Rattle.columns.specs.Bands.{Swept};
ghost use Rattle.slice_lines.specs.Lines.{reached, FirstBad};

use columns::{Band, bad_band, sweep};

// The first column of the band with a bad byte. The band is tested whole first: a good one, as nearly all are, is read once
// and in order.
fn first_bad(band: Band, picture: &[u8]) -> Option<usize>
    requires { length picture.now ≡ band.board.w * band.board.h }
    ensures first { FirstBad band.board.w band.board.h band.from band.to picture.now (reached band.to result) }
    ensures inside { IfSome result (λ x. x < band.to) }
{
    if !bad_band(band, picture) {
        return None;
    }
    (band.from..band.to).find(
        |&x|
            requires { (x < band.board.w) × (length picture.now ≡ band.board.w * band.board.h) }
        {
            let column = Band {
                board: band.board,
                from: x,
                to: x + 1,
            };
            bad_band(column, picture)
        },
    )
}

// The column lines of the band, up to the first that has a bad byte: which that is. A band of no column is left at once: a
// call that begins at a row would else go down all rows of it.
pub fn column_lines(band: Band, picture: &[u8], scratch: &mut [u32]) -> Option<usize>
    requires picture_is { length picture.now ≡ band.board.w * band.board.h }
    requires scratch_from { band.board.w * band.board.h ≤ length scratch.old }
    ensures first { FirstBad band.board.w band.board.h band.from band.to picture.now (reached band.to result) }
    ensures inside { IfSome result (λ x. x < band.to) }
    ensures swept { Swept band.board.w band.board.h band.from (reached band.to result) picture.now
        scratch.old scratch.new }
{
    if band.from == band.to {
        return None;
    }
    let bad = first_bad(band, picture);
    let end = bad.unwrap_or(band.to);
    let good = Band {
        board: band.board,
        from: band.from,
        to: end,
    };
    sweep(good, picture, scratch);
    bad
}
