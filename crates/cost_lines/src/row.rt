// The rows of a cost picture: from the column words to the map. What a column stands at is the costs' own; filling a line,
// and what comes of a filled one, are the rows' own functions.
ghost use Rattle.std.specs.Prelude.{◌*◌, ◌<◌, ◌≡◌, length};
ghost use Rattle.rules.specs.Answers.{kind_number};
ghost use Rattle.rules.specs.Limits.{side_limit};
ghost use Rattle.rules.specs.Refusals.{scratch_words};
ghost use Rattle.cost_lines.specs.Lines.{Priced, column_value};
ghost use Rattle.cost_lines.specs.After.{ColumnsAfter, RowsAfter, RowMore};

use crate::CostPicture;
use rows::{fill, line_out};
use rules::sized::Board;
use rules::{LINE_LIMIT, MARK};

// What column i stands at in row y: the difference of rows to the row that its word names, lifted, and the cost there;
// or a value above every true one for a column with no feature.
fn column_value(picture: &CostPicture, y: usize, i: usize, word: u32) -> u64
    requires row_in { y < side_limit }
    requires priced { Priced picture.now.board.w picture.now.costs.now i word }
    ensures { let p = picture.now in result ≡ column_value (kind_number p.g.now.kind) p.board.w p.costs.now y i word }
{
    if word == MARK {
        return LINE_LIMIT;
    }
    let row = word as usize;
    picture.g.lifted(y.abs_diff(row)) + u64::from(picture.costs[row * picture.board.w + i])
}

// The row line of row y. The engine works in the scratch words past the cells.
fn row_line(
    picture: &CostPicture,
    y: usize,
    values: &mut [u64],
    scratch: &mut [u32],
    distances: &mut [u32],
    sites: &mut [u32],
)
    requires row_in { y < picture.now.board.h }
    requires columns { let p = picture.now in ColumnsAfter (kind_number p.g.now.kind) p.board.w p.board.h
        p.costs.now scratch.old p.board.w }
    requires values_long { length values.old ≡ picture.now.board.w }
    requires scratch_long { let b = picture.now.board in length scratch.old ≡ scratch_words b.w b.h }
    requires distances_long { length distances.old ≡ picture.now.board.w }
    requires sites_long { length sites.old ≡ picture.now.board.w }
    ensures { let p = picture.now in RowMore (kind_number p.g.now.kind) p.board.w p.board.h y p.costs.now
        scratch.old scratch.new distances.new sites.new }
{
    let Board { w, h } = picture.board;
    let at = y * w;
    let end = at + w;
    fill(&scratch[at..end], values, |i, word| {
        column_value(picture, y, i, word)
    });
    line_out(picture.g, at, w * h, scratch, values, distances, sites);
}

// Every row, from the top.
pub fn all_rows(
    picture: &CostPicture,
    values: &mut [u64],
    scratch: &mut [u32],
    distances: &mut [u32],
    sites: &mut [u32],
)
    requires columns { let p = picture.now in ColumnsAfter (kind_number p.g.now.kind) p.board.w p.board.h
        p.costs.now scratch.old p.board.w }
    requires values_long { length values.old ≡ picture.now.board.w }
    requires scratch_long { let b = picture.now.board in length scratch.old ≡ scratch_words b.w b.h }
    requires distances_long { let b = picture.now.board in length distances.old ≡ b.w * b.h }
    requires sites_long { let b = picture.now.board in length sites.old ≡ b.w * b.h }
    ensures { let p = picture.now in RowsAfter (kind_number p.g.now.kind) p.board.w p.board.h p.costs.now
        distances.new sites.new p.board.h }
{
    let Board { w, h } = picture.board;
    for y in 0..h {
        let at = y * w;
        let end = at + w;
        row_line(
            picture,
            y,
            values,
            scratch,
            &mut distances[at..end],
            &mut sites[at..end],
        );
    }
}
