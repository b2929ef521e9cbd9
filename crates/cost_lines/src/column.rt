// The columns of a cost picture: the engine along each, from the costs to the column words.
ghost use Rattle.std.specs.Prelude.{ℕ, ◌*◌, ◌≤◌, ◌<◌, ◌≡◌, length, get_or};
ghost use Rattle.rules.specs.Answers.{kind_number};
ghost use Rattle.rules.specs.Refusals.{scratch_words};
ghost use Rattle.cost_lines.specs.Lines.{cell_value, Gathered, winner_word, Scattered};
ghost use Rattle.cost_lines.specs.After.{ColumnsAfter, ColumnMore};

use crate::CostPicture;
use envelope::winners_of;
use rules::sized::Board;
use rules::{LINE_LIMIT, MARK};

// What a cell stands at in its column: its cost, or a value above every true one for a marked cell.
fn cell_value(cost: u32) -> u64
    ensures { result ≡ cell_value cost }
{
    if cost == MARK {
        return LINE_LIMIT;
    }
    u64::from(cost)
}

// The values of column x.
fn gather(picture: &CostPicture, x: usize, values: &mut [u64])
    requires column_in { x < picture.now.board.w }
    requires values_long { length values.old ≡ picture.now.board.h }
    ensures { Gathered picture.now.board.w x picture.now.costs.now values.new }
{
    for (j, value) in values.iter_mut().enumerate() {
        *value = cell_value(picture.costs[j * picture.board.w + x]);
    }
}

// The word of a place that row j wins. Where even the winner is a marked cell, the column has no other.
fn winner_word(values: &[u64], j: u32) -> u32
    requires { j < length values.now }
    ensures { result ≡ winner_word values.now j }
{
    if values[j as usize] == LINE_LIMIT {
        MARK
    } else {
        j
    }
}

// The words of column x from its winners.
fn scatter(w: usize, x: usize, values: &[u64], winners: &[u32], words: &mut [u32])
    requires column_in { x < w }
    requires room { w * length values.now ≤ length words.old }
    requires as_long { length winners.now ≡ length values.now }
    requires rows_in { (y : ℕ) → y < length values.now → get_or winners.now y 0 < length values.now }
    ensures { Scattered w x values.now winners.now words.old words.new }
{
    for (y, &winner) in winners.iter().enumerate() {
        words[y * w + x] = winner_word(values, winner);
    }
}

// The column line of column x. The engine works in the scratch words past the cells.
fn column_line(
    picture: &CostPicture,
    x: usize,
    values: &mut [u64],
    winners: &mut [u32],
    scratch: &mut [u32],
)
    requires column_in { x < picture.now.board.w }
    requires values_long { length values.old ≡ picture.now.board.h }
    requires winners_long { length winners.old ≡ picture.now.board.h }
    requires scratch_long { let b = picture.now.board in length scratch.old ≡ scratch_words b.w b.h }
    ensures { let p = picture.now in ColumnMore (kind_number p.g.now.kind) p.board.w p.board.h x p.costs.now
        scratch.old scratch.new }
{
    let Board { w, h } = picture.board;
    let tail = w * h;
    let rest = tail + h + h;
    gather(picture, x, values);
    winners_of(picture.g, values, &mut scratch[tail..rest], winners);
    scatter(w, x, values, winners, scratch);
}

// Every column, from the left.
pub fn all_columns(
    picture: &CostPicture,
    values: &mut [u64],
    winners: &mut [u32],
    scratch: &mut [u32],
)
    requires values_long { length values.old ≡ picture.now.board.h }
    requires winners_long { length winners.old ≡ picture.now.board.h }
    requires scratch_long { let b = picture.now.board in length scratch.old ≡ scratch_words b.w b.h }
    ensures { let p = picture.now in ColumnsAfter (kind_number p.g.now.kind) p.board.w p.board.h p.costs.now
        scratch.new p.board.w }
{
    for x in 0..picture.board.w {
        column_line(picture, x, values, winners, scratch);
    }
}
