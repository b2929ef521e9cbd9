// The lines of a cost picture: the engine along each column, and then along each row.
#![tactic(auto)]

ghost use Rattle.std.specs.Prelude.{◌*◌, ◌≤◌, ◌≡◌, false, length};
ghost use Rattle.rules.specs.Answers.{kind_number};
ghost use Rattle.rules.specs.Limits.{side_limit, cost_kind_limit};
ghost use Rattle.rules.specs.Refusals.{scratch_words, any, bad_cost, all_marked};
ghost use Rattle.cost_lines.specs.After.{FitAccepted, RowsAfter};

use column::all_columns;
use gauge::Gauge;
use row::all_rows;
use rules::sized::Board;

mod column;
mod row;

// A cost picture that has passed the tests, and the gauge of its lines.
#[derive(Clone, Copy)]
struct CostPicture<'a> {
    g: &'a Gauge<'a>,
    board: Board,
    costs: &'a [u32],
    ghost as_long: { length costs.now ≡ board.w * board.h },
    ghost kind_in: { kind_number g.now.kind ≤ cost_kind_limit },
    ghost costs_in: { any bad_cost costs.now ≡ false },
    ghost unmarked: { all_marked costs.now ≡ false },
}

// The map words and sites of a cost picture that has passed the tests, in buffers of just its size: columns, then rows, on
// the line that is lent. The columns' winners stand in the distances, which are free until the rows are written.
pub fn columns_and_rows(
    g: &Gauge,
    board: Board,
    costs: &[u32],
    line: &mut [u64],
    distances: &mut [u32],
    sites: &mut [u32],
    scratch: &mut [u32],
)
    requires accepted { FitAccepted (kind_number g.now.kind) board.w board.h costs.now }
    requires line_long { length line.old ≡ side_limit }
    requires distances_long { length distances.old ≡ board.w * board.h }
    requires sites_long { length sites.old ≡ board.w * board.h }
    requires scratch_long { length scratch.old ≡ scratch_words board.w board.h }
    ensures { RowsAfter (kind_number g.now.kind) board.w board.h costs.now distances.new sites.new board.h }
{
    let picture = CostPicture { g, board, costs };
    let Board { w, h } = board;
    all_columns(&picture, &mut line[..h], &mut distances[..h], scratch);
    all_rows(&picture, &mut line[..w], scratch, distances, sites);
}
