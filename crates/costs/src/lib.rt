// The public cost entry: the refusals first, then the lines of the map.
#![tactic(auto)]

ghost use Rattle.std.specs.Prelude.{length};
ghost use Rattle.rules.specs.Answers.{kind_number, number_of};
ghost use Rattle.rules.specs.Tie.{CostMapWord, CostMapSite};
ghost use Rattle.rules.specs.Accepted.{CostAccepted};
ghost use Rattle.rules.specs.Calls.{CostCall, MapAfter, buffers};

use board_tests::scratch_words;
use cost_lines::columns_and_rows;
use gauge::Gauge;
use refusals::cost_rows::cost_refusal;
use rules::SIDE_LIMIT;
use rules::kind::LineKind;
use rules::refusal::Refusal;
use rules::sized::Board;
use set_words::set_front;
use squares::list_of_squares;

// The map of a cost picture that has passed the tests.
fn accepted_map(
    kind: LineKind,
    board: Board,
    costs: &[u32],
    distances: &mut [u32],
    sites: &mut [u32],
    scratch: &mut [u32],
)
    requires { CostAccepted board.w board.h (kind_number kind) costs.now
        (length distances.old) (length sites.old) (length scratch.old) }
    ensures { MapAfter board.w board.h (CostMapWord (kind_number kind) board.w board.h costs.now)
        (CostMapSite (kind_number kind) board.w board.h costs.now)
        (buffers distances.old sites.old scratch.old)
        (buffers distances.new sites.new scratch.new) }
{
    let squares = list_of_squares();
    let g = Gauge {
        kind,
        squares: &squares,
    };
    let mut line = [0u64; SIDE_LIMIT as usize];
    let n = board.cells();
    let all = scratch_words(board.w, board.h);
    columns_and_rows(
        &g,
        board,
        costs,
        &mut line,
        &mut distances[..n],
        &mut sites[..n],
        &mut scratch[..all],
    );
    set_front(scratch, all, 0);
}

// The map of a cost picture, of kind 0 or 1, or the first row of the table that holds of the call. The kind is a number,
// since every number gets an answer.
pub fn cost_map(
    w: u32,
    h: u32,
    kind: u32,
    costs: &[u32],
    distances: &mut [u32],
    sites: &mut [u32],
    scratch: &mut [u32],
) -> Result<(), Refusal>
    ensures { CostCall w h kind costs.now
        (buffers distances.old sites.old scratch.old) (number_of result)
        (buffers distances.new sites.new scratch.new) }
{
    let board = cost_refusal(
        w,
        h,
        kind,
        costs,
        distances.len(),
        sites.len(),
        scratch.len(),
    )?;
    // A kind of costs is a kind of lines, so this refuses nothing.
    let kind = LineKind::try_from(kind)?;
    accepted_map(kind, board, costs, distances, sites, scratch);
    Ok(())
}
