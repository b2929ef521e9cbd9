// The rows of the lane entry.
ghost use Rattle.std.specs.Prelude.{◌≡◌, IfOk};
ghost use Rattle.rules.specs.Answers.{number_of};
ghost use Rattle.rules.specs.Refusals.{answer, lane_rows};

use rules::refusal::Refusal;
use rules::sized::Board;

// What a lane call asks: the board's sides, and the cells that the lane joins.
#[derive(Clone, Copy)]
pub struct LaneAsked {
    pub w: u32,
    pub h: u32,
    pub from: u32,
    pub to: u32,
}

// The board of a lane call, or the first row of the table that holds of it. The buffers go by their lengths.
#[tactic(auto, unfolding(rules::specs::Refusals::bad_sides, rules::specs::Refusals::bad_path, rules::specs::Refusals::bad_ends))]
pub fn lane_refusal(
    a: LaneAsked,
    picture: &[u8],
    distances: usize,
    sites: usize,
    scratch: usize,
    path: usize,
) -> Result<Board, Refusal>
    ensures number { number_of result ≡ answer (lane_rows a.w a.h picture.now a.from a.to distances sites scratch path) }
    ensures board { IfOk result (λ board. (board.w ≡ a.w) × (board.h ≡ a.h)) }
{
    let board = board_tests::board_of(a.w, a.h)?;
    let cells = board.cells();
    if board_tests::bad_buffers(board.w, board.h, picture.len(), distances, sites, scratch)
        || path < cells
    {
        return Err(Refusal::Buffers);
    }
    if board_tests::bad_bytes(picture) {
        return Err(Refusal::Cell);
    }
    if board_tests::no_bore(picture) {
        return Err(Refusal::NoBore);
    }
    if cells <= a.from as usize || cells <= a.to as usize {
        return Err(Refusal::Ends);
    }
    Ok(board)
}
