// The rows of the picture entry.
ghost use Rattle.std.specs.Prelude.{◌≡◌, IfOk};
ghost use Rattle.rules.specs.Answers.{number_of};
ghost use Rattle.rules.specs.Refusals.{answer, picture_rows};

use rules::KIND_LIMIT;
use rules::refusal::Refusal;
use rules::sized::Board;

// What a picture call asks: the board's sides, the kind, and the weights, which only kind 3 reads. The kind is a number,
// since the entry promises an answer to every number (`PictureCall`).
#[derive(Clone, Copy)]
pub struct PictureAsked {
    pub w: u32,
    pub h: u32,
    pub kind: u32,
    pub d1: u32,
    pub d2: u32,
}

// The board of a picture call, or the first row of the table that holds of it. The buffers go by their lengths.
#[tactic(auto, unfolding(rules::specs::Refusals::bad_sides, rules::specs::Refusals::bad_kind))]
pub fn picture_refusal(
    a: PictureAsked,
    picture: &[u8],
    distances: usize,
    sites: usize,
    scratch: usize,
) -> Result<Board, Refusal>
    ensures number { number_of result ≡ answer (picture_rows a.w a.h a.kind a.d1 a.d2 picture.now
        distances sites scratch) }
    ensures board { IfOk result (λ board. (board.w ≡ a.w) × (board.h ≡ a.h)) }
{
    let board = board_tests::board_of(a.w, a.h)?;
    if KIND_LIMIT < a.kind {
        return Err(Refusal::Kind);
    }
    if board_tests::bad_weights(a.kind, a.d1, a.d2) {
        return Err(Refusal::Weights);
    }
    if board_tests::bad_buffers(board.w, board.h, picture.len(), distances, sites, scratch) {
        return Err(Refusal::Buffers);
    }
    if board_tests::bad_bytes(picture) {
        return Err(Refusal::Cell);
    }
    if board_tests::no_bore(picture) {
        return Err(Refusal::NoBore);
    }
    Ok(board)
}
