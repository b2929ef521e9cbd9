// The tests of a board that more than one entry makes: rows of document 01's table. Each function is named as its rule and
// answers whether its row holds.
#![tactic(auto)]

ghost use Rattle.std.specs.Prelude.{◌≤◌, ◌≡◌, IfOk};
ghost use Rattle.rules.specs.Limits.{side_limit};
ghost use Rattle.rules.specs.Answers.{number_of};
ghost use Rattle.rules.specs.Refusals.{answer, any, bad_sides, sides_rows, bad_weights, scratch_words, bad_buffers, bad_byte, no_bore};

use rules::refusal::Refusal;
use rules::sized::Board;
use rules::{CHAMFER_KIND, SIDE_LIMIT, WEIGHT_LIMIT};

// 1: a side is 0 or above the limit.
#[tactic(auto, unfolding(rules::specs::Refusals::bad_sides))]
pub fn bad_sides(w: u32, h: u32) -> bool
    ensures { result ≡ bad_sides w h }
{
    w == 0 || h == 0 || SIDE_LIMIT < w || SIDE_LIMIT < h
}

// The board of these sides, or the row that refuses them.
#[tactic(auto, unfolding(rules::specs::Refusals::bad_sides))]
pub fn board_of(w: u32, h: u32) -> Result<Board, Refusal>
    ensures number { number_of result ≡ answer (sides_rows w h) }
    ensures board { IfOk result (λ board. (board.w ≡ w) × (board.h ≡ h)) }
{
    if bad_sides(w, h) {
        return Err(Refusal::Sides);
    }
    Ok(Board {
        w: w as usize,
        h: h as usize,
    })
}

// 3: kind 3, and the weights break their rule. The kind is a number: this is promised of every number.
#[tactic(auto, unfolding(rules::specs::Refusals::bad_weights))]
pub fn bad_weights(kind: u32, d1: u32, d2: u32) -> bool
    ensures { result ≡ bad_weights kind d1 d2 }
{
    kind == CHAMFER_KIND && (d1 < 1 || WEIGHT_LIMIT < d1 || d2 < d1 || 2 * d1 < d2)
}

// "scratch (at least W·H + 2W + 2H)". Of two numbers and no `Board`, here and in the next test: what they promise holds of a
// side of 0, too, and a board would ask more.
pub fn scratch_words(w: usize, h: usize) -> usize
    requires { (w ≤ side_limit) × (h ≤ side_limit) }
    ensures { result ≡ scratch_words w h }
{
    w * h + 2 * w + 2 * h
}

// 4: the picture has another length than W·H, or a buffer is below its minimum.
#[tactic(auto, unfolding(rules::specs::Refusals::bad_buffers))]
pub fn bad_buffers(
    w: usize,
    h: usize,
    picture: usize,
    distances: usize,
    sites: usize,
    scratch: usize,
) -> bool
    requires { (w ≤ side_limit) × (h ≤ side_limit) }
    ensures { result ≡ bad_buffers w h picture distances sites scratch }
{
    let cells = w * h;
    picture != cells || distances < cells || sites < cells || scratch < scratch_words(w, h)
}

// 5: a byte of the picture is neither 0 nor 1.
pub fn bad_bytes(picture: &[u8]) -> bool
    ensures { result ≡ any bad_byte picture.now }
{
    picture.iter().any(|&byte| 1 < byte)
}

// 6: no cell of the picture is bored.
pub fn no_bore(picture: &[u8]) -> bool
    ensures { result ≡ no_bore picture.now }
{
    !picture.contains(&1)
}
