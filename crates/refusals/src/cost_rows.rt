// The rows of the cost entry, with the two that only a cost picture can break.
ghost use Rattle.std.specs.Prelude.{◌≡◌, IfOk};
ghost use Rattle.rules.specs.Answers.{number_of};
ghost use Rattle.rules.specs.Refusals.{answer, any, bad_cost, all_marked, cost_rows};

use rules::refusal::Refusal;
use rules::sized::Board;
use rules::{COST_KIND_LIMIT, COST_LIMIT, MARK};

// A cost that is neither at most the limit nor the mark.
#[tactic(auto, unfolding(rules::specs::Refusals::bad_cost))]
fn bad_cost(cost: u32) -> bool
    ensures { result ≡ bad_cost cost }
{
    COST_LIMIT < cost && cost != MARK
}

// 5: a cell has such a cost.
fn bad_costs(costs: &[u32]) -> bool
    ensures { result ≡ any bad_cost costs.now }
{
    costs.iter().any(|&cost| bad_cost(cost))
}

// 6: every cell is marked.
fn all_marked(costs: &[u32]) -> bool
    ensures { result ≡ all_marked costs.now }
{
    costs.iter().all(|&cost| cost == MARK)
}

// The board of a cost call, or the first row of the table that holds of it: 1, 2, 4, 5, 6 in this order. The buffers go by
// their lengths. The kind is a number, since the entry promises an answer to every number (`CostCall`).
#[tactic(auto, unfolding(rules::specs::Refusals::bad_sides, rules::specs::Refusals::bad_kind))]
pub fn cost_refusal(
    w: u32,
    h: u32,
    kind: u32,
    costs: &[u32],
    distances: usize,
    sites: usize,
    scratch: usize,
) -> Result<Board, Refusal>
    ensures number { number_of result ≡ answer (cost_rows w h kind costs.now distances sites scratch) }
    ensures board { IfOk result (λ board. (board.w ≡ w) × (board.h ≡ h)) }
{
    let board = board_tests::board_of(w, h)?;
    if COST_KIND_LIMIT < kind {
        return Err(Refusal::Kind);
    }
    if board_tests::bad_buffers(board.w, board.h, costs.len(), distances, sites, scratch) {
        return Err(Refusal::Buffers);
    }
    if bad_costs(costs) {
        return Err(Refusal::Cell);
    }
    if all_marked(costs) {
        return Err(Refusal::NoBore);
    }
    Ok(board)
}
