// What a cell takes from its neighbours, by the table of document 003: the turn of one cell, which both scans of kind 3
// repeat. Which cells have their turn, and when, is not asked here.
#![tactic(auto)]

pub mod weighted;

ghost use Rattle.std.specs.Prelude.{◌+◌, ◌≤◌, ◌<◌, ◌≡◌};
ghost use Rattle.rules.specs.Limits.{side_limit};
ghost use Rattle.rules.specs.Table.{weight};
ghost use Rattle.chamfer_turn.specs.Neighbours.{weighed, Words, On, word, printed, Moved, Lesser, Lowest, CellTurned};

use rules::{Choice, Step};
use weighted::Chamfer;

// "each neighbour with its row step, column step and choice of weight", as 003 prints them. The forward scan:
// b(i−1,j−1)+d2, b(i−1,j)+d1, b(i−1,j+1)+d2, b(i,j−1)+d1; the backward scan: b(i,j+1)+d1, b(i+1,j−1)+d2, b(i+1,j)+d1,
// b(i+1,j+1)+d2.
const STEPS: [Step; 8] = [
    Step(-1, -1, Choice::D2),
    Step(-1, 0, Choice::D1),
    Step(-1, 1, Choice::D2),
    Step(0, -1, Choice::D1),
    Step(0, 1, Choice::D1),
    Step(1, -1, Choice::D2),
    Step(1, 0, Choice::D1),
    Step(1, 1, Choice::D2),
];

// Step k of the table.
fn step_at(k: usize) -> Step
    requires { k < 8 }
    ensures { result ≡ printed k }
{
    STEPS[k]
}

// Where a step leads in one direction, unless off the board. No step and one back have a way of their own: so the compiler
// takes the first cell of a row, which has none to its left, out of the loop, and boards of one column are no slower. Any
// other step below 0 wraps round to a number above every side.
#[inline(always)]
fn moved(at: usize, by: i32, size: usize) -> Option<usize>
    requires { (at < size) × (size ≤ side_limit) }
    ensures { Moved at by size result }
{
    if by == 0 {
        return Some(at);
    }
    if by == -1 {
        return at.checked_sub(1);
    }
    let to = at.wrapping_add_signed(by as isize);
    (to < size).then_some(to)
}

// The turn of the cell (x, y): the words of the board as they stand, and where the cell is.
#[derive(Clone, Copy)]
struct Turn<'a> {
    chamfer: Chamfer,
    words: &'a [u32],
    x: usize,
    y: usize,
    ghost words_in: { Words (weighed chamfer) words.now },
    ghost on_board: { On (weighed chamfer) x y },
}

impl Turn<'_> {
    // What the neighbour (column, row) offers by a step that chooses so: its word and the weight of the step.
    fn offer_of(&self, column: usize, row: usize, choice: Choice) -> u32
        requires { On (weighed self.now.chamfer) column row }
        ensures { let b = weighed self.now.chamfer in
            result ≡ word b self.now.words.now column row + weight b.d1 b.d2 choice }
    {
        let w = self.chamfer.board.w;
        self.words[row * w + column] + self.chamfer.weight_of(choice)
    }

    // The lesser of `best` and of what the neighbour by step k offers. A neighbour off the board is passed over.
    #[inline(always)]
    fn lesser(&self, k: usize, best: u32) -> u32
        requires { k < 8 }
        ensures { let t = self.now in Lesser (weighed t.chamfer) t.words.now t.x t.y k best result }
    {
        let board = self.chamfer.board;
        let step = step_at(k);
        let Some(column) = moved(self.x, step.1, board.w) else {
            return best;
        };
        let Some(row) = moved(self.y, step.0, board.h) else {
            return best;
        };
        best.min(self.offer_of(column, row, step.2))
    }

    // The least of the cell's own word and of what its neighbours by the steps from .. to − 1 offer.
    #[inline(always)]
    fn lowest(&self, from: usize, to: usize) -> u32
        requires { (from ≤ to) × (to ≤ 8) }
        ensures { let t = self.now in
            Lowest (weighed t.chamfer) t.words.now t.x t.y from to (word (weighed t.chamfer) t.words.now t.x t.y) result }
    {
        let w = self.chamfer.board.w;
        let mut best = self.words[self.y * w + self.x];
        for k in from..to {
            best = self.lesser(k, best);
        }
        best
    }
}

// The turn of one cell: it takes the lowest word.
pub fn relax(chamfer: Chamfer, words: &mut [u32], x: usize, y: usize, from: usize, to: usize)
    requires words_in { Words (weighed chamfer) words.old }
    requires on_board { On (weighed chamfer) x y }
    requires steps { (from ≤ to) × (to ≤ 8) }
    ensures { CellTurned (weighed chamfer) x y from to words.old words.new }
{
    let w = chamfer.board.w;
    let turn = Turn {
        chamfer,
        words,
        x,
        y,
    };
    words[y * w + x] = turn.lowest(from, to);
}
