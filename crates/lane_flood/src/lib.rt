// The flood from the far end of a lane over the cells that are wide enough: it tells whether some lane is as wide, and
// its labels, 1 + the fewest steps of each cell that it reaches, lead a walk to the far end. Labels and a queue of cell
// numbers, each as long as the board.
#![tactic(auto)]

ghost use Rattle.std.specs.Prelude.{◌+◌, ◌^◌, ◌<◌, ◌≡◌, length};
ghost use Rattle.lane_flood.specs.Around.{Lists};
ghost use Rattle.lane_flood.specs.Labelling.{at, Labels, Flow, Touched};

use crate::sides::{SIDES, beside};
use set_words::set_all;

pub mod sides;

// The cell p comes up with the label d. Answers how many cells have entered the queue.
fn touch(
    v: u32,
    p: usize,
    d: u32,
    words: &[u32],
    labels: &mut [u32],
    queue: &mut [u32],
    tail: usize,
) -> usize
    requires labels_long { length labels.old ≡ length words.now }
    requires queue_long { length queue.old ≡ length words.now }
    requires numbered { length words.now < 2 ^ 32 }
    requires inside { p < length words.now }
    requires room { at labels.old p ≡ 0 → tail < length words.now }
    ensures { Touched (length words.now) v p d words.now labels.old
        queue.old tail labels.new queue.new result }
{
    if words[p] < v || labels[p] != 0 {
        return tail;
    }
    labels[p] = d;
    queue[tail] = p as u32;
    tail + 1
}

// The cell at the queue's head: its four sides come up, each with the next label. Answers how many cells have entered.
fn spread(
    w: usize,
    v: u32,
    words: &[u32],
    labels: &mut [u32],
    queue: &mut [u32],
    head: usize,
    entered: usize,
) -> usize
    // No struct for the board and its lists, which travel together: a ghost field beside a `&mut` gets no proof.
    requires lists { Lists w words.now labels.old queue.old }
    requires more { head < entered }
    requires flow { Flow w (length words.now) (at words.now) v (at queue.old 0) (at labels.old) (at queue.old)
        head entered }
    ensures { Flow w (length words.now) (at words.now) v (at queue.old 0)
        (at labels.new) (at queue.new) (head + 1) result }
{
    let n = words.len();
    let c = queue[head] as usize;
    let d = labels[c] + 1;
    let x = c % w;
    let mut tail = entered;
    for side in SIDES {
        if let Some(p) = beside(w, n, x, c, side) {
            tail = touch(v, p, d, words, labels, queue, tail);
        }
    }
    tail
}

// From one cell in the queue until every cell in it has come up.
fn flow(w: usize, v: u32, words: &[u32], labels: &mut [u32], queue: &mut [u32])
    requires lists { Lists w words.now labels.old queue.old }
    requires begun { Flow w (length words.now) (at words.now) v (at queue.old 0) (at labels.old) (at queue.old) 0 1 }
    ensures { Labels w (length words.now) (at words.now) v (at queue.old 0) (at labels.new) }
{
    let mut head = 0;
    let mut tail = 1;
    while head < tail {
        tail = spread(w, v, words, labels, queue, head, tail);
        head += 1;
    }
}

// The flood from the cell `to` over the cells whose word is at least v.
pub fn flood(w: usize, v: u32, to: usize, words: &[u32], labels: &mut [u32], queue: &mut [u32])
    requires lists { Lists w words.now labels.old queue.old }
    requires inside { to < length words.now }
    ensures { Labels w (length words.now) (at words.now) v to (at labels.new) }
{
    set_all(labels, 0);
    if words[to] < v {
        return;
    }
    labels[to] = 1;
    queue[0] = to as u32;
    flow(w, v, words, labels, queue);
}
