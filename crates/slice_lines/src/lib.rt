// The lines of a slice: the columns that it takes, as one band, and the rows, one after the other. Either part ends at the
// first of its lines that can't be done.
#![tactic(auto)]

use rules::refusal::Refusal;

pub mod band;
pub mod row_by_row;

// How lines ended: what stopped them, and the one after the last that was done.
#[derive(Clone, Copy)]
pub struct Ended {
    pub stop: Option<Refusal>,
    pub next: usize,
}
