// "When the bench says no": for each entry that is lent a board, its rows of the table in the paper's order. An entry asks
// here first, and touches no buffer where a row holds.
#![tactic(auto)]

pub mod cost_rows;
pub mod lane_rows;
pub mod picture_rows;
