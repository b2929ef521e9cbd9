// The public changeover: the tests of its columns and values, then the last place at which the left of two curves of kind 0
// is no higher. The engine along a line goes by the same crossing and never needs one below zero; here that is an answer
// too. Every accepted call copies the list of squares, for the two that it needs.
#![tactic(auto)]

ghost use Rattle.rules.specs.Answers.{number_of, changeover_at};
ghost use Rattle.rules.specs.Calls.{ChangeoverCall};

use gauge::crossing::last_euclid;
use rules::refusal::Refusal;
use rules::{COLUMN_LIMIT, VALUE_LIMIT};
use squares::{list_of_squares, square};

// The changeover of columns i < u that hold the values a and b: the greatest whole p with (p−i)² + a ≤ (p−u)² + b. Below
// zero it is an answer like any other, rounded down and so away from zero.
pub fn changeover(i: u32, u: u32, a: u32, b: u32) -> Result<i32, Refusal>
    ensures { ChangeoverCall i u a b (number_of result) (changeover_at result) }
{
    if u <= i || COLUMN_LIMIT < u || VALUE_LIMIT < a || VALUE_LIMIT < b {
        return Err(Refusal::Changeover);
    }
    let squares = list_of_squares();
    let (left, right) = (i as usize, u as usize);
    let (a, b) = (u64::from(a), u64::from(b));
    let low = square(&squares, left) + a;
    let top = square(&squares, right) + b;
    if low <= top {
        return Ok(last_euclid(&squares, left, right, a, b) as i32);
    }
    let d = 2 * u64::from(u - i);
    let below = (low - top).div_ceil(d);
    Ok(-(below as i32))
}
