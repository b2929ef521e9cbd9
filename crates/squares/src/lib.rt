// Squares of whole offsets, for a node that multiplies slowly: each is an entry of a fixed list (document 02, E2). A
// constant list that a function reads is built anew at every call of that function. So a call that needs squares copies
// the list once, past its tests, and lends the copy down to here.
#![tactic(auto)]

ghost use Rattle.std.specs.Prelude.{◌<◌, ◌≡◌, length, get_or};
ghost use Rattle.squares.specs.List.{Squares};

use list::SQUARES;
use rules::SIDE_LIMIT;

mod list;

// The list, for the caller to lend.
pub fn list_of_squares() -> [u32; SIDE_LIMIT as usize]
    ensures { Squares result }
{
    SQUARES
}

// The square of a whole offset: its entry in the list that is lent. This is promised of any list, so that it is read and
// not worked out; that it is the square is known of the list of squares. Every square of an offset comes from here.
pub fn square(squares: &[u32], k: usize) -> u64
    requires { k < length squares.now }
    ensures { result ≡ get_or squares.now k 0 }
{
    u64::from(squares[k])
}
