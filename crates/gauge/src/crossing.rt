// Where two curves of kind 0 cross, by whole numbers without a sign.
ghost use Rattle.std.specs.Prelude.{◌+◌, ◌-◌, ◌*◌, ◌/◌, ◌≤◌, ◌<◌, ◌≡◌};
ghost use Rattle.rules.specs.Limits.{side_limit, line_limit};
ghost use Rattle.squares.specs.List.{Squares};

use squares::square;

// The changeover where it is not below zero.
pub fn last_euclid(squares: &[u32], i: usize, u: usize, a: u64, b: u64) -> u64
    requires { Squares squares.now × (i < u) × (u < side_limit) × (a ≤ line_limit)
        × (b ≤ line_limit) × (i * i + a ≤ u * u + b) }
    ensures { result ≡ (u * u + b - (i * i + a)) / (2 * (u - i)) }
{
    let top = square(squares, u) + b - (square(squares, i) + a);
    top / (2 * (u - i) as u64)
}
