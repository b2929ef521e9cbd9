// The winners of a line by a plain look at every column, with nothing of the engine.
ghost use Rattle.std.specs.Prelude.{◌*◌, ◌≤◌, ◌<◌, ◌≡◌, length};
ghost use Rattle.rules.specs.Limits.{side_limit, line_limit};
ghost use Rattle.gauge.specs.Line.{Line};

use rules::kind::LineKind;

// The square of a number of columns.
pub fn squared(d: u64) -> u64
    requires { d < side_limit }
    ensures { result ≤ side_limit * side_limit }
{
    d * d
}

// The height of a column that holds the value v, at a place dx away: dx² + v, dx + v, or the greater of dx and v.
fn height(kind: LineKind, dx: u64, v: u64) -> u64
    requires distance { dx < side_limit }
    requires value { v ≤ line_limit }
{
    match kind {
        LineKind::Euclid => squared(dx) + v,
        LineKind::Manhattan => dx + v,
        LineKind::Chessboard => dx.max(v),
    }
}

// The least column with the least height at the place x; `None` would stand for a line of no column.
fn lowest(kind: LineKind, values: &[u64], x: usize) -> Option<usize>
    requires line { Line values.now }
    requires place { x < length values.now }
{
    (0..values.len()).min_by_key(|&i| height(kind, x.abs_diff(i) as u64, values[i]))
}

// At how many places of the line the winner is not the lowest column.
pub fn wrong_of_kind(kind: LineKind, values: &[u64], winners: &[u32]) -> u64
    requires line { Line values.now }
    requires places { length winners.now ≡ length values.now }
    ensures { result ≤ length values.now }
{
    winners
        .iter()
        .enumerate()
        .filter(|&(x, &winner)| lowest(kind, values, x) != Some(winner as usize))
        .count() as u64
}

// The same, where the kind is asked by its number; every number above 1 is taken for the chessboard.
pub fn wrong_places(kind: u32, values: &[u64], winners: &[u32]) -> u64
    requires line { Line values.now }
    requires places { length winners.now ≡ length values.now }
    ensures { result ≤ length values.now }
{
    let kind = LineKind::try_from(kind).unwrap_or(LineKind::Chessboard);
    wrong_of_kind(kind, values, winners)
}
