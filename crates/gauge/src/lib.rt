// The gauge of a line, and what looks inside it: the height of a column's curve, and the place where a column stops
// holding against one to its right. The engine and the rows ask here and do not go by the kind themselves, so that they
// are written and proved once for all kinds. Squares are read from the list that the gauge holds.
#![tactic(auto)]

ghost use Rattle.std.specs.Prelude.{◌+◌, ◌≤◌, ◌<◌, ◌≡◌, length};
ghost use Rattle.rules.specs.Limits.{side_limit, line_limit, lift_limit};
ghost use Rattle.rules.specs.Measures.{HoldsAt, measure};
ghost use Rattle.squares.specs.List.{Squares};
ghost use Rattle.gauge.specs.Line.{measured, Line, height_at};
ghost use Rattle.gauge.specs.Places.{IsPair, Last, Place};

use crossing::last_euclid;
// `pub` for the arms of `by_kind`, which are read in the crate that names it
pub use rules::kind::LineKind;
use squares::square;

pub mod crossing;

// The measure of a line: a kind, and the list of squares.
#[derive(Clone, Copy)]
pub struct Gauge<'a> {
    pub kind: LineKind,
    pub squares: &'a [u32],
    ghost listed: { Squares squares.now },
}

// Work with a gauge, in an arm of its own for each kind: there the compiler knows the kind, so that each has a loop of its
// own, which saves a map up to a quarter of its time. It is a macro, since nothing is known of the lists that a closure
// writes once that has been called.
#[macro_export]
macro_rules! by_kind {
    ($gauge:expr, $known:ident => $work:expr) => {{
        let squares = $gauge.squares;
        match $gauge.kind {
            $crate::LineKind::Euclid => {
                let kind = $crate::LineKind::Euclid;
                let $known = &$crate::Gauge { kind, squares };
                $work
            }
            $crate::LineKind::Manhattan => {
                let kind = $crate::LineKind::Manhattan;
                let $known = &$crate::Gauge { kind, squares };
                $work
            }
            $crate::LineKind::Chessboard => {
                let kind = $crate::LineKind::Chessboard;
                let $known = &$crate::Gauge { kind, squares };
                $work
            }
        }
    }};
}

// Two columns i < u of a line of n places, and the values a and b that they hold.
#[derive(Clone, Copy)]
struct Pair {
    n: usize,
    i: usize,
    u: usize,
    a: u64,
    b: u64,
    ghost given: { IsPair n i u a b },
}

impl Gauge<'_> {
    // What the gauge makes of a difference of columns and a column's value.
    #[inline(always)]
    fn combined(&self, dx: usize, v: u64) -> u64
        requires { (dx < side_limit) × (v ≤ line_limit) }
        ensures { result ≡ (measured self.now.kind).combine dx v }
    {
        match self.kind {
            LineKind::Euclid => square(self.squares, dx) + v,
            LineKind::Manhattan => dx as u64 + v,
            LineKind::Chessboard => v.max(dx as u64),
        }
    }

    // What a difference of rows adds in its column.
    #[inline(always)]
    pub fn lifted(&self, dy: usize) -> u64
        requires { dy < side_limit }
        ensures lift { result ≡ (measured self.now.kind).lift dy }
        ensures small { result < lift_limit }
    {
        match self.kind {
            LineKind::Euclid => square(self.squares, dy),
            LineKind::Manhattan | LineKind::Chessboard => dy as u64,
        }
    }

    // The height of column i at the place x.
    #[inline(always)]
    pub fn height(&self, values: &[u64], i: usize, x: usize) -> u64
        requires { Line values.now × (i < length values.now) × (x < length values.now) }
        ensures { result ≡ height_at self.now.kind values.now i x }
    {
        self.combined(x.abs_diff(i), values[i])
    }

    // The last place that the left column holds.
    #[inline(always)]
    fn last(&self, p: Pair) -> u64
        requires { HoldsAt (measured self.now.kind) p.i p.u p.a p.b 0 }
        ensures small { result ≤ line_limit + line_limit }
        ensures last { Last (measured self.now.kind) p.n p.i p.u p.a p.b result }
    {
        match self.kind {
            LineKind::Euclid => last_euclid(self.squares, p.i, p.u, p.a, p.b),
            LineKind::Manhattan => last_manhattan(p),
            LineKind::Chessboard => last_chessboard(p),
        }
    }

    // The place where column i, which holds the first place against u, stops holding; the line's length if it never does.
    #[inline(always)]
    pub fn place(&self, values: &[u64], i: usize, u: usize) -> usize
        requires { Line values.now × (i < u) × (u < length values.now)
            × (height_at self.now.kind values.now i 0 ≤ height_at self.now.kind values.now u 0) }
        ensures { Place (height_at self.now.kind values.now) (length values.now) i u result }
    {
        let n = values.len();
        let p = self.last(Pair {
            n,
            i,
            u,
            a: values[i],
            b: values[u],
        });
        let end = n as u64;
        if p + 1 < end { (p + 1) as usize } else { n }
    }
}

// The last place that the left column holds, for kind 1: half of i + u + b − a, or a place past the line's end where it holds
// everywhere.
fn last_manhattan(p: Pair) -> u64
    requires { HoldsAt (measure 1) p.i p.u p.a p.b 0 }
    ensures small { result ≤ line_limit + line_limit }
    ensures last { Last (measure 1) p.n p.i p.u p.a p.b result }
{
    let left = p.i as u64;
    let right = p.u as u64;
    if right + p.a <= left + p.b {
        return p.n as u64;
    }
    (right + left + p.b - p.a) / 2
}

// The same for kind 2, where a curve is flat near its column.
fn last_chessboard(p: Pair) -> u64
    requires { HoldsAt (measure 2) p.i p.u p.a p.b 0 }
    ensures small { result ≤ line_limit + line_limit }
    ensures last { Last (measure 2) p.n p.i p.u p.a p.b result }
{
    let left = p.i as u64;
    let right = p.u as u64;
    let middle = (left + right) / 2;
    if p.a <= p.b {
        return middle.max(left + p.b);
    }
    middle.min(right - p.a)
}
