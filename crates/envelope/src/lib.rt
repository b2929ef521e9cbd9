// The engine along a line. A line is a list of values, one a column; each column has a curve, and at each place the engine
// names the column whose curve is lowest, the least column on a tie (document 002, scans 3 and 4). The work words hold the
// stretches: the starts in the first n, the holders in the n after them, n being the length of the line. They are two lists
// in one slice, since that is how the scratch is lent: there is no other memory.
#![tactic(auto)]

ghost use Rattle.std.specs.Prelude.{ℕ, ◌+◌, ◌≤◌, ◌<◌, ◌≡◌, leb, length, get_or};
ghost use Rattle.gauge.specs.Line.{Wins, height_at};
ghost use Rattle.envelope.specs.Stretches.{starts, holders, Given, Stretches, Kept, Against, Begins, Turn, Spreads, Spread};

use gauge::{Gauge, by_kind};

// What a turn leaves: how many stretches were kept when its column came, and how many there are now.
#[derive(Clone, Copy)]
pub struct Turned {
    pub kept: usize,
    pub count: usize,
}

// Whether stretch k stays when column u comes: u is not strictly lower at its start.
#[inline(always)]
fn stays(g: &Gauge, values: &[u64], work: &[u32], k: usize, u: usize) -> bool
    requires { Given values.now work.now × (u < length values.now) × (k < length values.now)
        × (starts work.now k < length values.now) × (holders (length values.now) work.now k < length values.now) }
    ensures { result ≡ leb
        (height_at g.now.kind values.now (holders (length values.now) work.now k) (starts work.now k))
        (height_at g.now.kind values.now u (starts work.now k)) }
{
    let n = values.len();
    let start = work[k] as usize;
    let holder = work[n + k] as usize;
    g.height(values, holder, start) <= g.height(values, u, start)
}

// How many of the m stretches are kept when column u comes: those that do not stay are taken off from the right.
#[inline(always)]
fn keep(g: &Gauge, values: &[u64], work: &[u32], m: usize, u: usize) -> usize
    requires { Given values.now work.now × (u < length values.now)
        × Stretches (height_at g.now.kind values.now) (length values.now) u m (starts work.now) (holders (length values.now) work.now) }
    ensures { Kept (height_at g.now.kind values.now) u m (starts work.now)
        (holders (length values.now) work.now) result }
{
    for k in (0..m).rev() {
        if stays(g, values, work, k, u) {
            return k + 1;
        }
    }
    0
}

// Where column u begins: at the first place if no stretch is kept, else where the last one kept stops holding.
#[inline(always)]
fn begin(g: &Gauge, values: &[u64], work: &[u32], kept: usize, u: usize) -> usize
    requires { Given values.now work.now × (u < length values.now) × (kept ≤ length values.now)
        × Against (height_at g.now.kind values.now) u (holders (length values.now) work.now) kept }
    ensures { Begins (height_at g.now.kind values.now) (length values.now) u
        (holders (length values.now) work.now) kept result }
{
    if kept == 0 {
        return 0;
    }
    let n = values.len();
    let holder = work[n + (kept - 1)] as usize;
    g.place(values, holder, u)
}

// One turn of scan 3, with column u.
#[inline(always)]
fn turn(g: &Gauge, values: &[u64], work: &mut [u32], m: usize, u: usize) -> Turned
    requires { Given values.now work.old × (u < length values.now)
        × Stretches (height_at g.now.kind values.now) (length values.now) u m (starts work.old) (holders (length values.now) work.old) }
    ensures { Turn (height_at g.now.kind values.now) (length values.now) u m
        (starts work.old) (holders (length values.now) work.old)
        result.kept result.count
        (starts work.new) (holders (length values.now) work.new) }
{
    let n = values.len();
    let kept = keep(g, values, work, m, u);
    let start = begin(g, values, work, kept, u);
    if n <= start {
        return Turned { kept, count: kept };
    }
    work[kept] = start as u32;
    work[n + kept] = u as u32;
    Turned {
        kept,
        count: kept + 1,
    }
}

// Scan 3: the stretches of the whole line. Answers how many there are.
#[inline(always)]
fn build(g: &Gauge, values: &[u64], work: &mut [u32]) -> usize
    requires { Given values.now work.old }
    ensures { Stretches (height_at g.now.kind values.now) (length values.now) (length values.now) result
        (starts work.new) (holders (length values.now) work.new) }
{
    let n = values.len();
    work[0] = 0;
    work[n] = 0;
    let mut m = 1;
    for u in 1..n {
        m = turn(g, values, work, m, u).count;
    }
    m
}

// Scan 4: each place gets the holder of its stretch.
fn spread(work: &[u32], m: usize, winners: &mut [u32])
    requires { Spreads work.now m (length winners.old) }
    ensures { Spread work.now m (length winners.old) winners.new }
{
    let n = winners.len();
    let mut q = m;
    for x in (0..n).rev() {
        winners[x] = work[n + (q - 1)];
        if work[q - 1] as usize == x {
            q -= 1;
        }
    }
}

// The engine, over one line. It and what it calls are inlined, so that each kind has a loop of its own.
#[inline(always)]
fn line_winners(g: &Gauge, values: &[u64], work: &mut [u32], winners: &mut [u32])
    requires { Given values.now work.old × (length winners.old ≡ length values.now) }
    ensures { (x : ℕ) → x < length values.now
        → Wins (height_at g.now.kind values.now) (length values.now) x (get_or winners.new x 0) }
{
    let m = build(g, values, work);
    spread(work, m, winners);
}

// The engine: at each place of the line the least column whose curve is lowest there.
pub fn winners_of(g: &Gauge, values: &[u64], work: &mut [u32], winners: &mut [u32])
    requires { Given values.now work.old × (length winners.old ≡ length values.now) }
    ensures { (x : ℕ) → x < length values.now
        → Wins (height_at g.now.kind values.now) (length values.now) x (get_or winners.new x 0) }
{
    by_kind!(g, known => line_winners(known, values, work, winners));
}
