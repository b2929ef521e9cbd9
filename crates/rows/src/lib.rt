// The row line: what a row makes of its column words, whoever put them there. Fill turns the words into values; the engine
// finds the winning column of each place; then the map words and the sites are written. What follows the fill is one
// function, so that another fill can stand before it.
#![tactic(auto)]

ghost use Rattle.std.specs.Prelude.{ℕ, ◌^◌, ◌≤◌, ◌<◌, ◌≡◌, length, get_or};
ghost use Rattle.rules.specs.Limits.{side_limit};
ghost use Rattle.rules.specs.Board.{cell};
ghost use Rattle.gauge.specs.Line.{Line, height_at};
ghost use Rattle.rows.specs.Row.{Named, value_of, Winners, Heights, Chosen, Sites, Believed, LineRead, LineOut, RowMade};

use envelope::winners_of;
use gauge::Gauge;
use rules::{LINE_LIMIT, MARK};

// What a column word stands for in row y: its difference of rows lifted, or a value above every true one for a column with
// no feature.
#[tactic(auto, using(crate::proofs::Values::marked_value))]
fn value(g: &Gauge, y: usize, word: u32) -> u64
    requires { (y < side_limit) × Named side_limit word }
    ensures { result ≡ value_of g.now.kind y word }
{
    if word == MARK {
        return LINE_LIMIT;
    }
    g.lifted(y.abs_diff(word as usize))
}

// Fill: what each column stands at, by its number and its word.
pub fn fill<F: Fn(usize, u32) -> u64>(words: &[u32], values: &mut [u64], stands_at: F)
    requires as_long { length values.old ≡ length words.now }
    requires each { (i : ℕ) → i < length words.now → F.pre stands_at i (get_or words.now i 0) }
    ensures { (i : ℕ) → i < length words.now → F.post stands_at i (get_or words.now i 0) (get_or values.new i 0) }
{
    for (i, &word) in words.iter().enumerate() {
        values[i] = stands_at(i, word);
    }
}

// The map word of place x, whose winner is i.
fn map_word(g: &Gauge, values: &[u64], i: usize, x: usize) -> u32
    requires { Line values.now × (i < length values.now) × (x < length values.now)
        × (height_at g.now.kind values.now i x < 2 ^ 32) }
    ensures { result ≡ height_at g.now.kind values.now i x }
{
    g.height(values, i, x) as u32
}

// The number of the cell in column i and the row that the column's word names.
fn site_word(w: usize, i: usize, word: u32) -> u32
    requires { (w ≤ side_limit) × (i < w) × (word < side_limit) }
    ensures { result ≡ cell w i word }
{
    (word as usize * w + i) as u32
}

// The map words of a row: the height of each place's winner.
fn write_distances(g: &Gauge, values: &[u64], winners: &[u32], distances: &mut [u32])
    requires { Line values.now × Winners g.now.kind values.now winners.now
        × (length winners.now ≡ length values.now) × (length distances.old ≡ length values.now) }
    ensures { Heights g.now.kind values.now winners.now distances.new }
{
    // a copy of its own stays in registers
    let g = *g;
    for (x, &winner) in winners.iter().enumerate() {
        distances[x] = map_word(&g, values, winner as usize, x);
    }
}

// The sites of a row, in place of its winners: the cell that each winner's word names.
pub fn write_sites(words: &[u32], sites: &mut [u32])
    requires { Chosen words.now sites.old }
    ensures { Sites words.now sites.old sites.new }
{
    let w = words.len();
    for site in sites.iter_mut() {
        let i = *site as usize;
        *site = site_word(w, i, words[i]);
    }
}

// What a filled line comes to: the engine, the map words and the sites. The row's words stand in the scratch from `at` on,
// and the scratch words from `tail` on are free.
pub fn line_out(
    g: &Gauge,
    at: usize,
    tail: usize,
    scratch: &mut [u32],
    values: &[u64],
    distances: &mut [u32],
    sites: &mut [u32],
)
    requires { LineRead at tail scratch.old values.now
        × (length distances.old ≡ length values.now) × (length sites.old ≡ length values.now) }
    ensures { LineOut g.now.kind at tail scratch.old values.now scratch.new distances.new sites.new }
{
    let w = values.len();
    let end = at + w;
    let rest = tail + w + w;
    winners_of(g, values, &mut scratch[tail..rest], sites);
    write_distances(g, values, sites, distances);
    write_sites(&scratch[at..end], sites);
}

// The row line of row y of a picture.
pub fn row_line(
    g: &Gauge,
    y: usize,
    at: usize,
    tail: usize,
    scratch: &mut [u32],
    values: &mut [u64],
    distances: &mut [u32],
    sites: &mut [u32],
)
    requires { Believed at tail scratch.old (length values.old) × (y < side_limit)
        × (length distances.old ≡ length values.old) × (length sites.old ≡ length values.old) }
    ensures { RowMade g.now.kind y at tail (length values.old) scratch.old scratch.new distances.new sites.new }
{
    let end = at + values.len();
    // a copy of its own stays in registers
    let own = *g;
    fill(&scratch[at..end], values, |_, word| value(&own, y, word));
    line_out(g, at, tail, scratch, values, distances, sites);
}
