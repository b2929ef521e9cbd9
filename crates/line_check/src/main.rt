// Random lines of kinds 0, 1 and 2 through the engine; each winner is held against a plain look at every column.
#![tactic(auto)]

ghost use Rattle.std.specs.Prelude.{◌≡◌};
ghost use Rattle.squares.specs.List.{Squares};

use envelope::winners_of;
use gauge::Gauge;
use lines::Generator;
use plain::{wrong_of_kind, wrong_places};
use rules::MARK;
use rules::kind::LineKind;
use squares::list_of_squares;
use std::io;
use tally::Tally;

mod lines;
mod plain;
mod tally;

const SEED: u64 = 20_020_816;
// How many lines of each kind are tried.
const LINES: u32 = 10_000;
// The places of the longest line.
const LONGEST: usize = rules::SIDE_LIMIT as usize;

// One random line. The winners start as marks, so that a place that the engine leaves out counts as wrong.
fn one_line(kind: LineKind, squares: &[u32], generator: &mut Generator) -> Tally
    requires { Squares squares.now }
    ensures { result.lines ≡ 1 }
{
    let mut values = [0; LONGEST];
    let mut work = [MARK; LONGEST + LONGEST];
    let mut winners = [MARK; LONGEST];
    let n = generator.some_length();
    let values = &mut values[..n];
    let winners = &mut winners[..n];
    generator.fill(values);
    winners_of(
        &Gauge { kind, squares },
        values,
        &mut work[..n + n],
        winners,
    );
    Tally {
        lines: 1,
        places: n as u64,
        wrong: wrong_of_kind(kind, values, winners),
    }
}

// As many random lines of one kind as asked.
fn try_kind(kind: LineKind, lines: u32, generator: &mut Generator) -> Tally
    ensures { result.lines ≡ lines }
{
    let squares = list_of_squares();
    let mut tally = Tally::default();
    for _ in 0..lines {
        tally += one_line(kind, &squares, generator);
    }
    tally
}

// On a line of equal values every column wins at its own place. Two of these winners are spoilt, so that a count that sees
// nothing shows.
fn show_spoilt(rt: &impl Print) -> io::Result<()> {
    let wrong = wrong_places(0, &[0, 0, 0, 0], &[0, 2, 2, 0]);
    println!(rt; "a line with 2 winners spoilt: {wrong} wrong")
}

fn main(rt: HostRuntime) -> io::Result<()> {
    let mut generator = Generator { seed: SEED };
    let mut all = Tally::default();
    for kind in [LineKind::Euclid, LineKind::Manhattan, LineKind::Chessboard] {
        let tally = try_kind(kind, LINES, &mut generator);
        println!(rt; "kind {}: {tally}", kind as u32)?;
        all += tally;
    }
    println!(rt; "all kinds: {all}, seed {SEED}")?;
    show_spoilt(&rt)
}
