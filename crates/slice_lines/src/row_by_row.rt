// The row lines of a slice. Each is looked at before it is begun: its words are tested, and then believed.
ghost use Rattle.std.specs.Prelude.{ℕ, ◌+◌, ◌*◌, ◌≤◌, ◌≡◌, length};
ghost use Rattle.rules.specs.Answers.{kind_number, number_of, stop_number};
ghost use Rattle.rules.specs.Refusals.{answer};
ghost use Rattle.rules.specs.Slices.{row_rows};
ghost use Rattle.slice_lines.specs.Lines.{rows_needed, MostNamed, RowPlace, RowOnce, RowsEnded};

use crate::Ended;
use gauge::Gauge;
use rows::row_line;
use rules::refusal::Refusal;
use rules::sized::Board;
use rules::{MARK, SIDE_LIMIT};

// How many rows a board must have for a column's word to name one of them, 0 for the mark.
fn rows_needed(word: u32) -> u32
    ensures { result ≡ rows_needed word }
{
    if word == MARK { 0 } else { word + 1 }
}

// The most rows that one of the w words from `start` on asks for, 0 where all are marks. One number for the whole row, and
// no way out before it is known, so that the compiler takes several words at a time.
fn most_named(start: usize, w: usize, words: &[u32]) -> u32
    requires { start + w ≤ length words.now }
    ensures { MostNamed start w words.now result }
{
    words[start..start + w]
        .iter()
        .map(|&word| rows_needed(word))
        .fold(0, u32::max)
}

// Whether the row line can be done whose words begin at `start`, or else what stops it.
fn row_stop(board: Board, start: usize, words: &[u32]) -> Result<(), Refusal>
    requires { start + board.w ≤ length words.now }
    ensures { (y : ℕ) → start ≡ y * board.w
        → number_of result ≡ answer (row_rows board.w board.h words.now y) }
{
    let most = most_named(start, board.w, words) as usize;
    if board.h < most {
        return Err(Refusal::Word);
    }
    if most == 0 {
        return Err(Refusal::NoBore);
    }
    Ok(())
}

// The row line of row y, if it can be done, or else what stops it.
fn one_row(
    g: &Gauge,
    board: Board,
    y: usize,
    at: usize,
    scratch: &mut [u32],
    values: &mut [u64],
    distances: &mut [u32],
    sites: &mut [u32],
) -> Result<(), Refusal>
    requires place { RowPlace board.w board.h y at (length scratch.old) }
    requires values_long { length values.old ≡ board.w }
    requires distances_long { length distances.old ≡ board.w }
    requires sites_long { length sites.old ≡ board.w }
    ensures { RowOnce g.now.kind board.w board.h y at scratch.old scratch.new
        distances.old distances.new sites.old sites.new (number_of result) }
{
    row_stop(board, at, scratch)?;
    row_line(g, y, at, board.cells(), scratch, values, distances, sites);
    Ok(())
}

// The row lines from..to, up to the first that can't be done.
pub fn row_lines(
    g: &Gauge,
    board: Board,
    from: usize,
    to: usize,
    distances: &mut [u32],
    sites: &mut [u32],
    scratch: &mut [u32],
) -> Ended
    requires rows_in { (from ≤ to) × (to ≤ board.h) }
    requires distances_from { board.w * board.h ≤ length distances.old }
    requires sites_from { board.w * board.h ≤ length sites.old }
    requires scratch_from { board.w * board.h + board.w + board.w ≤ length scratch.old }
    ensures { RowsEnded (kind_number g.now.kind) board.w board.h from to scratch.old scratch.new
        distances.old distances.new sites.old sites.new (stop_number result.stop) result.next }
{
    let mut line = [0u64; SIDE_LIMIT as usize];
    for y in from..to {
        let at = y * board.w;
        let row = one_row(
            g,
            board,
            y,
            at,
            scratch,
            &mut line[..board.w],
            &mut distances[at..at + board.w],
            &mut sites[at..at + board.w],
        );
        if let Err(refusal) = row {
            let stop = Some(refusal);
            return Ended { stop, next: y };
        }
    }
    let stop = None;
    Ended { stop, next: to }
}
