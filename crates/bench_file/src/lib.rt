// The bench file: the tests of its bytes in their order, the map of the picture that its records bore, and the three
// numbers of its answer.
#![tactic(auto)]

ghost use Rattle.std.specs.Prelude.{◌<◌, length};
ghost use Rattle.rules.specs.Answers.{number_of, bench_sites, bench_farthest, bench_cell};
ghost use Rattle.rules.specs.Calls.{BenchCall};
ghost use Rattle.bench_file.specs.Reading.{Readable, Ready, Peak};

use bench_records::{BOARD_SIDE, bad_length, bore, off_board};
use maps::row_map;
use rules::answers::Reading;
use rules::kind::LineKind;
use rules::refusal::Refusal;
use rules::sized::Board;

// The cells of the board.
const CELLS: usize = BOARD_SIDE * BOARD_SIDE;
// The words of scratch that its map asks for: "at least W·H + 2W + 2H".
const SCRATCH: usize = CELLS + 2 * BOARD_SIDE + 2 * BOARD_SIDE;

// The first of the greatest words. `max_by_key` takes the last, and a `fold` of the numbered words takes 1.7 times as long.
fn peak(words: &[u32]) -> usize
    requires { 0 < length words.now }
    ensures { Peak words.now (length words.now) result }
{
    let mut best = 0;
    for k in 1..words.len() {
        if words[best] < words[k] {
            best = k;
        }
    }
    best
}

// The answer to a file that has passed 10 and 11, worked out in the memory lent: a sound picture, and a map's buffers.
fn measure_on(
    file: &[u8],
    picture: &mut [u8],
    distances: &mut [u32],
    sites: &mut [u32],
    scratch: &mut [u32],
) -> Result<Reading, Refusal>
    requires { Readable file.now
        × Ready picture.old (length distances.old) (length sites.old) (length scratch.old) }
    ensures { BenchCall file.now (number_of result) (bench_sites result) (bench_farthest result) (bench_cell result) }
{
    let bores = bore(file, picture);
    if board_tests::no_bore(picture) {
        return Err(Refusal::NoBore);
    }
    let board = Board {
        w: BOARD_SIDE,
        h: BOARD_SIDE,
    };
    row_map(board, LineKind::Euclid, picture, distances, sites, scratch);
    let number = peak(distances);
    let farthest = distances[number];
    let cell = number as u32;
    Ok(Reading {
        sites: bores,
        farthest,
        cell,
    })
}

// The same in memory of its own.
fn measure(file: &[u8]) -> Result<Reading, Refusal>
    requires { Readable file.now }
    ensures { BenchCall file.now (number_of result) (bench_sites result) (bench_farthest result) (bench_cell result) }
{
    let mut picture = [0u8; CELLS];
    let mut distances = [0u32; CELLS];
    let mut sites = [0u32; CELLS];
    let mut scratch = [0u32; SCRATCH];
    measure_on(file, &mut picture, &mut distances, &mut sites, &mut scratch)
}

// How many cells a bench file bores, the greatest kind 0 word and the first cell that has it, or the first row of the table
// that refuses it: 10, 11, 6 in this order.
#[tactic(auto, using(crate::proofs::Answering::ten, crate::proofs::Answering::eleven))]
pub fn read_file(file: &[u8]) -> Result<Reading, Refusal>
    ensures { BenchCall file.now (number_of result) (bench_sites result) (bench_farthest result) (bench_cell result) }
{
    // both tests take any bytes, and the length's is asked first
    let cut = bad_length(file.len());
    let off = off_board(file);
    if cut {
        return Err(Refusal::FileLength);
    }
    if off {
        return Err(Refusal::OffBoard);
    }
    measure(file)
}
