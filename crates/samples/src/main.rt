// The samples of document 01, and of 02 as far as it is done, through the public entries, a line for each, and the limits
// from both sides, but for the longest clear map, which has no room here. Every figure that is asked is the paper's own, in
// digits: a limit that is wrong in the rules shows.
#![tactic(auto)]

use boards::{board, chamfer_board, show_003, show_answer, show_cell, show_largest};
use changeovers::show_changeover;
use cost_boards::show_costs;
use files::show_file;
use knobs::{show_clear, show_lengths, show_value};
use lane_boards::show_lane;
use screen::{show_millimetres, show_short_text};
use std::io;

mod boards;
mod changeovers;
mod cost_boards;
mod files;
mod knobs;
mod lane_boards;
mod screen;
mod text;

// The cell that the paper names, of boards with a few bores.
fn cells(rt: &impl Print) -> io::Result<()> {
    show_cell(rt, "1 by 1, bored", board(1, 1, 0), &[1], 0)?;
    show_cell(rt, "3 by 1, bores 0 and 2", board(3, 1, 0), &[1, 0, 1], 1)?;
    show_cell(rt, "1 by 3, bores 0 and 2", board(1, 3, 0), &[1, 0, 1], 1)?;
    let right = [0, 0, 1, 0, 0, 1];
    show_cell(
        rt,
        "kind 2, 3 by 2, bores 2 and 5",
        board(3, 2, 2),
        &right,
        3,
    )?;
    let square = [0, 0, 0, 1, 0, 0, 0, 0, 0, 0, 1, 0, 1, 0, 0, 0];
    show_cell(rt, "4 by 4, bores 3, 10 and 12", board(4, 4, 0), &square, 0)?;
    let mut wide = [0; 112];
    wide[27] = 1;
    wide[82] = 1;
    wide[109] = 1;
    show_cell(
        rt,
        "14 by 8, bores 27, 82 and 109",
        board(14, 8, 0),
        &wide,
        0,
    )
}

// The longest lines, and boards that have nothing wrong with them but a side.
fn sides(rt: &impl Print) -> io::Result<()> {
    let mut line = [0; 2_048];
    line[0] = 1;
    show_cell(rt, "2048 by 1, bore 0", board(2_048, 1, 0), &line, 2_047)?;
    show_cell(rt, "1 by 2048, bore 0", board(1, 2_048, 0), &line, 2_047)?;
    let bored = [1; 2_049];
    show_answer(rt, "2049 by 1", board(2_049, 1, 0), &bored)?;
    show_answer(rt, "1 by 2049", board(1, 2_049, 0), &bored)
}

// Weights, on a board of one bored cell. Kind 0 reads none.
fn weights(rt: &impl Print) -> io::Result<()> {
    show_answer(rt, "weights 3 and 6", chamfer_board(1, 1, 3, 6), &[1])?;
    show_answer(rt, "weights 3 and 7", chamfer_board(1, 1, 3, 7), &[1])?;
    show_answer(rt, "weights 0 and 0", chamfer_board(1, 1, 0, 0), &[1])?;
    show_answer(rt, "weights 0 and 0, kind 0", board(1, 1, 0), &[1])?;
    show_answer(
        rt,
        "weights 255 and 510",
        chamfer_board(1, 1, 255, 510),
        &[1],
    )?;
    show_answer(
        rt,
        "weights 256 and 256",
        chamfer_board(1, 1, 256, 256),
        &[1],
    )
}

// Values of a setting, each by itself.
fn values(rt: &impl Print) -> io::Result<()> {
    show_value(rt, "0.015625", 0.015625)?;
    show_value(rt, "64.0", 64.0)?;
    show_value(rt, "64.015625", 64.015625)?;
    show_value(rt, "0.01", 0.01)?;
    show_value(rt, "0.0", 0.0)?;
    show_value(rt, "-1.0", -1.0)
}

// Changeovers, and the first column and values that have none.
fn columns(rt: &impl Print) -> io::Result<()> {
    show_changeover(rt, 0, 1, 2_000_000, 0)?;
    show_changeover(rt, 510, 511, 0, 2_000_000)?;
    show_changeover(rt, 0, 1, 17_000_000, 0)?;
    show_changeover(rt, 2_046, 2_047, 0, 17_000_000)?;
    show_changeover(rt, 2_047, 2_048, 0, 0)?;
    show_changeover(rt, 0, 1, 17_000_001, 0)?;
    show_changeover(rt, 0, 1, 0, 17_000_001)
}

// Millimetres: document 02's own, nothing, the least pitch, the greatest of all, and what is refused.
fn millimetres(rt: &impl Print) -> io::Result<()> {
    show_millimetres(rt, "d = 2, pitch 1.0", 2, 1.0, 1.4140625)?;
    show_millimetres(rt, "d = 0, pitch 64.0", 0, 64.0, 0.0)?;
    show_millimetres(rt, "d = 1, pitch 0.015625", 1, 0.015625, 0.015625)?;
    show_millimetres(
        rt,
        "d = 4294967295, pitch 64.0",
        4_294_967_295,
        64.0,
        4194303.99609375,
    )?;
    show_millimetres(rt, "d = 2, pitch 0.01", 2, 0.01, 0.0)?;
    show_short_text(rt)
}

// Costs of five cells in a row, the dearest that is taken, and one that is too dear.
fn lines_of_costs(rt: &impl Print) -> io::Result<()> {
    show_costs(rt, "kind 0, costs 9 0 9 9 9", 0, &[9, 0, 9, 9, 9])?;
    show_costs(rt, "kind 1, costs 9 0 9 9 9", 1, &[9, 0, 9, 9, 9])?;
    show_costs(rt, "kind 1, costs 4 2 8 6 1", 1, &[4, 2, 8, 6, 1])?;
    show_costs(rt, "cost 1000000", 0, &[1_000_000, 0, 0, 0, 0])?;
    show_costs(rt, "cost 1000001", 0, &[1_000_001, 0, 0, 0, 0])
}

// Lanes around a bore, from a cell to itself, and across a bore.
fn lanes(rt: &impl Print) -> io::Result<()> {
    let middle = [0, 0, 0, 0, 1, 0, 0, 0, 0];
    show_lane(rt, "3 by 3, bore 4, lane 0 to 8", 3, 3, &middle, 0, 8)?;
    show_lane(rt, "3 by 3, bore 4, lane 0 to 0", 3, 3, &middle, 0, 0)?;
    show_lane(
        rt,
        "5 by 1, bore 2, lane 0 to 4",
        5,
        1,
        &[0, 0, 1, 0, 0],
        0,
        4,
    )
}

// Bench files: the paper's two, the longest, and one record more.
fn bench_files(rt: &impl Print) -> io::Result<()> {
    show_file(rt, "bench file, the record (0, 0)", &[0, 0, 0, 0])?;
    show_file(rt, "bench file, empty", &[])?;
    let zeros = [0; 16_388];
    show_file(rt, "bench file, 16384 bytes of 0", &zeros[..16_384])?;
    show_file(rt, "bench file, 16388 bytes of 0", &zeros)
}

fn main(rt: HostRuntime) -> io::Result<()> {
    cells(&rt)?;
    show_003(&rt)?;
    show_largest(&rt)?;
    sides(&rt)?;
    weights(&rt)?;
    columns(&rt)?;
    values(&rt)?;
    show_clear(&rt)?;
    show_lengths(&rt)?;
    millimetres(&rt)?;
    lines_of_costs(&rt)?;
    lanes(&rt)?;
    bench_files(&rt)
}
