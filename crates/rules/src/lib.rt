// The written rules of the board: the limits, and the types that settings and answers have. What the numbers mean is
// in `specs/`, each definition under the sentence of document 01, or 02, that it renders.
#![tactic(auto)]

ghost use Rattle.rules.specs.Limits.{Stated};

pub mod answers;
pub mod kind;
pub mod refusal;
pub mod sized;

// Document 02, E3: "sides to 2,048"
pub const SIDE_LIMIT: u32 = 2_048;
// "the mark 4,294,967,295, meaning no feature"
pub const MARK: u32 = 4_294_967_295;
// "a cost of 0 to 1,000,000"
pub const COST_LIMIT: u32 = 1_000_000;
// "kind above 3 (costs: above 1)"
pub const KIND_LIMIT: u32 = 3;

pub const COST_KIND_LIMIT: u32 = 1;
// Document 02, E1: "2 (kind above 2, also in later editions)". Its own number, which stays when the kinds grow.
pub const SLICE_KIND_LIMIT: u32 = 2;
// "d1 from 1 to 255"
pub const WEIGHT_LIMIT: u32 = 255;
// Document 02, E3: "changeover columns end at 2,047"
pub const COLUMN_LIMIT: u32 = 2_047;
// Document 02, E3: ".. and its values at 17,000,000"
pub const VALUE_LIMIT: u32 = 17_000_000;
// "a whole number from 1 to 4,096"
pub const KNOB_LIMIT: u32 = 4_096;
// Document 02, E3: "the clear-map length at 4,194,305" is the first refused
pub const CLEAR_LIMIT: usize = 4_194_304;
// "a 64 by 64 board"
pub const BENCH_SIDE: u32 = 64;
// "over 16,384 bytes"
pub const FILE_LIMIT: usize = 16_384;
// Document 02, E4: "if the buffer is under 20 bytes"
pub const TEXT_BYTES: usize = 20;
// The greatest value that the engine along a line takes: ours, far above every true word.
pub const LINE_LIMIT: u64 = 1_125_899_906_842_624;

// All of them in one value, which is proved to be what the rules say.
#[derive(Drop)]
pub struct LimitTable {
    pub side: u32,
    pub mark: u32,
    pub cost: u32,
    pub kind: u32,
    pub cost_kind: u32,
    pub slice_kind: u32,
    pub weight: u32,
    pub column: u32,
    pub value: u32,
    pub knob: u32,
    pub clear: usize,
    pub bench_side: u32,
    pub file: usize,
    pub text_bytes: usize,
    pub line: u64,
}

pub fn limits() -> LimitTable
    ensures { Stated result }
{
    LimitTable {
        side: SIDE_LIMIT,
        mark: MARK,
        cost: COST_LIMIT,
        kind: KIND_LIMIT,
        cost_kind: COST_KIND_LIMIT,
        slice_kind: SLICE_KIND_LIMIT,
        weight: WEIGHT_LIMIT,
        column: COLUMN_LIMIT,
        value: VALUE_LIMIT,
        knob: KNOB_LIMIT,
        clear: CLEAR_LIMIT,
        bench_side: BENCH_SIDE,
        file: FILE_LIMIT,
        text_bytes: TEXT_BYTES,
        line: LINE_LIMIT,
    }
}

// The kind whose maps are made by scans, and name no cell.
pub const CHAMFER_KIND: u32 = 3;

// "A setting is two f32 values, pitch and radius, in millimetres."
#[repr(C)]
#[derive(Clone, Copy)]
pub struct Setting {
    pub pitch: f32,
    pub radius: f32,
}

// The weight that a step of the table chooses: d1 or d2.
#[derive(Clone, Copy, Debug, PartialEq, Eq)]
pub enum Choice {
    D1,
    D2,
}

// One of the eight neighbours of document 003: row step, column step, and choice of weight.
#[derive(Clone, Copy)]
pub struct Step(pub i32, pub i32, pub Choice);
