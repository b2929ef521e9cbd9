// What the entries answer where nothing is refused.
use crate::refusal::Refusal;

// A setting opened: the whole numbers of its pitch and its radius.
#[derive(Clone, Copy, Debug, PartialEq, Eq)]
pub struct Opening {
    pub a: u32,
    pub b: u32,
}

// A lane: its width, and how many cells of it stand in the path.
#[derive(Clone, Copy, Debug, PartialEq, Eq)]
pub struct Course {
    pub width: u32,
    pub cells: u32,
}

// The three numbers of a bench file: how many cells it bores, the greatest word of its map, and the first cell that has it.
#[derive(Clone, Copy, Debug, PartialEq, Eq)]
pub struct Reading {
    pub sites: u32,
    pub farthest: u32,
    pub cell: u32,
}

// A slice of a map: the row that stopped it, how many lines it finished, and the next line.
#[derive(Clone, Copy, Debug, PartialEq, Eq)]
pub struct Slice {
    pub stop: Option<Refusal>,
    pub finished: u32,
    pub next: u32,
}
