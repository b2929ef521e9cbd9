// Pictures through the picture entry. The words lent start as marks, so that one that is left out shows.
ghost use Rattle.std.specs.Prelude.{◌<◌};

use crate::text::{print_answer, print_rows};
use maps::picture_map;
use rules::MARK;
use rules::refusal::Refusal;
use std::io;
use std::io::AsBytes;

// The cells of the largest board here, 512 by 512. A board of 2,048 by 2,048 has no room on a stack; `examples/board.c` and
// the second program run that.
const CELLS: usize = 262_144;
// Its scratch words: 512·512 + 2·512 + 2·512.
const SCRATCH: usize = 264_192;
// The cells of the longest of the other boards, a line with one cell too many: enough for every other.
const LINE: usize = 2_049;
// Its scratch words: 2,049 + 2·2,049 + 2.
const LINE_SCRATCH: usize = 6_149;

// What is asked of a picture: numbers, as its entry takes them.
#[derive(Clone, Copy)]
pub struct Question {
    pub w: u32,
    pub h: u32,
    pub kind: u32,
    pub d1: u32,
    pub d2: u32,
}

// A board of a kind that reads no weights.
pub fn board(w: u32, h: u32, kind: u32) -> Question {
    let d1 = 0;
    let d2 = 0;
    Question { w, h, kind, d1, d2 }
}

// A board of kind 3.
pub fn chamfer_board(w: u32, h: u32, d1: u32, d2: u32) -> Question {
    let kind = 3;
    Question { w, h, kind, d1, d2 }
}

// What is answered, and the words of one cell.
#[derive(Clone, Copy)]
struct Found {
    answer: Result<(), Refusal>,
    distance: u32,
    site: u32,
}

impl Question {
    // The map of a picture, in the words lent.
    fn map(
        self,
        picture: &[u8],
        distances: &mut [u32],
        sites: &mut [u32],
        scratch: &mut [u32],
    ) -> Result<(), Refusal> {
        picture_map(
            self.w, self.h, self.kind, self.d1, self.d2, picture, distances, sites, scratch,
        )
    }

    // One cell of a picture's map, in words of its own.
    fn look(self, picture: &[u8], cell: usize) -> Found
        requires { cell < 2_049 }
    {
        let mut distances = [MARK; LINE];
        let mut sites = [MARK; LINE];
        let mut scratch = [MARK; LINE_SCRATCH];
        let answer = self.map(picture, &mut distances, &mut sites, &mut scratch);
        Found {
            answer,
            distance: distances[cell],
            site: sites[cell],
        }
    }
}

// "1 by 1, bored, cell 1: distance 1, site 0"
fn print_cell(
    rt: &impl Print,
    name: impl AsBytes + Drop,
    cell: usize,
    distance: u32,
    site: u32,
) -> io::Result<()> {
    rt.write_all(name.as_byte_slice())?;
    println!(rt; ", cell {cell}: distance {distance}, site {site}")
}

// A board, and one cell of its map.
pub fn show_cell(
    rt: &impl Print,
    name: impl AsBytes + Drop,
    question: Question,
    picture: &[u8],
    cell: usize,
) -> io::Result<()>
    requires { cell < 2_049 }
{
    let found = question.look(picture, cell);
    print_cell(rt, name, cell, found.distance, found.site)
}

// A board, and whether its map is made.
pub fn show_answer(
    rt: &impl Print,
    name: impl AsBytes + Drop,
    question: Question,
    picture: &[u8],
) -> io::Result<()> {
    rt.write_all(name.as_byte_slice())?;
    print_answer(rt, question.look(picture, 0).answer)
}

// The last cell of the largest board here.
pub fn show_largest(rt: &impl Print) -> io::Result<()> {
    let mut picture = [0; CELLS];
    picture[0] = 1;
    let mut distances = [MARK; CELLS];
    let mut sites = [MARK; CELLS];
    let mut scratch = [MARK; SCRATCH];
    let _ = board(512, 512, 0).map(&picture, &mut distances, &mut sites, &mut scratch);
    print_cell(
        rt,
        "512 by 512, bore 0",
        262_143,
        distances[262_143],
        sites[262_143],
    )
}

// The whole map of document 003's picture.
pub fn show_003(rt: &impl Print) -> io::Result<()> {
    let mut picture = [0; 24];
    picture[6] = 1;
    picture[17] = 1;
    let mut distances = [MARK; 24];
    let mut sites = [MARK; 24];
    let mut scratch = [MARK; 44];
    let asked = chamfer_board(4, 6, 3, 4);
    let _ = asked.map(&picture, &mut distances, &mut sites, &mut scratch);
    print!(rt; "weights 3 and 4, 4 by 6, bores 6 and 17:")?;
    print_rows(rt, 4, &distances)?;
    println!(rt; "")
}
