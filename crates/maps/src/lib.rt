// The public picture entry: the refusals first, then the map.
#![tactic(auto)]

ghost use Rattle.std.specs.Prelude.{ℕ, length};
ghost use Rattle.rules.specs.Measures.{chamfer_kind};
ghost use Rattle.rules.specs.Accepted.{PictureAccepted};
ghost use Rattle.rules.specs.Answers.{kind_number, number_of};
ghost use Rattle.rules.specs.Calls.{buffers, PictureAfter, PictureCall};

use board_tests::scratch_words;
use chamfer::scan_map;
use chamfer_turn::weighted::Chamfer;
use columns::{Band, sweep};
use gauge::Gauge;
use lines::all_rows;
use refusals::picture_rows::{PictureAsked, picture_refusal};
use rules::MARK;
use rules::kind::LineKind;
use rules::refusal::Refusal;
use rules::sized::Board;
use set_words::set_front;
use squares::list_of_squares;

mod lines;

// The map of a kind that has parts, of a picture that has passed the tests: the column words, the row lines, and the
// scratch set to zero. The buffers travel together, yet in no struct: each contract would have to say of each `&mut` field
// that it keeps its reference.
pub fn row_map(
    board: Board,
    kind: LineKind,
    picture: &[u8],
    distances: &mut [u32],
    sites: &mut [u32],
    scratch: &mut [u32],
)
    requires { PictureAccepted board.w board.h (kind_number kind) 0 0 picture.now
        (length distances.old) (length sites.old) (length scratch.old) }
    ensures { (d1 d2 : ℕ) → PictureAfter board.w board.h (kind_number kind) d1 d2 picture.now
        (buffers distances.old sites.old scratch.old)
        (buffers distances.new sites.new scratch.new) }
{
    let columns = Band {
        board,
        from: 0,
        to: board.w,
    };
    sweep(columns, picture, scratch);
    let squares = list_of_squares();
    let gauge = Gauge {
        kind,
        squares: &squares,
    };
    all_rows(&gauge, board, distances, sites, scratch);
    set_front(scratch, scratch_words(board.w, board.h), 0);
}

// The map of kind 3: the two scans, no site named, and the scratch set to zero.
fn scanned_map(
    chamfer: Chamfer,
    picture: &[u8],
    distances: &mut [u32],
    sites: &mut [u32],
    scratch: &mut [u32],
)
    requires { PictureAccepted chamfer.board.w chamfer.board.h chamfer_kind chamfer.d1 chamfer.d2 picture.now
        (length distances.old) (length sites.old) (length scratch.old) }
    ensures { PictureAfter chamfer.board.w chamfer.board.h chamfer_kind chamfer.d1 chamfer.d2 picture.now
        (buffers distances.old sites.old scratch.old)
        (buffers distances.new sites.new scratch.new) }
{
    let board = chamfer.board;
    scan_map(chamfer, picture, distances);
    set_front(sites, board.cells(), MARK);
    set_front(scratch, scratch_words(board.w, board.h), 0);
}

// The map of a picture that has passed the tests.
fn accepted_map(
    a: PictureAsked,
    board: Board,
    picture: &[u8],
    distances: &mut [u32],
    sites: &mut [u32],
    scratch: &mut [u32],
)
    requires { PictureAccepted board.w board.h a.kind a.d1 a.d2 picture.now (length distances.old)
        (length sites.old) (length scratch.old) }
    ensures { PictureAfter board.w board.h a.kind a.d1 a.d2 picture.now
        (buffers distances.old sites.old scratch.old)
        (buffers distances.new sites.new scratch.new) }
{
    match LineKind::try_from(a.kind) {
        Ok(kind) => row_map(board, kind, picture, distances, sites, scratch),
        // of the kinds that pass the tests it is the only other one
        Err(_) => {
            let chamfer = Chamfer {
                board,
                d1: a.d1,
                d2: a.d2,
            };
            scanned_map(chamfer, picture, distances, sites, scratch);
        }
    }
}

// The map of a picture, or the first row of the table that refuses it. The kind is a number, since every number gets an
// answer.
#[tactic(auto, using(rules::proofs::Calls::refused_call))]
pub fn picture_map(
    w: u32,
    h: u32,
    kind: u32,
    d1: u32,
    d2: u32,
    picture: &[u8],
    distances: &mut [u32],
    sites: &mut [u32],
    scratch: &mut [u32],
) -> Result<(), Refusal>
    ensures { PictureCall w h kind d1 d2 picture.now
        (buffers distances.old sites.old scratch.old)
        (number_of result) (buffers distances.new sites.new scratch.new) }
{
    let a = PictureAsked { w, h, kind, d1, d2 };
    let board = picture_refusal(a, picture, distances.len(), sites.len(), scratch.len())?;
    accepted_map(a, board, picture, distances, sites, scratch);
    Ok(())
}
