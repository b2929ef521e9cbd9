// The lane entry: the refusals first, then the kind 0 map, and the best lane over the map's words.
#![tactic(auto)]

ghost use Rattle.std.specs.Prelude.{length};
ghost use Rattle.rules.specs.Accepted.{LaneAccepted};
ghost use Rattle.rules.specs.Answers.{number_of, lane_width, lane_cells};
ghost use Rattle.rules.specs.Calls.{buffers, LaneAfter, LaneCall};

use lane_search::best_lane;
use maps::row_map;
use refusals::lane_rows::{LaneAsked, lane_refusal};
use rules::answers::Course;
use rules::kind::LineKind;
use rules::refusal::Refusal;
use rules::sized::Board;

// The lane of a call that has passed the tests: the kind 0 map, and the best lane over its words.
fn accepted_lane(
    board: Board,
    from: usize,
    to: usize,
    picture: &[u8],
    distances: &mut [u32],
    sites: &mut [u32],
    scratch: &mut [u32],
    path: &mut [u32],
) -> Course
    requires { LaneAccepted board.w board.h picture.now from to (length distances.old)
        (length sites.old) (length scratch.old) (length path.old) }
    ensures { LaneAfter board.w board.h picture.now from to
        (buffers distances.old sites.old scratch.old) path.old
        result.width result.cells
        (buffers distances.new sites.new scratch.new) path.new }
{
    let n = board.cells();
    row_map(board, LineKind::Euclid, picture, distances, sites, scratch);
    best_lane(
        board.w,
        from,
        to,
        &distances[..n],
        &mut scratch[..n],
        &mut path[..n],
    )
}

// The widest lane from one cell to another: its width and its number of cells, or the first row of the table that refuses
// the call.
#[tactic(auto, using(rules::proofs::Calls::refused_call))]
pub fn widest(
    w: u32,
    h: u32,
    picture: &[u8],
    from: u32,
    to: u32,
    distances: &mut [u32],
    sites: &mut [u32],
    scratch: &mut [u32],
    path: &mut [u32],
) -> Result<Course, Refusal>
    ensures { LaneCall w h picture.now from to
        (buffers distances.old sites.old scratch.old) path.old
        (number_of result) (lane_width result) (lane_cells result)
        (buffers distances.new sites.new scratch.new) path.new }
{
    let a = LaneAsked { w, h, from, to };
    let board = lane_refusal(
        a,
        picture,
        distances.len(),
        sites.len(),
        scratch.len(),
        path.len(),
    )?;
    let course = accepted_lane(
        board,
        from as usize,
        to as usize,
        picture,
        distances,
        sites,
        scratch,
        path,
    );
    Ok(course)
}
