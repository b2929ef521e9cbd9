// The rows of a map: every row line.
ghost use Rattle.std.specs.Prelude.{◌+◌, ◌*◌, ◌≤◌, length};
ghost use Rattle.maps.specs.Rows.{Believable, RowsMade};

use gauge::Gauge;
use rows::row_line;
use rules::SIDE_LIMIT;
use rules::sized::Board;

// All row lines, from the top. The words of the rows stand in the scratch's first w·h words, and the 2w after them are
// free.
pub fn all_rows(
    g: &Gauge,
    board: Board,
    distances: &mut [u32],
    sites: &mut [u32],
    scratch: &mut [u32],
)
    requires { (board.w * board.h ≤ length distances.old) × (board.w * board.h ≤ length sites.old)
        × (board.w * board.h + board.w + board.w ≤ length scratch.old) × Believable board.w board.h scratch.old }
    ensures { RowsMade g.now.kind board.w board.h board.h scratch.old scratch.new distances.old distances.new
        sites.old sites.new }
{
    let mut line = [0u64; SIDE_LIMIT as usize];
    let tail = board.cells();
    for y in 0..board.h {
        let at = y * board.w;
        let end = at + board.w;
        row_line(
            g,
            y,
            at,
            tail,
            scratch,
            &mut line[..board.w],
            &mut distances[at..end],
            &mut sites[at..end],
        );
    }
}
