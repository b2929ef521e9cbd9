// The best lane over any list of words: the width by halving, with a flood for each width that is tried, and a walk
// down the labels of a last flood. Whose words they are does not matter here.
#![tactic(auto)]

ghost use Rattle.std.specs.Prelude.{◌<◌, length};
ghost use Rattle.lane_flood.specs.Around.{Lists};
ghost use Rattle.lane_flood.specs.Labelling.{at};
ghost use Rattle.lane_search.specs.Course.{Laid};

use crate::walk::walk;
use crate::widths::Asked;
use lane_flood::flood;
use rules::MARK;
use rules::answers::Course;
use set_words::set_all;

mod walk;
mod widths;

// The best lane over the words of a board whose rows are w cells long. `labels` and `path` are as long as the board.
pub fn best_lane(
    w: usize,
    from: usize,
    to: usize,
    words: &[u32],
    labels: &mut [u32],
    path: &mut [u32],
) -> Course
    requires lists { Lists w words.now labels.old path.old }
    requires from_inside { from < length words.now }
    requires to_inside { to < length words.now }
    ensures { Laid w (length words.now) (at words.now) from to result.width result.cells
        labels.new path.new }
{
    let asked = Asked { w, words, from, to };
    let width = asked.width(labels, path);
    flood(w, width, to, words, labels, path);
    let cells = walk(w, from, labels, path);
    set_all(labels, 0);
    set_all(&mut path[cells..], MARK);
    Course {
        width,
        cells: cells as u32,
    }
}
