// The walk down the labels of a flood.
ghost use Rattle.std.specs.Prelude.{◌<◌, ◌≡◌, length};
ghost use Rattle.lane_flood.specs.Around.{InRows};
ghost use Rattle.lane_flood.specs.Labelling.{at, Descending};
ghost use Rattle.lane_search.specs.Course.{Down, Walked};

use lane_flood::sides::{SIDES, beside};

// The cell to go to from c: the first side that leads one label down.
fn next(w: usize, c: usize, labels: &[u32]) -> usize
    requires rows { InRows w (length labels.now) }
    requires descending { Descending w (length labels.now) (at labels.now) }
    requires inside { c < length labels.now }
    requires more { 1 < at labels.now c }
    ensures { Down w (length labels.now) (at labels.now) c result }
{
    let n = labels.len();
    let label = labels[c] - 1;
    let x = c % w;
    SIDES
        .iter()
        .find_map(|&side| beside(w, n, x, c, side).filter(|&p| labels[p] == label))
        .unwrap()
}

// The walk from the cell `from`. Answers how many cells it has.
pub fn walk(w: usize, from: usize, labels: &[u32], path: &mut [u32]) -> usize
    requires rows { InRows w (length labels.now) }
    requires descending { Descending w (length labels.now) (at labels.now) }
    requires path_long { length path.old ≡ length labels.now }
    requires inside { from < length labels.now }
    requires labelled { 0 < at labels.now from }
    ensures { Walked w (length labels.now) (at labels.now) from result
        (at path.new) }
{
    let cells = labels[from] as usize;
    path[0] = from as u32;
    let mut c = from;
    for i in 1..cells {
        c = next(w, c, labels);
        path[i] = c as u32;
    }
    cells
}
