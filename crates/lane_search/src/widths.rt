// The width by halving: some lane is as wide as `low`, and none is wider than `high`.
ghost use Rattle.std.specs.Prelude.{◌<◌, length};
ghost use Rattle.lane_flood.specs.Around.{Lists};
ghost use Rattle.lane_flood.specs.Labelling.{at};
ghost use Rattle.lane_search.specs.Course.{AsWide, Between};

use lane_flood::flood;

// What is asked: how wide a lane is from one cell to another, over the words of cells that lie in rows of w.
#[derive(Clone, Copy)]
pub struct Asked<'a> {
    pub w: usize,
    pub words: &'a [u32],
    pub from: usize,
    pub to: usize,
    ghost from_inside: { from < length words.now },
    ghost to_inside: { to < length words.now },
}

impl Asked<'_> {
    // Whether a flood from `to` over the cells of at least v reaches `from`.
    fn reaches(&self, v: u32, labels: &mut [u32], queue: &mut [u32]) -> bool
        requires { Lists self.now.w self.now.words.now labels.old queue.old }
        ensures { let a = self.now in AsWide a.w (length a.words.now) (at a.words.now) a.from a.to v result }
    {
        flood(self.w, v, self.to, self.words, labels, queue);
        0 < labels[self.from]
    }

    // The width of the widest lane.
    pub fn width(&self, labels: &mut [u32], queue: &mut [u32]) -> u32
        requires { Lists self.now.w self.now.words.now labels.old queue.old }
        ensures { let a = self.now in
            Between a.w (length a.words.now) (at a.words.now) a.from a.to result result }
    {
        let mut low = 0;
        let mut high = self.words[self.from].min(self.words[self.to]);
        while low < high {
            let middle = low + (high - low) / 2 + 1;
            if self.reaches(middle, labels, queue) {
                low = middle;
            } else {
                high = middle - 1;
            }
        }
        low
    }
}
