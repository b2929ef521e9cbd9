// Kind 3: the two scans of document 003, which make the map of least chamfer distances in place.
#![tactic(auto)]

mod scans;

ghost use Rattle.std.specs.Prelude.{◌*◌, ◌≤◌, ◌≡◌, length};
ghost use Rattle.rules.specs.Board.{Bored};
ghost use Rattle.rules.specs.Accepted.{Somewhere};
ghost use Rattle.chamfer.specs.Scans.{Scanned};

use chamfer_turn::weighted::Chamfer;
use scans::map_words;

// Makes the map of a picture in the first w·h words of `distances`.
pub fn scan_map(chamfer: Chamfer, picture: &[u8], distances: &mut [u32])
    requires picture_is { length picture.now ≡ chamfer.board.w * chamfer.board.h }
    requires distances_from { chamfer.board.w * chamfer.board.h ≤ length distances.old }
    requires bored { Somewhere chamfer.board.w chamfer.board.h (Bored chamfer.board.w picture.now) }
    ensures { Scanned chamfer.board.w chamfer.board.h chamfer.d1 chamfer.d2 picture.now distances.old distances.new }
{
    let n = chamfer.board.cells();
    map_words(chamfer, picture, &mut distances[..n]);
}
