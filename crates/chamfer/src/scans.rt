// The two scans, row by row, over one word for each cell of the board.
// They stay two: rows and cells come in opposite orders, so that one for both would ask for its order at every cell.
// What is known of the words stands in each contract: beside a `&mut` a ghost field gets no proof.
ghost use Rattle.std.specs.Prelude.{◌+◌, ◌*◌, ◌<◌, ◌≡◌, length};
ghost use Rattle.rules.specs.Board.{cell, Bored};
ghost use Rattle.rules.specs.Accepted.{Somewhere};
ghost use Rattle.chamfer_turn.specs.Neighbours.{weighed, Words};
ghost use Rattle.chamfer.specs.Scans.{half, whole, Settled, Scan, first_word, Begun, Scanned};

use chamfer_turn::relax;
use chamfer_turn::weighted::Chamfer;

// 003's "b(i,j) = ∞": a word above every true one, to which a weight can be added.
const FAR: u32 = 1_073_741_824;

// What a cell starts with.
fn first_word(byte: u8) -> u32
    ensures { result ≡ first_word byte }
{
    if byte == 1 { 0 } else { FAR }
}

// Gives every cell its first word.
fn begin(picture: &[u8], words: &mut [u32])
    requires { length picture.now ≡ length words.old }
    ensures { Begun picture.now words.new }
{
    for (c, word) in words.iter_mut().enumerate() {
        *word = first_word(picture[c]);
    }
}

// One row of the forward scan, from the left.
fn forward_row(chamfer: Chamfer, words: &mut [u32], y: usize)
    requires words_in { Words (weighed chamfer) words.old }
    requires row_in { y < chamfer.board.h }
    ensures { let w = chamfer.board.w in
        Settled (weighed chamfer) 0 half (cell w 0 y) (cell w 0 (y + 1)) words.old words.new }
{
    for x in 0..chamfer.board.w {
        relax(chamfer, words, x, y, 0, 4);
    }
}

// The forward scan, from the top row down.
fn forward(chamfer: Chamfer, words: &mut [u32])
    requires { Words (weighed chamfer) words.old }
    ensures { Scan (weighed chamfer) 0 half words.old words.new }
{
    for y in 0..chamfer.board.h {
        forward_row(chamfer, words, y);
    }
}

// One row of the backward scan, from the right.
fn backward_row(chamfer: Chamfer, words: &mut [u32], y: usize)
    requires words_in { Words (weighed chamfer) words.old }
    requires row_in { y < chamfer.board.h }
    ensures { let w = chamfer.board.w in
        Settled (weighed chamfer) half whole (cell w 0 y) (cell w 0 (y + 1)) words.old words.new }
{
    for x in (0..chamfer.board.w).rev() {
        relax(chamfer, words, x, y, 4, 8);
    }
}

// The backward scan, from the bottom row up.
fn backward(chamfer: Chamfer, words: &mut [u32])
    requires { Words (weighed chamfer) words.old }
    ensures { Scan (weighed chamfer) half whole words.old words.new }
{
    for y in (0..chamfer.board.h).rev() {
        backward_row(chamfer, words, y);
    }
}

// First words, then both scans.
pub fn map_words(chamfer: Chamfer, picture: &[u8], words: &mut [u32])
    requires picture_is { length picture.now ≡ chamfer.board.w * chamfer.board.h }
    requires words_are { length words.old ≡ chamfer.board.w * chamfer.board.h }
    requires bored { Somewhere chamfer.board.w chamfer.board.h (Bored chamfer.board.w picture.now) }
    ensures { Scanned chamfer.board.w chamfer.board.h chamfer.d1 chamfer.d2 picture.now words.old words.new }
{
    begin(picture, words);
    forward(chamfer, words);
    backward(chamfer, words);
}
