// Why a call is refused: the rows of the table "When the bench says no", with those of document 02.
ghost use Rattle.std.specs.Prelude.{◌≡◌};
ghost use Rattle.rules.specs.Answers.{refusal_number};

use std::error::Error;
use std::fmt;

// One row of the table. A slice of a map is stopped by such a row, too.
#[derive(Clone, Copy, Debug, PartialEq, Eq)]
pub enum Refusal {
    // 1: a side of the board
    Sides,
    // 2: a kind that is none, or none of costs or slices
    Kind,
    // 3: the weights of kind 3
    Weights,
    // 4: the length of a lent buffer
    Buffers,
    // 5: a byte of the picture, or a cost
    Cell,
    // 6: nothing bored, or nothing unmarked
    NoBore,
    // 7: an end of the lane
    Ends,
    // 8: a value of the setting
    Setting,
    // 9: a column or a value of the changeover
    Changeover,
    // 10: the length of the bench file
    FileLength,
    // 11: a coordinate of the bench file
    OffBoard,
    // 12: the line of a slice
    Line,
    // 13: a word that a row line would believe
    Word,
}

// The row's number.
impl From<Refusal> for u32 {
    ghost from_gives = { λ refusal n. n ≡ refusal_number refusal };

    fn from(refusal: Refusal) -> u32 {
        match refusal {
            Refusal::Sides => 1,
            Refusal::Kind => 2,
            Refusal::Weights => 3,
            Refusal::Buffers => 4,
            Refusal::Cell => 5,
            Refusal::NoBore => 6,
            Refusal::Ends => 7,
            Refusal::Setting => 8,
            Refusal::Changeover => 9,
            Refusal::FileLength => 10,
            Refusal::OffBoard => 11,
            Refusal::Line => 12,
            Refusal::Word => 13,
        }
    }
}

// "refusal 3"
impl fmt::Display for Refusal {
    fn fmt<W: fmt::Write>(&self, f: &mut fmt::Formatter<W>) -> fmt::Result {
        write!(f, "refusal {}", u32::from(*self))
    }
}

impl Error for Refusal {}
