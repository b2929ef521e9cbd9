// The kinds whose maps are made line by line, and name a cell: all but the chamfer form.
ghost use Rattle.rules.specs.Answers.{LineKindOf};

use crate::refusal::Refusal;

// A kind that has parts: "dx² + dy², squared, never rooted", "dx + dy", "the larger of dx, dy".
#[derive(Clone, Copy, Debug, PartialEq, Eq)]
pub enum LineKind {
    Euclid,
    Manhattan,
    Chessboard,
}

impl TryFrom<u32> for LineKind {
    type Error = Refusal;

    ghost try_from_gives = { LineKindOf };

    // The kind with this number; every other number is refused.
    fn try_from(kind: u32) -> Result<Self, Refusal> {
        match kind {
            0 => Ok(LineKind::Euclid),
            1 => Ok(LineKind::Manhattan),
            2 => Ok(LineKind::Chessboard),
            _ => Err(Refusal::Kind),
        }
    }
}
