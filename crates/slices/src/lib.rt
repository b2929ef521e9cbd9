// The public sliced entry: a map of kinds 0 to 2 by calls with a line number and a budget of lines. The lines are the
// columns from the left, then the rows from the top. A call makes the tests of its start first; then it works, and where it
// ends it sets the scratch words after the cells' words to zero.
#![tactic(auto)]

ghost use Rattle.std.specs.Prelude.{◌+◌, ◌-◌, ◌*◌, ◌≤◌, ◌≡◌, length, IfOk};
ghost use Rattle.rules.specs.Refusals.{answer, slice_rows};
ghost use Rattle.rules.specs.Accepted.{Lent};
ghost use Rattle.rules.specs.Answers.{number_of, stop_number, kind_number, slice_number, slice_finished, slice_next};
ghost use Rattle.rules.specs.Calls.{buffers};
ghost use Rattle.rules.specs.Slices.{allowed, SliceAfter, SliceCall};
ghost use Rattle.slice_lines.specs.Lines.{RowsEnded};
ghost use Rattle.slices.specs.Work.{LinesDone};

use board_tests::scratch_words;
use columns::Band;
use gauge::Gauge;
use rules::SLICE_KIND_LIMIT;
use rules::answers::Slice;
use rules::kind::LineKind;
use rules::refusal::Refusal;
use rules::sized::Board;
use slice_lines::Ended;
use slice_lines::band::column_lines;
use slice_lines::row_by_row::row_lines;
use squares::list_of_squares;

// What the start of a slice call tests: the board's sides, the kind, and the line that the call begins at.
#[derive(Clone, Copy)]
struct SliceAsked {
    w: u32,
    h: u32,
    kind: u32,
    line: u32,
}

// The lines of a board that a call may finish: from `line` up to `end`, with `line` and without `end`.
#[derive(Clone, Copy)]
struct Lines {
    board: Board,
    line: usize,
    end: usize,
    ghost ordered: { line ≤ end },
    ghost lines_in: { end ≤ board.w + board.h },
}

// The board of a slice call, or the first row of the start that holds. Every list goes by its length: the start looks at no
// byte and no word.
#[tactic(auto, unfolding(rules::specs::Refusals::bad_kind, rules::specs::Refusals::bad_line))]
fn slice_refusal(
    a: SliceAsked,
    picture: usize,
    distances: usize,
    sites: usize,
    scratch: usize,
) -> Result<Board, Refusal>
    ensures number { number_of result ≡ answer (slice_rows a.w a.h a.kind a.line picture distances sites scratch) }
    ensures board { IfOk result (λ board. (board.w ≡ a.w) × (board.h ≡ a.h)) }
{
    let board = board_tests::board_of(a.w, a.h)?;
    if SLICE_KIND_LIMIT < a.kind {
        return Err(Refusal::Kind);
    }
    if board_tests::bad_buffers(board.w, board.h, picture, distances, sites, scratch) {
        return Err(Refusal::Buffers);
    }
    if a.w + a.h < a.line {
        return Err(Refusal::Line);
    }
    Ok(board)
}

// The line after the last that the budget and the rest allow.
fn reach(board: Board, line: usize, budget: usize) -> usize
    requires { line ≤ board.w + board.h }
    ensures { result ≡ line + allowed board.w board.h line budget }
{
    line + budget.min(board.w + board.h - line)
}

// The rows among the lines. Only rows need squares, so the list is copied here and not before.
fn rows_done(
    kind: LineKind,
    lines: Lines,
    distances: &mut [u32],
    sites: &mut [u32],
    scratch: &mut [u32],
) -> Ended
    requires distances_from { lines.board.w * lines.board.h ≤ length distances.old }
    requires sites_from { lines.board.w * lines.board.h ≤ length sites.old }
    requires scratch_from { lines.board.w * lines.board.h + lines.board.w + lines.board.w ≤ length scratch.old }
    ensures past { lines.board.w ≤ result.next }
    ensures rows { let w = lines.board.w in
        RowsEnded (kind_number kind) w lines.board.h (lines.line - w) (lines.end - w) scratch.old scratch.new
        distances.old distances.new sites.old sites.new (stop_number result.stop) (result.next - w) }
{
    let w = lines.board.w;
    let from = lines.line.saturating_sub(w);
    let to = lines.end.saturating_sub(w);
    let squares = list_of_squares();
    let g = Gauge {
        kind,
        squares: &squares,
    };
    let rows = row_lines(&g, lines.board, from, to, distances, sites, scratch);
    Ended {
        stop: rows.stop,
        next: w + rows.next,
    }
}

// The lines: the columns among them, then the rows among them. They end where one can't be done.
fn lines_done(
    kind: LineKind,
    lines: Lines,
    picture: &[u8],
    distances: &mut [u32],
    sites: &mut [u32],
    scratch: &mut [u32],
) -> Ended
    // The buffers travel together, yet in no struct: they are lent `&mut`, where a ghost field gets no proof.
    requires { Lent lines.board.w lines.board.h (length picture.now)
        (length distances.old) (length sites.old) (length scratch.old) }
    ensures { LinesDone lines.board.w lines.board.h (kind_number kind) lines.line lines.end picture.now
        (buffers distances.old sites.old scratch.old) (stop_number result.stop) result.next
        (buffers distances.new sites.new scratch.new) }
{
    let Lines { board, line, end } = lines;
    let columns = Band {
        board,
        from: line.min(board.w),
        to: end.min(board.w),
    };
    if let Some(column) = column_lines(columns, picture, scratch) {
        return Ended {
            stop: Some(Refusal::Cell),
            next: column,
        };
    }
    if end <= board.w {
        return Ended {
            stop: None,
            next: end,
        };
    }
    rows_done(kind, lines, distances, sites, scratch)
}

// A slice that has passed the tests of its start.
fn accepted_slice(
    board: Board,
    kind: LineKind,
    line: u32,
    budget: u32,
    picture: &[u8],
    distances: &mut [u32],
    sites: &mut [u32],
    scratch: &mut [u32],
) -> Slice
    requires line_in { line ≤ board.w + board.h }
    requires lent { Lent board.w board.h (length picture.now)
        (length distances.old) (length sites.old) (length scratch.old) }
    ensures { SliceAfter board.w board.h (kind_number kind) line budget picture.now
        (buffers distances.old sites.old scratch.old)
        (stop_number result.stop) result.finished result.next
        (buffers distances.new sites.new scratch.new) }
{
    let first = line as usize;
    let lines = Lines {
        board,
        line: first,
        end: reach(board, first, budget as usize),
    };
    let ended = lines_done(kind, lines, picture, distances, sites, scratch);
    let cells = board.cells();
    let words = scratch_words(board.w, board.h);
    scratch[cells..words].fill(0);
    let next = ended.next as u32;
    Slice {
        stop: ended.stop,
        finished: next - line,
        next,
    }
}

// A slice of a map: what stopped it, the lines that it finished and the next line; or the first row of its start that holds.
// The kind is a number, since every number gets an answer.
pub fn slice(
    w: u32,
    h: u32,
    kind: u32,
    line: u32,
    budget: u32,
    picture: &[u8],
    distances: &mut [u32],
    sites: &mut [u32],
    scratch: &mut [u32],
) -> Result<Slice, Refusal>
    ensures { SliceCall w h kind line budget picture.now
        (buffers distances.old sites.old scratch.old)
        (number_of result) (slice_number result) (slice_finished result) (slice_next result)
        (buffers distances.new sites.new scratch.new) }
{
    let a = SliceAsked { w, h, kind, line };
    let board = slice_refusal(
        a,
        picture.len(),
        distances.len(),
        sites.len(),
        scratch.len(),
    )?;
    let kind = LineKind::try_from(kind)?;
    Ok(accepted_slice(
        board, kind, line, budget, picture, distances, sites, scratch,
    ))
}
