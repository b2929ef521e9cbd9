// The text of a bench file's answer, written from its end to its beginning, as the digits of a number come.
ghost use Rattle.std.specs.Prelude.{◌+◌, ◌≤◌, length};
ghost use Rattle.bench.specs.Putting.{Put, PutNumber, PutLine, text_room, TextWritten};

use bench_file::read_file;
use rules::answers::Reading;

// Room for any answer: three words, and for each a space, at most ten digits and the line's end.
pub const TEXT: usize = 5 + 8 + 4 + 3 * 12;
// The byte of the digit 0; those of 1 to 9 follow it.
const ZERO: u32 = 48;

// Puts the bytes in front of the place `end`: where they begin. A buffer with a place in it, since there is no heap.
fn put(out: &mut [u8], end: usize, bytes: &[u8]) -> usize
    requires { (length bytes.now ≤ end) × (end ≤ length out.old) }
    ensures { Put end bytes.now out.old out.new result }
{
    let at = end - bytes.len();
    out[at..end].copy_from_slice(bytes);
    at
}

// The same with the digits of a number, one by one: so they are promised (`PutNumber`), and so `digits_from_one` bends them.
fn put_number(out: &mut [u8], end: usize, number: u32) -> usize
    requires { (10 ≤ end) × (end ≤ length out.old) }
    ensures { PutNumber end number out.old out.new result }
{
    let mut at = end - 1;
    let mut rest = number;
    while 10 <= rest {
        out[at] = (ZERO + rest % 10) as u8;
        rest /= 10;
        at -= 1;
    }
    out[at] = (ZERO + rest) as u8;
    at
}

// The same with a line: the word, a space, the number, the line's end.
fn put_line(out: &mut [u8], end: usize, word: &[u8], number: u32) -> usize
    requires { (length word.now + 12 ≤ end) × (end ≤ length out.old) }
    ensures { PutLine end word.now number out.old out.new result }
{
    let digits_end = put(out, end, b"\n");
    let digits = put_number(out, digits_end, number);
    let space = put(out, digits, b" ");
    put(out, space, word)
}

// "It prints three lines, or one line of `refused`, a space and the number": the text of the answer to a file, at the end
// of `out`, and where it begins.
pub fn file_text(file: &[u8], out: &mut [u8]) -> usize
    requires { text_room ≤ length out.old }
    ensures { TextWritten file.now out.new result }
{
    let end = out.len();
    match read_file(file) {
        Ok(
            Reading {
                sites,
                farthest,
                cell,
            },
        ) => {
            let third = put_line(out, end, b"cell", cell);
            let second = put_line(out, third, b"farthest", farthest);
            put_line(out, second, b"sites", sites)
        }
        Err(refusal) => put_line(out, end, b"refused", u32::from(refusal)),
    }
}
