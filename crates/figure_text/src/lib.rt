// A whole number of 1/256 mm as a text: whole digits, a point and eight digits, from the buffer's first byte on.
#![tactic(auto)]

ghost use Rattle.std.specs.Prelude.{◌+◌, ◌≤◌, ◌≡◌, length};
ghost use Rattle.rules.specs.BenchFile.{decimal};
ghost use Rattle.rules.specs.Limits.{text_bytes};
ghost use Rattle.rules.specs.Millimetres.{Lettered};
ghost use Rattle.figure_text.specs.Digits.{Placed};

// A millimetre in 1/256 mm.
const WHOLE: u32 = 256;
// 1/256 mm in hundred-millionths of a millimetre.
const PART: u32 = 390_625;
// The digits after the point.
const TAIL: usize = 8;

// How many digits a number has, 1 for 0.
fn digit_count(number: u32) -> usize
    ensures { result ≡ length (decimal number) }
{
    number.max(1).ilog10() as usize + 1
}

// Puts so many last digits of a number from the place `begin` on, with zeros in front where it has fewer.
fn put_digits(text: &mut [u8], begin: usize, count: usize, number: u32)
    requires { begin + count ≤ length text.old }
    ensures { Placed begin count number text.old text.new }
{
    let mut rest = number;
    for i in (begin..begin + count).rev() {
        text[i] = b'0' + (rest % 10) as u8;
        rest /= 10;
    }
}

// Writes "whole digits (no needless leading zero, `0` for none), a point and eight digits", and answers the text's length.
// The parts are put from the last to the first, each in front of what is there.
pub fn write(n: u32, text: &mut [u8]) -> u32
    requires { text_bytes ≤ length text.old }
    ensures { Lettered n text.old text.new result }
{
    let whole = n / WHOLE;
    let count = digit_count(whole);
    put_digits(text, count + 1, TAIL, n % WHOLE * PART);
    text[count] = b'.';
    put_digits(text, 0, count, whole);
    (count + 1 + TAIL) as u32
}
