// Settings through the opening and the clear map.
use crate::text::print_answer;
use knob::{clear_map, open};
use rules::Setting;
use std::io;
use std::io::AsBytes;

// A good value, to stand beside the one that is tried.
const GOOD: f32 = 1.0;

// "a = 1, b = 64" or "refusal 8"
fn print_opened(rt: &impl Print, setting: Setting) -> io::Result<()> {
    match open(setting) {
        Ok(opening) => print!(rt; "a = {}, b = {}", opening.a, opening.b),
        Err(refusal) => print!(rt; "{refusal}"),
    }
}

// A value by itself: as the pitch, then as the radius.
pub fn show_value(rt: &impl Print, name: impl AsBytes + Drop, value: f32) -> io::Result<()> {
    print!(rt; "pitch ")?;
    rt.write_all(name.as_byte_slice())?;
    print!(rt; ": ")?;
    let as_pitch = Setting {
        pitch: value,
        radius: GOOD,
    };
    print_opened(rt, as_pitch)?;
    print!(rt; "\nradius ")?;
    rt.write_all(name.as_byte_slice())?;
    print!(rt; ": ")?;
    let as_radius = Setting {
        pitch: GOOD,
        radius: value,
    };
    print_opened(rt, as_radius)?;
    println!(rt; "")
}

// "; d = 16 clear"
fn print_clear(rt: &impl Print, d: u32, clear: u8) -> io::Result<()> {
    let told = match clear {
        0 => "not clear",
        1 => "clear",
        _ => "left out",
    };
    print!(rt; "; d = {d} {told}")
}

// The clear map of two squared distances. The bytes start as neither 0 nor 1, so that one that is left out shows.
pub fn show_clear(rt: &impl Print) -> io::Result<()> {
    let setting = Setting {
        pitch: 0.5,
        radius: 2.0,
    };
    print!(rt; "pitch 0.5, radius 2.0: ")?;
    print_opened(rt, setting)?;
    let squares = [16, 15];
    let mut clear = [2; 2];
    let _ = clear_map(setting, &squares, &mut clear);
    print_clear(rt, squares[0], clear[0])?;
    print_clear(rt, squares[1], clear[1])?;
    println!(rt; "")
}

// "clear map of 262144 words: good"
fn print_length(rt: &impl Print, squares: &[u32], clear: &mut [u8]) -> io::Result<()> {
    let setting = Setting {
        pitch: GOOD,
        radius: GOOD,
    };
    print!(rt; "clear map of {} words", squares.len())?;
    print_answer(rt, clear_map(setting, squares, clear))
}

// A clear map of a board of 512 by 512, which was the longest once, and one word more. The longest, of 4,194,304 words, has
// no room on a stack; `examples/header.c` and the second program run it.
pub fn show_lengths(rt: &impl Print) -> io::Result<()> {
    let squares = [0; 262_145];
    let mut board = [2; 262_144];
    print_length(rt, &squares[..262_144], &mut board)?;
    let mut one_more = [2; 262_145];
    print_length(rt, &squares, &mut one_more)
}
