// Millimetres on the screen, as a text and as a number.
use millimetres::{centre_figure, centre_text};
use std::io;
use std::io::AsBytes;

// "1.41406250##########, 10 bytes" or "refusal 8". The buffer is printed whole: # stands where nothing was written.
fn print_text(rt: &impl Print, d: u32, pitch: f32, text: &mut [u8]) -> io::Result<()> {
    match centre_text(d, pitch, text) {
        Ok(count) => {
            rt.write_all(text)?;
            print!(rt; ", {count} bytes")
        }
        Err(refusal) => print!(rt; "{refusal}"),
    }
}

// "the same number" where it is the one expected, "another number", or "refusal 8".
fn print_figure(rt: &impl Print, d: u32, pitch: f32, expected: f64) -> io::Result<()> {
    match centre_figure(d, pitch) {
        Ok(figure) => {
            if figure == expected {
                print!(rt; "the same number")
            } else {
                print!(rt; "another number")
            }
        }
        Err(refusal) => print!(rt; "{refusal}"),
    }
}

// The text and the number of a squared distance, in a buffer that is just long enough.
pub fn show_millimetres(
    rt: &impl Print,
    asked: impl AsBytes + Drop,
    d: u32,
    pitch: f32,
    expected: f64,
) -> io::Result<()> {
    rt.write_all(asked.as_byte_slice())?;
    print!(rt; ": ")?;
    let mut text = [35; 20];
    print_text(rt, d, pitch, &mut text)?;
    print!(rt; "; ")?;
    print_figure(rt, d, pitch, expected)?;
    println!(rt; "")
}

// A buffer that is a byte too short, and a pitch that is bad besides.
pub fn show_short_text(rt: &impl Print) -> io::Result<()> {
    print!(rt; "a text in 19 bytes, pitch 0.0: ")?;
    let mut text = [35; 19];
    print_text(rt, 2, 0.0, &mut text)?;
    println!(rt; "")
}
