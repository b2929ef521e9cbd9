// What several samples print alike.
ghost use Rattle.std.specs.Prelude.{◌<◌};

use rules::refusal::Refusal;
use std::io;

// The words of a map, row by row, with a stroke where a row begins, but for the first row.
pub fn print_rows(rt: &impl Print, w: usize, words: &[u32]) -> io::Result<()>
    requires { 0 < w }
{
    for (cell, word) in words.iter().enumerate() {
        if 0 < cell && cell % w == 0 {
            print!(rt; " /")?;
        }
        print!(rt; " {word}")?;
    }
    Ok(())
}

// ": good" or ": refusal 3", and the line's end
pub fn print_answer(rt: &impl Print, answer: Result<(), Refusal>) -> io::Result<()> {
    match answer {
        Ok(()) => println!(rt; ": good"),
        Err(refusal) => println!(rt; ": {refusal}"),
    }
}
