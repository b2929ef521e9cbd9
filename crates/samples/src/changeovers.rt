// Changeovers through their entry.
use changeover::changeover;
use std::io;

// The changeover of two columns: "changeover 0, 1, a = 2000000, b = 0: -1000000" or ".. refusal 9".
pub fn show_changeover(rt: &impl Print, i: u32, u: u32, a: u32, b: u32) -> io::Result<()> {
    print!(rt; "changeover {i}, {u}, a = {a}, b = {b}: ")?;
    match changeover(i, u, a, b) {
        Ok(p) => println!(rt; "{p}"),
        Err(refusal) => println!(rt; "{refusal}"),
    }
}
