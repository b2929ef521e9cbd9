// Costs through the cost entry. The words lent start as marks, so that one that is left out shows.
use crate::text::{print_answer, print_rows};
use costs::cost_map;
use rules::MARK;
use std::io;
use std::io::AsBytes;

// A line of five costs, and its map.
pub fn show_costs(
    rt: &impl Print,
    name: impl AsBytes + Drop,
    kind: u32,
    costs: &[u32],
) -> io::Result<()> {
    let mut distances = [MARK; 5];
    let mut sites = [MARK; 5];
    let mut scratch = [MARK; 17];
    let answer = cost_map(5, 1, kind, costs, &mut distances, &mut sites, &mut scratch);
    rt.write_all(name.as_byte_slice())?;
    if answer.is_err() {
        return print_answer(rt, answer);
    }
    print!(rt; ":")?;
    print_rows(rt, 5, &distances)?;
    print!(rt; ", sites")?;
    print_rows(rt, 5, &sites)?;
    println!(rt; "")
}
