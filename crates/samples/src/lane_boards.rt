// Lanes through the lane entry. The path starts as zeros, so that a mark that is left out shows, and a word beyond the board
// that is written.
use crate::text::print_rows;
use lane::widest;
use rules::MARK;
use std::io;
use std::io::AsBytes;

// A board of at most nine cells, and the lane between two of them: "3 by 3: width 1, cells 5, path 0 1 2 5 8" or "3 by 3:
// refusal 7, path 0 0 0".
pub fn show_lane(
    rt: &impl Print,
    name: impl AsBytes + Drop,
    w: u32,
    h: u32,
    picture: &[u8],
    from: u32,
    to: u32,
) -> io::Result<()> {
    let mut distances = [MARK; 9];
    let mut sites = [MARK; 9];
    let mut scratch = [MARK; 21];
    let mut path = [0; 9];
    let answer = widest(
        w,
        h,
        picture,
        from,
        to,
        &mut distances,
        &mut sites,
        &mut scratch,
        &mut path,
    );
    rt.write_all(name.as_byte_slice())?;
    match answer {
        Ok(course) => print!(rt; ": width {}, cells {}", course.width, course.cells),
        Err(refusal) => print!(rt; ": {refusal}"),
    }?;
    print!(rt; ", path")?;
    print_rows(rt, 9, &path)?;
    println!(rt; "")
}
