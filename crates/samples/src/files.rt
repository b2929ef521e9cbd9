// Bench files through their entry.
use bench_file::read_file;
use std::io;
use std::io::AsBytes;

// "the record (0, 0): sites 1, farthest 7938, cell 4095" or "..: refusal 6"
pub fn show_file(rt: &impl Print, name: impl AsBytes + Drop, file: &[u8]) -> io::Result<()> {
    rt.write_all(name.as_byte_slice())?;
    match read_file(file) {
        Ok(reading) => println!(rt;
            ": sites {}, farthest {}, cell {}",
            reading.sites, reading.farthest, reading.cell
        ),
        Err(refusal) => println!(rt; ": {refusal}"),
    }
}
