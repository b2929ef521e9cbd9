// The bench program: a bench file on standard input, its three numbers or its refusal on standard output.
#![tactic(auto)]

ghost use Rattle.std.specs.Prelude.{◌<◌, length, take, IfOk};
ghost use Rattle.std.specs.Io.{ReadsAtMost};
ghost use Rattle.std.specs.Io.KnownBytes.{Consumes, IsAtEnd};
ghost use Rattle.rules.specs.Limits.{file_limit};

use rules::FILE_LIMIT;
use std::io;
use std::io::Read;
use text::{TEXT, file_text};

mod text;

// Room for one byte more than a file may have: what fills it is too long, and no more of it need be read.
const ROOM: usize = FILE_LIMIT + 1;

// Reads the input, in as many pieces as it comes, until it ends or the room is full: how many bytes. The room is longer
// than any file may be, so that no file is taken for a shorter one. A read that fails is an error.
fn read_input<R: Read>(input: &mut R, room: &mut [u8]) -> io::Result<usize>
    requires { file_limit < length room.old }
    ensures within { ReadsAtMost result room.new }
    ensures bytes { IfOk result (λ n. Consumes (R.remaining input.old) (R.remaining input.new) (take n room.new)) }
    ensures whole { IfOk result (λ n. n < length room.new → IsAtEnd (R.remaining input.new)) }
{
    let mut n = 0;
    while n < room.len() {
        let count = input.read(&mut room[n..])?;
        if count == 0 {
            break;
        }
        n += count;
    }
    Ok(n)
}

fn main(rt: HostRuntime) -> io::Result<()> {
    let mut file = [0u8; ROOM];
    let n = read_input(&mut rt.stdin(), &mut file)?;
    let mut text = [0u8; TEXT];
    let begin = file_text(&file[..n], &mut text);
    rt.write_all(&text[begin..])
}
