// Files read by name.
#![tactic(auto)]

ghost use Rattle.std.specs.Prelude.{◌≡◌, ◌<◌, ◌≤◌, length, take, unwrap_or, IfOk, OnErr};
ghost use Rattle.std.specs.Io.KnownBytes.{Consumes, IsAtEnd};

use std::io::Read;
use std::rt::Files;
use std::{fs, io};

// The file of this name, if it opens. A name that is not UTF-8 opens none.
fn open<R: Files>(rt: &R, name: &[u8]) -> Option<R::File> {
    let path = str::from_utf8(name).ok()?;
    fs::open(rt, path).ok()
}

// Reads to the start of the buffer until it is full or the reader is at its end, and returns how many bytes were read.
fn fill<R: Read>(reader: &mut R, buffer: &mut [u8]) -> io::Result<usize>
    ensures in_bounds { IfOk result (λ n. n ≤ length buffer.new) }
    ensures bytes { IfOk result (λ n. Consumes (R.remaining reader.old) (R.remaining reader.new) (take n buffer.new)) }
    ensures end { IfOk result (λ n. n < length buffer.new → IsAtEnd (R.remaining reader.new)) }
{
    let mut at = 0;
    while at < buffer.len() {
        let n = reader.read(&mut buffer[at..])?;
        if n == 0 {
            break;
        }
        at += n;
    }
    Ok(at)
}

// Reads the file of this name to the start of the buffer, as far as it has room, and answers how many bytes were read. Of a file that will
// not open none are, and the buffer keeps its bytes. A read that fails is the error.
pub fn load<R: Files>(rt: &R, name: &[u8], buffer: &mut [u8]) -> io::Result<Option<usize>>
    ensures in_bounds { IfOk result (λ loaded. unwrap_or loaded 0 ≤ length buffer.new) }
    ensures kept { IfOk result (λ loaded. loaded ≡ None → buffer.new ≡ buffer.old) }
    ensures err { OnErr result (length buffer.new ≡ length buffer.old) }
{
    let Some(mut file) = open(rt, name) else {
        return Ok(None);
    };
    Ok(Some(fill(&mut file, buffer)?))
}
