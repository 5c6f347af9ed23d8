// Reads call lines from standard input, and the book that they are made on from the file `book`, or makes it where line 1 says so. Prints the text of the book that
// results, then `X number line` for each refused line. Of a text that is too long one byte more than may stand is read; a file that will not open is empty text.
#![tactic(auto)]

ghost use Rattle.std.specs.Prelude.{OnOk};
ghost use Rattle.std.specs.Io.KnownBytes.{Appends};
ghost use Rattle.reports.specs.Desk.{desk_text};

use std::io;
use std::io::{Read, Write};

// Prints what the calls leave of a book's text, and the refused ones.
fn print<W: Write>(out: &mut W, book: &[u8], calls: &[u8]) -> io::Result<()>
    ensures { OnOk result (Appends (W.contents out.old) (W.contents out.new) (desk_text book.now calls.now)) }
{
    let desk = reports::of_calls(book, calls);
    let text = &desk.text[..desk.length];
    out.write_all(text)
}

fn main(rt: HostRuntime) -> io::Result<()> {
    let mut calls = Vec::new(rt.alloc());
    let mut book = [0u8; 16385];
    rt.stdin().take(65537).read_to_end(&mut calls)?;
    let b = files::load(&rt, b"book", &mut book)?;
    print(&mut rt.stdout(), &book[..b.unwrap_or(0)], &calls)
}
