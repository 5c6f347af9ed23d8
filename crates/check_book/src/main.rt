// Reads the file `book` and prints `A account identity day` with how many holdings and pairs there are, or why it is refused, `X number line`.
// A file that will not open is empty text; of a file that is too long one byte more than may stand is read.
#![tactic(auto)]

ghost use Rattle.std.specs.Prelude.{OnOk};
ghost use Rattle.std.specs.Io.KnownBytes.{Appends};
ghost use Rattle.reading.specs.Reading.{read_book};
ghost use Rattle.reports.specs.Reports.{book_report};

use std::io;
use std::io::Write;

// Prints the line of a book's text.
fn print<W: Write>(out: &mut W, book: &[u8]) -> io::Result<()>
    ensures { OnOk result (Appends (W.contents out.old) (W.contents out.new) (book_report (read_book book.now))) }
{
    let line = reports::of_book(book);
    let text = &line.text[..line.length];
    out.write_all(text)
}

fn main(rt: HostRuntime) -> io::Result<()> {
    let mut book = [0u8; 16385];
    let loaded = files::load(&rt, b"book", &mut book)?;
    print(&mut rt.stdout(), &book[..loaded.unwrap_or(0)])
}
