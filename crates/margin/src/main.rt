// Reads the files `book` and `sheet` and prints the margin of the account, `R account day clearing maintenance initial`, or why there
// is none, `X number line`. A file that will not open is empty text; of a file that is too long one byte more than may stand is read.
#![tactic(auto)]

ghost use Rattle.std.specs.Prelude.{OnOk};
ghost use Rattle.std.specs.Io.KnownBytes.{Appends};
ghost use Rattle.reports.specs.Statement.{statement_text};

use std::io;
use std::io::Write;

// Prints the line of a book's text and a sheet's.
fn print<W: Write>(out: &mut W, book: &[u8], sheet: &[u8]) -> io::Result<()>
    ensures { OnOk result (Appends (W.contents out.old) (W.contents out.new) (statement_text book.now sheet.now)) }
{
    let line = reports::of_margin(book, sheet);
    let text = &line.text[..line.length];
    out.write_all(text)
}

fn main(rt: HostRuntime) -> io::Result<()> {
    let mut book = [0u8; 16385];
    let mut sheet = [0u8; 65537];
    let b = files::load(&rt, b"book", &mut book)?;
    let s = files::load(&rt, b"sheet", &mut sheet)?;
    print(
        &mut rt.stdout(),
        &book[..b.unwrap_or(0)],
        &sheet[..s.unwrap_or(0)],
    )
}
