// Prints, for each number from 0001 to 9999 of which there are files, the number in a line of its own and then what a program of
// the desk prints of them; the file `stdout` says what that must be.
//   NNNN.calls, with or without NNNN.book      desk
//   NNNN.book and NNNN.sheet                   margin
//   NNNN.book alone                            check_book
//   NNNN.sheet alone                           check_sheet
#![tactic(auto)]

ghost use Rattle.std.specs.Prelude.{◌≤◌, length, unwrap_or, IfOk, OnOk};
ghost use Rattle.std.specs.Io.KnownBytes.{Appends};
ghost use Rattle.reading.specs.Reading.{read_book};
ghost use Rattle.checking.specs.Reading.{judged};
ghost use Rattle.reports.specs.Reports.{book_report, sheet_report};
ghost use Rattle.reports.specs.Statement.{statement_text};
ghost use Rattle.reports.specs.Desk.{desk_text};
ghost use Rattle.cases.specs.Numbered.{numbered};

use std::io;
use std::io::Write;
use std::rt::Files;

// The file of a number, whose name has room for its four digits in front.
fn load<R: Files, const N: usize>(
    rt: &R,
    mut name: [u8; N],
    number: u64,
    buffer: &mut [u8],
) -> io::Result<Option<usize>>
    ensures { IfOk result (λ loaded. unwrap_or loaded 0 ≤ length buffer.new) }
{
    put::put_fixed(&mut name, 0, 4, number);
    files::load(rt, &name, buffer)
}

// The number in four digits, an LF and the text.
fn say<W: Write>(out: &mut W, number: u64, text: &[u8]) -> io::Result<()>
    ensures { OnOk result (Appends (W.contents out.old) (W.contents out.new) (numbered number text.now)) }
{
    let mut head = *b"0000\n";
    put::put_fixed(&mut head, 0, 4, number);
    out.write_all(&head)?;
    out.write_all(text)
}

fn say_desk<W: Write>(out: &mut W, number: u64, book: &[u8], calls: &[u8]) -> io::Result<()>
    ensures { OnOk result (Appends (W.contents out.old) (W.contents out.new) (numbered number (desk_text book.now calls.now))) }
{
    let desk = reports::of_calls(book, calls);
    let text = &desk.text[..desk.length];
    say(out, number, text)
}

fn say_margin<W: Write>(out: &mut W, number: u64, book: &[u8], sheet: &[u8]) -> io::Result<()>
    ensures { OnOk result (Appends (W.contents out.old) (W.contents out.new) (numbered number (statement_text book.now sheet.now))) }
{
    let line = reports::of_margin(book, sheet);
    let text = &line.text[..line.length];
    say(out, number, text)
}

fn say_book<W: Write>(out: &mut W, number: u64, book: &[u8]) -> io::Result<()>
    ensures { OnOk result (Appends (W.contents out.old) (W.contents out.new) (numbered number (book_report (read_book book.now)))) }
{
    let line = reports::of_book(book);
    let text = &line.text[..line.length];
    say(out, number, text)
}

fn say_sheet<W: Write>(out: &mut W, number: u64, sheet: &[u8]) -> io::Result<()>
    ensures { OnOk result (Appends (W.contents out.old) (W.contents out.new) (numbered number (sheet_report (judged sheet.now)))) }
{
    let line = reports::of_sheet(sheet);
    let text = &line.text[..line.length];
    say(out, number, text)
}

// The case of this number, if there is one. The buffers have room for a byte more than a text may have.
fn answer<R: Files, W: Write>(
    rt: &R,
    out: &mut W,
    number: u64,
    book: &mut [u8],
    text: &mut [u8],
) -> io::Result<()> {
    let held = load(rt, *b"0000.book", number, book)?;
    let b = &book[..held.unwrap_or(0)];
    if let Some(n) = load(rt, *b"0000.calls", number, text)? {
        return say_desk(out, number, b, &text[..n]);
    }
    match (held, load(rt, *b"0000.sheet", number, text)?) {
        (Some(_), Some(n)) => say_margin(out, number, b, &text[..n]),
        (None, Some(n)) => say_sheet(out, number, &text[..n]),
        (Some(_), None) => say_book(out, number, b),
        (None, None) => Ok(()),
    }
}

fn main(rt: HostRuntime) -> io::Result<()> {
    let mut book = [0u8; 16385];
    let mut text = [0u8; 65537];
    let mut out = rt.stdout();
    for number in 1..10000 {
        answer(&rt, &mut out, number, &mut book, &mut text)?;
    }
    Ok(())
}
