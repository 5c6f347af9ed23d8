// Reads the file `sheet` and prints `D day` with how many lines F, O, S and Q have, or why it is refused, `X number line`.
// A file that will not open is empty text; of a file that is too long one byte more than may stand is read.
#![tactic(auto)]

ghost use Rattle.std.specs.Prelude.{OnOk};
ghost use Rattle.std.specs.Io.KnownBytes.{Appends};
ghost use Rattle.checking.specs.Reading.{judged};
ghost use Rattle.reports.specs.Reports.{sheet_report};

use std::io;
use std::io::Write;

// Prints the line of a sheet's text.
fn print<W: Write>(out: &mut W, sheet: &[u8]) -> io::Result<()>
    ensures { OnOk result (Appends (W.contents out.old) (W.contents out.new) (sheet_report (judged sheet.now))) }
{
    let line = reports::of_sheet(sheet);
    let text = &line.text[..line.length];
    out.write_all(text)
}

fn main(rt: HostRuntime) -> io::Result<()> {
    let mut sheet = [0u8; 65537];
    let loaded = files::load(&rt, b"sheet", &mut sheet)?;
    print(&mut rt.stdout(), &sheet[..loaded.unwrap_or(0)])
}
