// Answers the cases of standard input, one to a line, and prints each line with its answer; the file `stdout` says what
// that must be. Fields are parted by tabs. SERIES is code, date, nature letter, strike.
//   D date                       the number: 0 for a day, else 5
//   C code                       F listed future, O listed option, f stock future, o stock option, - unknown; its parent;
//                                its part of the parent
//   S SERIES                     the number: 4, 5, 2 or 0
//   O SERIES SERIES              < where the first comes before the second, = or >
//   M kind SERIES SERIES r1 r2   the number; the parts of the rule by letter (kind, codes, natures, dates, strikes, ratio),
//                                - for one that fails; the sides of the first and the second leg, L or S
//   B account code day           the number of make
//   F clearing part              a fixed future: the number; clearing, maintenance, initial
//   R rate disposition           a stock's rates: the number; clearing, maintenance, initial; half of each, which is b of a
//   I kind r1 r2 charged clearing OLINE LOT LOT
//                                a unit of a pair of an index; the clearing margin is that of its full-size future
//   J kind r1 r2 charged SLINE LOT LOT
//                                a unit of a pair of a stock
//   W BOOK                       a book, sound or spoilt: 16 or 0, as it is not sound or sound, and a digest of all that it
//                                holds, unused room included; then of an open, a close, a pair, a split and a turn the number and
//                                the digest of the book that comes back
//   U BOOK                       the same, with no lots, a ratio that is not allowed, and an earlier day
//   V BOOK                       the same, with no series, no lots, no units of no kind, and no day
// OLINE and SLINE are a sheet's line without letter and code. LOT is a nature (0 future, 1 call, 2 put), a strike (of an index
// future: its part) and a price. Printed are of each lot the number, the three margins and the premium value; the terms' number,
// the tenth and the three C; the unit's number and its three margins. Any other line is printed as it stands.
// BOOK is account, client code, day, the counts of holdings and pairs, how many of each there are, the long and the short lots of
// each holding, the units of each pair, and the way in which the rows are spoilt: 6 and 13 the first two holdings or pairs are
// swapped, 7 the first holding has no lots, 8 too many, 14 one long lot, 9 the first pair has too many units, 15 no kind, 10 the
// last row of the holdings has one long lot, 11 the last row of the pairs one unit; 0 and all others, none.
#![tactic(auto)]

mod fields; // fields of a line, and what is printed
mod single; // days, codes, series, their order, the rule of pairs, make
mod figures; // amounts of lots and of units
mod spoilt; // calls on books that break a rule

use std::io;
use std::io::{BufWriter, Read, Write};

// Prints a line and its answer.
fn answer_line<W: Write>(out: &mut W, line: &[u8]) -> io::Result<()> {
    fields::put(out, line)?;
    single::answer(out, line)?;
    figures::answer(out, line)?;
    spoilt::answer(out, line)?;
    fields::put(out, b"\n")
}

fn answer_all<W: Write>(out: &mut W, text: &[u8]) -> io::Result<()> {
    for line in text.split_inclusive(|b| *b == b'\n') {
        answer_line(out, line.strip_suffix(b"\n").unwrap_or(line))?;
    }
    Ok(())
}

fn main(rt: HostRuntime) -> io::Result<()> {
    let mut text = Vec::new(rt.alloc());
    rt.stdin().take(65536).read_to_end(&mut text)?;
    let mut out = BufWriter::new(rt.alloc(), rt.stdout())?;
    answer_all(&mut out, &text)?;
    out.flush()
}
