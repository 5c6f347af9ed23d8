// Calls on a book that breaks a rule.
ghost use Rattle.std.specs.Prelude.{◌<◌};

use super::fields;
use laws::Refusal;
use rows::{Book, Holding, Pair};
use series::{Nature, Series, Side};
use std::io;
use std::io::Write;

// The series of a sample's rows: a future, then calls of rising strikes.
fn series_of(i: u8) -> Series {
    if i == 0 {
        return Series {
            code: [b'T', b'X', 0],
            date: 20240117,
            nature: Nature::Future,
        };
    }
    Series {
        code: [b'T', b'X', b'O'],
        date: 20240117,
        nature: Nature::Call(18000000 + i as u32 * 100000),
    }
}

fn with_lots(series: Series, long: u32) -> Holding {
    Holding {
        series,
        long,
        short: 0,
    }
}

// Units of one future to so many calls of series i.
fn units_of(i: u8, calls: u32, units: u32) -> Pair {
    Pair {
        kind: 5,
        first: series_of(0),
        second: series_of(i),
        r1: 1,
        r2: calls,
        units,
    }
}

// A holding spoilt: `at` is the way and, in its last seven bits, the row.
fn spoil_holding(at: u32, h: Holding) -> Holding {
    let series = h.series;
    match at {
        896 => rows::new_holding(series), // 7 in row 0: no lots
        1024 => with_lots(series, 100001), // 8 in row 0: too many
        1407 => with_lots(series, 1), // 10 in row 127: a lot, be it in use or not
        1792 => with_lots(series, 1), // 14 in row 0: fewer than pairs may tie
        _ => h,
    }
}

// A pair spoilt, `at` as above.
fn spoil_pair(at: u32, p: Pair) -> Pair {
    let mut spoilt = p;
    match at {
        1152 => spoilt.units = 100001, // 9 in row 0: too many units
        1535 => spoilt.units = 1, // 11 in row 127: a unit, be it in use or not
        1920 => spoilt.kind = 9, // 15 in row 0: no kind
        _ => {}
    }
    spoilt
}

// The holding of row i: all have the same lots.
fn holding_of(line: &[u8], i: u8) -> Holding {
    if fields::value(line, 6) <= i as u32 {
        return rows::empty_holding();
    }
    Holding {
        series: series_of(i),
        long: fields::value(line, 8),
        short: fields::value(line, 9),
    }
}

// The pair of row i: one future to one call and to two calls of each strike in turn.
fn pair_of(line: &[u8], i: u8) -> Pair {
    if fields::value(line, 7) <= i as u32 {
        return rows::empty_pair();
    }
    units_of(i / 2 + 1, i as u32 % 2 + 1, fields::value(line, 10))
}

// Where row i stands: the first two change places where they are swapped.
fn place_of(swapped: bool, i: u8) -> usize
    requires { i < 128 }
    ensures { result < 128 }
{
    if !swapped {
        return i as usize;
    }
    match i {
        0 => 1,
        1 => 0,
        _ => i as usize,
    }
}

// The holdings of a book, spoilt in the way that the line says.
fn holdings_of(line: &[u8], way: u32) -> [Holding; 128]
    requires { way < 64 }
{
    let mut rows = [rows::empty_holding(); 128];
    for i in 0..128u8 {
        rows[place_of(way == 6, i)] = spoil_holding(way * 128 + i as u32, holding_of(line, i));
    }
    rows
}

// The pairs of a book, spoilt in the way that the line says.
fn pairs_of(line: &[u8], way: u32) -> [Pair; 128]
    requires { way < 64 }
{
    let mut rows = [rows::empty_pair(); 128];
    for i in 0..128u8 {
        rows[place_of(way == 13, i)] = spoil_pair(way * 128 + i as u32, pair_of(line, i));
    }
    rows
}

// The book that a line asks for.
fn sample(line: &[u8]) -> Book {
    let way = fields::value(line, 11) % 64;
    Book {
        account: fields::value(line, 1),
        identity: fields::letter(line, 2),
        day: fields::value(line, 3),
        holdings: holdings_of(line, way),
        held: fields::value(line, 4) as usize,
        pairs: pairs_of(line, way),
        paired: fields::value(line, 5) as usize,
    }
}

// Two numbers more, mixed in.
fn mixed(d: u64, x: u64, y: u64) -> u64 {
    let one = (d % 4294967296 * 1000003 + x % 4294967291) % 4294967291;
    (one * 1000003 + y % 4294967291) % 4294967291
}

// A series and two numbers, mixed in.
fn mixed_series(d: u64, s: Series, x: u32, y: u32) -> u64 {
    let key = series::halves_of(s);
    mixed(mixed(d, key.high, key.low), x as u64, y as u64)
}

// A holding and a pair, mixed in.
fn mixed_rows(d: u64, h: Holding, p: Pair) -> u64 {
    let lots = mixed_series(d, h.series, h.long, h.short);
    let first = mixed_series(lots, p.first, p.kind, p.r1);
    mixed_series(first, p.second, p.r2, p.units)
}

// A digest of all that a book holds, unused room included.
fn digest(b: Book) -> u64 {
    let head = mixed(b.account as u64, b.identity as u64, b.day as u64);
    let mut d = mixed(head, b.held as u64, b.paired as u64);
    for (h, p) in b.holdings.iter().zip(b.pairs.iter()) {
        d = mixed_rows(d, *h, *p);
    }
    d
}

// A number, and the digest of the book: a refusal leaves it as it was handed in.
fn put_outcome<W: Write>(out: &mut W, b: Book, answer: Result<Book, Refusal>) -> io::Result<()> {
    let (number, book) = match answer {
        Ok(next) => (0, next),
        Err(refusal) => (refusal.number(), b),
    };
    fields::put_number(out, number)?;
    fields::put_amount(out, digest(book))
}

// Open and close of lots of a pair's first series, pair, split and turn.
fn answer_calls<W: Write>(
    out: &mut W,
    line: &[u8],
    p: Pair,
    lots: u32,
    day: u32,
) -> io::Result<()> {
    let b = sample(line);
    let sound = laws::ensure(sound::is_sound(b), Refusal::NotSound);
    put_outcome(out, b, sound.map(|()| b))?;
    put_outcome(out, b, moves::open(b, p.first, Side::Long, lots))?;
    put_outcome(out, b, moves::close(b, p.first, Side::Long, lots))?;
    put_outcome(out, b, ties::pair(b, p))?;
    put_outcome(out, b, ties::split(b, p))?;
    put_outcome(out, b, moves::turn(b, day))
}

pub fn answer<W: Write>(out: &mut W, line: &[u8]) -> io::Result<()> {
    match fields::letter(line, 0) {
        b'W' => answer_calls(out, line, units_of(1, 1, 1), 1, 20240103),
        b'U' => answer_calls(out, line, units_of(1, 5, 1), 0, 20240101),
        b'V' => answer_calls(out, line, rows::empty_pair(), 0, 0),
        _ => Ok(()),
    }
}
