// Call lines: what a line of a text says, and what a book answers to the lines, one after the other.
#![tactic(auto)]

ghost use Rattle.std.specs.Prelude.{◌≡◌, ◌+◌, ◌<◌, ◌≤◌, min, eqb, ltb, get_or, length};
ghost use Rattle.laws.specs.Truth.{pick};
ghost use Rattle.laws.specs.Refusals.{number_in};
ghost use Rattle.lines.specs.Pieces.{lf, next_of};
ghost use Rattle.calls.specs.Calls.{outcome, make_answer, open_answer, close_answer, pair_answer, split_answer, turn_answer};
ghost use Rattle.call_lines.specs.Lines.{name_in};
ghost use Rattle.call_lines.specs.Work.{answer_to, worked, makes_book};
ghost use Rattle.call_lines.specs.Facts.{is_side, side_of, make_behind, lots_behind, units_behind, day_behind, make_told, lots_told, units_told, day_told, said_at};

use laws::Refusal;
use lines::Asked;
use rows::{Book, Pair};
use series::{Series, Side};

// The name of a call.
#[derive(Clone, Copy, Debug, PartialEq, Eq)]
enum Name {
    Nothing,
    Make,
    Open,
    Close,
    Pair,
    Split,
    Turn,
}

// What stands behind a name: that of a make, and that of a call on lots.
#[derive(Clone, Copy)]
struct Make {
    account: u32,
    identity: u32,
    day: u32,
}

#[derive(Clone, Copy)]
struct Lots {
    series: Series,
    side: Side,
    lots: u32,
}

// What a text of call lines comes to: 0, or 2 where it is too long; how many lines there are; the book; and the number that each line is answered by.
#[derive(Clone, Copy)]
pub struct Worked {
    pub number: u8,
    pub lines: usize,
    pub book: Book,
    pub numbers: [u8; 65536],
}

#[tactic(auto, unfolding(crate::specs::Lines::name_in))]
fn name_of(t: &[u8]) -> Name
    ensures { result ≡ name_in t.now }
{
    if lines::same_text(t, b"make") {
        return Name::Make;
    }
    if lines::same_text(t, b"open") {
        return Name::Open;
    }
    if lines::same_text(t, b"close") {
        return Name::Close;
    }
    if lines::same_text(t, b"pair") {
        return Name::Pair;
    }
    if lines::same_text(t, b"split") {
        return Name::Split;
    }
    if lines::same_text(t, b"turn") {
        return Name::Turn;
    }
    Name::Nothing
}

// Whether an LF stands at i.
fn ends_at(t: &[u8], i: usize) -> bool
    ensures { result ≡ eqb (get_or t.now i 0) lf }
{
    i < t.len() && t[i] == b'\n'
}

#[tactic(auto, unfolding(crate::specs::Facts::is_side))]
fn is_side(mark: u32) -> bool
    ensures { result ≡ is_side mark }
{
    mark == u32::from(b'L') || mark == u32::from(b'S')
}

#[tactic(auto, unfolding(crate::specs::Facts::side_of))]
fn side_of(mark: u32) -> Side
    ensures { result ≡ side_of mark }
{
    if mark == u32::from(b'L') {
        Side::Long
    } else {
        Side::Short
    }
}

// The fields behind a name that ends at `at`, where they have the form: `account identity day`.
#[tactic(auto, unfolding(crate::specs::Facts::make_behind, crate::specs::Facts::make_said, crate::specs::Facts::formed, lines::specs::Behind::chain_behind, book_lines::specs::Lines::head_form))]
fn make_behind(t: &[u8], at: usize) -> Option<Make>
    ensures { result ≡ make_told (make_behind t.now at) }
{
    let account = lines::field_behind(Asked::Account, t, at);
    let identity = lines::field_behind(Asked::Mark, t, account.stop);
    let day = lines::field_behind(Asked::Date, t, identity.stop);
    let formed = account.cell.right && identity.cell.right && day.cell.right;
    (formed && ends_at(t, day.stop)).then_some(Make {
        account: account.cell.number,
        identity: identity.cell.number,
        day: day.cell.number,
    })
}

// `SERIES L|S lots`.
#[tactic(auto, unfolding(crate::specs::Facts::lots_behind, crate::specs::Facts::lots_said, crate::specs::Facts::formed, crate::specs::Lines::lots_form, lines::specs::Behind::chain_behind, lines::specs::Behind::series_form, lines::specs::Behind::written_in))]
fn lots_behind(t: &[u8], at: usize) -> Option<Lots>
    ensures { result ≡ lots_told (lots_behind t.now at) }
{
    let w = lines::series_behind(t, at);
    let mark = lines::field_behind(Asked::Mark, t, w.stop);
    let lots = lines::field_behind(Asked::Number, t, mark.stop);
    let formed = w.right && mark.cell.right && lots.cell.right;
    (formed && ends_at(t, lots.stop) && is_side(mark.cell.number)).then_some(Lots {
        series: w.series,
        side: side_of(mark.cell.number),
        lots: lots.cell.number,
    })
}

// `kind SERIES SERIES r1 r2 units`.
#[tactic(auto, unfolding(crate::specs::Facts::units_behind, crate::specs::Facts::formed, book_lines::specs::Lines::pair_form, book_lines::specs::Lines::pair_from, lines::specs::Behind::chain_behind, lines::specs::Behind::series_form, lines::specs::Behind::written_in))]
fn units_behind(t: &[u8], at: usize) -> Option<Pair>
    ensures { result ≡ units_told (units_behind t.now at) }
{
    let kind = lines::field_behind(Asked::Number, t, at);
    let v = lines::series_behind(t, kind.stop);
    let w = lines::series_behind(t, v.stop);
    let r1 = lines::field_behind(Asked::Number, t, w.stop);
    let r2 = lines::field_behind(Asked::Number, t, r1.stop);
    let units = lines::field_behind(Asked::Number, t, r2.stop);
    let counts = r1.cell.right && r2.cell.right && units.cell.right;
    let formed = kind.cell.right && v.right && w.right && counts;
    (formed && ends_at(t, units.stop)).then_some(Pair {
        kind: kind.cell.number,
        first: v.series,
        second: w.series,
        r1: r1.cell.number,
        r2: r2.cell.number,
        units: units.cell.number,
    })
}

// `day`.
#[tactic(auto, unfolding(crate::specs::Facts::day_behind, crate::specs::Facts::formed, crate::specs::Lines::day_form, lines::specs::Behind::chain_behind))]
fn day_behind(t: &[u8], at: usize) -> Option<u32>
    ensures { result ≡ day_told (day_behind t.now at) }
{
    let day = lines::field_behind(Asked::Date, t, at);
    (day.cell.right && ends_at(t, day.stop)).then_some(day.cell.number)
}

// A mark as a byte; 0, which is no client code, where it is none.
fn byte_of(mark: u32) -> u8
    ensures { result ≡ pick (ltb mark 256) mark 0 }
{
    u8::try_from(mark).unwrap_or(0)
}

// The calls, by what stands behind their names. A refusal leaves the book as it is; a make that is refused leaves the empty one.
#[tactic(auto, unfolding(rows::specs::Book::no_book))]
fn make_with(b: &mut Book, m: Make, first: bool) -> Result<(), Refusal>
    ensures { outcome (number_in result) b.new ≡ pick first (make_answer m.account (pick (ltb m.identity 256) m.identity 0) m.day) (outcome 3 b.old) }
{
    laws::ensure(first, Refusal::OutOfOrder)?;
    match moves::make(m.account, byte_of(m.identity), m.day) {
        Ok(new) => {
            *b = new;
            Ok(())
        }
        Err(refused) => {
            *b = refused.book;
            Err(refused.refusal)
        }
    }
}

fn open_with(b: &mut Book, l: Lots) -> Result<(), Refusal>
    ensures { outcome (number_in result) b.new ≡ open_answer b.old l.series l.side l.lots }
{
    *b = moves::open(*b, l.series, l.side, l.lots)?;
    Ok(())
}

fn close_with(b: &mut Book, l: Lots) -> Result<(), Refusal>
    ensures { outcome (number_in result) b.new ≡ close_answer b.old l.series l.side l.lots }
{
    *b = moves::close(*b, l.series, l.side, l.lots)?;
    Ok(())
}

fn pair_with(b: &mut Book, p: Pair) -> Result<(), Refusal>
    ensures { outcome (number_in result) b.new ≡ pair_answer b.old p }
{
    *b = ties::pair(*b, p)?;
    Ok(())
}

fn split_with(b: &mut Book, p: Pair) -> Result<(), Refusal>
    ensures { outcome (number_in result) b.new ≡ split_answer b.old p }
{
    *b = ties::split(*b, p)?;
    Ok(())
}

fn turn_with(b: &mut Book, day: u32) -> Result<(), Refusal>
    ensures { outcome (number_in result) b.new ≡ turn_answer b.old day }
{
    *b = moves::turn(*b, day)?;
    Ok(())
}

// What a book answers to the line that begins at `at`.
fn answer_at(b: &mut Book, t: &[u8], at: usize, first: bool) -> Result<(), Refusal>
    requires { at ≤ length t.now }
    ensures { outcome (number_in result) b.new ≡ answer_to first b.old (said_at t.now at) }
{
    let stop = lines::stop_of(t, at);
    match name_of(&t[at..stop]) {
        Name::Nothing => Err(Refusal::Malformed),
        Name::Make => match make_behind(t, stop) {
            Some(m) => make_with(b, m, first),
            None => Err(Refusal::Malformed),
        },
        Name::Open => match lots_behind(t, stop) {
            Some(l) => open_with(b, l),
            None => Err(Refusal::Malformed),
        },
        Name::Close => match lots_behind(t, stop) {
            Some(l) => close_with(b, l),
            None => Err(Refusal::Malformed),
        },
        Name::Pair => match units_behind(t, stop) {
            Some(p) => pair_with(b, p),
            None => Err(Refusal::Malformed),
        },
        Name::Split => match units_behind(t, stop) {
            Some(p) => split_with(b, p),
            None => Err(Refusal::Malformed),
        },
        Name::Turn => match day_behind(t, stop) {
            Some(day) => turn_with(b, day),
            None => Err(Refusal::Malformed),
        },
    }
}

// Where the next line begins, or the end of the text.
fn next_line(t: &[u8], at: usize) -> usize
    requires { at ≤ length t.now }
    ensures { result ≡ min (length t.now) (next_of t.now at lf + 1) }
{
    let end = lines::next(t, at, b'\n');
    if end < t.len() { end + 1 } else { t.len() }
}

// Makes the calls of a text on a book, line after line.
pub fn work(b: Book, t: &[u8]) -> Worked
    ensures { result ≡ worked b t.now }
{
    let mut book = b;
    let mut numbers = [0u8; 65536];
    let mut count: usize = 0;
    if 65536 < t.len() {
        return Worked {
            number: 2,
            lines: 0,
            book,
            numbers,
        };
    }
    let mut at: usize = 0;
    while at < t.len() {
        let answer = answer_at(&mut book, t, at, count == 0);
        numbers[count] = answer.err().map_or(0, Refusal::number);
        count += 1;
        at = next_line(t, at);
    }
    Worked {
        number: 0,
        lines: count,
        book,
        numbers,
    }
}

// Whether the first line of a text is a make.
pub fn makes_book(t: &[u8]) -> bool
    ensures { result ≡ makes_book t.now }
{
    let stop = lines::stop_of(t, 0);
    match name_of(&t[..stop]) {
        Name::Make => make_behind(t, stop).is_some(),
        _ => false,
    }
}
