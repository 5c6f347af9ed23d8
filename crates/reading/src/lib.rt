// The reader of a book: line after line, part after part, left at the first refusal with its line.
#![tactic(auto)]

ghost use Rattle.std.specs.Prelude.{◌≡◌, ◌+◌, ◌-◌, ◌*◌, ◌≤◌, ◌<◌, leb, get_or, length, set};
ghost use Rattle.laws.specs.Refusals.{number_of};
ghost use Rattle.series.specs.Key.{high_key, nature_key};
ghost use Rattle.rows.specs.Book.{no_book};
ghost use Rattle.rules.specs.Facts.{Counts};
ghost use Rattle.lines.specs.Pieces.{lf, split_on};
ghost use Rattle.reading.specs.Reading.{answer_in, refused_at, read_lines, read_book};
ghost use Rattle.reading.specs.Facts.{slot, slot_at, legs_at, less_legs};

use laws::{Fault, Refusal};
use rows::{Book, Holding, Pair};
use series::{Series, Side};

// Why a text is no book, and the empty book, as which it reads.
#[derive(Clone, Copy)]
pub struct RefusedText {
    pub fault: Fault,
    pub book: Book,
}

#[tactic(auto, unfolding(crate::specs::Reading::refused_at, rows::specs::Book::no_book))]
fn refused(refusal: Refusal, line: u32) -> Result<Book, RefusedText>
    ensures { answer_in result ≡ refused_at (number_of refusal) line }
{
    Err(RefusedText {
        fault: Fault { refusal, line },
        book: rows::empty_book(0, b'0', 20000101),
    })
}

// Where the lots of a line's two legs stand, and whether they are free.
#[derive(Clone, Copy)]
struct Legs {
    first: usize,
    second: usize,
    free: bool,
}

// Where the free lots of a row and side stand.
#[tactic(auto, unfolding(crate::specs::Facts::slot))]
fn slot_in(row: usize, side: Side) -> usize
    requires { row < 128 }
    ensures { result ≡ slot row side }
{
    match side {
        Side::Long => 2 * row,
        Side::Short => 2 * row + 1,
    }
}

// Where the free lots of a series and side stand; 256 where it is not held.
#[tactic(auto, unfolding(crate::specs::Facts::slot_at))]
fn slot_of(highs: &[u64], lows: &[u64], held: usize, s: Series, side: Side) -> usize
    requires { held ≤ 128 }
    ensures { result ≡ slot_at highs.now lows.now held s side }
{
    let k = series::halves_of(s);
    let row = halving::find(highs, lows, held, k.high, k.low);
    if held <= row {
        return 256;
    }
    slot_in(row, side)
}

fn lots_at(free: &[u32], x: usize) -> u32
    ensures { result ≡ get_or free.now x 0 }
{
    free.get(x).copied().unwrap_or(0)
}

// Whether a leg of r lots a unit finds its lots at x. In 64 bits the product of any two counts fits.
fn leg_free(free: &[u32], x: usize, r: u32, units: u32) -> bool
    ensures { result ≡ leb (r * units) (get_or free.now x 0) }
{
    u64::from(r) * u64::from(units) <= u64::from(lots_at(free, x))
}

// What is found for the legs of a line: of an M line, which says p, their slots and whether their lots are free.
#[tactic(auto, unfolding(crate::specs::Facts::legs_at, crate::specs::Facts::legs_found))]
fn legs_at(highs: &[u64], lows: &[u64], free: &[u32], held: usize, letter: u8, p: Pair) -> Legs
    requires { held ≤ 128 }
    ensures { result ≡ legs_at highs.now lows.now free.now held letter p }
{
    if letter != b'M' {
        return Legs {
            first: 256,
            second: 256,
            free: true,
        };
    }
    let first = slot_of(
        highs,
        lows,
        held,
        p.first,
        pairing::first_side(p.kind, p.second),
    );
    let second = slot_of(highs, lows, held, p.second, pairing::second_side(p.kind));
    Legs {
        first,
        second,
        free: leg_free(free, first, p.r1, p.units) && leg_free(free, second, p.r2, p.units),
    }
}

// Takes lots from those that stand at x.
fn take_lots(free: &mut [u32], x: usize, lots: u32)
    ensures { free.new ≡ set free.old x (get_or free.old x 0 - lots) }
{
    if x < free.len() {
        free[x] = free[x].saturating_sub(lots);
    }
}

// Each leg of a pair takes its lots from its slot.
fn take_legs(free: &mut [u32], first: usize, second: usize, p: Pair)
    requires { Counts p.r1 p.r2 p.units }
    ensures { free.new ≡ less_legs free.old first second p }
{
    take_lots(free, first, p.r1 * p.units);
    take_lots(free, second, p.r2 * p.units);
}

// Enters a new row: its key, and its lots, which are all free.
fn enter(highs: &mut [u64], lows: &mut [u64], free: &mut [u32], row: usize, h: Holding)
    requires { (row < 128) × ((row < length highs.old) × ((row < length lows.old) × (2 * row + 1 < length free.old))) }
    ensures { (highs.new ≡ set highs.old row (high_key h.series)) × ((lows.new ≡ set lows.old row (nature_key h.series.nature)) × (free.new ≡ set (set free.old (2 * row) h.long) (2 * row + 1) h.short)) }
{
    let k = series::halves_of(h.series);
    highs[row] = k.high;
    lows[row] = k.low;
    free[2 * row] = h.long;
    free[2 * row + 1] = h.short;
}

// Line after line. With the book go the keys and free lots of its rows, and the last of them.
fn read_lines(t: &[u8]) -> Result<Book, RefusedText>
    requires { length t.now ≤ 16384 }
    ensures { answer_in result ≡ read_lines 0 no_book (split_on lf t.now) }
{
    let parts = book_lines::parts();
    let none = book_lines::no_item();
    let mut book = rows::empty_book(0, b'0', 20000101);
    let mut highs = [0u64; 128];
    let mut lows = [0u64; 128];
    let mut free = [0u32; 256];
    let mut items = [none; 6];
    let mut last = rows::empty_holding();
    let mut newest = rows::empty_pair();
    let mut line: u32 = 0;
    let mut at: usize = 0;
    'lines: loop {
        if at == t.len() {
            break 'lines Ok(book);
        }
        line += 1;
        let mut stop = lines::stop_of(t, at);
        if stop == t.len() {
            break 'lines refused(Refusal::Malformed, line);
        }
        let letter = book_lines::letter_of(&t[at..stop]);
        let form = book_lines::form_of(letter);
        let mut k: usize = 0;
        'fields: while t[stop] == b'\t' {
            let item = book_lines::item_behind(parts[form + k], t, stop);
            if !item.right {
                break 'lines refused(Refusal::Malformed, line);
            }
            items[k] = item;
            k += 1;
            stop = item.stop;
        }
        if k != book_lines::parts_of(letter) {
            break 'lines refused(Refusal::Malformed, line);
        }
        at = stop + 1;
        let n = book.held;
        let m = book.paired;
        let h = book_lines::holding_of(items);
        let p = book_lines::pair_of(items);
        let legs = legs_at(&highs, &lows, &free, n, letter, p);
        let first = line == 1;
        let checked = book_lines::check_line(letter, items, first, last, n, newest, m, legs.free);
        if let Err(refusal) = checked {
            break 'lines refused(refusal, line);
        }
        if letter == b'A' {
            book.account = items[0].number;
            book.identity = (items[1].number % 256) as u8;
            book.day = items[2].number;
            continue 'lines;
        }
        if letter == b'H' {
            book.holdings[n] = h;
            book.held = n + 1;
            last = h;
            enter(&mut highs, &mut lows, &mut free, n, h);
            continue 'lines;
        }
        book.pairs[m] = p;
        book.paired = m + 1;
        newest = p;
        take_legs(&mut free, legs.first, legs.second, p);
    }
}

// Reads a book: any bytes.
pub fn read(t: &[u8]) -> Result<Book, RefusedText>
    ensures { answer_in result ≡ read_book t.now }
{
    if 16384 < t.len() {
        return refused(Refusal::OutOfRange, 0);
    }
    if t.len() == 0 {
        return refused(Refusal::Malformed, 0);
    }
    read_lines(t)
}
