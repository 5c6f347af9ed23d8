// The printer of a book: the whole text into the lent buffer, or nothing.
#![tactic(auto)]

ghost use Rattle.std.specs.Prelude.{◌≡◌, [], ◌∷◌, true, ◌+◌, ◌≤◌, ◌<◌, length, take};
ghost use Rattle.laws.specs.Search.{every_line};
ghost use Rattle.put.specs.Put.{LaidAt};
ghost use Rattle.digits.specs.Digits.{fixed, numerals};
ghost use Rattle.lines.specs.Texts.{tabbed, letters_of, series_fields};
ghost use Rattle.rules.specs.Rules.{good_holding, good_pair, sound_book};
ghost use Rattle.printed.specs.Printed.{head_text, holding_text, pair_text, texts_of, text_of, printed_in, print_answer, print_exit};
ghost use Rattle.printed.specs.PlacedLaws.{Placed};

use laws::Refusal;
use rows::{Book, Holding, Pair};
use series::Series;

// A byte into room that is there: the callers know how far their texts reach.
fn put_byte(dst: &mut [u8], at: usize, b: u8) -> usize
    requires { at + 1 ≤ length dst.old }
    ensures { Placed dst.old at (b ∷ []) dst.new result 1 }
{
    dst[at] = b;
    at + 1
}

// Two, four and eight digits, zeros kept.
fn put_two(dst: &mut [u8], at: usize, n: u32) -> usize
    requires { (at + 2 ≤ length dst.old) × (n < 100) }
    ensures { Placed dst.old at (fixed 2 n) dst.new result 2 }
{
    let a = put_byte(dst, at, b'0' + (n / 10) as u8);
    put_byte(dst, a, b'0' + (n % 10) as u8)
}

fn put_four(dst: &mut [u8], at: usize, n: u32) -> usize
    requires { (at + 4 ≤ length dst.old) × (n < 10000) }
    ensures { Placed dst.old at (fixed 4 n) dst.new result 4 }
{
    let a = put_two(dst, at, n / 100);
    put_two(dst, a, n % 100)
}

fn put_eight(dst: &mut [u8], at: usize, n: u32) -> usize
    requires { (at + 8 ≤ length dst.old) × (n < 100000000) }
    ensures { Placed dst.old at (fixed 8 n) dst.new result 8 }
{
    let a = put_four(dst, at, n / 10000);
    put_four(dst, a, n % 10000)
}

// A number of at most two, four, eight and ten digits, as many as needed.
fn put_small(dst: &mut [u8], at: usize, n: u32) -> usize
    requires { (at + 2 ≤ length dst.old) × (n < 100) }
    ensures { Placed dst.old at (numerals n) dst.new result 2 }
{
    if n < 10 {
        return put_byte(dst, at, b'0' + n as u8);
    }
    put_two(dst, at, n)
}

fn put_middle(dst: &mut [u8], at: usize, n: u32) -> usize
    requires { (at + 4 ≤ length dst.old) × (n < 10000) }
    ensures { Placed dst.old at (numerals n) dst.new result 4 }
{
    if n < 100 {
        return put_small(dst, at, n);
    }
    let a = put_small(dst, at, n / 100);
    put_two(dst, a, n % 100)
}

fn put_large(dst: &mut [u8], at: usize, n: u32) -> usize
    requires { (at + 8 ≤ length dst.old) × (n < 100000000) }
    ensures { Placed dst.old at (numerals n) dst.new result 8 }
{
    if n < 10000 {
        return put_middle(dst, at, n);
    }
    let a = put_middle(dst, at, n / 10000);
    put_four(dst, a, n % 10000)
}

fn put_number(dst: &mut [u8], at: usize, n: u32) -> usize
    requires { at + 10 ≤ length dst.old }
    ensures { Placed dst.old at (numerals n) dst.new result 10 }
{
    if n < 100000000 {
        return put_large(dst, at, n);
    }
    let a = put_small(dst, at, n / 100000000);
    put_eight(dst, a, n % 100000000)
}

// Fields, each behind a tab: a number, a date, one byte, the letters of a code.
fn put_figure(dst: &mut [u8], at: usize, n: u32) -> usize
    requires { at + 11 ≤ length dst.old }
    ensures { Placed dst.old at (tabbed (numerals n ∷ [])) dst.new result 11 }
{
    let a = put_byte(dst, at, b'\t');
    put_number(dst, a, n)
}

fn put_date(dst: &mut [u8], at: usize, day: u32) -> usize
    requires { at + 9 ≤ length dst.old }
    ensures { Placed dst.old at (tabbed (fixed 8 day ∷ [])) dst.new result 9 }
{
    let a = put_byte(dst, at, b'\t');
    put_eight(dst, a, day % 100000000)
}

fn put_mark(dst: &mut [u8], at: usize, b: u8) -> usize
    requires { at + 2 ≤ length dst.old }
    ensures { Placed dst.old at (tabbed ((b ∷ []) ∷ [])) dst.new result 2 }
{
    let a = put_byte(dst, at, b'\t');
    put_byte(dst, a, b)
}

fn put_letters(dst: &mut [u8], at: usize, code: [u8; 3]) -> usize
    requires { at + 4 ≤ length dst.old }
    ensures { Placed dst.old at (tabbed (letters_of code ∷ [])) dst.new result 4 }
{
    let a = put_byte(dst, at, b'\t');
    let b = put_byte(dst, a, code[0]);
    let c = put_byte(dst, b, code[1]);
    if code[2] == 0 {
        return c;
    }
    put_byte(dst, c, code[2])
}

// The four fields of a series.
fn put_series(dst: &mut [u8], at: usize, s: Series) -> usize
    requires { at + 26 ≤ length dst.old }
    ensures { Placed dst.old at (tabbed (series_fields s)) dst.new result 26 }
{
    let a = put_letters(dst, at, s.code);
    let b = put_date(dst, a, s.date);
    let c = put_mark(dst, b, series::letter_of(s.nature));
    put_figure(dst, c, series::strike_of(s.nature))
}

// The three lines.
fn put_head(dst: &mut [u8], account: u32, identity: u8, day: u32) -> usize
    requires { 21 ≤ length dst.old }
    ensures { Placed dst.old 0 (head_text account identity day) dst.new result 21 }
{
    let a = put_byte(dst, 0, b'A');
    let b = put_byte(dst, a, b'\t');
    let c = put::put_fixed(dst, b, 7, u64::from(account));
    let d = put_mark(dst, c, identity);
    let e = put_date(dst, d, day);
    put_byte(dst, e, b'\n')
}

fn put_holding(dst: &mut [u8], at: usize, h: Holding) -> usize
    requires { (good_holding h ≡ true) × (at + 50 ≤ length dst.old) }
    ensures { Placed dst.old at (holding_text h) dst.new result 42 }
{
    let a = put_byte(dst, at, b'H');
    let b = put_series(dst, a, h.series);
    let c = put_figure(dst, b, h.long);
    let d = put_figure(dst, c, h.short);
    put_byte(dst, d, b'\n')
}

fn put_pair(dst: &mut [u8], at: usize, p: Pair) -> usize
    requires { (good_pair p ≡ true) × (at + 98 ≤ length dst.old) }
    ensures { Placed dst.old at (pair_text p) dst.new result 71 }
{
    let a = put_byte(dst, at, b'M');
    let b = put_figure(dst, a, p.kind);
    let c = put_series(dst, b, p.first);
    let d = put_series(dst, c, p.second);
    let e = put_figure(dst, d, p.r1);
    let f = put_figure(dst, e, p.r2);
    let g = put_figure(dst, f, p.units);
    put_byte(dst, g, b'\n')
}

// A line for each live row: 128 good holdings take at most 5,376 bytes, 128 good pairs 9,088.
fn put_holdings(dst: &mut [u8], at: usize, rows: &[Holding]) -> usize
    requires { (every_line good_holding rows.now ≡ true) × (length rows.now ≤ 128) × (at + 5426 ≤ length dst.old) }
    ensures { Placed dst.old at (texts_of holding_text rows.now) dst.new result 5376 }
{
    let mut end = at;
    for row in rows {
        end = put_holding(dst, end, *row);
    }
    end
}

fn put_pairs(dst: &mut [u8], at: usize, rows: &[Pair]) -> usize
    requires { (every_line good_pair rows.now ≡ true) × (length rows.now ≤ 128) × (at + 9186 ≤ length dst.old) }
    ensures { Placed dst.old at (texts_of pair_text rows.now) dst.new result 9088 }
{
    let mut end = at;
    for row in rows {
        end = put_pair(dst, end, *row);
    }
    end
}

// The whole text of a sound book, from the start of a buffer that holds any book's text.
#[tactic(auto, using(crate::specs::PrintedLaws::held_few, crate::specs::PrintedLaws::paired_few))]
fn put_book(dst: &mut [u8], b: Book) -> usize
    requires { (sound_book b ≡ true) × (16384 ≤ length dst.old) }
    ensures { LaidAt dst.old 0 (text_of b) result dst.new }
{
    let head = put_head(dst, b.account, b.identity, b.day);
    let held = put_holdings(dst, head, &b.holdings[..b.held]);
    put_pairs(dst, held, &b.pairs[..b.paired])
}

// The text of a sound book that fits the buffer, and its length. A buffer that might be too short gets a text composed apart.
pub fn print(b: Book, out: &mut [u8]) -> Result<usize, Refusal>
    ensures { (printed_in result ≡ print_answer b out.old) × (out.new ≡ print_exit b out.old) }
{
    if !sound::is_sound(b) {
        return Err(Refusal::NotSound);
    }
    if 16384 <= out.len() {
        return Ok(put_book(out, b));
    }
    let mut buf = [0u8; 16384];
    let n = put_book(&mut buf, b);
    if out.len() < n {
        return Err(Refusal::BufferShort);
    }
    put::put_bytes(out, 0, &buf[..n]);
    Ok(n)
}
