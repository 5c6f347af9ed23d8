// What a comparison with another implementation links, through `exports_c`: texts, margins and scripts of calls, on byte slices and numbers.
#![tactic(auto)]

ghost use Rattle.std.specs.Prelude.{◌≡◌, ◌%◌, ◌/◌, ◌<◌, ◌≤◌, get_or, length};
ghost use Rattle.laws.specs.Refusals.{number_in};
ghost use Rattle.calls.specs.Calls.{outcome, make_answer};
ghost use Rattle.put.specs.Output.{output_of};
ghost use Rattle.reading.specs.Reading.{read_book};
ghost use Rattle.checking.specs.Reading.{check_text};
ghost use Rattle.reports.specs.Statement.{statement_text};
ghost use Rattle.printed.specs.Printed.{printed_in};
ghost use Rattle.exports.specs.Exports.{coded, read_coded, check_coded, print_coded, printed_of, printed_exit, line_coded, line_exit};
ghost use Rattle.exports.specs.Script.{code_said, identity_said, nature_said, series_said, side_said, pair_said, call_said, book_after, numbers_after};
ghost use Rattle.exports.specs.Runs.{script_number, run_coded, run_numbers, run_exit};

use laws::Refusal;
use put::Output;
use rows::{Book, Pair};
use series::{Nature, Series, Side};

// A number, and a line or a length, as one number.
#[tactic(auto, unfolding(crate::specs::Exports::coded))]
fn code_of(number: u8, rest: u32) -> u64
    ensures { result ≡ coded number rest }
{
    u64::from(number) * 4294967296 + u64::from(rest)
}

// Read the text of a book: number and line.
pub fn sillauger_read(text: &[u8]) -> u64
    ensures { result ≡ read_coded (read_book text.now) }
{
    match reading::read(text) {
        Ok(_) => code_of(0, 0),
        Err(f) => code_of(f.fault.refusal.number(), f.fault.line),
    }
}

// Check the text of a sheet: number and line.
pub fn sillauger_check(sheet: &[u8]) -> u64
    ensures { result ≡ check_coded (check_text sheet.now) }
{
    let v = checking::check(sheet);
    code_of(v.number, v.line)
}

// What a print answers: number and length.
#[tactic(auto, unfolding(crate::specs::Exports::print_coded))]
fn print_code(p: Result<usize, Refusal>) -> u64
    requires { (printed_in p).length < 4294967296 }
    ensures { result ≡ print_coded (printed_in p) }
{
    match p {
        Ok(n) => code_of(0, n as u32),
        Err(refusal) => code_of(refusal.number(), 0),
    }
}

// Read the text of a book and print it, so many times over the same bytes: number, and length or line.
pub fn sillauger_print(text: &[u8], times: u32, out: &mut [u8]) -> u64
    ensures { (result ≡ printed_of (read_book text.now) out.old) × (out.new ≡ printed_exit (read_book text.now) out.old) }
{
    match reading::read(text) {
        Ok(b) => {
            let mut p = printed::print(b, out);
            for _ in 1..times {
                p = printed::print(b, out);
            }
            print_code(p)
        }
        Err(f) => code_of(f.fault.refusal.number(), f.fault.line),
    }
}

// The line that the margin program prints of two texts, the margin worked so many times.
fn stated(book: &[u8], sheet: &[u8], times: u32) -> Output
    ensures { result ≡ output_of (statement_text book.now sheet.now) }
{
    match reading::read(book) {
        Ok(b) => {
            let s = checking::read(sheet);
            let mut m = account::margin_on(b, s);
            for _ in 1..times {
                m = account::margin_on(b, s);
            }
            reports::line_of(b, m)
        }
        Err(f) => put::refusal(f.fault.refusal.number(), f.fault.line),
    }
}

// That line in the buffer: 0 and its length, or 15 where the buffer is too short, which then keeps its bytes.
pub fn sillauger_margin(book: &[u8], sheet: &[u8], times: u32, out: &mut [u8]) -> u64
    ensures { (result ≡ line_coded (statement_text book.now sheet.now) out.old) × (out.new ≡ line_exit (statement_text book.now sheet.now) out.old) }
{
    let line = stated(book, sheet, times);
    let text = line.text;
    let length = line.length;
    if out.len() < length {
        return code_of(15, 0);
    }
    put::put_bytes(out, 0, &text[..length]);
    code_of(0, length as u32)
}

// The thirteen words of a call, by their places: which call it is; code, date, nature and strike of the first series and of the second; then, as
// the call has it, account, side or kind; identity or r1; day or r2; lots or units.
const CALL: usize = 0;

const FIRST: usize = 1;

const SECOND: usize = 5;

const ACCOUNT: usize = 9;

const SIDE: usize = 9;

const KIND: usize = 9;

const IDENTITY: usize = 10;

const R1: usize = 10;

const DAY: usize = 11;

const R2: usize = 11;

const LOTS: usize = 12;

const UNITS: usize = 12;

fn word(words: &[u32], at: usize) -> u32
    ensures { result ≡ get_or words.now at 0 }
{
    words.get(at).copied().unwrap_or(0)
}

fn byte_of(w: u32) -> u8
    ensures { result ≡ w % 256 }
{
    (w % 256) as u8
}

// The three bytes of a code, the first highest; none where the word has a fourth.
#[tactic(auto, unfolding(crate::specs::Script::code_said))]
fn code_said(w: u32) -> [u8; 3]
    ensures { result ≡ code_said w }
{
    if 16777216 <= w {
        return [0, 0, 0];
    }
    [byte_of(w / 65536), byte_of(w / 256), byte_of(w)]
}

// An identity; 0, which is none, where the word is no byte.
#[tactic(auto, unfolding(crate::specs::Script::identity_said))]
fn identity_said(w: u32) -> u8
    ensures { result ≡ identity_said w }
{
    u8::try_from(w).unwrap_or(0)
}

// What the words of a call say.
#[tactic(auto, unfolding(crate::specs::Script::nature_said))]
fn nature_said(mark: u32, strike: u32) -> Nature
    ensures { result ≡ nature_said mark strike }
{
    match mark {
        0 => Nature::Future,
        1 => Nature::Call(strike),
        _ => Nature::Put(strike),
    }
}

fn series_said(words: &[u32], at: usize) -> Series
    requires { at < 9223372036854775808 }
    ensures { result ≡ series_said words.now at }
{
    let code = code_said(word(words, at));
    Series {
        code,
        date: word(words, at + 1),
        nature: nature_said(word(words, at + 2), word(words, at + 3)),
    }
}

#[tactic(auto, unfolding(crate::specs::Script::side_said))]
fn side_said(w: u32) -> Side
    ensures { result ≡ side_said w }
{
    if w == 0 { Side::Long } else { Side::Short }
}

fn pair_said(words: &[u32], at: usize) -> Pair
    requires { at < 9223372036854775000 }
    ensures { result ≡ pair_said words.now at }
{
    Pair {
        kind: word(words, at + KIND),
        first: series_said(words, at + FIRST),
        second: series_said(words, at + SECOND),
        r1: word(words, at + R1),
        r2: word(words, at + R2),
        units: word(words, at + UNITS),
    }
}

// A make on the book: what it makes, or the empty book that a refused make gives.
fn make_said(b: &mut Book, account: u32, identity: u8, day: u32) -> Result<(), Refusal>
    ensures { outcome (number_in result) b.new ≡ make_answer account identity day }
{
    match moves::make(account, identity, day) {
        Ok(new) => {
            *b = new;
            Ok(())
        }
        Err(refused) => {
            *b = refused.book;
            Err(refused.refusal)
        }
    }
}

// The call that the words from a place on say, made on the book. A refusal leaves the book as it is; a make that is refused leaves the empty one.
fn call_said(b: &mut Book, words: &[u32], at: usize) -> Result<(), Refusal>
    requires { at < 9223372036854775000 }
    ensures { outcome (number_in result) b.new ≡ call_said b.old words.now at }
{
    let answer = match word(words, at + CALL) {
        0 => {
            let identity = identity_said(word(words, at + IDENTITY));
            return make_said(
                b,
                word(words, at + ACCOUNT),
                identity,
                word(words, at + DAY),
            );
        }
        1 => {
            let side = side_said(word(words, at + SIDE));
            moves::open(
                *b,
                series_said(words, at + FIRST),
                side,
                word(words, at + LOTS),
            )
        }
        2 => {
            let side = side_said(word(words, at + SIDE));
            moves::close(
                *b,
                series_said(words, at + FIRST),
                side,
                word(words, at + LOTS),
            )
        }
        3 => ties::pair(*b, pair_said(words, at)),
        4 => ties::split(*b, pair_said(words, at)),
        _ => moves::turn(*b, word(words, at + DAY)),
    };
    *b = answer?;
    Ok(())
}

// The calls of a script on a book: the book that results, and each call's number at its place.
fn run_calls(start: Book, words: &[u32], numbers: &mut [u8]) -> Book
    requires { length words.now / 13 ≤ length numbers.old }
    ensures { (result ≡ book_after (length words.now / 13) words.now 0 start) × (numbers.new ≡ numbers_after (length words.now / 13) words.now 0 start numbers.old) }
{
    let mut b = start;
    for i in 0..words.len() / 13 {
        let answer = call_said(&mut b, words, 13 * i);
        numbers[i] = answer.err().map_or(0, Refusal::number);
    }
    b
}

// What is wrong with the words of a script, or with the buffers for what it answers.
#[tactic(auto, unfolding(crate::specs::Runs::script_number))]
fn check_script(words: usize, cells: usize, room: usize) -> Result<(), Refusal>
    ensures { number_in result ≡ script_number words cells room }
{
    laws::ensure(words % 13 == 0, Refusal::Malformed)?;
    laws::ensure(words / 13 <= cells && 16384 <= room, Refusal::BufferShort)
}

// A script on the book of a text: each call's number, and the text of the book that results, 0 and its length; or why nothing was done: the
// number and line of a refused book, 1 where words are left over, 15 where there are fewer cells than calls or less room than any book may need.
pub fn sillauger_run(book: &[u8], words: &[u32], numbers: &mut [u8], out: &mut [u8]) -> u64
    ensures { (result ≡ run_coded (read_book book.now) words.now numbers.old out.old) × ((numbers.new ≡ run_numbers (read_book book.now) words.now numbers.old out.old) × (out.new ≡ run_exit (read_book book.now) words.now numbers.old out.old)) }
{
    match reading::read(book) {
        Ok(start) => match check_script(words.len(), numbers.len(), out.len()) {
            Ok(()) => {
                let b = run_calls(start, words, numbers);
                print_code(printed::print(b, out))
            }
            Err(refusal) => code_of(refusal.number(), 0),
        },
        Err(f) => code_of(f.fault.refusal.number(), f.fault.line),
    }
}
