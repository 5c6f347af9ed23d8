// What the programs print: of a book's text, of a sheet's, of both, and of a book's and a text of call lines.
#![tactic(auto)]

ghost use Rattle.std.specs.Prelude.{◌≡◌, true, ◌≤◌, length};
ghost use Rattle.rules.specs.Rules.{sound_book};
ghost use Rattle.lines.specs.Pieces.{lf, split_on};
ghost use Rattle.put.specs.Put.{laid, end_of};
ghost use Rattle.put.specs.Output.{output_of};
ghost use Rattle.reading.specs.Reading.{read_book};
ghost use Rattle.checking.specs.Reading.{judged};
ghost use Rattle.account.specs.Margin.{margin_text};
ghost use Rattle.call_lines.specs.Work.{answers_in};
ghost use Rattle.reports.specs.Reports.{book_text, counts_text, book_report, sheet_report};
ghost use Rattle.reports.specs.Counts.{lines_with};
ghost use Rattle.reports.specs.Statement.{result_text, margin_line_text, statement_text};
ghost use Rattle.reports.specs.Desk.{line_answer, refusals_from, answers_text, desk_text, desk_of};

use account::Margin;
use levels::Levels;
use put::Output;
use rows::Book;

// The two lines.
fn put_book(dst: &mut [u8], b: Book) -> usize
    ensures { (result ≡ end_of dst.old 0 (book_text b)) × (dst.new ≡ laid dst.old 0 (book_text b)) }
{
    let a = put::put_byte(dst, 0, b'A');
    let c = put::put_digits(dst, a, 7, b.account);
    let d = put::put_byte(dst, c, b'\t');
    let e = put::put_byte(dst, d, b.identity);
    let f = put::put_digits(dst, e, 8, b.day);
    let g = put::put_figure(dst, f, b.held as u64);
    let h = put::put_figure(dst, g, b.paired as u64);
    put::put_byte(dst, h, b'\n')
}

fn put_counts(
    dst: &mut [u8],
    day: u32,
    futures: usize,
    options: usize,
    stocks: usize,
    prices: usize,
) -> usize
    ensures { (result ≡ end_of dst.old 0 (counts_text day futures options stocks prices)) × (dst.new ≡ laid dst.old 0 (counts_text day futures options stocks prices)) }
{
    let a = put::put_byte(dst, 0, b'D');
    let b = put::put_digits(dst, a, 8, day);
    let c = put::put_figure(dst, b, futures as u64);
    let d = put::put_figure(dst, c, options as u64);
    let e = put::put_figure(dst, d, stocks as u64);
    let f = put::put_figure(dst, e, prices as u64);
    put::put_byte(dst, f, b'\n')
}

// How many lines begin with this byte.
fn lines_with(t: &[u8], letter: u8) -> usize
    ensures { result ≡ lines_with letter (split_on lf t.now) }
{
    let mut count: usize = 0;
    let mut at: usize = 0;
    loop {
        let end = lines::next(t, at, b'\n');
        if t.len() <= end {
            return count;
        }
        if t[at] == letter {
            count += 1;
        }
        at = end + 1;
    }
}

// The line of a book's text.
pub fn of_book(text: &[u8]) -> Output
    ensures { result ≡ output_of (book_report (read_book text.now)) }
{
    match reading::read(text) {
        Ok(b) => {
            let mut line = [0u8; 96];
            let length = put_book(&mut line, b);
            Output { text: line, length }
        }
        Err(why) => put::refusal(why.fault.refusal.number(), why.fault.line),
    }
}

// The line of a sheet's text.
pub fn of_sheet(text: &[u8]) -> Output
    ensures { result ≡ output_of (sheet_report (judged text.now)) }
{
    let sheet = checking::read(text);
    if sheet.number != 0 {
        return put::refusal(sheet.number, sheet.line);
    }
    let futures = lines_with(text, b'F');
    let options = lines_with(text, b'O');
    let stocks = lines_with(text, b'S');
    let prices = lines_with(text, b'Q');
    let mut line = [0u8; 96];
    let length = put_counts(&mut line, sheet.day, futures, options, stocks, prices);
    Output { text: line, length }
}

// The line of a margin.
fn put_result(dst: &mut [u8], at: usize, account: u32, day: u32, l: Levels) -> usize
    ensures { (result ≡ end_of dst.old at (result_text account day l)) × (dst.new ≡ laid dst.old at (result_text account day l)) }
{
    let a = put::put_byte(dst, at, b'R');
    let b = put::put_digits(dst, a, 7, account);
    let c = put::put_digits(dst, b, 8, day);
    let d = put::put_figure(dst, c, l.clearing);
    let e = put::put_figure(dst, d, l.maintenance);
    let f = put::put_figure(dst, e, l.initial);
    put::put_byte(dst, f, b'\n')
}

fn result(account: u32, day: u32, l: Levels) -> Output
    ensures { result ≡ output_of (result_text account day l) }
{
    let mut text = [0u8; 96];
    let length = put_result(&mut text, 0, account, day, l);
    Output { text, length }
}

// The line of a margin call on a book.
pub fn line_of(b: Book, m: Margin) -> Output
    ensures { result ≡ output_of (margin_line_text b m) }
{
    if m.number != 0 {
        return put::refusal(m.number, m.line);
    }
    result(b.account, b.day, m.levels)
}

// The margin of a book on a text as sheet.
pub fn margin_of(b: Book, text: &[u8]) -> Margin
    ensures { result ≡ margin_text b text.now }
{
    account::margin_on(b, checking::read(text))
}

// The line of a book's text and a sheet's.
pub fn of_margin(book: &[u8], sheet: &[u8]) -> Output
    ensures { result ≡ output_of (statement_text book.now sheet.now) }
{
    match reading::read(book) {
        Ok(b) => line_of(b, margin_of(b, sheet)),
        Err(f) => put::refusal(f.fault.refusal.number(), f.fault.line),
    }
}

// A text: its bytes, then zeros, and how many they are.
#[derive(Clone, Copy)]
pub struct Desk {
    pub text: [u8; 737280],
    pub length: usize,
}

// What is said of a line: nothing where its number is 0.
fn put_answer(dst: &mut [u8], at: usize, number: u8, line: u32) -> usize
    requires { at ≤ length dst.old }
    ensures { (result ≡ end_of dst.old at (line_answer number line)) × (dst.new ≡ laid dst.old at (line_answer number line)) }
{
    if number == 0 {
        return at;
    }
    put::put_refusal(dst, at, number, line)
}

// What is said of all lines, from line 1 on.
fn put_answers(dst: &mut [u8], at: usize, numbers: &[u8]) -> usize
    requires { (at ≤ length dst.old) × (length numbers.now ≤ 65536) }
    ensures { (result ≡ end_of dst.old at (refusals_from 1 numbers.now)) × (dst.new ≡ laid dst.old at (refusals_from 1 numbers.now)) }
{
    let mut end = at;
    for (i, number) in numbers.iter().enumerate() {
        end = put_answer(dst, end, *number, (i + 1) as u32);
    }
    end
}

// The book that the calls leave, and the refused ones.
fn put_worked(dst: &mut [u8], b: Book, calls: &[u8]) -> usize
    requires { (sound_book b ≡ true) × ((length calls.now ≤ 65536) × (16384 ≤ length dst.old)) }
    ensures { (result ≡ end_of dst.old 0 (answers_text (answers_in b calls.now))) × (dst.new ≡ laid dst.old 0 (answers_text (answers_in b calls.now))) }
{
    let w = call_lines::work(b, calls);
    let end = printed::print(w.book, dst).unwrap_or(0);
    let numbers = w.numbers;
    put_answers(dst, end, &numbers[..w.lines])
}

fn put_desk(dst: &mut [u8], book: &[u8], calls: &[u8]) -> usize
    requires { 16384 ≤ length dst.old }
    ensures { (result ≡ end_of dst.old 0 (desk_text book.now calls.now)) × (dst.new ≡ laid dst.old 0 (desk_text book.now calls.now)) }
{
    if 65536 < calls.len() {
        return put::put_refusal(dst, 0, 2, 0);
    }
    match reading::read(book) {
        Ok(b) => put_worked(dst, b, calls),
        Err(f) if call_lines::makes_book(calls) => put_worked(dst, f.book, calls),
        Err(f) => put::put_refusal(dst, 0, f.fault.refusal.number(), f.fault.line),
    }
}

// What is printed of a book's text and a text of call lines.
pub fn of_calls(book: &[u8], calls: &[u8]) -> Desk
    ensures { result ≡ desk_of (desk_text book.now calls.now) }
{
    let mut text = [0u8; 737280];
    let length = put_desk(&mut text, book, calls);
    Desk { text, length }
}
