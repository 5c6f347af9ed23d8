// The reader of a sheet: line after line, field after field, left at the first refusal with its line.
#![tactic(auto)]

ghost use Rattle.std.specs.Prelude.{◌≡◌, [], ◌≤◌, length, set};
ghost use Rattle.lines.specs.Pieces.{lf, split_on};
ghost use Rattle.laws.specs.Refusals.{number_of};
ghost use Rattle.sheets.specs.Rows.{found, no_rows};
ghost use Rattle.sheets.specs.Sheet.{future_place, option_place, laid_out};
ghost use Rattle.checking.specs.Reading.{judge_lines, sheet_of, read_sheet, check_text};

use amounts::IndexLine;
use laws::Refusal;
use sheets::{FutureRow, OptionRow, Sheet};

// 0 and 0, or the number of the first check that fails and its line.
#[derive(Clone, Copy)]
pub struct Verdict {
    pub number: u8,
    pub line: u32,
}

// The sheet of a refused text.
fn refused(refusal: Refusal, line: u32) -> Sheet
    ensures { result ≡ laid_out (number_of refusal) line no_rows }
{
    sheets::empty_sheet(refusal.number(), line)
}

// The F and O rows with one more.
fn with_future(rows: [Option<u32>; 8], row: FutureRow) -> [Option<u32>; 8]
    ensures { result ≡ set rows (future_place row.code) (found row.clearing) }
{
    let mut all = rows;
    let place = sheets::future_place(row.code);
    if place < 8 {
        all[place] = Some(row.clearing);
    }
    all
}

fn with_option(rows: [IndexLine; 4], row: OptionRow) -> [IndexLine; 4]
    ensures { result ≡ set rows (option_place row.code) row.line }
{
    let mut all = rows;
    let place = sheets::option_place(row.code);
    if place < 4 {
        all[place] = row.line;
    }
    all
}

// Line after line. The letter, the cells and the head of the line before go along with the rows. Most lines are taken
// at once by their head and figures.
fn read_lines(t: &[u8]) -> Sheet
    requires { length t.now ≤ 65536 }
    ensures { result ≡ sheet_of (judge_lines [] (split_on lf t.now)) }
{
    let none = lines::no_cell();
    let table = sheet_lines::asked_table();
    let mut sheet = sheets::empty_sheet(0, 0);
    let mut last: u8 = 0;
    let mut before = [none; 12];
    let mut cells = [none; 12];
    let mut line: u32 = 0;
    let mut at: usize = 0;
    let mut head: Option<usize> = None;
    'lines: loop {
        if at == t.len() {
            break 'lines sheet;
        }
        line += 1;
        if 1024 < line {
            break 'lines refused(Refusal::OutOfRange, line);
        }
        if let Some(f) = price_lines::next_figures(
            t,
            head,
            at,
            before[2].number,
            before[3].number,
        ) {
            before[2] = price_lines::number_cell(f.mark);
            before[3] = price_lines::number_cell(f.strike);
            before[4] = price_lines::number_cell(f.price);
            sheet.prices[sheet.quoted] = sheet_lines::price_row(before);
            sheet.quoted += 1;
            at = f.stop + 1;
            continue 'lines;
        }
        let mut stop = lines::stop_of(t, at);
        if stop == t.len() {
            break 'lines refused(Refusal::Malformed, line);
        }
        let letter = sheet_lines::letter_of(&t[at..stop]);
        let form = sheet_lines::form_of(letter);
        let mut k: usize = 0;
        'fields: while t[stop] == b'\t' {
            let field = lines::field_at(table[form + k], t, stop + 1);
            if !field.cell.right {
                break 'lines refused(Refusal::Malformed, line);
            }
            cells[k] = field.cell;
            k += 1;
            stop = field.stop;
        }
        if k != sheet_lines::fields_of(letter) {
            break 'lines refused(Refusal::Malformed, line);
        }
        if let Err(refusal) = sheet_lines::check(letter, cells, last, before) {
            break 'lines refused(refusal, line);
        }
        head = price_lines::head_at(letter, t, at, cells);
        at = stop + 1;
        last = letter;
        before = cells;
        if letter == b'D' {
            sheet.day = cells[0].number;
            continue 'lines;
        }
        if letter == b'F' {
            sheet.futures = with_future(sheet.futures, sheet_lines::future_row(cells));
            continue 'lines;
        }
        if letter == b'O' {
            sheet.options = with_option(sheet.options, sheet_lines::option_row(cells));
            continue 'lines;
        }
        if letter == b'S' {
            let r = sheet_lines::stock_row(cells);
            sheet.stocks[sheets::stock_place(r.code)] = r.line;
            continue 'lines;
        }
        sheet.prices[sheet.quoted] = sheet_lines::price_row(cells);
        sheet.quoted += 1;
    }
}

// Reads a sheet: any bytes.
pub fn read(t: &[u8]) -> Sheet
    ensures { result ≡ read_sheet t.now }
{
    if 65536 < t.len() {
        return refused(Refusal::OutOfRange, 0);
    }
    if t.len() == 0 {
        return refused(Refusal::Malformed, 0);
    }
    read_lines(t)
}

// Checks a sheet: any bytes.
pub fn check(t: &[u8]) -> Verdict
    ensures { result ≡ check_text t.now }
{
    let sheet = read(t);
    Verdict {
        number: sheet.number,
        line: sheet.line,
    }
}
