// The functions of `exports` under the names that C and Rust programs link. A slice crosses as a pointer, and then a length.
#![tactic(auto)]

ghost use Rattle.std.specs.Prelude.{◌≡◌};
ghost use Rattle.reading.specs.Reading.{read_book};
ghost use Rattle.checking.specs.Reading.{check_text};
ghost use Rattle.reports.specs.Statement.{statement_text};
ghost use Rattle.exports.specs.Exports.{read_coded, check_coded, printed_of, printed_exit, line_coded, line_exit};
ghost use Rattle.exports.specs.Runs.{run_coded, run_numbers, run_exit};

// Read the text of a book: number and line.
#[unsafe(no_mangle)]
pub extern "C" fn sillauger_read(text: &[u8]) -> u64
    ensures { result ≡ read_coded (read_book text.now) }
{
    exports::sillauger_read(text)
}

// Check the text of a sheet: number and line.
#[unsafe(no_mangle)]
pub extern "C" fn sillauger_check(sheet: &[u8]) -> u64
    ensures { result ≡ check_coded (check_text sheet.now) }
{
    exports::sillauger_check(sheet)
}

// Read the text of a book and print it, so many times over the same bytes: number, and length or line.
#[unsafe(no_mangle)]
pub extern "C" fn sillauger_print(text: &[u8], times: u32, out: &mut [u8]) -> u64
    ensures { (result ≡ printed_of (read_book text.now) out.old) × (out.new ≡ printed_exit (read_book text.now) out.old) }
{
    exports::sillauger_print(text, times, out)
}

// The line that the margin program prints of two texts, the margin worked so many times: 0 and its length, or 15 where the buffer is too short,
// which then keeps its bytes.
#[unsafe(no_mangle)]
pub extern "C" fn sillauger_margin(book: &[u8], sheet: &[u8], times: u32, out: &mut [u8]) -> u64
    ensures { (result ≡ line_coded (statement_text book.now sheet.now) out.old) × (out.new ≡ line_exit (statement_text book.now sheet.now) out.old) }
{
    exports::sillauger_margin(book, sheet, times, out)
}

// A script on the book of a text: each call's number, and the text of the book that results, 0 and its length; or why nothing was done: the
// number and line of a refused book, 1 where words are left over, 15 where there are fewer cells than calls or less room than any book may need.
#[unsafe(no_mangle)]
pub extern "C" fn sillauger_run(
    book: &[u8],
    words: &[u32],
    numbers: &mut [u8],
    out: &mut [u8],
) -> u64
    ensures { (result ≡ run_coded (read_book book.now) words.now numbers.old out.old) × ((numbers.new ≡ run_numbers (read_book book.now) words.now numbers.old out.old) × (out.new ≡ run_exit (read_book book.now) words.now numbers.old out.old)) }
{
    exports::sillauger_run(book, words, numbers, out)
}
