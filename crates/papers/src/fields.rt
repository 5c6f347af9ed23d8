// Fields of a line, and what is printed. The letter is field 0, the fields behind it are 1, 2 and so on.
use series::{Nature, Series};
use std::io;
use std::io::Write;

// What stands in field k: behind the k-th tab, nothing where there is none.
fn field(line: &[u8], k: usize) -> &[u8] {
    line.split(|b| *b == b'\t').nth(k).unwrap_or(b"")
}

// The first letter of field k; 0 where it has none.
pub fn letter(line: &[u8], k: usize) -> u8 {
    field(line, k).first().copied().unwrap_or(0)
}

// The number that the digits of field k are.
pub fn value(line: &[u8], k: usize) -> u32 {
    let mut n: u64 = 0;
    for b in field(line, k) {
        n = n % 1000000000000 * 10 + u64::from(b % 16);
    }
    (n % 4294967296) as u32
}

// The first three letters of field k, with zeros behind them.
pub fn letters(line: &[u8], k: usize) -> [u8; 3] {
    let mut code = [0; 3];
    let letters = field(line, k).iter().take_while(|b| **b != 0);
    for (to, from) in code.iter_mut().zip(letters) {
        *to = *from;
    }
    code
}

fn nature_of(letter: u8, strike: u32) -> Nature {
    match letter {
        b'C' => Nature::Call(strike),
        b'P' => Nature::Put(strike),
        _ => Nature::Future,
    }
}

// The series that the fields k to k + 3 write.
pub fn series(line: &[u8], k: u8) -> Series {
    let at = k as usize;
    let code = letters(line, at);
    let date = value(line, at + 1);
    let mark = letter(line, at + 2);
    let nature = nature_of(mark, value(line, at + 3));
    Series { code, date, nature }
}

pub fn put<W: Write>(out: &mut W, text: &[u8]) -> io::Result<()> {
    out.write_all(text)
}

// A letter, nothing for 0.
pub fn put_letter<W: Write>(out: &mut W, letter: u8) -> io::Result<()> {
    if letter != 0 {
        put(out, &[letter])?;
    }
    Ok(())
}

// A number, behind a tab.
pub fn put_amount<W: Write>(out: &mut W, n: u64) -> io::Result<()> {
    write!(out, "\t{n}")
}

pub fn put_number<W: Write>(out: &mut W, n: u8) -> io::Result<()> {
    put_amount(out, u64::from(n))
}
