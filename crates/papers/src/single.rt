// Single answers: days, codes, series, their order, the rule of pairs, make.
use super::fields;
use codes::Class;
use laws::Refusal;
use pairing::Parts;
use series::Side;
use std::cmp::Ordering;
use std::io;
use std::io::Write;

// The number of an answer: 0 where nothing is refused.
fn put_answer<W: Write>(out: &mut W, answer: Result<(), Refusal>) -> io::Result<()> {
    fields::put_number(out, answer.err().map_or(0, Refusal::number))
}

fn side_letter(side: Side) -> u8 {
    match side {
        Side::Long => b'L',
        Side::Short => b'S',
    }
}

fn class_letter(class: Class) -> u8 {
    match class {
        Class::Unknown => b'-',
        Class::ListedFuture => b'F',
        Class::ListedOption => b'O',
        Class::StockFuture => b'f',
        Class::StockOption => b'o',
    }
}

// A code behind a tab, without the zeros at its end.
fn put_code<W: Write>(out: &mut W, code: [u8; 3]) -> io::Result<()> {
    fields::put(out, b"\t")?;
    fields::put_letter(out, code[0])?;
    fields::put_letter(out, code[1])?;
    fields::put_letter(out, code[2])
}

fn answer_code<W: Write>(out: &mut W, line: &[u8]) -> io::Result<()> {
    let product = codes::product_of(fields::letters(line, 1));
    fields::put(out, &[b'\t', class_letter(product.class)])?;
    put_code(out, product.parent)?;
    fields::put_amount(out, product.part as u64)
}

fn answer_order<W: Write>(out: &mut W, line: &[u8]) -> io::Result<()> {
    let sign = match series::compare(fields::series(line, 1), fields::series(line, 5)) {
        Ordering::Less => b'<',
        Ordering::Equal => b'=',
        Ordering::Greater => b'>',
    };
    fields::put(out, &[b'\t', sign])
}

// The letter of a part that is met, a dash for one that fails.
fn part_letter(met: bool, letter: u8) -> u8 {
    if met { letter } else { b'-' }
}

// The parts of a rule by letter.
fn put_parts<W: Write>(out: &mut W, parts: Parts) -> io::Result<()> {
    fields::put(
        out,
        &[
            b'\t',
            part_letter(parts.kind, b'k'),
            part_letter(parts.codes, b'c'),
            part_letter(parts.natures, b'n'),
            part_letter(parts.dates, b'd'),
            part_letter(parts.strikes, b's'),
            part_letter(parts.ratio, b'r'),
        ],
    )
}

fn answer_pair<W: Write>(out: &mut W, line: &[u8]) -> io::Result<()> {
    let k = fields::value(line, 1);
    let a = fields::series(line, 2);
    let b = fields::series(line, 6);
    let r1 = fields::value(line, 10);
    let r2 = fields::value(line, 11);
    put_answer(out, pairing::check(k, a, b, r1, r2))?;
    put_parts(out, pairing::parts_of(k, a, b, r1, r2))?;
    let first = side_letter(pairing::first_side(k, b));
    let second = side_letter(pairing::second_side(k));
    fields::put(out, &[b'\t', first, second])
}

fn answer_make<W: Write>(out: &mut W, line: &[u8]) -> io::Result<()> {
    let made = moves::make(
        fields::value(line, 1),
        fields::letter(line, 2),
        fields::value(line, 3),
    );
    put_answer(out, made.map(|_| ()).map_err(|refused| refused.refusal))
}

pub fn answer<W: Write>(out: &mut W, line: &[u8]) -> io::Result<()> {
    match fields::letter(line, 0) {
        b'D' => {
            let day = dates::is_day(fields::value(line, 1));
            put_answer(out, laws::ensure(day, Refusal::NoSuchDate))
        }
        b'C' => answer_code(out, line),
        b'S' => put_answer(out, series::check(fields::series(line, 1))),
        b'O' => answer_order(out, line),
        b'M' => answer_pair(out, line),
        b'B' => answer_make(out, line),
        _ => Ok(()),
    }
}
