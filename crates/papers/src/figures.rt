// Amounts: fixed futures, rates of stocks, units of pairs.
use super::fields;
use amounts::{IndexLine, Lot, StockLine, Terms};
use laws::Refusal;
use levels::Levels;
use std::io;
use std::io::Write;

// Three fields.
fn levels_at(line: &[u8], clearing: usize, maintenance: usize, initial: usize) -> Levels {
    Levels {
        clearing: fields::value(line, clearing) as u64,
        maintenance: fields::value(line, maintenance) as u64,
        initial: fields::value(line, initial) as u64,
    }
}

fn index_line(line: &[u8]) -> IndexLine {
    IndexLine {
        multiplier: fields::value(line, 6),
        a: levels_at(line, 7, 8, 9),
        b: levels_at(line, 10, 11, 12),
        c: levels_at(line, 13, 14, 15),
        underlying: fields::value(line, 16),
    }
}

fn stock_line(line: &[u8]) -> StockLine {
    StockLine {
        shares: fields::value(line, 5),
        future: fields::value(line, 6),
        option: fields::value(line, 7),
        c: levels_at(line, 8, 9, 10),
        disposition: fields::value(line, 11),
        price: fields::value(line, 12),
    }
}

// The lot of an index whose nature, strike (of a future: its part) and price stand in these fields.
fn index_lot(line: &[u8], o: IndexLine, nature: usize, strike: usize, price: usize) -> Lot {
    match fields::value(line, nature) {
        0 => amounts::fixed_future(fields::value(line, 5), fields::value(line, strike)),
        n => amounts::index_option(
            o,
            n == 1,
            fields::value(line, strike),
            fields::value(line, price),
        ),
    }
}

// The lot of a stock whose nature, strike and price stand in these fields.
fn stock_lot(line: &[u8], s: StockLine, nature: usize, strike: usize, price: usize) -> Lot {
    match fields::value(line, nature) {
        0 => amounts::stock_future(s, fields::value(line, price)),
        n => amounts::stock_option(
            s,
            n == 1,
            fields::value(line, strike),
            fields::value(line, price),
        ),
    }
}

fn put_levels<W: Write>(out: &mut W, l: Levels) -> io::Result<()> {
    fields::put_amount(out, l.clearing)?;
    fields::put_amount(out, l.maintenance)?;
    fields::put_amount(out, l.initial)
}

// The number and the levels: 0 where nothing is refused, and zeros with a refusal.
fn put_answer<W: Write>(out: &mut W, a: Result<Levels, Refusal>) -> io::Result<()> {
    fields::put_number(out, a.err().map_or(0, Refusal::number))?;
    put_levels(out, a.unwrap_or(levels::same_at_all(0)))
}

fn put_lot<W: Write>(out: &mut W, lot: Lot) -> io::Result<()> {
    fields::put_number(out, lot.number)?;
    put_levels(out, lot.margin)?;
    fields::put_amount(out, lot.premium)
}

fn put_terms<W: Write>(out: &mut W, terms: Terms) -> io::Result<()> {
    fields::put_number(out, terms.number)?;
    fields::put_amount(out, terms.tenth)?;
    put_levels(out, terms.c)
}

// A unit: its lots, its terms, its margin.
fn put_unit<W: Write>(
    out: &mut W,
    line: &[u8],
    first: Lot,
    second: Lot,
    terms: Terms,
) -> io::Result<()> {
    put_lot(out, first)?;
    put_lot(out, second)?;
    put_terms(out, terms)?;
    let kind = fields::value(line, 1);
    let r1 = fields::value(line, 2);
    let r2 = fields::value(line, 3);
    let charged = fields::value(line, 4) == 1;
    put_answer(
        out,
        units::unit_margin(kind, first, second, terms, r1, r2, charged),
    )
}

fn answer_rates<W: Write>(out: &mut W, line: &[u8]) -> io::Result<()> {
    let a = levels::stock_rates(fields::value(line, 1), fields::value(line, 2));
    put_answer(out, a)?;
    put_levels(out, levels::halves(a.unwrap_or(levels::same_at_all(0))))
}

fn answer_index<W: Write>(out: &mut W, line: &[u8]) -> io::Result<()> {
    let o = index_line(line);
    let terms = amounts::index_terms(o, fields::value(line, 5));
    put_unit(
        out,
        line,
        index_lot(line, o, 17, 18, 19),
        index_lot(line, o, 20, 21, 22),
        terms,
    )
}

fn answer_stock<W: Write>(out: &mut W, line: &[u8]) -> io::Result<()> {
    let s = stock_line(line);
    let terms = amounts::stock_terms(s);
    put_unit(
        out,
        line,
        stock_lot(line, s, 13, 14, 15),
        stock_lot(line, s, 16, 17, 18),
        terms,
    )
}

pub fn answer<W: Write>(out: &mut W, line: &[u8]) -> io::Result<()> {
    match fields::letter(line, 0) {
        b'F' => put_answer(
            out,
            levels::fixed_levels(fields::value(line, 1), fields::value(line, 2)),
        ),
        b'R' => answer_rates(out, line),
        b'I' => answer_index(out, line),
        b'J' => answer_stock(out, line),
        _ => Ok(()),
    }
}
