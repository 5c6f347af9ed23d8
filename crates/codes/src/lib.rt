// Codes: the sixteen listed ones, the stocks' codes, and what stands behind each.
#![tactic(auto)]

ghost use Rattle.std.specs.Prelude.{◌≡◌, ◌<◌};
ghost use Rattle.codes.specs.Codes.{product_of, names_stock, unlisted, stock, unknown, capital, known, is_future_class, is_option_class, is_stock_future, is_stock_option, own_option};
ghost use Rattle.codes.specs.CodeLaws.{mark_of, product_marked};
ghost use Rattle.codes.specs.declared.Class.TheVariants.{ListedFuture, ListedOption};

// What kind of product a code is.
#[derive(Clone, Copy, Debug, PartialEq, Eq)]
pub enum Class {
    Unknown,
    ListedFuture,
    ListedOption,
    StockFuture,
    StockOption,
}

// What a code stands for: its class, the full-size future or the stock behind it, and which part of that future it is.
#[derive(Clone, Copy)]
pub struct Product {
    pub code: [u8; 3],
    pub class: Class,
    pub parent: [u8; 3],
    pub part: u32,
}

fn is_capital(b: u8) -> bool
    ensures { result ≡ capital b }
{
    b.is_ascii_uppercase()
}

fn unknown_code(code: [u8; 3]) -> Product
    ensures { result ≡ unknown code }
{
    Product {
        code,
        class: Class::Unknown,
        parent: [0; 3],
        part: 0,
    }
}

fn stock_code(class: Class, code: [u8; 3]) -> Product
    ensures { result ≡ stock class code }
{
    Product {
        code,
        class,
        parent: [code[0], code[1], 0],
        part: 1,
    }
}

// Whether two capitals name a stock.
#[tactic(auto, unfolding(crate::specs::Codes::names_stock))]
pub fn names_stock(code: [u8; 3]) -> bool
    ensures { result ≡ names_stock code }
{
    is_capital(code[0]) && is_capital(code[1])
}

// A code that is not listed: two capitals, which name a stock, then F or O.
#[tactic(auto, unfolding(crate::specs::Codes::unlisted))]
fn unlisted_code(code: [u8; 3]) -> Product
    ensures { result ≡ unlisted code }
{
    match code[2] {
        b'F' if names_stock(code) => stock_code(Class::StockFuture, code),
        b'O' if names_stock(code) => stock_code(Class::StockOption, code),
        _ => unknown_code(code),
    }
}

// A line of the full-size futures.
fn full_line(code: [u8; 3]) -> Product
    ensures { result ≡ record { code = code; class = ListedFuture; parent = code; part = 1 } }
{
    Product {
        code,
        class: Class::ListedFuture,
        parent: code,
        part: 1,
    }
}

// A line of the other futures: its code, the full-size future behind it, and which part of that future it is.
fn part_line(code: [u8; 3], parent: [u8; 3], part: u32) -> Product
    ensures { result ≡ record { code = code; class = ListedFuture; parent = parent; part = part } }
{
    Product {
        code,
        class: Class::ListedFuture,
        parent,
        part,
    }
}

// A line of the listed options: its code and its parent future.
fn option_line(code: [u8; 3], parent: [u8; 3]) -> Product
    ensures { result ≡ record { code = code; class = ListedOption; parent = parent; part = 1 } }
{
    Product {
        code,
        class: Class::ListedOption,
        parent,
        part: 1,
    }
}

// The mark of a code, of its second and third byte: no two listed codes have the same.
#[tactic(auto, unfolding(crate::specs::CodeLaws::mark_of))]
fn mark_of(code: [u8; 3]) -> u32
    ensures { result ≡ mark_of code }
{
    (u32::from(code[1]) * 3 + u32::from(code[2])) % 32
}

// The listed line of a mark.
#[tactic(auto, unfolding(crate::specs::CodeLaws::product_marked, crate::specs::CodeLaws::mark_of, laws::specs::Search::first_where, crate::specs::Codes::listed))]
fn product_marked(mark: u32) -> Product
    ensures { result ≡ product_marked mark }
{
    match mark {
        8 => full_line([b'T', b'X', 0]),
        20 => part_line([b'M', b'T', b'X'], [b'T', b'X', 0], 4),
        13 => part_line([b'T', b'M', b'F'], [b'T', b'X', 0], 20),
        15 => full_line([b'T', b'E', 0]),
        21 => part_line([b'Z', b'E', b'F'], [b'T', b'E', 0], 8),
        18 => full_line([b'T', b'F', 0]),
        24 => part_line([b'Z', b'F', b'F'], [b'T', b'F', 0], 4),
        27 => full_line([b'T', b'G', b'F']),
        16 => full_line([b'U', b'N', b'F']),
        14 => full_line([b'S', b'X', b'F']),
        2 => full_line([b'G', b'T', b'F']),
        28 => full_line([b'G', b'2', b'F']),
        23 => option_line([b'T', b'X', b'O'], [b'T', b'X', 0]),
        30 => option_line([b'T', b'E', b'O'], [b'T', b'E', 0]),
        1 => option_line([b'T', b'F', b'O'], [b'T', b'F', 0]),
        4 => option_line([b'T', b'G', b'O'], [b'T', b'G', b'F']),
        _ => unknown_code([0; 3]),
    }
}

// What a code stands for: the one listed line that can spell it, byte by byte, or else a stock's.
pub fn product_of(code: [u8; 3]) -> Product
    ensures { result ≡ product_of code }
{
    let line = product_marked(mark_of(code));
    if code == line.code {
        return line;
    }
    unlisted_code(code)
}

pub fn is_known(class: Class) -> bool
    ensures { result ≡ known class }
{
    class != Class::Unknown
}

pub fn is_future_class(class: Class) -> bool
    ensures { result ≡ is_future_class class }
{
    matches!(class, Class::ListedFuture | Class::StockFuture)
}

pub fn is_stock_future(class: Class) -> bool
    ensures { result ≡ is_stock_future class }
{
    class == Class::StockFuture
}

fn is_stock_option(class: Class) -> bool
    ensures { result ≡ is_stock_option class }
{
    class == Class::StockOption
}

pub fn is_option_class(class: Class) -> bool
    ensures { result ≡ is_option_class class }
{
    matches!(class, Class::ListedOption | Class::StockOption)
}

// Whether the two codes are one stock's own future and option.
#[tactic(auto, using(laws::specs::ByteLaws::as_pointwise), unfolding(crate::specs::Codes::own_option))]
pub fn is_own_option(future: [u8; 3], option: [u8; 3]) -> bool
    ensures { result ≡ own_option future option }
{
    let f = product_of(future);
    let o = product_of(option);
    is_stock_future(f.class) && is_stock_option(o.class) && f.parent == o.parent
}
