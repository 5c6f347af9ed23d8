// Laying texts over a lent buffer, one behind the other; what does not fit is lost, and the place stays at the end. A line of at most 96
// bytes is handed over in room of its own.
#![tactic(auto)]

ghost use Rattle.std.specs.Prelude.{◌≡◌, [], ◌∷◌};
ghost use Rattle.digits.specs.Digits.{fixed, numerals};
ghost use Rattle.lines.specs.Texts.{tabbed};
ghost use Rattle.put.specs.Put.{LaidAt};
ghost use Rattle.put.specs.Output.{refusal_text, output_of};

// A line: its bytes, then zeros, and how many they are.
#[derive(Clone, Copy)]
pub struct Output {
    pub text: [u8; 96],
    pub length: usize,
}

// One byte.
pub fn put_byte(dst: &mut [u8], at: usize, b: u8) -> usize
    ensures { LaidAt dst.old at (b ∷ []) result dst.new }
{
    if dst.len() <= at {
        return dst.len();
    }
    dst[at] = b;
    at + 1
}

// A text.
pub fn put_bytes(dst: &mut [u8], at: usize, p: &[u8]) -> usize
    ensures { LaidAt dst.old at p.now result dst.new }
{
    let start = at.min(dst.len());
    let count = p.len().min(dst.len() - start);
    dst[start..start + count].copy_from_slice(&p[..count]);
    start + count
}

// The last digits of n, so many of them.
pub fn put_fixed(dst: &mut [u8], at: usize, width: u8, n: u64) -> usize
    ensures { LaidAt dst.old at (fixed width n) result dst.new }
{
    if dst.len() <= at {
        return dst.len();
    }
    let mut m = n;
    for i in (0..usize::from(width)).rev() {
        put_byte(dst, at + i, b'0' + (m % 10) as u8);
        m /= 10;
    }
    dst.len().min(at + usize::from(width))
}

// The digits of n, as many as needed.
pub fn put_number(dst: &mut [u8], at: usize, n: u64) -> usize
    ensures { LaidAt dst.old at (numerals n) result dst.new }
{
    put_fixed(dst, at, digits::width_of(n) as u8, n)
}

// Fields, each behind a tab: a number, and so many digits of one.
pub fn put_figure(dst: &mut [u8], at: usize, n: u64) -> usize
    ensures { LaidAt dst.old at (tabbed (numerals n ∷ [])) result dst.new }
{
    let a = put_byte(dst, at, b'\t');
    put_number(dst, a, n)
}

pub fn put_digits(dst: &mut [u8], at: usize, width: u8, n: u32) -> usize
    ensures { LaidAt dst.old at (tabbed (fixed width n ∷ [])) result dst.new }
{
    let a = put_byte(dst, at, b'\t');
    put_fixed(dst, a, width, u64::from(n))
}

// A refusal: `X number line`.
pub fn put_refusal(dst: &mut [u8], at: usize, number: u8, line: u32) -> usize
    ensures { LaidAt dst.old at (refusal_text number line) result dst.new }
{
    let a = put_byte(dst, at, b'X');
    let b = put_figure(dst, a, u64::from(number));
    let c = put_figure(dst, b, u64::from(line));
    put_byte(dst, c, b'\n')
}

pub fn refusal(number: u8, line: u32) -> Output
    ensures { result ≡ output_of (refusal_text number line) }
{
    let mut text = [0u8; 96];
    let length = put_refusal(&mut text, 0, number, line);
    Output { text, length }
}
