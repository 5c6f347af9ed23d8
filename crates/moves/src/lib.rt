// Make, open, close and turn. Each answers with the book that results, or with the refusal of the first check that fails.
#![tactic(auto)]

ghost use Rattle.std.specs.Prelude.{◌≡◌, ◌+◌, ◌≤◌, take};
ghost use Rattle.laws.specs.Checks.{first_failing};
ghost use Rattle.laws.specs.Refusals.{number_in};
ghost use Rattle.lists.specs.Sorted.{kept};
ghost use Rattle.lists.specs.Kept.{Keeping};
ghost use Rattle.rows.specs.Rows.{holding_rank, no_lots, lots_on, added, empty_holding};
ghost use Rattle.rows.specs.Book.{holdings_of, with_holdings};
ghost use Rattle.calls.specs.Outcome.{outcome_in, made_in};
ghost use Rattle.calls.specs.Calls.{make_checks, make_answer, held_of, open_checks, opened, open_answer, close_checks, closed, close_answer, turn_checks, turn_answer};
ghost use Rattle.calls.specs.Facts.{Opens, Closes};

use calls::RefusedMake;
use laws::Refusal;
use rows::{Book, Holding};
use series::{Series, Side};

// The book with the holding in its place, or with its place given up where no lots are left.
fn keep_holding(b: Book, h: Holding) -> Book
    requires { Keeping empty_holding holding_rank b.held b.holdings h }
    ensures { result ≡ with_holdings b (kept holding_rank no_lots h (holdings_of b)) }
{
    let mut c = b;
    c.held = places::keep(&mut c.holdings, b.held, h);
    c
}

// What is held of a series.
#[tactic(auto, unfolding(calls::specs::Calls::held_of, rules::specs::Lots::total))]
fn held_of(rows: [Holding; 128], held: usize, s: Series) -> Holding
    ensures { result ≡ held_of (take held rows) s }
{
    let h = places::holding_in(rows, held, s);
    Holding { series: s, ..h }
}

fn add_lots(side: Side, lots: u32, h: Holding) -> Holding
    requires { lots_on side h + lots ≤ 100000 }
    ensures { result ≡ added side lots h }
{
    match side {
        Side::Long => Holding {
            long: h.long + lots,
            ..h
        },
        Side::Short => Holding {
            short: h.short + lots,
            ..h
        },
    }
}

#[tactic(auto, unfolding(calls::specs::Calls::make_checks, laws::specs::Checks::first_failing))]
fn make_check(account: u32, identity: u8, day: u32) -> Result<(), Refusal>
    ensures { number_in result ≡ first_failing (make_checks account identity day) }
{
    let head = rules::account_fits(account) && rules::is_identity(identity);
    laws::ensure(head, Refusal::OutOfRange)?;
    laws::ensure(dates::is_day(day), Refusal::NoSuchDate)
}

// Make an empty book. A refusal gives the one of account 0, code 0, day 20000101.
#[tactic(auto, using(calls::proofs::AnswerLaws::make_refused, calls::proofs::AnswerLaws::make_accepted), unfolding(rows::specs::Book::no_book))]
pub fn make(account: u32, identity: u8, day: u32) -> Result<Book, RefusedMake>
    ensures { made_in result ≡ make_answer account identity day }
{
    match make_check(account, identity, day) {
        Ok(()) => Ok(rows::empty_book(account, identity, day)),
        Err(refusal) => Err(RefusedMake {
            refusal,
            book: rows::empty_book(0, b'0', 20000101),
        }),
    }
}

#[tactic(auto, using(calls::specs::NumberLaws::open_says), unfolding(rows::specs::Book::holdings_of))]
fn open_check(b: Book, s: Series, side: Side, lots: u32) -> Result<(), Refusal>
    ensures { number_in result ≡ first_failing (open_checks b s side lots) }
{
    laws::ensure(sound::is_sound(b), Refusal::NotSound)?;
    series::check(s)?;
    laws::ensure(laws::in_range(1, 100000, lots), Refusal::WrongCount)?;
    let rows = b.holdings;
    let h = held_of(rows, b.held, s);
    let sum = rows::lots_on(side, h) as u64 + lots as u64;
    laws::ensure(sum <= 100000, Refusal::TooManyLots)?;
    laws::ensure(!rows::no_lots(h) || b.held < 128, Refusal::BookFull)
}

fn open_book(b: Book, s: Series, side: Side, lots: u32) -> Book
    requires { Opens b s side lots }
    ensures { result ≡ opened b s side lots }
{
    let rows = b.holdings;
    let h = held_of(rows, b.held, s);
    keep_holding(b, add_lots(side, lots, h))
}

// Open lots of a series on a side.
#[tactic(auto, using(calls::proofs::AnswerLaws::open_refused, calls::proofs::AnswerLaws::open_opens, calls::proofs::AnswerLaws::open_accepted))]
pub fn open(b: Book, s: Series, side: Side, lots: u32) -> Result<Book, Refusal>
    ensures { outcome_in b result ≡ open_answer b s side lots }
{
    open_check(b, s, side, lots)?;
    Ok(open_book(b, s, side, lots))
}

#[tactic(auto, using(calls::specs::NumberLaws::close_says))]
fn close_check(b: Book, s: Series, side: Side, lots: u32) -> Result<(), Refusal>
    ensures { number_in result ≡ first_failing (close_checks b s side lots) }
{
    let c = sound::checked_book(b);
    laws::ensure(c.sound, Refusal::NotSound)?;
    series::check(s)?;
    laws::ensure(laws::in_range(1, 100000, lots), Refusal::WrongCount)?;
    let free = c.free;
    let h = places::holding_in(free, b.held, s);
    laws::ensure(lots <= rows::lots_on(side, h), Refusal::NotFree)
}

fn close_book(b: Book, s: Series, side: Side, lots: u32) -> Book
    requires { Closes b s side lots }
    ensures { result ≡ closed b s side lots }
{
    let rows = b.holdings;
    let h = held_of(rows, b.held, s);
    keep_holding(b, rows::lessen(side, lots, h))
}

// Close free lots of a series on a side.
#[tactic(auto, using(calls::proofs::AnswerLaws::close_refused, calls::proofs::AnswerLaws::close_closes, calls::proofs::AnswerLaws::close_accepted))]
pub fn close(b: Book, s: Series, side: Side, lots: u32) -> Result<Book, Refusal>
    ensures { outcome_in b result ≡ close_answer b s side lots }
{
    close_check(b, s, side, lots)?;
    Ok(close_book(b, s, side, lots))
}

#[tactic(auto, using(calls::specs::NumberLaws::turn_says))]
fn turn_check(b: Book, day: u32) -> Result<(), Refusal>
    ensures { number_in result ≡ first_failing (turn_checks b day) }
{
    laws::ensure(sound::is_sound(b), Refusal::NotSound)?;
    laws::ensure(dates::is_day(day), Refusal::NoSuchDate)?;
    laws::ensure(b.day < day, Refusal::WrongDay)
}

// Turn the book to a later day.
#[tactic(auto, using(calls::proofs::AnswerLaws::turn_refused, calls::proofs::AnswerLaws::turn_accepted), unfolding(rows::specs::Book::with_day))]
pub fn turn(b: Book, day: u32) -> Result<Book, Refusal>
    ensures { outcome_in b result ≡ turn_answer b day }
{
    turn_check(b, day)?;
    Ok(Book { day, ..b })
}
