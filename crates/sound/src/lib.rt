// Whether a book is sound, and its free lots: one walk over its rows, one over its pairs, whose legs find their rows by halving, and one in
// which leg after leg takes its lots from its row. What the walks find is answered with them: the keys of the rows and the rows of the legs.
#![tactic(auto)]

ghost use Rattle.std.specs.Prelude.{◌≡◌, true, false, [], ◌∷◌, ◌-◌, ◌<◌, ◌≤◌, eqb, take};
ghost use Rattle.laws.specs.Truth.{both, either};
ghost use Rattle.laws.specs.Order.{is_less, bytes_order};
ghost use Rattle.dates.specs.Calendar.{is_day};
ghost use Rattle.series.specs.Checks.{good_series};
ghost use Rattle.rules.specs.Lots.{covered};
ghost use Rattle.rules.specs.Rules.{account_fits, is_identity, good_holding, sound_book};
ghost use Rattle.sound.specs.Checked.{not_sound, checked_as, checked_book, not_walked, walked_book};
ghost use Rattle.sound.specs.Walk.{alike, standing, keys_as, legs_as, places_as, KeysAre, LegKey, LegRow, LegRows, PlacesAre, RoomIs, Walkable};

use rows::{Book, Holding, Pair};
use series::{Halves, Series};

// Whether a book is sound, and its holdings with their free lots for their totals; empty rows where it is not.
#[derive(Clone, Copy)]
pub struct Checked {
    pub sound: bool,
    pub free: [Holding; 128],
}

// The same with the keys of the holdings, half by half, and the rows of each pair's legs; zeros where it is not sound.
#[derive(Clone, Copy)]
pub struct Walked {
    pub sound: bool,
    pub free: [Holding; 128],
    pub highs: [u64; 128],
    pub lows: [u64; 128],
    pub firsts: [usize; 128],
    pub seconds: [usize; 128],
}

// Whether two series are options of one code and date, the second with its strike in range: then it is good if the first is.
#[tactic(auto, using(laws::specs::ByteLaws::as_pointwise, laws::specs::TruthLaws::both_first), unfolding(crate::specs::Walk::alike))]
fn is_alike(a: Series, b: Series) -> bool
    ensures { result ≡ alike a b }
{
    let one = a.code == b.code && a.date == b.date;
    let options = !series::is_future(a.nature) && !series::is_future(b.nature);
    one && options && laws::in_range(1, 100000000, series::strike_of(b.nature))
}

// Whether the row i is good, where the row before it is.
fn good_row(i: usize, last: Holding, h: Holding) -> bool
    requires { 0 < i → good_series last.series ≡ true }
    ensures { result ≡ good_holding h }
{
    if 0 < i && is_alike(last.series, h.series) {
        return rules::lots_good(h);
    }
    rules::good_holding(h)
}

// Whether the row i of a key stands after the row before it.
#[tactic(auto, using(halving::specs::HalvingLaws::pair_before))]
fn key_rises(i: usize, high: u64, low: u64, k: Halves) -> bool
    ensures { result ≡ either (eqb i 0) (is_less (bytes_order (high ∷ low ∷ []) (k.high ∷ k.low ∷ []))) }
{
    i == 0 || (high, low) < (k.high, k.low)
}

// One walk over the rows: each is good, and its key is after that of the row before it.
fn keys_of(rows: [Holding; 128], held: usize) -> Option<([u64; 128], [u64; 128])>
    requires { held ≤ 128 }
    ensures { KeysAre rows held (keys_as result) }
{
    let mut highs = [0u64; 128];
    let mut lows = [0u64; 128];
    for i in 0..held {
        let b = i.saturating_sub(1);
        if !good_row(i, rows[b], rows[i]) {
            return None;
        }
        let k = series::halves_of(rows[i].series);
        if !key_rises(i, highs[b], lows[b], k) {
            return None;
        }
        highs[i] = k.high;
        lows[i] = k.low;
    }
    Some((highs, lows))
}

// The key of a leg, half by half.
fn leg_key(s: Series) -> Halves
    ensures { LegKey s result }
{
    let code = (u64::from(s.code[0]) * 256 + u64::from(s.code[1])) * 256 + u64::from(s.code[2]);
    Halves {
        high: code * 4294967296 + u64::from(s.date),
        low: u64::from(series::letter_of(s.nature)) * 4294967296
            + u64::from(series::strike_of(s.nature)),
    }
}

// The row of a leg, by halving; `held` where there is none.
fn row_of<'a>(highs: &'a [u64], lows: &'a [u64], held: usize, s: Series) -> usize
    ensures { LegRow highs.now lows.now held s result }
{
    let k = leg_key(s);
    halving::find(highs, lows, held, k.high, k.low)
}

// Whether a pair's counts are in range and its kind's rule is met.
#[tactic(auto, unfolding(crate::specs::Walk::standing))]
fn stands(p: Pair) -> bool
    ensures { result ≡ standing p }
{
    rules::counts_fit(p.r1, p.r2, p.units)
        && pairing::may_stand(p.kind, p.first, p.second, p.r1, p.r2)
}

// The rows of a pair's legs, where it may stand and both are held.
fn legs_of<'a>(highs: &'a [u64], lows: &'a [u64], held: usize, p: Pair) -> Option<(usize, usize)>
    ensures { LegRows highs.now lows.now held p (legs_as result) }
{
    if !stands(p) {
        return None;
    }
    let first = row_of(highs, lows, held, p.first);
    let second = row_of(highs, lows, held, p.second);
    if held <= first || held <= second {
        return None;
    }
    Some((first, second))
}

// Whether the pair i stands after the pair before it: by kind, the rows of its legs, r1, r2.
fn pair_rises(i: usize, p: Pair, x: (usize, usize), q: Pair, y: (usize, usize)) -> bool
    ensures { result ≡ either (eqb i 0) (is_less (bytes_order (p.kind ∷ x.0 ∷ x.1 ∷ p.r1 ∷ p.r2 ∷ []) (q.kind ∷ y.0 ∷ y.1 ∷ q.r1 ∷ q.r2 ∷ []))) }
{
    i == 0 || (p.kind, x.0, x.1, p.r1, p.r2) < (q.kind, y.0, y.1, q.r1, q.r2)
}

// One walk over the pairs: each may stand, has its rows, and is after the pair before it.
fn places_of<'a>(
    highs: &'a [u64],
    lows: &'a [u64],
    held: usize,
    pairs: [Pair; 128],
    paired: usize,
) -> Option<([usize; 128], [usize; 128])>
    requires { paired ≤ 128 }
    ensures { PlacesAre highs.now lows.now held pairs paired (places_as result) }
{
    let mut firsts = [0usize; 128];
    let mut seconds = [0usize; 128];
    for i in 0..paired {
        let b = i.saturating_sub(1);
        let Some(legs) = legs_of(highs, lows, held, pairs[i]) else {
            return None;
        };
        if !pair_rises(i, pairs[b], (firsts[b], seconds[b]), pairs[i], legs) {
            return None;
        }
        firsts[i] = legs.0;
        seconds[i] = legs.1;
    }
    Some((firsts, seconds))
}

// The answer for a book that breaks a rule.
#[tactic(auto, unfolding(crate::specs::Checked::not_sound))]
fn unsound() -> Checked
    ensures { result ≡ not_sound }
{
    Checked {
        sound: false,
        free: [rows::empty_holding(); 128],
    }
}

// Leg after leg of the pairs takes its lots from its row; what is left are the free lots.
fn free_lots(
    rows: [Holding; 128],
    held: usize,
    pairs: [Pair; 128],
    paired: usize,
    firsts: [usize; 128],
    seconds: [usize; 128],
) -> Checked
    requires { Walkable rows held pairs paired firsts seconds }
    ensures { result ≡ checked_as (covered (take held rows) (take paired pairs)) (take held rows) (take paired pairs) }
{
    let mut free = rows;
    for j in 0..paired {
        let p = pairs[j];
        let x = firsts[j];
        let s = pairing::first_side(p.kind, p.second);
        let m = p.r1 * p.units;
        if rows::lots_on(s, free[x]) < m {
            return unsound();
        }
        free[x] = rows::lessen(s, m, free[x]);
        let y = seconds[j];
        let t = pairing::second_side(p.kind);
        let n = p.r2 * p.units;
        if rows::lots_on(t, free[y]) < n {
            return unsound();
        }
        free[y] = rows::lessen(t, n, free[y]);
    }
    Checked { sound: true, free }
}

// Whether the head of a book is in its ranges.
fn head_sound(account: u32, identity: u8, day: u32) -> bool
    ensures { result ≡ both (account_fits account) (both (is_identity identity) (is_day day)) }
{
    rules::account_fits(account) && rules::is_identity(identity) && dates::is_day(day)
}

// Whether there is room for the rows, and the room behind them is empty.
fn room_sound(holdings: [Holding; 128], held: usize, pairs: [Pair; 128], paired: usize) -> bool
    ensures { RoomIs holdings held pairs paired result }
{
    if 128 < held {
        return false;
    }
    if 128 < paired {
        return false;
    }
    if !rules::holdings_end(holdings, held) {
        return false;
    }
    rules::pairs_end(pairs, paired)
}

// The answer of the whole walk for a book that breaks a rule.
#[tactic(auto, unfolding(crate::specs::Checked::not_walked))]
fn not_walked() -> Walked
    ensures { result ≡ not_walked }
{
    Walked {
        sound: false,
        free: [rows::empty_holding(); 128],
        highs: [0u64; 128],
        lows: [0u64; 128],
        firsts: [0usize; 128],
        seconds: [0usize; 128],
    }
}

// Whether a book keeps every rule, its free lots, its keys, and the rows of its pairs' legs.
pub fn walked_book(b: Book) -> Walked
    ensures { result ≡ walked_book b }
{
    if !head_sound(b.account, b.identity, b.day) {
        return not_walked();
    }
    if !room_sound(b.holdings, b.held, b.pairs, b.paired) {
        return not_walked();
    }
    let Some(keys) = keys_of(b.holdings, b.held) else {
        return not_walked();
    };
    let highs = keys.0;
    let lows = keys.1;
    let Some(places) = places_of(&highs, &lows, b.held, b.pairs, b.paired) else {
        return not_walked();
    };
    let firsts = places.0;
    let seconds = places.1;
    let c = free_lots(b.holdings, b.held, b.pairs, b.paired, firsts, seconds);
    if !c.sound {
        return not_walked();
    }
    let free = c.free;
    Walked {
        sound: true,
        free,
        highs,
        lows,
        firsts,
        seconds,
    }
}

// Whether a book keeps every rule, and its free lots.
pub fn checked_book(b: Book) -> Checked
    ensures { result ≡ checked_book b }
{
    let w = walked_book(b);
    let free = w.free;
    Checked {
        sound: w.sound,
        free,
    }
}

// Whether a book keeps every rule.
pub fn is_sound(b: Book) -> bool
    ensures { result ≡ sound_book b }
{
    walked_book(b).sound
}
