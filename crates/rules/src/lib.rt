// The rules of a book: ranges, holdings and pairs in their arrays. What lots are total, tied and free is in specs/Lots.
#![tactic(auto)]

ghost use Rattle.std.specs.Prelude.{◌≡◌, drop};
ghost use Rattle.laws.specs.Search.{every_line};
ghost use Rattle.rows.specs.Rows.{is_empty_holding, is_empty_pair};
ghost use Rattle.rules.specs.Rules.{account_fits, is_identity, counts_fit, good_lots, good_holding};

use rows::{Holding, Pair, Row};

pub fn account_fits(account: u32) -> bool
    ensures { result ≡ account_fits account }
{
    account <= 9999999
}

pub fn is_identity(code: u8) -> bool
    ensures { result ≡ is_identity code }
{
    code.is_ascii_digit() || code.is_ascii_uppercase()
}

// Whether ratios, units and their products are in range; the products are worked only of what is.
#[tactic(auto, unfolding(crate::specs::Rules::counts_fit), using(laws::specs::TruthLaws::within_true))]
pub fn counts_fit(r1: u32, r2: u32, units: u32) -> bool
    ensures { result ≡ counts_fit r1 r2 units }
{
    laws::in_range(1, 100, r1)
        && laws::in_range(1, 100, r2)
        && laws::in_range(1, 100000, units)
        && laws::in_range(1, 100000, r1 * units)
        && laws::in_range(1, 100000, r2 * units)
}

// Whether a holding's totals are in their range, and are some.
#[tactic(auto, unfolding(crate::specs::Rules::good_lots))]
pub fn lots_good(h: Holding) -> bool
    ensures { result ≡ good_lots h }
{
    h.long <= 100000 && h.short <= 100000 && !rows::no_lots(h)
}

#[tactic(auto, unfolding(crate::specs::Rules::good_holding), using(crate::specs::RuleLaws::good_by_check))]
pub fn good_holding(h: Holding) -> bool
    ensures { result ≡ good_holding h }
{
    series::check(h.series).is_ok() && lots_good(h)
}

// Whether the rows behind the first `live` are empty.
fn end_is_empty<R: Row>(rows: &[R], live: usize) -> bool
    ensures { result ≡ every_line R.is_empty (drop live rows.now) }
{
    rows[live.min(rows.len())..].iter().all(|r| r.is_empty())
}

pub fn holdings_end(rows: [Holding; 128], held: usize) -> bool
    ensures { result ≡ every_line is_empty_holding (drop held rows) }
{
    end_is_empty(&rows, held)
}

pub fn pairs_end(rows: [Pair; 128], paired: usize) -> bool
    ensures { result ≡ every_line is_empty_pair (drop paired rows) }
{
    end_is_empty(&rows, paired)
}
