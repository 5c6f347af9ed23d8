// Finding a key among keys that rise, by halving. A key is two numbers, the higher one first.
#![tactic(auto)]

ghost use Rattle.std.specs.Prelude.{◌≡◌, [], ◌∷◌};
ghost use Rattle.halving.specs.Halving.{place_of, find_in};

// The place among the first `count` keys where they stop being before the key, if they rise.
pub fn place_of<'a>(highs: &'a [u64], lows: &'a [u64], count: usize, high: u64, low: u64) -> usize
    ensures { result ≡ place_of highs.now lows.now count (high ∷ low ∷ []) }
{
    let mut from: usize = 0;
    let mut to = count.min(highs.len()).min(lows.len());
    while from < to {
        let mid = from + (to - from) / 2;
        if (highs[mid], lows[mid]) < (high, low) {
            from = mid + 1;
        } else {
            to = mid;
        }
    }
    from
}

// The place of the key among the first `count`, if they rise; `count` where it does not stand there.
pub fn find<'a>(highs: &'a [u64], lows: &'a [u64], count: usize, high: u64, low: u64) -> usize
    ensures { result ≡ find_in highs.now lows.now count (high ∷ low ∷ []) }
{
    let place = place_of(highs, lows, count, high, low);
    if place < count.min(highs.len()).min(lows.len())
        && (highs[place], lows[place]) == (high, low)
    {
        place
    } else {
        count
    }
}
