// What the calls on a book mean: their checks and the books that result, in specs/, with the laws of what they do to lots and units.
// The calls themselves are in `moves` (make, open, close, turn) and `ties` (pair, split).
#![tactic(auto)]

use laws::Refusal;
use rows::Book;

// Why a make is refused, and the empty book that it gives.
#[derive(Clone, Copy)]
pub struct RefusedMake {
    pub refusal: Refusal,
    pub book: Book,
}
