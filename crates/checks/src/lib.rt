// The checks of what callers hand in, each written once.
#![tactic(auto, using(words::proofs::Refusals::check_steps), unfolding(words::specs::Numbers::alphabet, words::specs::Numbers::long, words::specs::Numbers::matching, words::specs::Lists::both))]

ghost use Rattle.std.specs.Prelude.{◌≡◌, [], ◌∷◌, length};
ghost use Rattle.words.specs.Numbers.{letter as letter_of, named as named_of, unless as unless_of, alphabet as alphabet_of, long as long_of, matching as matching_of, cards as cards_of, sizes as sizes_of, lent as lent_of, paired as paired_of, limit, refusal};
ghost use Rattle.words.specs.Refusals.{outcome, number_of};

use words::{Answer, FIRST_LETTER, LETTERS, LIMIT, Reason, Refusal};

// The number n at place p, or done where p is 0.
// Stays: nothing here calls it any more; it is a public function that takes any number, and a `Reason` would ask more of a caller.
pub fn named(n: u8, p: usize) -> Answer
    ensures { (result.number, result.place) ≡ named_of n p }
{
    if p == 0 {
        Answer::DONE
    } else {
        Answer {
            number: n,
            place: p,
        }
    }
}

// Refuses at place 0, unless the test passes.
fn unless(good: bool, reason: Reason) -> Result<(), Refusal>
    ensures { outcome result ≡ unless_of good (number_of reason) }
{
    if good {
        Ok(())
    } else {
        Err(Refusal::from(reason))
    }
}

// 1: A outside 1..26.
pub fn alphabet(a: usize) -> Result<(), Refusal>
    ensures { outcome result ≡ alphabet_of a }
{
    unless((1..=LETTERS).contains(&a), Reason::Alphabet)
}

// 2: a length n over the limit.
pub fn long(limit: usize, n: usize) -> Result<(), Refusal>
    ensures { outcome result ≡ long_of limit n }
{
    unless(n <= limit, Reason::Long)
}

// 3: a lent slice of m entries that must have n.
pub fn matching(n: usize, m: usize) -> Result<(), Refusal>
    ensures { outcome result ≡ matching_of n m }
{
    unless(m == n, Reason::Mismatch)
}

// Whether c is one of the a letters.
fn letter(a: usize, c: u8) -> bool
    ensures { result ≡ letter_of a c }
{
    c >= FIRST_LETTER && usize::from(c - FIRST_LETTER) < a
}

// 4: a card outside the alphabet, at its first place.
pub fn cards(a: usize, row: &[u8]) -> Result<(), Refusal>
    ensures { outcome result ≡ cards_of a row.now }
{
    for (i, &card) in row.iter().enumerate() {
        if !letter(a, card) {
            return Err(Refusal {
                reason: Reason::Card,
                place: i + 1,
            });
        }
    }
    Ok(())
}

// 1, then 2: the alphabet, and a length n of at most so many.
pub fn sizes(a: usize, most: usize, n: usize) -> Result<(), Refusal>
    ensures { outcome result ≡ refusal (alphabet_of a ∷ long_of most n ∷ []) }
{
    alphabet(a)?;
    long(most, n)
}

// 1, 2, then 3: and a lent slice of m entries that must have n.
pub fn lent(a: usize, n: usize, m: usize) -> Result<(), Refusal>
    ensures { outcome result ≡ lent_of a n m }
{
    sizes(a, LIMIT, n)?;
    matching(n, m)
}

// 1, 2, then 4: a row.
pub fn whole_row(a: usize, row: &[u8]) -> Result<(), Refusal>
    ensures { outcome result ≡ refusal (sizes_of a (length row.now) ∷ cards_of a row.now ∷ []) }
{
    sizes(a, LIMIT, row.len())?;
    cards(a, row)
}

// 1, 2, 3, then 4: a row beside a lent slice of m entries.
pub fn row_and_slice(a: usize, row: &[u8], m: usize) -> Result<(), Refusal>
    ensures { outcome result ≡ refusal (lent_of a (length row.now) m ∷ cards_of a row.now ∷ []) }
{
    lent(a, row.len(), m)?;
    cards(a, row)
}

// 1, 2, then 3: two rows of one length.
fn two_lengths(a: usize, n: usize, m: usize) -> Result<(), Refusal>
    ensures { outcome result ≡ refusal (sizes_of a n ∷ long_of limit m ∷ matching_of n m ∷ []) }
{
    sizes(a, LIMIT, n)?;
    long(LIMIT, m)?;
    matching(n, m)
}

// 1, 2, 3, then 4: the hidden row before the guess.
pub fn two_rows(a: usize, hidden: &[u8], guess: &[u8]) -> Result<(), Refusal>
    ensures { outcome result ≡ paired_of a hidden.now guess.now }
{
    two_lengths(a, hidden.len(), guess.len())?;
    cards(a, hidden)?;
    cards(a, guess)
}
