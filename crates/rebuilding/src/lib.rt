// The least row of an array of echoes that stands, held in a table as in `arrays`.
// Stays: table and row are parameters, and no struct: `rebuild` gets them apart, and writes the row between two steps that read both.
#![tactic(auto)]

ghost use Rattle.std.specs.Prelude.{◌≡◌, suc, ◌+◌, ◌≤◌, ◌<◌, eqb, length, take};
ghost use Rattle.words.specs.Lists.{any, at, each};
ghost use Rattle.words.specs.Rows.{card};
ghost use Rattle.words.specs.Numbers.{first_letter, letters, limit};
ghost use Rattle.words.specs.Least.{least_not, next_card, rebuilt};
ghost use Rattle.words.specs.Stand.{possible};
ghost use Rattle.arrays.specs.Steps.{Passes, Sound};

use arrays::echo;
use rows::card_at;
use words::FIRST_LETTER;

// Whether c is the card of a possible place, where the echo of the place before is b: a walk along the chain.
fn taken(t: &[u16; 4096], x: &[u8], b: usize, c: u8) -> bool
    requires { (b < limit) × (b < length x.now) × Sound (at t.now) (suc b) }
    ensures { result ≡ any (eqb c) (each (card x.now) (possible (at t.now) b)) }
{
    if card_at(x, b + 1) == c {
        true
    } else if b == 0 {
        false
    } else {
        taken(t, x, echo(t, b), c)
    }
}

// The least letter that is the card of no possible place, of the first a letters; the byte behind them where there is none.
// Stays: `least_not` gives that byte, so an Option would be undone at once.
fn least(t: &[u16; 4096], x: &[u8], b: usize, a: usize) -> u8
    requires { (b < limit) × (b < length x.now) × (a ≤ letters) × Sound (at t.now) (suc b) }
    ensures { result ≡ least_not a first_letter (each (card x.now) (possible (at t.now) b)) }
{
    let end = FIRST_LETTER + a as u8;
    (FIRST_LETTER..end)
        .find(|c| !taken(t, x, b, *c))
        .unwrap_or(end)
}

// The card of place i + 1 of the least row, where x has its first i cards.
fn next_card(a: usize, t: &[u16; 4096], x: &[u8], i: usize) -> u8
    requires { (i < limit) × (i < length x.now) × (a ≤ letters) × Passes a (at t.now) (i + 1) × (take i x.now ≡ rebuilt (at t.now) i) }
    ensures { result ≡ next_card (at t.now) (card x.now) i (at t.now (i + 1)) }
{
    if i == 0 {
        FIRST_LETTER
    } else {
        let m = echo(t, i + 1);
        if m == 0 {
            least(t, x, echo(t, i), a)
        } else {
            card_at(x, m)
        }
    }
}

// Writes the least row of the array of as many echoes as x has cards, which stands over a letters.
pub fn rebuild(a: usize, t: &[u16; 4096], x: &mut [u8])
    requires { (a ≤ letters) × (length x.old ≤ limit) × Passes a (at t.now) (length x.old) }
    ensures { x.new ≡ rebuilt (at t.now) (length x.old) }
{
    for i in 0..x.len() {
        x[i] = next_card(a, t, x, i);
    }
}
