// Work on an array that a table holds, where no check refuses: judging it, its least row, the first array, the next.
// Stays: that no check refuses is asked as a fact of the arguments: `rebuild` and `first` have it from `lent`, `next` from `sizes`, and a type for it would be
// built there only to be taken apart here.
#![tactic(auto, using(crate::proofs::Stepping::held_steps))]

ghost use Rattle.std.specs.Prelude.{◌≡◌, ◌≤◌, length};
ghost use Rattle.words.specs.Numbers.{limit, lent, sizes, DONE as done};
ghost use Rattle.words.specs.Stand.{verdict};
ghost use Rattle.words.specs.Listing.{First};
ghost use Rattle.words.specs.Outcomes.{Rebuilds, Steps};
ghost use Rattle.words.specs.Refusals.{outcome};
ghost use Rattle.arrays.specs.Steps.{Holds};

use words::{Reason, Refusal};

// Judges the array.
pub fn judge(a: usize, e: &[u16]) -> Result<(), Refusal>
    requires { length e.now ≤ limit }
    ensures { outcome result ≡ verdict a e.now }
{
    let mut t = [0u16; 4096];
    arrays::hold(e, &mut t);
    judging::judge(a, &t, e.len())
}

// Judges the array that the table holds and hands back the least row.
fn rebuild_in(a: usize, e: &[u16], row: &mut [u8], t: &[u16; 4096]) -> Result<(), Refusal>
    requires { ((lent a (length e.now) (length row.old)).0 ≡ done) × Holds t.now e.now }
    ensures { Rebuilds a e.now row.old (outcome result) row.new }
{
    judging::judge(a, t, row.len())?;
    rebuilding::rebuild(a, t, row);
    Ok(())
}

// Judges the array and hands back the least row that has it.
pub fn rebuild(a: usize, e: &[u16], row: &mut [u8]) -> Result<(), Refusal>
    requires { (lent a (length e.now) (length row.old)).0 ≡ done }
    ensures { Rebuilds a e.now row.old (outcome result) row.new }
{
    let mut t = [0u16; 4096];
    arrays::hold(e, &mut t);
    rebuild_in(a, e, row, &t)
}

// Writes the least standing array of n places into the buffer.
// Stays: a public function's inputs: n, and a buffer of n.
pub fn first(a: usize, n: usize, out: &mut [u16])
    requires { (lent a n (length out.old)).0 ≡ done }
    ensures { First a n out.new }
{
    let mut t = [0u16; 4096];
    listing::first(a, &mut t, n);
    arrays::give(&t, out);
}

// Steps from the array, which the table holds.
fn next_in(a: usize, e: &mut [u16], t: &mut [u16; 4096]) -> Result<(), Refusal>
    requires { ((sizes a (length e.old)).0 ≡ done) × Holds t.old e.old }
    ensures { Steps a e.old (outcome result) e.new }
{
    judging::judge(a, t, e.len())?;
    if listing::next(a, t, e.len()) {
        arrays::give(t, e);
        Ok(())
    } else {
        Err(Refusal::from(Reason::Last))
    }
}

// Replaces the array by the least standing one of its length that is greater.
pub fn next(a: usize, e: &mut [u16]) -> Result<(), Refusal>
    requires { (sizes a (length e.old)).0 ≡ done }
    ensures { Steps a e.old (outcome result) e.new }
{
    let mut t = [0u16; 4096];
    arrays::hold(e, &mut t);
    next_in(a, e, &mut t)
}
