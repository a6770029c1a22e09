// From echoes: whether a value stands behind an array that stands, and why it does not. An array is held in a table of 4,096 entries, of which its echoes are
// the first. The table is fixed memory, and the only copy of the echoes; the walks over it, which call themselves on the next echo, run as loops.
// Stays: table and number of places are two parameters, in all crates that work on one: most functions need the table alone, and `judge`, `first` and `next`
// get the two apart, as public functions did. What is another at each step is how many places stand.
#![tactic(auto)]

ghost use Rattle.std.specs.Prelude.{◌≡◌, suc, ◌+◌, ◌≤◌, ◌<◌, length, take};
ghost use Rattle.words.specs.Lists.{at};
ghost use Rattle.words.specs.Numbers.{limit};
ghost use Rattle.words.specs.Refusals.{numbered};
ghost use Rattle.words.specs.Stand.{opens, weight, weighed};
ghost use Rattle.arrays.specs.Weights.{number_of_weight};
ghost use Rattle.arrays.specs.Steps.{Passes, Sound, Slides, Holds, peak};

use rows::echo_at;
use words::Reason;

// Writes the echoes into the table.
// Stays: the length, which the type of a table says too: what was promised here, and by `first` and `next` of listing, may not become less.
pub fn hold(e: &[u16], t: &mut [u16; 4096])
    requires { length e.now ≤ limit }
    ensures { Holds t.new e.now × (length t.new ≡ limit) }
{
    t[..e.len()].copy_from_slice(e);
}

// Writes the table's first echoes into the slice.
pub fn give(t: &[u16; 4096], e: &mut [u16])
    requires { length e.old ≤ limit }
    ensures { e.new ≡ take (length e.old) t.now }
{
    e.copy_from_slice(&t[..e.len()]);
}

// The echo at place i.
// Stays: `rows::echo_at` at another type: a public function, whose callers show only that the place is up to the limit.
pub fn echo(t: &[u16; 4096], i: usize) -> usize
    requires { (0 < i) × (i ≤ limit) }
    ensures { (result ≡ at t.now i) × (result < 65536) }
{
    echo_at(t, i)
}

// The greatest value that stands behind the first i places; for a possible value m above 0, the next below it is that of m - 1.
pub fn peak_at(t: &[u16; 4096], i: usize) -> usize
    requires { i ≤ limit }
    ensures { result ≡ peak (at t.now) i }
{
    if i == 0 { 0 } else { echo(t, i) + 1 }
}

// A value below b on its chain from which a walk to m goes on as from the echo of b. Where all echoes of a stretch lie at the same distance below their
// places, the chain goes down by that distance, and a long way is taken at once: the distance of a place never falls, so its two ends tell of the stretch.
// Stays: `Sound` is said of a table and a chain value here and in the walks of listing and rebuilding, and no struct has both: the chain value is another at each
// step, so it would be built anew.
fn slide(t: &[u16; 4096], b: usize, m: usize) -> usize
    requires { (0 < b) × (b < limit) × (m ≤ limit) × Sound (at t.now) (suc b) }
    ensures { Slides (at t.now) b m result }
{
    let c = echo(t, b);
    let d = b - c;
    let end = m + 2 * d;
    if c < end + 16 * d {
        return c;
    }
    let x = end + (c - end) % d;
    if echo(t, x) + d == x {
        return x;
    }
    c
}

// What a value above 0 is behind an array that stands.
// Stays: as a Result it comes back in two registers, and the walk is a true call for each step: counting 20 places over 26 letters took a fifth longer.
#[derive(Clone, Copy)]
enum Weight {
    Stands,
    Hidden,
    Impossible,
}

// What the value m > 0 is where the echo of the place before is b: a walk along the chain.
fn weigh(t: &[u16; 4096], b: usize, m: usize) -> Weight
    requires { (b < limit) × (0 < m) × Sound (at t.now) (suc b) }
    ensures { number_of_weight result ≡ weight (at t.now) b m }
{
    if b + 1 == m {
        Weight::Stands
    } else if b + 1 < m || b == 0 {
        Weight::Impossible
    } else if echo(t, b + 1) == m {
        Weight::Hidden
    } else {
        weigh(t, slide(t, b, m), m)
    }
}

// How many values are open where the echo of the place before is b. Along the chain the possible values with the echo 0 are as many. What is left
// behind the call is a sum alone: so this walk too runs as a loop.
pub fn open_count(t: &[u16; 4096], b: usize) -> usize
    requires { (b < limit) × Sound (at t.now) (suc b) }
    ensures counted { result ≡ length (opens (at t.now) b) }
    ensures few { result ≤ b + 1 }
{
    if b == 0 {
        1
    } else {
        let top = echo(t, b + 1);
        let rest = open_count(t, echo(t, b));
        if top == 0 { rest + 1 } else { rest }
    }
}

// Whether the value m stands behind the first i places, which stand, or why it does not.
pub fn number_of(a: usize, t: &[u16; 4096], i: usize, m: usize) -> Result<(), Reason>
    requires { (i ≤ limit) × Passes a (at t.now) i }
    ensures { numbered result ≡ weighed a (at t.now) i m }
{
    if i == 0 {
        if m == 0 {
            Ok(())
        } else {
            Err(Reason::Impossible)
        }
    } else if 0 < m {
        match weigh(t, echo(t, i), m) {
            Weight::Stands => Ok(()),
            Weight::Hidden => Err(Reason::Hidden),
            Weight::Impossible => Err(Reason::Impossible),
        }
    } else if a <= open_count(t, echo(t, i)) {
        Err(Reason::Full)
    } else {
        Ok(())
    }
}
