// Judging an array of echoes, held in a table as in `arrays`: it stands, or is refused at its first bad place. Three short ways stand before a walk along the
// chain.
#![tactic(auto)]

ghost use Rattle.std.specs.Prelude.{◌≡◌, true, ◌+◌, ◌≤◌, ◌<◌};
ghost use Rattle.words.specs.Lists.{at};
ghost use Rattle.words.specs.Numbers.{limit};
ghost use Rattle.words.specs.Refusals.{numbered};
ghost use Rattle.words.specs.Stand.{weighed};
ghost use Rattle.arrays.specs.Steps.{Passes};
ghost use Rattle.judging.specs.Judging.{Climbs, Level, Low, Stood, Known, Skims, Passed, Judges};

use arrays::{echo, number_of, peak_at};
use words::{Reason, Refusal};

// Whether the value m stands behind the first i places, which stand, or why it does not. Where it stands, and m and the greatest value there are small, a table
// notes the pair, whose entry is then 0: what stood once behind a greatest value stands behind it again.
// Stays: the entries are bytes. Over a table of bool there is a branch for each second pair that `noted` looks up, and random rows took 1.26 to 1.32 of the time.
// Stays: `Stood` is said of array and pairs here, in `pass` and in `judge_in`. A struct of both would lend its array out again at each step, to `number_of`,
// `echo`, `peak_at` and `along`, which need that alone.
fn number_noted(
    a: usize,
    t: &[u16; 4096],
    i: usize,
    m: usize,
    fresh: &mut [u8; 256],
) -> Result<(), Reason>
    requires { (i ≤ limit) × Passes a (at t.now) i × Stood a (at t.now) fresh.old }
    ensures { (numbered result ≡ weighed a (at t.now) i m) × Stood a (at t.now) fresh.new }
{
    number_of(a, t, i, m)?;
    let peak = peak_at(t, i);
    if peak < 16 && m < 16 {
        fresh[16 * peak + m] = 0;
    }
    Ok(())
}

// Whether the echoes of place i and of the c places behind it are small, below 15: no branch hangs on any of them alone.
// Stays: here, in `noted` and in `level` all places are looked at, where an iterator's `all` would stop at the first, by a branch.
fn low(t: &[u16; 4096], i: usize, c: usize) -> bool
    requires { (0 < i) × (i + c ≤ limit) }
    ensures { Low (at t.now) i (c + 1) result }
{
    let mut all = true;
    for k in 0..=c {
        all &= echo(t, i + k) < 15;
    }
    all
}

// Whether the pairs of the c places behind the first i, which are small, are all noted.
fn noted(t: &[u16; 4096], i: usize, c: usize, fresh: &[u8; 256]) -> bool
    requires { (0 < i) × (i + c ≤ limit) × Low (at t.now) i (c + 1) true }
    ensures { Known (at t.now) fresh.now i c result }
{
    let mut all = true;
    for k in 0..c {
        all &= fresh[16 * (echo(t, i + k) + 1) + echo(t, i + k + 1)] == 0;
    }
    all
}

// Whether the pairs of the c places behind the first i are small and noted, so that these places pass too.
fn known(t: &[u16; 4096], i: usize, c: usize, fresh: &[u8; 256]) -> bool
    requires { (0 < i) × (i + c ≤ limit) }
    ensures { Known (at t.now) fresh.now i c result }
{
    low(t, i, c) && noted(t, i, c, fresh)
}

// A place up to n to which, from place i on, all places are known. By c places at once.
// Stays: where the loop stops is the answer. A `for` by strides would carry that place beside its own, and `step_by` with `find` has none where all are known.
fn skim(t: &[u16; 4096], i: usize, n: usize, c: usize, fresh: &[u8; 256]) -> usize
    requires { (0 < i) × (i ≤ n) × (n ≤ limit) × (0 < c) × (c ≤ limit) }
    ensures { Skims (at t.now) fresh.now i n result }
{
    let mut j = i;
    while j + c <= n && known(t, j, c, fresh) {
        j += c;
    }
    j
}

// Whether the c places behind the first i have the echoes top, top + 1 and so on: no branch hangs on any of them alone.
fn level(t: &[u16; 4096], i: usize, c: usize, top: u16) -> bool
    requires { (i + c ≤ limit) × (top + c < 65536) }
    ensures { Level (at t.now) i c top result }
{
    let mut same = true;
    for k in 0..c {
        same &= t[i + k] == top + (k as u16);
    }
    same
}

// A place up to n to which, from place i on, each echo is one more than the echo before; `peak` is one more than the echo of place i. By c places at once.
// Stays: as in `skim`, the place where it stops is the answer.
fn climb(t: &[u16; 4096], i: usize, n: usize, c: usize, peak: usize) -> usize
    requires { (i ≤ n) × (n ≤ limit) × (0 < c) × (c ≤ limit) × (peak ≤ i) × (peak ≡ at t.now i + 1) }
    ensures { (i ≤ result) × (result ≤ n) × Climbs (at t.now) i result }
{
    let mut j = i;
    while j + c <= n && level(t, j, c, (peak + (j - i)) as u16) {
        j += c;
    }
    j
}

// The same by 16 places at once as far as that goes, then place by place.
fn along(t: &[u16; 4096], i: usize, n: usize, peak: usize) -> usize
    requires { (i ≤ n) × (n ≤ limit) × (peak ≤ i) × (peak ≡ at t.now i + 1) }
    ensures { (i ≤ result) × (result ≤ n) × Climbs (at t.now) i result }
{
    let j = climb(t, i, n, 16, peak);
    climb(t, j, n, 1, peak + (j - i))
}

// Goes on from the first i places, which stand, to how many places stand, or to the refusal of the next. The greatest value always stands, so that a run of
// such is looked at and no more.
fn pass(
    a: usize,
    t: &[u16; 4096],
    i: usize,
    n: usize,
    fresh: &mut [u8; 256],
) -> Result<usize, Refusal>
    requires { (i < n) × (n ≤ limit) × Passes a (at t.now) i × Stood a (at t.now) fresh.old }
    ensures { Passed a (at t.now) i n result × Stood a (at t.now) fresh.new }
{
    let place = i + 1;
    let m = echo(t, place);
    if 16 <= m && m == peak_at(t, i) {
        return Ok(along(t, place, n, m + 1));
    }
    number_noted(a, t, i, m, fresh).map_err(|reason| Refusal { reason, place })?;
    Ok(place)
}

// Judges the array of n echoes over a letters, with a table of the pairs that stood. In a row drawn at random most places are such, and take neither a walk nor
// a branch that chance decides.
fn judge_in(a: usize, t: &[u16; 4096], n: usize, fresh: &mut [u8; 256]) -> Result<(), Refusal>
    requires { (n ≤ limit) × Stood a (at t.now) fresh.old }
    ensures { Judges a t.now n result }
{
    // Stays: no count, since each turn goes on from the place that the last one answered.
    let mut i = 0;
    while i < n {
        let place = pass(a, t, i, n, fresh)?;
        i = skim(t, skim(t, place, n, 8, fresh), n, 1, fresh);
    }
    Ok(())
}

// Whether the array of n echoes over a letters stands, or why not and at which place first.
pub fn judge(a: usize, t: &[u16; 4096], n: usize) -> Result<(), Refusal>
    requires { n ≤ limit }
    ensures { Judges a t.now n result }
{
    let mut fresh = [1u8; 256];
    judge_in(a, t, n, &mut fresh)
}
