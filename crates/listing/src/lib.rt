// Stepping through the standing arrays: the first, and the next of each. An array is held in a table of 4,096 entries, as in `arrays`.
// Stays: alphabet, table and number of places are parameters, and no struct: the fact that they share, that so many places stand, is of another number at each
// step, so a struct would be built anew at each.
#![tactic(auto)]

ghost use Rattle.std.specs.Prelude.{◌≡◌, suc, ◌+◌, ◌≤◌, ◌<◌, length, take};
ghost use Rattle.words.specs.Lists.{at};
ghost use Rattle.words.specs.Numbers.{limit};
ghost use Rattle.words.specs.Stand.{possible};
ghost use Rattle.words.proofs.Lists.{In};
ghost use Rattle.words.specs.Listing.{First};
ghost use Rattle.arrays.specs.Steps.{Passes, Sound, peak};
ghost use Rattle.listing.specs.Values.{cover as cover_of, Seeks, Lower, LeastValue, repeated, Lows, Filled, Turned, Raised, Stepped};

use arrays::{echo, number_of, peak_at};
use rows::put_echo;

// The open value that the possible value p is, or is hidden behind, where the echo of the place before is b: a walk along the chain, and up again.
fn cover(t: &[u16; 4096], b: usize, p: usize) -> usize
    requires { (b < limit) × Sound (at t.now) (suc b) × In p (possible (at t.now) b) }
    ensures { result ≡ cover_of (at t.now) p b }
{
    if b + 1 == p {
        return p;
    }
    let c = cover(t, echo(t, b), p);
    if echo(t, b + 1) == c { b + 1 } else { c }
}

// The least open value above v behind the first i places, of the possible values from p down. A value whose echo is above v too is passed over, since
// that echo has the same cover: so `cover` walks once for each letter.
fn least_open(t: &[u16; 4096], i: usize, p: usize, v: usize) -> usize
    requires { (i ≤ limit) × Seeks (at t.now) i p v }
    ensures { Lower (at t.now) i p v result }
{
    if p <= v {
        return peak_at(t, i);
    }
    let rest = least_open(t, i, peak_at(t, p - 1), v);
    if v < echo(t, p) {
        return rest;
    }
    cover(t, echo(t, i), p).min(rest)
}

// Whether place k has the echo of the place before it, which is behind the first i.
#[tactic(auto, unfolding(crate::specs::Values::repeated, words::specs::Lists::both))]
fn repeats(t: &[u16; 4096], i: usize, k: usize) -> bool
    requires { (i < limit) × (k ≤ limit) }
    ensures { result ≡ repeated (at t.now) i k }
{
    i + 1 < k && echo(t, k - 1) == echo(t, k)
}

// The least value that stands behind the first k places, where each behind the first i has the least. Over one letter only the greatest stands. The
// same echo before gives the same value again; without that, every place behind a row such as aaabaaa would walk its chain once more.
fn least_value(a: usize, t: &[u16; 4096], i: usize, k: usize) -> usize
    requires { (i ≤ k) × (k < limit) × Lows a (at t.now) i k }
    ensures { LeastValue a (at t.now) k 0 result }
{
    if a == 1 {
        return peak_at(t, k);
    }
    if repeats(t, i, k) {
        return echo(t, k);
    }
    if number_of(a, t, k, 0).is_ok() {
        return 0;
    }
    least_open(t, k, peak_at(t, k), 0)
}

// Writes the least value at each place behind the first i, up to the n-th.
fn fill(a: usize, t: &mut [u16; 4096], i: usize, n: usize)
    requires { (i ≤ n) × (n ≤ limit) × Passes a (at t.old) i }
    ensures { Filled a t.old t.new i n }
{
    for k in i..n {
        let v = least_value(a, t, i, k);
        put_echo(t, k + 1, v);
    }
}

// Writes the least standing array of n places into the table.
// Stays: the length, here and in `next`, as in `arrays::hold`.
pub fn first(a: usize, t: &mut [u16; 4096], n: usize)
    requires { (0 < a) × (n ≤ limit) }
    ensures { First a n (take n t.new) × (length t.new ≡ limit) }
{
    fill(a, t, 0, n)
}

// How many places stand before the last of the first n whose value is not the greatest that stands there, if there is one.
fn turn(t: &[u16; 4096], n: usize) -> Option<usize>
    requires { n ≤ limit }
    ensures { Turned (at t.now) n result }
{
    for k in (0..n).rev() {
        if echo(t, k + 1) < peak_at(t, k) {
            return Some(k);
        }
    }
    None
}

// Raises the value behind the first k places to the next that stands, and writes the least values behind it, up to the n-th place.
fn raise(a: usize, t: &mut [u16; 4096], k: usize, n: usize)
    requires { (k < n) × (n ≤ limit) × Passes a (at t.old) k × (at t.old (k + 1) < peak (at t.old) k) }
    ensures { Raised a t.old t.new k n }
{
    let v = least_open(t, k, peak_at(t, k), echo(t, k + 1));
    put_echo(t, k + 1, v);
    fill(a, t, k + 1, n)
}

// Steps from the array of n places, which stands, to the next of its length, and says whether there is one. The time is linear, up to the letters:
// `turn` reads each place once; the place that rises walks its chain once for each letter. Behind it, over more than one letter, a place whose zero is
// full gets at most one more than the echo of the echo before it, so the echoes fall along a chain, or stay and repeat; and behind a zero all are zero.
pub fn next(a: usize, t: &mut [u16; 4096], n: usize) -> bool
    requires { (0 < a) × (n ≤ limit) × Passes a (at t.old) n }
    ensures { Stepped a (take n t.old) (take n t.new) result × (length t.new ≡ limit) }
{
    let Some(k) = turn(t, n) else {
        return false;
    };
    raise(a, t, k, n);
    true
}
