// Counting the standing arrays, and the published counts. An array is held in a table of 4,096 entries, as in `arrays`.
// Stays: alphabet, table and number of places are parameters, and no struct: the fact that they share, that so many places stand, is of another number at each
// step, so a struct would be built anew at each.
#![tactic(auto)]

ghost use Rattle.std.specs.Prelude.{◌≡◌, ◌+◌, ◌-◌, ◌≤◌, ◌<◌, take};
ghost use Rattle.words.specs.Lists.{at};
ghost use Rattle.words.specs.Numbers.{limit};
ghost use Rattle.words.specs.Listing.{count_from, standing, count as count_of};
ghost use Rattle.arrays.specs.Steps.{Passes};
ghost use Rattle.listing.specs.Values.{Kept};
ghost use Rattle.counting.specs.Published.{published as published_counts};
ghost use Rattle.counting.specs.Trying.{tried, Tries};

use arrays::{echo, number_of, open_count, peak_at};
use rows::put_echo;

// The counts over 26 letters for n = 1..10, as they were published.
const PUBLISHED: [u64; 10] = [1, 2, 4, 9, 20, 47, 110, 263, 630, 1525];

// The published count for n.
pub fn published(n: usize) -> u64
    requires { (0 < n) × (n ≤ 10) }
    ensures { result ≡ at published_counts n }
{
    PUBLISHED[n - 1]
}

// How many values stand behind the first i places of t, which stand. The last place is counted by this rule, without a visit.
fn count_values(a: usize, t: &[u16; 4096], i: usize) -> u64
    requires { (i ≤ limit) × Passes a (at t.now) i }
    ensures { result ≡ count_from (standing a) 1 (take i t.now) }
{
    if i == 0 {
        return 1;
    }
    let k = open_count(t, echo(t, i));
    if k < a { (k + 1) as u64 } else { k as u64 }
}

// How many standing arrays of n places over a letters begin with the first i places of t, which stand. What is written is written behind them.
#[cycle(count_prefix_try_values)]
fn count_prefix(a: usize, t: &mut [u16; 4096], i: usize, n: usize) -> u64
    requires { (i ≤ n) × (n ≤ 20) × Passes a (at t.old) i }
    ensures counted { result ≡ count_from (standing a) (n - i) (take i t.old) }
    ensures kept { Kept t.old t.new i }
{
    if i == n {
        1
    } else if i + 1 == n {
        count_values(a, t, i)
    } else {
        try_values(a, t, i, n, peak_at(t, i))
    }
}

// The same over the possible values at place i + 1 from m down the chain to zero: each that stands is written there, and counted as a longer prefix.
#[cycle(count_prefix_try_values)]
fn try_values(a: usize, t: &mut [u16; 4096], i: usize, n: usize, m: usize) -> u64
    requires { Tries a t.old i n m }
    ensures counted { result ≡ tried (standing a) (n - (i + 1)) (take i t.old) (m + 1) }
    ensures kept { Kept t.old t.new i }
{
    let here = if number_of(a, t, i, m).is_ok() {
        put_echo(t, i + 1, m);
        count_prefix(a, t, i + 1, n)
    } else {
        0
    };
    if m == 0 {
        here
    } else {
        here + try_values(a, t, i, n, peak_at(t, m - 1))
    }
}

// How many arrays of n places stand over a letters.
pub fn count(a: usize, n: usize) -> u64
    requires { n ≤ 20 }
    ensures { result ≡ count_of a n }
{
    let mut t = [0u16; 4096];
    count_prefix(a, &mut t, 0, n)
}
