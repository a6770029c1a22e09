// The reach table of a row, in linear time. A reach stands in a table as an echo does.
// Stays: row, table and places are parameters, and no struct, as in crates/rows: the table is written between two turns, which read both.
#![tactic(auto)]

ghost use Rattle.std.specs.Prelude.{◌≡◌, ◌+◌, ◌≤◌, ◌<◌, length};
ghost use Rattle.words.specs.Numbers.{limit};
ghost use Rattle.words.specs.Rows.{card, reach, reaches as reaches_of};
ghost use Rattle.reaches.specs.Reach.{Windowed, Reaching};

use rows::{card_at, echo_at, put_echo};

// How far the cards behind the first i surely agree: what the window, the one behind the first l, and the mirror place in it tell.
fn mirrored(row: &[u8], t: &[u16], window: Option<usize>, i: usize) -> usize
    requires { (i < length row.now) × Reaching row.now t.now i × Windowed window i }
    ensures { result ≤ reach (card row.now) (length row.now) (i + 1) }
{
    let Some(l) = window else {
        return 0;
    };
    let end = l + echo_at(t, l + 1);
    echo_at(t, i - l + 1).min(end.saturating_sub(i))
}

// The reach of place i + 1, of which the first k cards are known to agree.
fn stretched(row: &[u8], i: usize, k: usize) -> usize
    requires { (i < length row.now) × (k ≤ reach (card row.now) (length row.now) (i + 1)) }
    ensures { (result ≡ reach (card row.now) (length row.now) (i + 1)) × (i + result ≤ length row.now) }
{
    for m in k..row.len() - i {
        if card_at(row, m + 1) != card_at(row, i + m + 1) {
            return m;
        }
    }
    row.len() - i
}

// The window to keep: the one that is kept, or the one behind the first i cards where that ends later. It is kept for speed alone.
fn further(t: &[u16], window: Option<usize>, i: usize, k: usize) -> Option<usize>
    requires { (0 < i) × (i + k ≤ length t.now) × Windowed window i }
    ensures { Windowed result (i + 1) }
{
    match window {
        Some(l) if l + echo_at(t, l + 1) >= i + k => window,
        _ => Some(i),
    }
}

// Writes the reach of each place of the row.
pub fn reaches(row: &[u8], out: &mut [u16])
    requires { (length out.old ≡ length row.now) × (length row.now ≤ limit) }
    ensures { out.new ≡ reaches_of row.now }
{
    if row.is_empty() {
        return;
    }
    put_echo(out, 1, row.len());
    let mut window = None;
    for i in 1..row.len() {
        let k = stretched(row, i, mirrored(row, out, window, i));
        put_echo(out, i + 1, k);
        window = further(out, window, i, k);
    }
}
