// From cards: echoes, looks and overlaps. Here a row is read by place, with `card_at`, or from its first card to its last; a table of echoes is read only by
// `echo_at`, and written only by `put_echo`; a part of a row is cut only by `part`.
#![tactic(auto)]

ghost use Rattle.std.specs.Prelude.{◌≡◌, ◌+◌, ◌≤◌, ◌<◌, length};
ghost use Rattle.words.specs.Lists.{at, placed};
ghost use Rattle.words.specs.Numbers.{limit};
ghost use Rattle.words.specs.Rows.{card, echo, echoes as echoes_of, looks_from, looks as looks_of};
ghost use Rattle.words.specs.Strips.{part as part_of, overlap as overlap_of};
ghost use Rattle.rows.specs.Border.{Known, Filling, grown, resumed};

// The card at place i.
pub fn card_at(row: &[u8], i: usize) -> u8
    requires { (0 < i) × (i ≤ length row.now) }
    ensures { result ≡ card row.now i }
{
    row[i - 1]
}

// The echo at place i.
pub fn echo_at(e: &[u16], i: usize) -> usize
    requires { (0 < i) × (i ≤ length e.now) }
    ensures { (result ≡ at e.now i) × (result < 65536) }
{
    usize::from(e[i - 1])
}

// Writes the echo k at place i.
pub fn put_echo(e: &mut [u16], i: usize, k: usize)
    requires { (0 < i) × (i ≤ length e.old) × (k < 65536) }
    ensures { (e.new ≡ placed e.old i k) × (length e.new ≡ length e.old) }
{
    // Stays: u16::try_from is no plainer, since k fits, and its error would have nowhere to go.
    e[i - 1] = k as u16;
}

// The walk along the chain from b on: the longest that closes the first b cards of the row and grows by the card c, grown by it.
// Stays: a row and its echoes stay two arguments, since `echoes` writes the table between two walks, and would make a struct of both anew for each.
fn extend(row: &[u8], e: &[u16], b: usize, c: u8) -> usize
    requires { (b < length row.now) × Known (card row.now) e.now b }
    ensures { (result ≡ grown (card row.now) b c) × (result ≤ b + 1) }
{
    if card_at(row, b + 1) == c {
        b + 1
    } else if b == 0 {
        0
    } else {
        extend(row, e, echo_at(e, b), c)
    }
}

// Writes the echoes of the row. It is kept out of its callers, inside which the loop is compiled with more work for each card.
// Stays: a row and the table lent for it come as two arguments, here and below, since callers hand them in as such.
#[inline(never)]
pub fn echoes(row: &[u8], out: &mut [u16])
    requires { (length out.old ≡ length row.now) × (length row.now ≤ limit) }
    ensures { out.new ≡ echoes_of row.now }
{
    if row.is_empty() {
        return;
    }
    put_echo(out, 1, 0);
    let mut b = 0;
    for i in 1..row.len() {
        b = extend(row, out, b, card_at(row, i + 1));
        put_echo(out, i + 1, b);
    }
}

// How often the walk from b on compares a card with c.
fn looked(row: &[u8], e: &[u16], b: usize, c: u8) -> usize
    requires { (b < length row.now) × Known (card row.now) e.now b }
    ensures { (result ≡ looks_from (card row.now) (echo (card row.now)) c b) × (result ≤ b + 1) }
{
    if card_at(row, b + 1) == c {
        return 1;
    }
    if b == 0 {
        1
    } else {
        looked(row, e, echo_at(e, b), c) + 1
    }
}

// The looks of the row, whose echoes are e.
pub fn looks(row: &[u8], e: &[u16]) -> usize
    requires { (e.now ≡ echoes_of row.now) × (length row.now ≤ limit) }
    ensures { (result ≡ looks_of row.now) × (result ≤ 8190) }
{
    let mut k = 0;
    for i in 1..row.len() {
        k += looked(row, e, echo_at(e, i), card_at(row, i + 1));
    }
    k
}

// The echo of the last place of the row, with a table lent for all of them.
pub fn last_echo(row: &[u8], table: &mut [u16]) -> usize
    requires { (0 < length row.now) × (length table.old ≡ length row.now) × (length row.now ≤ limit) }
    ensures { (result ≡ echo (card row.now) (length row.now)) × (result ≤ length row.now) }
{
    echoes(row, table);
    echo_at(table, row.len())
}

// Where the walk in a row with the echoes e goes on from b: from b, or from the last echo where b is the whole row.
fn resume(e: &[u16], b: usize) -> usize
    requires { (0 < length e.now) × (b ≤ length e.now) }
    ensures { result ≡ resumed (at e.now) (length e.now) b }
{
    if b == e.len() { echo_at(e, b) } else { b }
}

// The overlap of the left row with the right one, whose echoes are e.
fn overlapping(left: &[u8], right: &[u8], e: &[u16]) -> usize
    requires { (e.now ≡ echoes_of right.now) × (0 < length right.now) }
    ensures { result ≡ overlap_of (card left.now) (length left.now) (card right.now) (length right.now) }
{
    let mut b = 0;
    for &c in left {
        b = extend(right, e, resume(e, b), c);
    }
    b
}

// The greatest length at which the left row's end equals the right row's opening, with a table lent for the echoes of the right one.
pub fn overlap(left: &[u8], right: &[u8], table: &mut [u16]) -> usize
    requires { (0 < length right.now) × (length table.old ≡ length right.now) × (length right.now ≤ limit) }
    ensures { (result ≡ overlap_of (card left.now) (length left.now) (card right.now) (length right.now)) × (result ≤ length right.now) }
{
    echoes(right, table);
    overlapping(left, right, table)
}

// The looks of the row, with a table lent for its echoes.
pub fn row_looks(row: &[u8], table: &mut [u16]) -> usize
    requires { (length table.old ≡ length row.now) × (length row.now ≤ limit) }
    ensures { (result ≡ looks_of row.now) × (result ≤ 8190) }
{
    echoes(row, table);
    looks(row, table)
}

// The part of the row made of k cards behind its first d.
pub fn part(row: &[u8], d: usize, k: usize) -> &[u8]
    requires { d + k ≤ length row.now }
    ensures { (result.now, result.ref_ptr) ≡ part_of row.now row.entry.ref_ptr d k }
{
    &row[d..d + k]
}
