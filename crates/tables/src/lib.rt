// Work that needs a table of echoes or reach: each table is a local of 4,096 entries, of which the first n are lent.
// Stays: that a row is within the limit is asked as a fact: `looks` and `sheet` have it from `whole_row`, `guess` from `two_rows`, the strips from their own
// match, and a type for it would be built there only to be taken apart here.
#![tactic(auto, using(crate::proofs::Tables::table_steps, crate::proofs::Strips::strip_steps))]

ghost use Rattle.std.specs.Prelude.{◌≡◌, ◌≤◌, ◌<◌, length};
ghost use Rattle.words.specs.Numbers.{letters, limit};
ghost use Rattle.words.specs.Refusals.{Differing, sized};
ghost use Rattle.words.specs.Rows.{card, echo, echoes, reaches, looks};
ghost use Rattle.words.specs.Strips.{closed, overlap, joint};
ghost use Rattle.words.specs.Sheet.{sheet};
ghost use Rattle.sheets.specs.Written.{written};

use words::{LIMIT, Reason};

// The looks of a row within the limit.
pub fn looks_within(row: &[u8]) -> usize
    requires { length row.now ≤ limit }
    ensures { result ≡ looks row.now }
{
    let mut table = [0u16; 4096];
    rows::row_looks(row, &mut table[..row.len()])
}

// The echo of the last place of a row within the limit that is not empty.
fn last_within(row: &[u8]) -> usize
    requires { (0 < length row.now) × (length row.now ≤ limit) }
    ensures { (result ≡ echo (card row.now) (length row.now)) × (result ≤ length row.now) }
{
    let mut table = [0u16; 4096];
    rows::last_echo(row, &mut table[..row.len()])
}

// The overlap of two rows, the right one within the limit and not empty.
fn overlap_within(left: &[u8], right: &[u8]) -> usize
    requires { (0 < length right.now) × (length right.now ≤ limit) }
    ensures { result ≡ overlap (card left.now) (length left.now) (card right.now) (length right.now) }
{
    let mut table = [0u16; 4096];
    rows::overlap(left, right, &mut table[..right.len()])
}

// The length of the closing strip.
pub fn closing_length(row: &[u8]) -> usize
    ensures { (result ≡ closed row.now) × (result ≤ length row.now) }
{
    match row.len() {
        1..=LIMIT => last_within(row),
        _ => 0,
    }
}

// The length of the joining strip.
pub fn joining_length(left: &[u8], right: &[u8]) -> usize
    ensures { (result ≡ joint left.now right.now) × (result ≤ length left.now) × (result ≤ length right.now) }
{
    match (left.len(), right.len()) {
        (0..=LIMIT, 1..=LIMIT) => overlap_within(left, right),
        _ => 0,
    }
}

// The sheet of a row whose tables are known.
fn sheet_of(a: usize, row: &[u8], e: &[u16], r: &[u16], buf: &mut [u8]) -> Result<usize, Reason>
    requires { (a ≤ letters) × (length row.now ≤ limit) × (e.now ≡ echoes row.now) × (r.now ≡ reaches row.now) }
    ensures { let s = sized result in (s.0, s.1, buf.new) ≡ written (sheet a row.now) buf.old }
{
    let k = rows::looks(row, e);
    let n = row.len();
    sheets::write(buf, n as u16, a as u16, e, r, k as u16)
}

// The sheet of a row, with room for its tables lent.
fn sheet_in(
    a: usize,
    row: &[u8],
    e: &mut [u16],
    r: &mut [u16],
    buf: &mut [u8],
) -> Result<usize, Reason>
    requires { (a ≤ letters) × (length row.now ≤ limit) × (length e.old ≡ length row.now) × (length r.old ≡ length row.now) }
    ensures { let s = sized result in (s.0, s.1, buf.new) ≡ written (sheet a row.now) buf.old }
{
    rows::echoes(row, e);
    reaches::reaches(row, r);
    sheet_of(a, row, e, r, buf)
}

// The sheet of a row within the limit, where the buffer has room for it.
pub fn sheet_within(a: usize, row: &[u8], buf: &mut [u8]) -> Result<usize, Reason>
    requires { (a ≤ letters) × (length row.now ≤ limit) }
    ensures { let s = sized result in (s.0, s.1, buf.new) ≡ written (sheet a row.now) buf.old }
{
    let mut e = [0u16; 4096];
    let mut r = [0u16; 4096];
    sheet_in(a, row, &mut e[..row.len()], &mut r[..row.len()], buf)
}

// The first place where two arrays of one length differ.
fn difference(e: &[u16], f: &[u16]) -> Option<usize>
    requires { length f.now ≡ length e.now }
    ensures { Differing e.now f.now result }
{
    for i in 0..e.len() {
        if e[i] != f[i] {
            return Some(i + 1);
        }
    }
    None
}

// The first place where the echoes of two rows differ, with room for their tables lent.
fn difference_in(x: &[u8], y: &[u8], e: &mut [u16], f: &mut [u16]) -> Option<usize>
    requires { (length y.now ≡ length x.now) × (length x.now ≤ limit) × (length y.now ≤ limit) × (length e.old ≡ length x.now) × (length f.old ≡ length y.now) }
    ensures { Differing (echoes x.now) (echoes y.now) result }
{
    rows::echoes(x, e);
    rows::echoes(y, f);
    difference(e, f)
}

// The first place where the echoes of two rows of one length within the limit differ.
pub fn difference_within(x: &[u8], y: &[u8]) -> Option<usize>
    requires { (length y.now ≡ length x.now) × (length x.now ≤ limit) × (length y.now ≤ limit) }
    ensures { Differing (echoes x.now) (echoes y.now) result }
{
    let mut e = [0u16; 4096];
    let mut f = [0u16; 4096];
    difference_in(x, y, &mut e[..x.len()], &mut f[..y.len()])
}
