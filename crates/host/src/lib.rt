// What a game written in C calls: every entry of the library, an array that is judged being given as bytes. Each is one call and one packing of its whole answer
// in 64 bits (docs/HOST.md).
#![tactic(auto, using(crate::proofs::Answers::host_steps))]

ghost use Rattle.std.specs.Prelude.{◌≡◌, ◌*◌, ◌/◌, ◌^◌, ◌≤◌, ◌<◌, length};
ghost use Rattle.words.specs.Numbers.{DONE as done, limit};
ghost use Rattle.words.specs.Refusals.{outcome};
ghost use Rattle.words.specs.Strips.{closed, joint};
ghost use Rattle.arrays.specs.Steps.{Holds};
ghost use Rattle.words.specs.Outcomes.{echoes_outcome, reach_outcome, looks_outcome, sheet_outcome, guess_outcome, Rebuilds, Starts, Steps, decoded, judge_answer, packing, packed_buffer, packed_value, packed_both, Packs, host_judge_outcome, host_count_outcome};

use words::{Answer, LIMIT, Refusal};

// Writes the echoes that the bytes stand for into the table: two bytes an echo, the low one first.
fn decode(bytes: &[u8], t: &mut [u16; 4096])
    requires { (length bytes.now ≡ 2 * (length bytes.now / 2)) × (length bytes.now / 2 ≤ limit) }
    ensures { Holds t.new (decoded bytes.now) }
{
    for i in 0..bytes.len() / 2 {
        t[i] = u16::from_le_bytes([bytes[2 * i], bytes[2 * i + 1]]);
    }
}

// Judges n echoes over a letters, given as bytes: 1, 2, then 3 are checked first. No n over the limit is doubled.
// Stays: C hands in n beside the bytes.
fn judged(a: usize, n: usize, bytes: &[u8]) -> Result<(), Refusal>
    ensures { outcome result ≡ judge_answer a n bytes.now }
{
    checks::sizes(a, LIMIT, n)?;
    checks::matching(2 * n, bytes.len())?;
    let mut table = [0u16; 4096];
    decode(bytes, &mut table);
    judging::judge(a, &table, n)
}

// An answer in 64 bits: its number in the low byte, its place in the two above, a value above these.
// Stays: C reads one number of 64 bits.
fn packed(answer: Answer, value: u64) -> u64
    requires { (answer.place ≤ limit) × (value < 2 ^ 40) }
    ensures { result ≡ packing (answer.number, answer.place) value }
{
    u64::from(answer.number) + 256 * (answer.place as u64) + 16777216 * value
}

// Writes the echoes of the row. Numbers 0, 1, 2, 3 and 4.
pub fn claybobbin_echoes(a: usize, row: &[u8], out: &mut [u16]) -> u64
    ensures { (result, out.new) ≡ packed_buffer (echoes_outcome a row.now out.old) }
{
    let r = corridor::echoes(a, row, out);
    packed(r, 0)
}

// Writes the reach table of the row. Numbers 0, 1, 2, 3 and 4.
pub fn claybobbin_reach(a: usize, row: &[u8], out: &mut [u16]) -> u64
    ensures { (result, out.new) ≡ packed_buffer (reach_outcome a row.now out.old) }
{
    let r = corridor::reach(a, row, out);
    packed(r, 0)
}

// The value is the looks of the row. Numbers 0, 1, 2 and 4.
pub fn claybobbin_looks(a: usize, row: &[u8]) -> u64
    ensures { result ≡ packed_value (looks_outcome a row.now) }
{
    let r = corridor::looks(a, row);
    packed(Answer::from(r), r.count)
}

// Judges n echoes, two bytes each, low byte first. Numbers 0, 1, 2, 3, 5, 6 and 7.
pub fn claybobbin_judge(a: usize, n: usize, bytes: &[u8]) -> u64
    ensures { result ≡ host_judge_outcome a n bytes.now }
{
    let r = Answer::from(judged(a, n, bytes));
    packed(r, 0)
}

// Judges the array and writes its least row. Numbers 0, 1, 2, 3, 5, 6 and 7.
pub fn claybobbin_rebuild(a: usize, e: &[u16], row: &mut [u8]) -> u64
    ensures { Packs (λ s. Rebuilds a e.now row.old s row.new) result }
{
    let r = corridor::rebuild(a, e, row);
    packed(r, 0)
}

// Counts the arrays of n places that stand over a letters: number + 4 * count. Numbers 0, 1 and 2.
pub fn claybobbin_count(a: usize, n: usize) -> u64
    ensures { result ≡ host_count_outcome a n }
{
    let r = corridor::count(a, n);
    u64::from(r.number) + 4 * r.count
}

// Writes the first array of n places. Numbers 0, 1, 2 and 3.
pub fn claybobbin_first(a: usize, n: usize, out: &mut [u16]) -> u64
    ensures { Packs (λ s. Starts a n out.old s out.new) result }
{
    let r = corridor::first(a, n, out);
    packed(r, 0)
}

// Replaces the array by the next. Numbers 0, 1, 2, 5, 6, 7 and 9.
pub fn claybobbin_next(a: usize, e: &mut [u16]) -> u64
    ensures { Packs (λ s. Steps a e.old s e.new) result }
{
    let r = corridor::next(a, e);
    packed(r, 0)
}

// Writes the sheet of the row; the value is its length. Numbers 0, 1, 2, 4 and 8.
pub fn claybobbin_sheet(a: usize, row: &[u8], buf: &mut [u8]) -> u64
    ensures { (result, buf.new) ≡ packed_both (sheet_outcome a row.now buf.old) }
{
    let r = corridor::sheet(a, row, buf);
    packed(Answer::from(r), r.length as u64)
}

// Answers a guess at the hidden row. Numbers 0, 1, 2, 3, 4 and 10.
pub fn claybobbin_guess(a: usize, hidden: &[u8], guess: &[u8]) -> u64
    ensures { result ≡ packing (guess_outcome a hidden.now guess.now) 0 }
{
    let r = corridor::guess(a, hidden, guess);
    packed(r, 0)
}

// The value is the length of the closing strip, which is the end of the row.
pub fn claybobbin_closing(row: &[u8]) -> u64
    ensures { result ≡ packing (done, 0) (closed row.now) }
{
    let strip = corridor::closing(row);
    packed(Answer::DONE, strip.len() as u64)
}

// The value is the length of the joining strip, which is the start of the right row.
pub fn claybobbin_joining(left: &[u8], right: &[u8]) -> u64
    ensures { result ≡ packing (done, 0) (joint left.now right.now) }
{
    let strip = corridor::joining(left, right);
    packed(Answer::DONE, strip.len() as u64)
}
