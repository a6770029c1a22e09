// Claybobbin: every entry open to callers, the types of their answers, and nothing else. Each entry takes every input and refuses what is bad by number and place.
// Stays: an entry answers by number and place, as other programs are written to read it; so a refusal is turned into an answer where it is met. A `?` would
// take a second function beside each entry, with its contract once more; a `map` on the check, a closure that says in a `requires` of its own what the check
// leaves.
#![tactic(auto, using(crate::proofs::Entries::entry_steps), unfolding(words::specs::Outcomes::judge_outcome))]

ghost use Rattle.std.specs.Prelude.{◌≡◌};
ghost use Rattle.words.specs.Refusals.{refused, outcome};
ghost use Rattle.words.specs.Strips.{closing as closing_of, joining as joining_of};
ghost use Rattle.words.specs.Outcomes.{echoes_outcome, reach_outcome, looks_outcome, sheet_outcome, guess_outcome, judge_outcome, count_outcome, Rebuilds, Starts, Steps};

pub use words::Answer;
use words::{COUNT_LIMIT, DONE, LIMIT, Reason, Refusal};

// An answer with a count, which is 0 beside every number but 0.
// Stays: other programs read number, place and count by these names, as they read a length in `Written`: so neither is a Result, nor one type for both.
#[derive(Clone, Copy)]
pub struct Counted {
    pub number: u8,
    pub place: usize,
    pub count: u64,
}

impl From<Refusal> for Counted {
    ghost from_gives = { λ r c. ((c.number, c.place) ≡ refused r) × (c.count ≡ 0) };

    fn from(r: Refusal) -> Counted {
        let answer = Answer::from(r);
        Counted {
            number: answer.number,
            place: answer.place,
            count: 0,
        }
    }
}

impl From<Counted> for Answer {
    ghost from_gives = { λ c a. (a.number ≡ c.number) × (a.place ≡ c.place) };

    fn from(c: Counted) -> Answer {
        Answer {
            number: c.number,
            place: c.place,
        }
    }
}

// Writes the echoes of the row into out, which has as many entries. Numbers 1, 2, 3 and 4.
pub fn echoes(a: usize, row: &[u8], out: &mut [u16]) -> Answer
    ensures { (result.number, result.place, out.new) ≡ echoes_outcome a row.now out.old }
{
    if let Err(refusal) = checks::row_and_slice(a, row, out.len()) {
        return Answer::from(refusal);
    }
    rows::echoes(row, out);
    Answer::DONE
}

// The looks of the row. Numbers 1, 2 and 4.
pub fn looks(a: usize, row: &[u8]) -> Counted
    ensures { (result.number, result.place, result.count) ≡ looks_outcome a row.now }
{
    if let Err(refusal) = checks::whole_row(a, row) {
        return Counted::from(refusal);
    }
    let count = tables::looks_within(row) as u64;
    Counted {
        number: DONE,
        place: 0,
        count,
    }
}

// The closing strip: the part of the row made of its last e[n] cards. All bytes are cards here.
pub fn closing(row: &[u8]) -> &[u8]
    ensures { (result.now, result.ref_ptr) ≡ closing_of row.now row.entry.ref_ptr }
{
    let k = tables::closing_length(row);
    let d = row.len() - k;
    rows::part(row, d, k)
}

// The joining strip: the part of the right row made of its first cards, those that the left row's end equals. All bytes are cards here.
pub fn joining<'l, 'r>(left: &'l [u8], right: &'r [u8]) -> &'r [u8]
    ensures { (result.now, result.ref_ptr) ≡ joining_of left.now right.now right.entry.ref_ptr }
{
    let k = tables::joining_length(left, right);
    rows::part(right, 0, k)
}

// Writes the reach table of the row into out, which has as many entries. Numbers 1, 2, 3 and 4.
pub fn reach(a: usize, row: &[u8], out: &mut [u16]) -> Answer
    ensures { (result.number, result.place, out.new) ≡ reach_outcome a row.now out.old }
{
    if let Err(refusal) = checks::row_and_slice(a, row, out.len()) {
        return Answer::from(refusal);
    }
    reaches::reaches(row, out);
    Answer::DONE
}

// Judges the array: 0, or the number and place of the first echo that does not stand. Numbers 1, 2, 5, 6 and 7.
pub fn judge(a: usize, e: &[u16]) -> Answer
    ensures { (result.number, result.place) ≡ judge_outcome a e.now }
{
    if let Err(refusal) = checks::sizes(a, LIMIT, e.len()) {
        return Answer::from(refusal);
    }
    Answer::from(held::judge(a, e))
}

// Judges the array and hands back the least row that has it, in a buffer with as many entries. Numbers 1, 2, 3, 5, 6 and 7.
pub fn rebuild(a: usize, e: &[u16], row: &mut [u8]) -> Answer
    ensures { Rebuilds a e.now row.old (result.number, result.place) row.new }
{
    if let Err(refusal) = checks::lent(a, e.len(), row.len()) {
        return Answer::from(refusal);
    }
    Answer::from(held::rebuild(a, e, row))
}

// An answer with a length, which is 0 beside every number but 0.
// Stays: as `Counted`.
#[derive(Clone, Copy)]
pub struct Written {
    pub number: u8,
    pub place: usize,
    pub length: usize,
}

impl From<Refusal> for Written {
    ghost from_gives = { λ r w. ((w.number, w.place) ≡ refused r) × (w.length ≡ 0) };

    fn from(r: Refusal) -> Written {
        let answer = Answer::from(r);
        Written {
            number: answer.number,
            place: answer.place,
            length: 0,
        }
    }
}

impl From<Written> for Answer {
    ghost from_gives = { λ w a. (a.number ≡ w.number) × (a.place ≡ w.place) };

    fn from(w: Written) -> Answer {
        Answer {
            number: w.number,
            place: w.place,
        }
    }
}

// Writes the sheet of the row into the buffer; the bytes behind it stay. Numbers 1, 2, 4 and 8.
pub fn sheet(a: usize, row: &[u8], buf: &mut [u8]) -> Written
    ensures { (result.number, result.place, result.length, buf.new) ≡ sheet_outcome a row.now buf.old }
{
    if let Err(refusal) = checks::whole_row(a, row) {
        return Written::from(refusal);
    }
    match tables::sheet_within(a, row, buf) {
        Ok(length) => Written {
            number: DONE,
            place: 0,
            length,
        },
        Err(reason) => Written::from(Refusal::from(reason)),
    }
}

// Answers a guess at the hidden row: 0 where its echoes are the hidden row's, else 10 at the first place where they differ. Numbers 1, 2, 3, 4 and 10.
pub fn guess(a: usize, hidden: &[u8], guess: &[u8]) -> Answer
    ensures { (result.number, result.place) ≡ guess_outcome a hidden.now guess.now }
{
    if let Err(refusal) = checks::two_rows(a, hidden, guess) {
        return Answer::from(refusal);
    }
    match tables::difference_within(hidden, guess) {
        None => Answer::DONE,
        Some(place) => Answer::from(Refusal {
            reason: Reason::Differs,
            place,
        }),
    }
}

// How many arrays of n places stand over a letters. Numbers 1 and 2, where 2 is for n over 20.
pub fn count(a: usize, n: usize) -> Counted
    ensures { (result.number, result.place, result.count) ≡ count_outcome a n }
{
    if let Err(refusal) = checks::sizes(a, COUNT_LIMIT, n) {
        return Counted::from(refusal);
    }
    let count = counting::count(a, n);
    Counted {
        number: DONE,
        place: 0,
        count,
    }
}

// Writes the least standing array of n places into a buffer of n entries. Numbers 1, 2 and 3.
pub fn first(a: usize, n: usize, out: &mut [u16]) -> Answer
    ensures { Starts a n out.old (result.number, result.place) out.new }
{
    if let Err(refusal) = checks::lent(a, n, out.len()) {
        return Answer::from(refusal);
    }
    held::first(a, n, out);
    Answer::DONE
}

// Replaces the array by the least standing one of its length that is greater. Numbers 1, 2, 5, 6, 7 and 9.
pub fn next(a: usize, e: &mut [u16]) -> Answer
    ensures { Steps a e.old (result.number, result.place) e.new }
{
    if let Err(refusal) = checks::sizes(a, LIMIT, e.len()) {
        return Answer::from(refusal);
    }
    Answer::from(held::next(a, e))
}
