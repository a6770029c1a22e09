// Reads one line, A, a tab and a row, from standard input and prints the sheet of the row, or the number and place of the refusal.
#![tactic(auto)]

ghost use Rattle.std.specs.Prelude.{◌≡◌, true, ◌-◌, ◌^◌};
ghost use Rattle.lines.specs.Taking.{Read, Reads};
ghost use Rattle.sheet.specs.Outcome.{Answers};

use corridor::Written;
use lines::State;
use std::io;
use words::{DONE, Refusal};

// One card more than the limit is kept of a row, so that a longer one is refused as it would be whole.
const KEPT: usize = words::LIMIT + 1;

// At the limit a sheet needs less.
const SHEET: usize = 61500;

// A proved loop has to end, and nothing says that the input does: so the turns are as many as no run uses up.
const TURNS: u64 = u64::MAX;

// As many bytes at most are asked for at once.
const READ: usize = 65536;

// The state behind one read. One that fails gives no byte, as one at the end of input.
fn read_some(input: &mut impl io::Read, s: State, row: &mut [u8]) -> State
    ensures { Reads s row.old result row.new }
{
    let mut buf = [0u8; READ];
    let n = input.read(&mut buf).unwrap_or(0);
    lines::after_read(s, row, &buf[..n])
}

// The state behind the line. Where it has not ended, every turn was used, and each took a byte at least.
#[tactic(auto, using(lines::proofs::Pieces::read_start, lines::proofs::Pieces::read_more))]
fn read_line(input: &mut impl io::Read, row: &mut [u8]) -> State
    ensures { Read (2 ^ 64 - 1) result row.new }
{
    let mut s = lines::start();
    for _ in 0..TURNS {
        if s.ended {
            return s;
        }
        s = read_some(input, s, row);
    }
    s
}

// What the program answers to a line that has ended, of which s and the row are left; the sheet is written into out.
// Stays: `corridor::sheet` answers a number, a place and a length, and may not change that; so the reply has them, and its number is compared.
#[tactic(auto, using(crate::proofs::Kept::answers_sheet), unfolding(crate::specs::Outcome::line_outcome))]
fn reply(s: State, row: &[u8; KEPT], out: &mut [u8]) -> Written
    requires { (s.ended ≡ true) × Read 0 s row.now }
    ensures { Answers s row.now out.old (result.number, result.place, result.length, out.new) }
{
    match lines::meaning(s) {
        Ok(line) => corridor::sheet(line.a, &row[..line.length], out),
        Err(why) => Written::from(Refusal::from(why)),
    }
}

fn print_reply(rt: &impl Print, s: State, row: &[u8; KEPT], out: &mut [u8]) -> io::Result<()>
    requires { (s.ended ≡ true) × Read 0 s row.now }
{
    let w = reply(s, row, out);
    if w.number != DONE {
        return println!(rt; "refused\t{}\t{}", w.number, w.place);
    }
    rt.write_all(&out[..w.length])
}

fn answer(
    rt: &impl Print,
    input: &mut impl io::Read,
    row: &mut [u8; KEPT],
    out: &mut [u8],
) -> io::Result<()> {
    let s = read_line(input, row);
    if !s.ended {
        return Ok(());
    }
    print_reply(rt, s, row, out)
}

fn main(rt: HostRuntime) -> io::Result<()> {
    let mut row = [0u8; KEPT];
    let mut out = [0u8; SHEET];
    answer(&rt, &mut rt.stdin(), &mut row, &mut out)
}
