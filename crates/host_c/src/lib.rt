// What a game written in C calls: each function of `host` under its C name, with the same clause.
// Stays: C calls each by its name, and a crate is a library or a static library; so each stands here once more.
#![tactic(auto)]

ghost use Rattle.std.specs.Prelude.{◌≡◌};
ghost use Rattle.words.specs.Numbers.{DONE as done};
ghost use Rattle.words.specs.Strips.{closed, joint};
ghost use Rattle.words.specs.Outcomes.{echoes_outcome, reach_outcome, looks_outcome, sheet_outcome, guess_outcome, Rebuilds, Starts, Steps, packing, packed_buffer, packed_value, packed_both, Packs, host_judge_outcome, host_count_outcome};

#[unsafe(no_mangle)]
pub extern "C" fn claybobbin_echoes(a: usize, row: &[u8], out: &mut [u16]) -> u64
    ensures { (result, out.new) ≡ packed_buffer (echoes_outcome a row.now out.old) }
{
    host::claybobbin_echoes(a, row, out)
}

#[unsafe(no_mangle)]
pub extern "C" fn claybobbin_reach(a: usize, row: &[u8], out: &mut [u16]) -> u64
    ensures { (result, out.new) ≡ packed_buffer (reach_outcome a row.now out.old) }
{
    host::claybobbin_reach(a, row, out)
}

#[unsafe(no_mangle)]
pub extern "C" fn claybobbin_looks(a: usize, row: &[u8]) -> u64
    ensures { result ≡ packed_value (looks_outcome a row.now) }
{
    host::claybobbin_looks(a, row)
}

#[unsafe(no_mangle)]
pub extern "C" fn claybobbin_judge(a: usize, n: usize, bytes: &[u8]) -> u64
    ensures { result ≡ host_judge_outcome a n bytes.now }
{
    host::claybobbin_judge(a, n, bytes)
}

#[unsafe(no_mangle)]
pub extern "C" fn claybobbin_rebuild(a: usize, e: &[u16], row: &mut [u8]) -> u64
    ensures { Packs (λ s. Rebuilds a e.now row.old s row.new) result }
{
    host::claybobbin_rebuild(a, e, row)
}

#[unsafe(no_mangle)]
pub extern "C" fn claybobbin_count(a: usize, n: usize) -> u64
    ensures { result ≡ host_count_outcome a n }
{
    host::claybobbin_count(a, n)
}

#[unsafe(no_mangle)]
pub extern "C" fn claybobbin_first(a: usize, n: usize, out: &mut [u16]) -> u64
    ensures { Packs (λ s. Starts a n out.old s out.new) result }
{
    host::claybobbin_first(a, n, out)
}

#[unsafe(no_mangle)]
pub extern "C" fn claybobbin_next(a: usize, e: &mut [u16]) -> u64
    ensures { Packs (λ s. Steps a e.old s e.new) result }
{
    host::claybobbin_next(a, e)
}

#[unsafe(no_mangle)]
pub extern "C" fn claybobbin_sheet(a: usize, row: &[u8], buf: &mut [u8]) -> u64
    ensures { (result, buf.new) ≡ packed_both (sheet_outcome a row.now buf.old) }
{
    host::claybobbin_sheet(a, row, buf)
}

#[unsafe(no_mangle)]
pub extern "C" fn claybobbin_guess(a: usize, hidden: &[u8], guess: &[u8]) -> u64
    ensures { result ≡ packing (guess_outcome a hidden.now guess.now) 0 }
{
    host::claybobbin_guess(a, hidden, guess)
}

#[unsafe(no_mangle)]
pub extern "C" fn claybobbin_closing(row: &[u8]) -> u64
    ensures { result ≡ packing (done, 0) (closed row.now) }
{
    host::claybobbin_closing(row)
}

#[unsafe(no_mangle)]
pub extern "C" fn claybobbin_joining(left: &[u8], right: &[u8]) -> u64
    ensures { result ≡ packing (done, 0) (joint left.now right.now) }
{
    host::claybobbin_joining(left, right)
}
