// Counting, the first array and the next. The walks and the sums of long lists are worked out from the definitions by host/tests/expected.sh; the counts over
// 26 letters for n up to 10 are published in 001, those over 1 and 2 letters are 01's, and those for n 20 over 3 and 26 letters are counted by 001's figures in
// host/check.rs, which host/tests/host.sh compares with the expected output.
#![tactic(auto)]

use show::{rise, set_last};
use std::io;

// Every array of the buffer's length over a letters by first and next, a line each, and at the end the last answer and how many there were.
fn walk(rt: &impl Print, a: usize, e: &mut [u16], most: u64) -> io::Result<()> {
    first(rt, b"first", a, e.len(), e)?;
    for k in 1..most {
        let r = corridor::next(a, e);
        if r.number != words::DONE {
            show::word(rt, b"end")?;
            show::answer(rt, r)?;
            show::number(rt, k)?;
            show::end(rt)?;
            return Ok(());
        }
        show::word(rt, b"next")?;
        show::list(rt, e)?;
        show::end(rt)?;
    }
    Ok(())
}

fn walks(rt: &impl Print) -> io::Result<()> {
    for a in [1, 2, 3, 26] {
        walk(rt, a, &mut [7u16; 6], 100)?;
    }
    walk(rt, 5, &mut [], 100)
}

fn count(rt: &impl Print, label: &[u8], a: usize, n: usize) -> io::Result<()> {
    show::word(rt, label)?;
    show::counted(rt, corridor::count(a, n))?;
    show::end(rt)
}

// The ten published counts, each beside what count says.
fn published(rt: &impl Print) -> io::Result<()> {
    for n in 1..=10 {
        show::word(rt, b"published")?;
        show::number(rt, counting::published(n))?;
        show::counted(rt, corridor::count(26, n))?;
        show::end(rt)?;
    }
    Ok(())
}

fn counts(rt: &impl Print) -> io::Result<()> {
    count(rt, b"P12 A 1", 1, 4)?;
    count(rt, b"P12 A 2", 2, 4)?;
    count(rt, b"P12 A 3", 3, 4)?;
    count(rt, b"n 0", 26, 0)?;
    count(rt, b"n 20, A 26", 26, 20)?;
    count(rt, b"n 20, A 3", 3, 20)?;
    count(rt, b"n 20, A 2", 2, 20)?;
    count(rt, b"n 20, A 1", 1, 20)?;
    count(rt, b"n 21", 26, 21)?;
    count(rt, b"A 0, n 21", 0, 21)?;
    count(rt, b"A 27", 27, 4)
}

fn next(rt: &impl Print, label: &[u8], a: usize, e: &mut [u16]) -> io::Result<()> {
    show::left(rt, label, e, |e| corridor::next(a, e))
}

fn first(rt: &impl Print, label: &[u8], a: usize, n: usize, out: &mut [u16]) -> io::Result<()> {
    show::left(rt, label, out, |out| corridor::first(a, n, out))
}

fn steps(rt: &impl Print) -> io::Result<()> {
    next(rt, b"P13 A 3", 3, &mut [0u16, 0, 0, 1])?;
    next(rt, b"P13 A 2", 2, &mut [0u16, 0, 0, 1])?;
    next(rt, b"P14", 2, &mut [0u16, 1, 2])?;
    next(rt, b"next, A 0", 0, &mut [0u16, 2])?;
    next(rt, b"next, A 27", 27, &mut [0u16, 2])?;
    next(rt, b"next, 5", 2, &mut [0u16, 2])?;
    next(rt, b"next, 7", 1, &mut [0u16, 0])?;
    next(rt, b"next, 6", 3, &mut [0u16, 1, 2, 2])?;
    first(rt, b"first, A 0", 0, 2, &mut [7u16, 7])?;
    first(rt, b"first, 2 for 3", 2, 3, &mut [7u16, 7])?;
    first(rt, b"first, 3 for 2", 2, 2, &mut [7u16, 7, 7])?;
    first(rt, b"first, n 4097", 2, 4097, &mut [7u16, 7])
}

fn long_steps(rt: &impl Print, a: usize, e: &mut [u16]) -> io::Result<()> {
    rise(e);
    next(rt, b"rising", a, e)?;
    set_last(e, 0);
    next(rt, b"zero last", a, e)?;
    let n = e.len();
    first(rt, b"first", a, n, e)?;
    next(rt, b"behind the first", a, e)
}

fn at_the_limit(rt: &impl Print) -> io::Result<()> {
    let mut e = [0u16; 4096];
    long_steps(rt, 2, &mut e)?;
    let mut e = [0u16; 4096];
    long_steps(rt, 26, &mut e)?;
    let mut e = [0u16; 4096];
    long_steps(rt, 1, &mut e)?;
    let mut e = [7u16; 4097];
    next(rt, b"4097", 2, &mut e)?;
    let mut e = [7u16; 4097];
    first(rt, b"first, 4097", 2, 4097, &mut e)
}

fn main(rt: HostRuntime) -> io::Result<()> {
    walks(&rt)?;
    published(&rt)?;
    counts(&rt)?;
    steps(&rt)?;
    at_the_limit(&rt)
}
