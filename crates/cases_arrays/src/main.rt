// From echoes: judging and rebuilding. The sums of long texts are worked out from the definitions by host/tests/expected.sh.
#![tactic(auto)]

use std::io;

// A label, what judge answers, what rebuild answers with a row of so many dots, and the row that it leaves.
fn judged_with(rt: &impl Print, label: &[u8], a: usize, e: &[u16], dots: usize) -> io::Result<()> {
    let mut row = [b'.'; 4097];
    if dots <= row.len() {
        show::word(rt, label)?;
        show::answer(rt, corridor::judge(a, e))?;
        show::answer(rt, corridor::rebuild(a, e, &mut row[..dots]))?;
        show::word(rt, b"\t")?;
        show::text(rt, &row[..dots])?;
        show::end(rt)?;
    }
    Ok(())
}

fn judged(rt: &impl Print, label: &[u8], a: usize, e: &[u16]) -> io::Result<()> {
    judged_with(rt, label, a, e, e.len())
}

// The array of 001's first example, and one more echo.
fn eleven(last: u16) -> [u16; 12] {
    [0, 0, 1, 1, 2, 3, 2, 3, 4, 5, 6, last]
}

// The array of its second example, and one more echo.
fn fifteen(last: u16) -> [u16; 16] {
    [0, 0, 1, 0, 1, 2, 3, 0, 1, 2, 3, 4, 5, 6, 7, last]
}

fn given(rt: &impl Print) -> io::Result<()> {
    judged(rt, b"P5", 3, &eleven(0))?;
    judged(rt, b"P6", 2, &eleven(0))?;
    judged(rt, b"P7", 3, &eleven(2))?;
    judged(rt, b"P8", 3, &eleven(3))?;
    judged(rt, b"P9 A 4", 4, &fifteen(0))?;
    judged(rt, b"P9 A 5", 5, &fifteen(0))?;
    judged(rt, b"P10", 2, &[1u16])?;
    judged(rt, b"P11", 2, &[0u16, 2])?;
    judged(rt, b"001: 7", 2, &eleven(7))?;
    judged(rt, b"001: 4", 2, &eleven(4))?;
    judged(rt, b"001: 1", 2, &eleven(1))?;
    judged(rt, b"001: 8", 4, &fifteen(8))?;
    judged(rt, b"001: 4", 4, &fifteen(4))?;
    judged(rt, b"001: 2", 4, &fifteen(2))?;
    judged(rt, b"001: 1", 4, &fifteen(1))?;
    judged(rt, b"least row of 0 0 0", 26, &[0u16, 0, 0])?;
    judged(rt, b"empty, A 1", 1, &[])?;
    judged(rt, b"one card, A 1", 1, &[0u16])?;
    judged(rt, b"0 0, A 1", 1, &[0u16, 0])?;
    judged(rt, b"0 1, A 1", 1, &[0u16, 1])?;
    judged(rt, b"65535", 26, &[0u16, 65535])
}

fn refused(rt: &impl Print) -> io::Result<()> {
    judged(rt, b"A 0", 0, &[0u16, 2])?;
    judged(rt, b"A 27", 27, &[0u16, 2])?;
    judged_with(rt, b"two for three", 3, &[0u16, 0, 5], 2)?;
    judged_with(rt, b"four for three", 3, &[0u16, 0, 5], 4)
}

fn broken_last(rt: &impl Print, e: &mut [u16]) -> io::Result<()> {
    show::rise(e);
    judged(rt, b"4096 rising", 1, e)?;
    show::set_last(e, 4094);
    judged(rt, b"4096, last 4094", 1, e)?;
    show::set_last(e, 4096);
    judged(rt, b"4096, last 4096", 1, e)?;
    show::set_last(e, 0);
    judged(rt, b"4096, last 0, A 1", 1, e)?;
    judged(rt, b"4096, last 0, A 2", 2, e)
}

fn at_the_limit(rt: &impl Print) -> io::Result<()> {
    let mut e = [0u16; 4096];
    broken_last(rt, &mut e)?;
    let many = [0u16; 4097];
    judged(rt, b"4097 echoes", 1, &many)
}

fn main(rt: HostRuntime) -> io::Result<()> {
    given(&rt)?;
    refused(&rt)?;
    at_the_limit(&rt)
}
