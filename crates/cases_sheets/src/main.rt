// Reach, sheets and guesses. The sums of long lists and texts are worked out from the definitions by host/tests/expected.sh.
#![tactic(auto)]

use std::io;

fn reach(rt: &impl Print, label: &[u8], a: usize, row: &[u8], sevens: usize) -> io::Result<()> {
    show::left_of_sevens(rt, label, sevens, |out| corridor::reach(a, row, out))
}

// A label, what sheet answers with a buffer of so many dots, and the buffer that it leaves.
fn sheet(rt: &impl Print, label: &[u8], a: usize, row: &[u8], dots: usize) -> io::Result<()> {
    let mut buf = [b'.'; 61500];
    if dots <= buf.len() {
        let r = corridor::sheet(a, row, &mut buf[..dots]);
        show::word(rt, label)?;
        println!(rt; "\t{}\t{}\t{}", r.number, r.place, r.length)?;
        show::text(rt, &buf[..dots])?;
        show::end(rt)?;
    }
    Ok(())
}

fn guess(rt: &impl Print, label: &[u8], a: usize, hidden: &[u8], guess: &[u8]) -> io::Result<()> {
    show::word(rt, label)?;
    show::answer(rt, corridor::guess(a, hidden, guess))?;
    show::end(rt)
}

fn reaches(rt: &impl Print) -> io::Result<()> {
    let many = [97u8; 4097];
    reach(rt, b"P3 reach", 2, b"aab", 3)?;
    reach(rt, b"abaab reach", 3, b"abaab", 5)?;
    reach(rt, b"empty reach", 1, b"", 0)?;
    reach(rt, b"4096 a reach", 1, &many[..4096], 4096)?;
    reach(rt, b"A 0 reach", 0, b"aab", 3)?;
    reach(rt, b"4097 reach", 1, &many, 4097)?;
    reach(rt, b"no room reach", 2, b"aab", 2)?;
    reach(rt, b"bad card reach", 2, b"aac", 3)
}

fn texts(rt: &impl Print) -> io::Result<()> {
    let many = [97u8; 4097];
    let long = [97u8; 4096];
    sheet(rt, b"abaab", 3, b"abaab", 65)?;
    sheet(rt, b"abb", 3, b"abb", 60)?;
    sheet(rt, b"abc", 3, b"abc", 60)?;
    sheet(rt, b"empty", 1, b"", 40)?;
    sheet(rt, b"aaaa, just room", 2, b"aaaa", 59)?;
    sheet(rt, b"aaaa, one short", 2, b"aaaa", 58)?;
    sheet(rt, b"no room at all", 3, b"abaab", 0)?;
    sheet(rt, b"A 0", 0, b"abaab", 10)?;
    sheet(rt, b"A 27", 27, b"abaab", 10)?;
    sheet(rt, b"4097", 1, &many, 10)?;
    sheet(rt, b"bad card, no room", 2, b"abc", 10)?;
    // At the limit: the room that is enough for every sheet, and one byte less than this one has.
    sheet(rt, b"4096 a", 26, &long, 61500)?;
    sheet(rt, b"4096 a, one short", 26, &long, 58154)
}

fn guesses(rt: &impl Print) -> io::Result<()> {
    let many = [97u8; 4097];
    let others = [98u8; 4096];
    guess(rt, b"abb, abc", 3, b"abb", b"abc")?;
    guess(rt, b"itself", 2, b"abaab", b"abaab")?;
    guess(rt, b"aab, aba", 2, b"aab", b"aba")?;
    guess(rt, b"aab, aaa", 2, b"aab", b"aaa")?;
    guess(rt, b"empty", 1, b"", b"")?;
    guess(rt, b"A 0", 0, b"zz", b"z")?;
    guess(rt, b"A 27", 27, b"a", b"a")?;
    guess(rt, b"4097 hidden", 1, &many, b"z")?;
    guess(rt, b"4097 guessed", 1, b"z", &many)?;
    guess(rt, b"shorter guess", 1, b"zz", b"z")?;
    guess(rt, b"hidden before guess", 2, b"aabz", b"zaaa")?;
    guess(rt, b"bad guess", 2, b"aab", b"aza")?;
    guess(rt, b"4096 a, 4096 b", 2, &many[..4096], &others)
}

fn main(rt: HostRuntime) -> io::Result<()> {
    reaches(&rt)?;
    texts(&rt)?;
    guesses(&rt)
}
