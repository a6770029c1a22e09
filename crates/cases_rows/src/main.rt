// From cards: echoes, looks and strips. The sums of long lists and texts, and the looks at the limit, are worked out from the definitions by
// host/tests/expected.sh.
#![tactic(auto)]

use std::io;

fn echoes(rt: &impl Print, label: &[u8], a: usize, row: &[u8], sevens: usize) -> io::Result<()> {
    show::left_of_sevens(rt, label, sevens, |out| corridor::echoes(a, row, out))
}

fn looks(rt: &impl Print, label: &[u8], a: usize, row: &[u8]) -> io::Result<()> {
    show::word(rt, label)?;
    show::counted(rt, corridor::looks(a, row))?;
    show::end(rt)
}

fn closing(rt: &impl Print, row: &[u8]) -> io::Result<()> {
    show::word(rt, b"closing\t")?;
    show::text(rt, corridor::closing(row))?;
    show::end(rt)
}

fn joining(rt: &impl Print, left: &[u8], right: &[u8]) -> io::Result<()> {
    show::word(rt, b"joining\t")?;
    show::text(rt, corridor::joining(left, right))?;
    show::end(rt)
}

// The card of place i of the ruler abacabad..: a for an odd place, b for twice an odd one, and so on.
fn ruler(i: u32) -> u8 {
    b'a' + (i.trailing_zeros() % 26) as u8
}

fn lay_ruler(row: &mut [u8]) {
    for (i, card) in row.iter_mut().enumerate() {
        *card = ruler((i % 65536) as u32 + 1);
    }
}

fn given(rt: &impl Print) -> io::Result<()> {
    echoes(rt, b"P1 echoes", 1, b"", 0)?;
    looks(rt, b"P1 looks", 1, b"")?;
    echoes(rt, b"P2 echoes", 1, b"a", 1)?;
    looks(rt, b"P2 looks", 1, b"a")?;
    echoes(rt, b"P3 echoes", 2, b"aab", 3)?;
    looks(rt, b"P3 looks", 2, b"aab")?;
    echoes(rt, b"P4 echoes", 2, b"abaababaaba", 11)?;
    echoes(rt, b"abb echoes", 3, b"abb", 3)?;
    echoes(rt, b"abc echoes", 3, b"abc", 3)?;
    looks(rt, b"abaab looks", 3, b"abaab")
}

fn refused(rt: &impl Print) -> io::Result<()> {
    let many = [97u8; 4097];
    echoes(rt, b"A 0", 0, b"abc", 3)?;
    echoes(rt, b"A 27", 27, b"abc", 3)?;
    echoes(rt, b"4097 cards", 1, &many, 4097)?;
    echoes(rt, b"4097 cards, A 0, no room", 0, &many, 3)?;
    echoes(rt, b"4097 cards, no room", 1, &many, 3)?;
    echoes(rt, b"too much room, bad card", 1, b"zz", 3)?;
    echoes(rt, b"too little room", 2, b"abab", 3)?;
    echoes(rt, b"bad last card", 2, b"abc", 3)?;
    echoes(rt, b"two bad cards", 2, b"zaz", 3)?;
    echoes(rt, b"byte 96", 26, b"a`a", 3)?;
    echoes(rt, b"capital", 26, b"aaA", 3)?;
    looks(rt, b"A 0 looks", 0, b"abc")?;
    looks(rt, b"A 27 looks", 27, b"abc")?;
    looks(rt, b"4097 looks", 1, &many)?;
    looks(rt, b"bad card looks", 2, b"abcz")
}

fn rulers(rt: &impl Print, row: &mut [u8]) -> io::Result<()> {
    lay_ruler(row);
    echoes(rt, b"ruler 4096", 13, row, 4096)?;
    looks(rt, b"ruler 4096 looks", 13, row)?;
    echoes(rt, b"ruler 4096, A 12", 12, row, 4096)?;
    if 4095 <= row.len() {
        echoes(rt, b"ruler 4095", 12, &row[..4095], 4095)?;
        looks(rt, b"ruler 4095 looks", 12, &row[..4095])?;
    }
    Ok(())
}

fn at_the_limit(rt: &impl Print) -> io::Result<()> {
    let mut row = [97u8; 4096];
    echoes(rt, b"4096 a", 1, &row, 4096)?;
    looks(rt, b"4096 a looks", 1, &row)?;
    echoes(rt, b"2048 a", 1, &row[..2048], 2048)?;
    row[4095] = b'b';
    echoes(rt, b"4095 a, b", 2, &row, 4096)?;
    looks(rt, b"4095 a, b looks", 2, &row)?;
    rulers(rt, &mut row)
}

fn strips(rt: &impl Print) -> io::Result<()> {
    let many = [97u8; 4097];
    let long = [97u8; 4096];
    closing(rt, b"abaab")?;
    closing(rt, b"aaaa")?;
    closing(rt, b"abc")?;
    closing(rt, b"")?;
    closing(rt, b"-9-")?;
    closing(rt, &many)?;
    joining(rt, b"xxaba", b"abab")?;
    joining(rt, b"xab", b"ab")?;
    joining(rt, b"ab", b"abc")?;
    joining(rt, b"abaab", b"aabb")?;
    joining(rt, b"abab", b"ab")?;
    joining(rt, b"aab", b"aab")?;
    joining(rt, b"abc", b"xyz")?;
    joining(rt, b"", b"abc")?;
    joining(rt, b"abc", b"")?;
    joining(rt, b"a-+", b"-+-+")?;
    joining(rt, &many, b"aa")?;
    joining(rt, b"aa", &many)?;
    closing(rt, &long)?;
    joining(rt, &long, &long)?;
    joining(rt, &long, b"aa")?;
    joining(rt, b"aa", &long)
}

fn main(rt: HostRuntime) -> io::Result<()> {
    given(&rt)?;
    refused(&rt)?;
    at_the_limit(&rt)?;
    strips(&rt)
}
