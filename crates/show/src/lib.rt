// What the programs of cases share: lines of tabbed fields, and arrays to start from.
#![tactic(auto)]

use std::io;

pub fn word(rt: &impl Print, w: &[u8]) -> io::Result<()> {
    rt.write_all(w)
}

pub fn number(rt: &impl Print, n: u64) -> io::Result<()> {
    print!(rt; "\t{n}")
}

pub fn end(rt: &impl Print) -> io::Result<()> {
    rt.write_all(b"\n")
}

pub fn answer(rt: &impl Print, r: corridor::Answer) -> io::Result<()> {
    print!(rt; "\t{}\t{}", r.number, r.place)
}

pub fn counted(rt: &impl Print, r: corridor::Counted) -> io::Result<()> {
    print!(rt; "\t{}\t{}\t{}", r.number, r.place, r.count)
}

// The word sum, and a sum over all entries with their places.
fn sum(rt: &impl Print, n: u64) -> io::Result<()> {
    print!(rt; "\tsum\t{n}")
}

// Each number times its place, places from 1, summed up: from the end on, each turn takes once more every number met so far. It is the sum modulo 2^64,
// which none of up to 16 million numbers comes near.
fn places<T: Copy + Into<u64>>(l: &[T]) -> u64 {
    let mut met: u64 = 0;
    let mut total: u64 = 0;
    for &x in l.iter().rev() {
        met = met.wrapping_add(x.into());
        total = total.wrapping_add(met);
    }
    total
}

// Each number of the list; a list of over 20 by its last and by the sum of all with their places.
pub fn list(rt: &impl Print, l: &[u16]) -> io::Result<()> {
    match l {
        [.., last] if 20 < l.len() => {
            number(rt, u64::from(*last))?;
            sum(rt, places(l))
        }
        _ => {
            for &x in l {
                number(rt, u64::from(x))?;
            }
            Ok(())
        }
    }
}

// The bytes of a text; of one of over 100 the last three and the sum of all with their places.
pub fn text(rt: &impl Print, t: &[u8]) -> io::Result<()> {
    if 100 < t.len() {
        word(rt, &t[t.len() - 3..])?;
        sum(rt, places(t))
    } else {
        word(rt, t)
    }
}

// 0 1 2 .. and so on: the echoes of a row of one letter.
pub fn rise(e: &mut [u16]) {
    for (i, echo) in e.iter_mut().enumerate() {
        *echo = (i % 65536) as u16;
    }
}

pub fn set_last(e: &mut [u16], v: u16) {
    if let Some(last) = e.last_mut() {
        *last = v;
    }
}

// A label, what an entry answers, and what it leaves in the numbers that it is lent.
pub fn left<F: FnOnce(&mut [u16]) -> corridor::Answer>(
    rt: &impl Print,
    label: &[u8],
    out: &mut [u16],
    entry: F,
) -> io::Result<()>
    requires { F.IsAlwaysCallable entry }
{
    let r = entry(out);
    word(rt, label)?;
    answer(rt, r)?;
    list(rt, out)?;
    end(rt)
}

// The same with a buffer of so many sevens, 4,097 at most.
pub fn left_of_sevens<F: FnOnce(&mut [u16]) -> corridor::Answer>(
    rt: &impl Print,
    label: &[u8],
    sevens: usize,
    entry: F,
) -> io::Result<()>
    requires { F.IsAlwaysCallable entry }
{
    let mut out = [7u16; 4097];
    if sevens > out.len() {
        return Ok(());
    }
    left(rt, label, &mut out[..sevens], entry)
}
