// The line that the sheet program reads, taken in pieces of any size and of any length in all. Of the row as many cards are kept as the lent buffer has
// room for.
#![tactic(auto, using(crate::proofs::Pieces::ways))]

ghost use Rattle.std.specs.Prelude.{◌≡◌, [], ◌∷◌};
ghost use Rattle.lines.specs.Taking.{gave, Starts, Counts, Grows, Stores, Takes, Tells};

use words::Reason;

const TAB: u8 = 9;

const END: u8 = 10;

// An A has at most two digits; a field of three, or of another byte, is none.
const DIGITS: u8 = 2;

const NO_NUMBER: u8 = 3;

// More tabs are not counted: two are too many already.
const MANY: u8 = 2;

// The field before the tab: how many digits it has, and which; where they are NO_NUMBER it is none.
// Stays: a caller may make a `State` of any numbers, and one of enums would have no value for many of them.
#[derive(Clone, Copy)]
pub struct Figures {
    pub digits: u8,
    pub tens: u8,
    pub ones: u8,
}

// The state behind some bytes of the line.
// Stays: `taken` and `after_read` are lent the row beside the state, and may not change that; so how much of the row is kept stands here, as a length.
#[derive(Clone, Copy)]
pub struct State {
    pub ended: bool,
    pub tabs: u8,
    pub field: Figures,
    pub length: usize,
}

// What a good line means: A, and how many cards of the row the buffer holds.
#[derive(Clone, Copy)]
pub struct Line {
    pub a: usize,
    pub length: usize,
}

// One more byte of the field before the tab.
fn figure(f: Figures, b: u8) -> Figures
    ensures { Grows b f result }
{
    if f.digits < DIGITS && b.is_ascii_digit() {
        return Figures {
            digits: f.digits + 1,
            tens: f.ones,
            ones: b - b'0',
        };
    }
    Figures {
        digits: NO_NUMBER,
        ..f
    }
}

// One more card of the row, of which n are kept, and no more than the buffer has room for.
fn store(row: &mut [u8], n: usize, b: u8) -> usize
    ensures { Stores b n row.old result row.new }
{
    if n < row.len() {
        row[n] = b;
        return n + 1;
    }
    n
}

// The tabs with one more byte.
fn count_tab(tabs: u8, b: u8) -> u8
    ensures { Counts b tabs result }
{
    if b != TAB {
        return tabs;
    }
    match tabs {
        0 => 1,
        _ => MANY,
    }
}

// The state behind one byte more.
fn step(mut s: State, row: &mut [u8], b: u8) -> State
    ensures { Takes (b ∷ []) s row.old result row.new }
{
    if s.ended {
        return s;
    }
    if b == END {
        s.ended = true;
        return s;
    }
    let tabs = count_tab(s.tabs, b);
    match s.tabs {
        0 if b == TAB => {}
        0 => s.field = figure(s.field, b),
        _ => s.length = store(row, s.length, b),
    }
    s.tabs = tabs;
    s
}

// The state before the first byte.
pub fn start() -> State
    ensures { Starts result }
{
    State {
        ended: false,
        tabs: 0,
        field: Figures {
            digits: 0,
            tens: 0,
            ones: 0,
        },
        length: 0,
    }
}

// The state behind one piece more; what stands behind byte 10 changes nothing.
pub fn taken(mut s: State, row: &mut [u8], piece: &[u8]) -> State
    ensures { Takes piece.now s row.old result row.new }
{
    for &byte in piece {
        s = step(s, row, byte);
    }
    s
}

// The state behind what one read gave. One that gave nothing is at the end of input, which ends the line as byte 10 does.
pub fn after_read(s: State, row: &mut [u8], piece: &[u8]) -> State
    ensures { Takes (gave piece.now) s row.old result row.new }
{
    if piece.is_empty() {
        return taken(s, row, b"\n");
    }
    taken(s, row, piece)
}

// What the line means that was taken.
pub fn meaning(s: State) -> Result<Line, Reason>
    ensures { Tells s result }
{
    let f = s.field;
    if s.tabs == 1 && 0 < f.digits && f.digits <= DIGITS {
        return Ok(Line {
            a: usize::from(f.tens) * 10 + usize::from(f.ones),
            length: s.length,
        });
    }
    Err(Reason::Alphabet)
}
