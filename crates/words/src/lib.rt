// The numbers that come back, the reasons behind them, and the limits.
#![tactic(auto)]

ghost use Rattle.std.specs.Prelude.{◌≡◌, ◌<◌};
ghost use Rattle.words.specs.Refusals.{refused, outcome};

// The number of what is done.
pub const DONE: u8 = 0;

// Why something is refused, by its number.
#[derive(Clone, Copy, PartialEq, Eq)]
pub enum Reason {
    Alphabet = 1,
    Long = 2,
    Mismatch = 3,
    Card = 4,
    Impossible = 5,
    Hidden = 6,
    Full = 7,
    Room = 8,
    Last = 9,
    Differs = 10,
}

// The numbers of the reasons.
// Stays: other programs compare the number of an answer with these.
pub const ALPHABET: u8 = Reason::Alphabet as u8;

pub const LONG: u8 = Reason::Long as u8;

pub const MISMATCH: u8 = Reason::Mismatch as u8;

pub const CARD: u8 = Reason::Card as u8;

pub const IMPOSSIBLE: u8 = Reason::Impossible as u8;

pub const HIDDEN: u8 = Reason::Hidden as u8;

pub const FULL: u8 = Reason::Full as u8;

pub const ROOM: u8 = Reason::Room as u8;

pub const LAST: u8 = Reason::Last as u8;

pub const DIFFERS: u8 = Reason::Differs as u8;

// The greatest alphabet, the greatest length of a row or array, the greatest n that is counted, and the letter a.
pub const LETTERS: usize = 26;

pub const LIMIT: usize = 4096;

pub const COUNT_LIMIT: usize = 20;

pub const FIRST_LETTER: u8 = b'a';

// What comes back: a number and its place. 0 at place 0 is done; any other number says why something is refused, and the place where.
// Stays: other programs read number and place by these names. Inside the library it is `Result<(), Refusal>`.
#[derive(Clone, Copy)]
pub struct Answer {
    pub number: u8,
    pub place: usize,
}

impl Answer {
    pub const DONE: Answer = Answer {
        number: DONE,
        place: 0,
    };
}

// Why something is refused, and the place where; 0 where there is none.
#[derive(Clone, Copy, PartialEq, Eq)]
pub struct Refusal {
    pub reason: Reason,
    pub place: usize,
}

impl From<Reason> for Refusal {
    ghost from_gives = { λ why r. (r.reason ≡ why) × (r.place ≡ 0) };

    fn from(why: Reason) -> Refusal {
        Refusal {
            reason: why,
            place: 0,
        }
    }
}

impl From<Refusal> for Answer {
    ghost from_gives = { λ r a. (a.number, a.place) ≡ refused r };

    fn from(r: Refusal) -> Answer {
        Answer {
            number: r.reason as u8,
            place: r.place,
        }
    }
}

impl From<Result<(), Refusal>> for Answer {
    ghost from_gives = { λ r a. (a.number, a.place) ≡ outcome r };

    fn from(r: Result<(), Refusal>) -> Answer {
        match r {
            Ok(()) => Answer::DONE,
            Err(refusal) => Answer::from(refusal),
        }
    }
}

// A number of a lent table as a size.
// Stays: a public function of a crate that callers list. Inside the library it is `usize::from`.
pub fn wide(x: u16) -> usize
    ensures { (result ≡ x) × (result < 65536) }
{
    usize::from(x)
}
