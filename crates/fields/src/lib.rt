// Numbers between tabs, and a line of a word and numbers: written, and counted before a byte is written. Each writer gets the part of the buffer from the
// current end onward and answers how many bytes it wrote.
#![tactic(auto)]

ghost use Rattle.std.specs.Prelude.{◌≡◌, [], ◌∷◌, ◌+◌, ◌≤◌, ◌<◌, length};
ghost use Rattle.words.specs.Numbers.{limit};
ghost use Rattle.words.specs.Sheet.{decimal, fields, line};
ghost use Rattle.fields.specs.Writing.{Put};

pub fn byte(out: &mut [u8], b: u8) -> usize
    requires { 0 < length out.old }
    ensures { Put (b ∷ []) out.old out.new result }
{
    out[0] = b;
    1
}

// A digit, as a byte.
// Stays: one place for both calls; std has `char::from_digit` alone, an Option of a char.
fn digit(n: usize) -> u8
    requires { n < 10 }
    ensures { result ≡ 48 + n }
{
    b'0' + n as u8
}

// A number in decimal.
// Stays: DECISIONS, "The forms": a writer gets the part of the buffer from the current end onward and answers how many bytes it wrote; `write!` answers none.
fn number(out: &mut [u8], n: usize) -> usize
    requires { length (decimal n) ≤ length out.old }
    ensures { Put (decimal n) out.old out.new result }
{
    if n < 10 {
        byte(out, digit(n))
    } else {
        let at = number(out, n / 10);
        at + byte(&mut out[at..], digit(n % 10))
    }
}

// A tab and a number.
pub fn field(out: &mut [u8], n: usize) -> usize
    requires { length (9 ∷ decimal n) ≤ length out.old }
    ensures { Put (9 ∷ decimal n) out.old out.new result }
{
    let at = byte(out, b'\t');
    at + number(&mut out[at..], n)
}

// The bytes of a word.
pub fn word(out: &mut [u8], bytes: &[u8]) -> usize
    requires { length bytes.now ≤ length out.old }
    ensures { Put bytes.now out.old out.new result }
{
    out[..bytes.len()].copy_from_slice(bytes);
    bytes.len()
}

// A tab before each number, byte 10 at the end.
fn numbers(out: &mut [u8], list: &[u16]) -> usize
    requires { length (fields list.now) ≤ length out.old }
    ensures { Put (fields list.now) out.old out.new result }
{
    let mut at = 0;
    for &number in list {
        at += field(&mut out[at..], usize::from(number));
    }
    at + byte(&mut out[at..], b'\n')
}

// A line of a word and numbers.
#[tactic(auto, unfolding(words::specs::Sheet::line))]
pub fn list_line(out: &mut [u8], label: &[u8], list: &[u16]) -> usize
    requires { length (line (record { word = label.now; numbers = list.now })) ≤ length out.old }
    ensures { Put (line (record { word = label.now; numbers = list.now })) out.old out.new result }
{
    let at = word(out, label);
    at + numbers(&mut out[at..], list)
}

// How many digits n has.
// Stays: by `ilog10` a sheet took up to 1.9 times as long.
#[tactic(auto, using(crate::proofs::Fields::width_end, crate::proofs::Fields::width_more, crate::proofs::Fields::width_low))]
pub fn width(n: usize) -> usize
    ensures { (result ≡ length (decimal n)) × (result ≤ 20) }
{
    if n < 10 { 1 } else { width(n / 10) + 1 }
}

// How long the numbers are as text: a tab and the digits of each, and byte 10.
fn numbers_len(list: &[u16]) -> usize
    requires { length list.now ≤ limit }
    ensures { (result ≡ length (fields list.now)) × (result < 90000) }
{
    let widths: usize = list
        .iter()
        .map(|&number| width(usize::from(number)) + 1)
        .sum();
    widths + 1
}

// How long a line of a word and numbers is.
#[tactic(auto, unfolding(words::specs::Sheet::line))]
pub fn list_len(label: &[u8], list: &[u16]) -> usize
    requires { (length label.now ≤ 7) × (length list.now ≤ limit) }
    ensures { (result ≡ length (line (record { word = label.now; numbers = list.now }))) × (result < 100000) }
{
    label.len() + numbers_len(list)
}
