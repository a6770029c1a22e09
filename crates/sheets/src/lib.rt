// The sheet: its five lines, each written into the buffer behind the one before, where there is room for all.
#![tactic(auto)]

ghost use Rattle.std.specs.Prelude.{◌≡◌, ◌+◌, ◌*◌, ◌≤◌, ◌<◌, length};
ghost use Rattle.words.specs.Lists.{at};
ghost use Rattle.words.specs.Rows.{Small};
ghost use Rattle.words.specs.Numbers.{limit};
ghost use Rattle.words.specs.Refusals.{sized};
ghost use Rattle.words.specs.Sheet.{fields, line, text};
ghost use Rattle.fields.specs.Writing.{Put};
ghost use Rattle.sheets.specs.Written.{written};
ghost use Rattle.sheets.specs.Tables.{periods_line, table_lines};

use fields::{byte, field, list_len, list_line, width, word};
use words::Reason;

// What a sheet tells of a row: its length and alphabet, its tables, and its looks.
#[derive(Clone, Copy)]
struct Tables<'t> {
    cards: u16,
    alphabet: u16,
    echoes: &'t [u16],
    reaches: &'t [u16],
    looks: u16,
    ghost small: { Small (at echoes.now) (length echoes.now) },
    ghost within: { (length echoes.now ≤ limit) × (length reaches.now ≤ limit) },
}

impl Tables<'_> {
    ghost use Rattle.sheets.specs.Lines.{lines_of, periods_from};

    // The periods along the chain from b on: a walk that calls itself on the next echo.
    fn walk(&self, out: &mut [u8], b: usize) -> usize
        requires { (b ≤ length self.now.echoes.now) × (length (fields (periods_from self.now b)) ≤ length out.old) }
        ensures { Put (fields (periods_from self.now b)) out.old out.new result }
    {
        if b == 0 {
            byte(out, b'\n')
        } else {
            let at = field(out, self.echoes.len() - b);
            at + self.walk(&mut out[at..], rows::echo_at(self.echoes, b))
        }
    }

    // The echo of the last place; 0 where there is none, as `at` says.
    #[tactic(auto, using(crate::proofs::Periods::at_last, crate::proofs::Periods::last_low))]
    fn last_echo(&self) -> usize
        ensures { (result ≡ at self.now.echoes.now (length self.now.echoes.now)) × (result ≤ length self.now.echoes.now) }
    {
        self.echoes.last().map_or(0, |&b| usize::from(b))
    }

    // The line of the periods.
    #[tactic(auto, unfolding(words::specs::Sheet::line, rows::specs::Reach::periods_of, crate::specs::Tables::periods_line))]
    fn periods_line(&self, out: &mut [u8]) -> usize
        requires { length (line (periods_line self.now.echoes.now)) ≤ length out.old }
        ensures { Put (line (periods_line self.now.echoes.now)) out.old out.new result }
    {
        let at = word(out, b"periods");
        at + self.walk(&mut out[at..], self.last_echo())
    }

    // The sheet, each line behind the one before.
    // Stays: DECISIONS, "The forms": each line is written into the part of the buffer from the current end onward, and its bytes are counted.
    #[tactic(auto, using(crate::proofs::Lines::text_five), unfolding(crate::specs::Tables::table_lines))]
    fn all_lines(&self, out: &mut [u8]) -> usize
        requires { length (text (lines_of self.now)) ≤ length out.old }
        ensures { Put (text (lines_of self.now)) out.old out.new result }
    {
        let mut at = list_line(out, b"sheet", &[self.cards, self.alphabet]);
        at += list_line(&mut out[at..], b"echo", self.echoes);
        at += list_line(&mut out[at..], b"reach", self.reaches);
        at += self.periods_line(&mut out[at..]);
        at += list_line(&mut out[at..], b"looks", &[self.looks]);
        at
    }

    // The lengths, counted before the first byte is written. Their bounds are wide: they keep the sums within 64 bits.

    // How long the periods are as text, along the chain from b on.
    #[tactic(auto, using(crate::proofs::Periods::walk_counts))]
    fn walk_len(&self, b: usize) -> usize
        requires { b ≤ length self.now.echoes.now }
        ensures { (result ≡ length (fields (periods_from self.now b))) × (result ≤ 21 * b + 1) }
    {
        if b == 0 {
            1
        } else {
            let width = width(self.echoes.len() - b);
            self.walk_len(rows::echo_at(self.echoes, b)) + width + 1
        }
    }

    // How long the line of the periods is.
    #[tactic(auto, unfolding(words::specs::Sheet::line, rows::specs::Reach::periods_of, crate::specs::Tables::periods_line))]
    fn periods_len(&self) -> usize
        ensures { (result ≡ length (line (periods_line self.now.echoes.now))) × (result < 100000) }
    {
        b"periods".len() + self.walk_len(self.last_echo())
    }

    // How long the sheet is.
    #[tactic(auto, using(crate::proofs::Lines::text_five), unfolding(crate::specs::Tables::table_lines))]
    fn all_len(&self) -> usize
        ensures { result ≡ length (text (lines_of self.now)) }
    {
        list_len(b"sheet", &[self.cards, self.alphabet])
            + list_len(b"echo", self.echoes)
            + list_len(b"reach", self.reaches)
            + self.periods_len()
            + list_len(b"looks", &[self.looks])
    }
}

// Writes the sheet where the buffer has room for it, and answers how long it is; else nothing.
// Stays: a public function's inputs; `Tables`, which it makes of them, is private.
#[tactic(auto, using(crate::proofs::Lines::written_room, crate::proofs::Lines::written_done))]
pub fn write(
    out: &mut [u8],
    cards: u16,
    alphabet: u16,
    echoes: &[u16],
    reaches: &[u16],
    looks: u16,
) -> Result<usize, Reason>
    requires { Small (at echoes.now) (length echoes.now) × (length echoes.now ≤ limit) × (length reaches.now ≤ limit) }
    ensures { let s = sized result in (s.0, s.1, out.new) ≡ written (text (table_lines cards alphabet echoes.now reaches.now looks)) out.old }
{
    let tables = Tables {
        cards,
        alphabet,
        echoes,
        reaches,
        looks,
    };
    if out.len() < tables.all_len() {
        return Err(Reason::Room);
    }
    Ok(tables.all_lines(out))
}
