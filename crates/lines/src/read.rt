// What a line asks: the octets of D, M and DATA, the numbers, and what numbers name.
ghost use Rattle.std.specs.Prelude.{◌≡◌, ℕ, ◌≤◌, length, get_or, take};
ghost use Rattle.words.specs.Line.{line_words, split_of};
ghost use Rattle.lines.specs.Answer.{nth, word_if, element_of, moment_of, tier_limits, date_of, date_limits};
ghost use Rattle.lines.specs.Read.{OfSeven, numbers_of, PartRead, AskedRead};

use crate::memory::{Memory, OCTETS};
use crate::rows::Form;
use meaning::{Date, ElementName, Moment, TableName};
use words::Words;

// A line that is taken, and where its words are.
#[derive(Clone, Copy)]
pub struct Line<'a> {
    text: &'a [u8],
    words: Words,
    ghost is_split: { words ≡ split_of text.now },
    ghost short: { length text.now ≤ 300000 },
}

impl<'a> Line<'a> {
    pub fn new(text: &'a [u8]) -> Line<'a>
        requires { length text.now ≤ 300000 }
        ensures { result.text.now ≡ text.now }
    {
        let words = words::split(text);
        Line { text, words }
    }

    // Word k; no octets where there is no word k.
    pub fn word(self, k: usize) -> &'a [u8]
        ensures value { result.now ≡ nth (line_words self.entry.text.now) k }
        ensures short { length result.now ≤ 300000 }
    {
        words::word(self.text, self.words, k)
    }
}

// What a line of a form asks: how many octets D, M and DATA have, and the numbers. Lengths and no slices: the
// octets stand in the memory lent, of which M is written to.
#[derive(Clone, Copy)]
pub struct Asked {
    pub d: usize,
    pub m: usize,
    pub given: usize,
    pub numbers: [u64; 7],
}

// What a line lends the row that it asks for, beside the image: the octets of D, the numbers and the
// octets of DATA. That the numbers are within the row's limits is a clause, `Within`, as it speaks of the
// row too.
#[derive(Clone, Copy)]
pub struct Operands<'a> {
    pub d: &'a [u8],
    pub numbers: [u64; 7],
    pub given: &'a [u8],
}

// The numbers from a word on, as many as count, each at most what stands for it in most, and 0
// behind the last; None where one is no number or too large. By index: word, limit and value go by one number.
fn read_numbers(line: Line<'_>, from: usize, count: usize, most: [u64; 7]) -> Option<[u64; 7]>
    requires from_bound { (from ≤ 3) × OfSeven count most }
    ensures { result ≡ numbers_of (line_words line.entry.text.now) from (take count most) }
{
    let mut values = [0u64; 7];
    for i in 0..count {
        values[i] = words::number(line.word(from + i), most[i])?;
    }
    Some(values)
}

// How many octets word k has, where the form has it, with them at the start of out, which has room
// for them: an octet is two digits of the line. None where it is no word of octets. `there` is the form's own
// flag, as the definition (word_if) has it.
fn read_octets(line: Line<'_>, k: usize, there: bool, out: &mut [u8; OCTETS]) -> Option<usize>
    ensures { PartRead (word_if there (nth (line_words line.entry.text.now) k)) out.new result }
{
    if !there {
        return Some(0);
    }
    words::octets(line.word(k), out)
}

// Reads all that a line of this form asks; None where it is not of the form.
pub fn read_asked(line: Line<'_>, form: Form, memory: &mut Memory) -> Option<Asked>
    requires lent_bound { (form.lent ≤ 2) × OfSeven form.numbers form.most }
    ensures read { AskedRead form (line_words line.entry.text.now) memory.new.description memory.new.image memory.new.given result }
    ensures same_reply { memory.new.reply ≡ memory.old.reply }
{
    if line.words.count != form.words {
        return None;
    }
    let lent = form.lent;
    let count = form.numbers;
    let most = form.most;
    let from = 1 + lent;
    let d = read_octets(line, 1, 0 < lent, &mut memory.description)?;
    let m = read_octets(line, 2, 1 < lent, &mut memory.image)?;
    let numbers = read_numbers(line, from, count, most)?;
    let given = read_octets(line, from + count, form.given, &mut memory.given)?;
    Some(Asked {
        d,
        m,
        given,
        numbers,
    })
}

// What numbers name, in the order of this program's lines: so they are no `From` of crate meaning, and all but
// an element's ask that the numbers be within limits, which a `From` can't ask.

// A table by its two numbers.
pub fn table(n: [u64; 7]) -> TableName
    requires n_bound { get_or n 0 0 ≤ 1 }
    requires n_bound_2 { get_or n 1 0 ≤ 65535 }
    ensures { result ≡ record { manufacturer = get_or n 0 0; number = get_or n 1 0 } }
{
    TableName {
        manufacturer: n[0] as u32,
        number: n[1] as u32,
    }
}

// An element by its six numbers.
pub fn element(n: [u64; 7]) -> ElementName
    ensures { result ≡ element_of n }
{
    ElementName {
        item: n[0] as usize,
        count: n[1] as usize,
        subscripts: [n[2] as usize, n[3] as usize, n[4] as usize, n[5] as usize],
    }
}

// A moment by its numbers, each within its limit; what is asked for stands behind them.
pub fn moment(n: [u64; 7]) -> Moment
    requires { (i : ℕ) → get_or n i 0 ≤ get_or tier_limits i 0 }
    ensures { result ≡ moment_of n }
{
    Moment {
        year: n[0] as u32,
        month: n[1] as u32,
        day: n[2] as u32,
        hour: n[3] as u32,
        minute: n[4] as u32,
    }
}

// A date by its numbers, each within its limit.
pub fn date(n: [u64; 7]) -> Date
    requires { (i : ℕ) → get_or n i 0 ≤ get_or date_limits i 0 }
    ensures { result ≡ date_of n }
{
    Date {
        year: n[0] as u32,
        month: n[1] as u32,
        day: n[2] as u32,
    }
}
