// A line as words.
ghost use Rattle.std.specs.Prelude.{◌≡◌, ◌+◌, ◌≤◌, [], length, drop};
ghost use Rattle.words.specs.Find.{first_of};
ghost use Rattle.words.specs.Line.{line_words, split_of, places_of, part_of, part_start, word_in, word_start, no_span, word_place};

use crate::types::{Span, Words};

// The place of the first space at or after `from`; the text's end where there is none, and no None: a word
// ends there either way.
fn find_space(text: &[u8], from: usize) -> usize
    requires { from ≤ length text.now }
    ensures value { result ≡ from + first_of 32 (drop from text.now) }
    ensures within { result ≤ length text.now }
{
    match text[from..].iter().position(|b| *b == b' ') {
        Some(before) => from + before,
        None => text.len(),
    }
}

// No part at all.
const NO_SPAN: Span = Span { start: 0, end: 0 };

// The answer for what is not a line of words, and no None: the definition (split_of) has it so, by which crate
// unique states that `split` has one reply.
fn no_words() -> Words
    ensures { result ≡ places_of [] }
{
    Words {
        count: 0,
        spans: [NO_SPAN; 40],
    }
}

// Where the line's words are; no words where one of them is empty or there are more than forty. One
// turn finds one word. By index: the word's number is asked for too.
pub fn split(line: &[u8]) -> Words
    ensures { result ≡ split_of line.now }
{
    let mut spans = [NO_SPAN; 40];
    let mut from = 0;
    for n in 0..40 {
        let end = find_space(line, from);
        if end == from {
            return no_words();
        }
        spans[n] = Span { start: from, end };
        if end == line.len() {
            return Words {
                count: n + 1,
                spans,
            };
        }
        from = end + 1;
    }
    no_words()
}

// The octets of a part, or none, and no None, where it does not stand inside the line, as the definition
// (part_of) has it. `get` of a range would be
// the same part, but promises nothing of where it stands, which the clause `place` does.
fn part(line: &[u8], span: Span) -> &[u8]
    ensures reply { result.now ≡ part_of line.now span }
    ensures place { result.ref_ptr ≡ (line.entry.ref_ptr.0, line.entry.ref_ptr.1 + part_start line.now span) }
{
    if span.end < span.start {
        return &line[0..0];
    }
    if line.len() < span.end {
        return &line[0..0];
    }
    &line[span.start..span.end]
}

// Word k of a line by the places that split answered for it; no octets, and no None, where there is no word k:
// so crate unique states it, by the definition word_in.
pub fn word(line: &[u8], places: Words, k: usize) -> &[u8]
    ensures reply { result.now ≡ word_in line.now places k }
    ensures place { result.ref_ptr ≡ (line.entry.ref_ptr.0, line.entry.ref_ptr.1 + word_start line.now places k) }
{
    let span = places.spans.get(k).copied().unwrap_or(NO_SPAN);
    part(line, span)
}

// Which word of a text a name is, counted from 0; where it is none of them, Err says how many words there are. By
// index, which is the answer.
pub fn index_of(name: &[u8], text: &[u8]) -> Result<usize, usize>
    ensures { result ≡ word_place name.now (line_words text.now) }
{
    let places = split(text);
    for k in 0..places.count {
        if check::same(name, word(text, places, k)) {
            return Ok(k);
        }
    }
    Err(places.count)
}
