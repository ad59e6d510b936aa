// Standard input, taken apart into lines. A line is gathered in memory that has room for one octet
// more than the longest line that is taken: of a longer line so many octets are held, and the rest
// is passed over.
ghost use Rattle.std.specs.Prelude.{◌≡◌, ◌≤◌, length, take};
ghost use Rattle.lines.specs.Input.{Held};

use crate::memory::{self, Memory};
use crate::reply;
use std::io::{Read, Write};

// The start of a line that has not ended: the octets that are held of it stand first in `octets`. A length
// beside the octets and no Vec, as memory is fixed.
#[derive(Drop)]
pub struct Gathered {
    octets: [u8; memory::LINE],
    held: usize,
    ghost held_fits: { held ≤ length octets },
}

impl Gathered {
    pub fn new() -> Gathered {
        Gathered {
            octets: memory::zeros(),
            held: 0,
        }
    }

    // Holds more octets behind those that are held, as many as there is room for.
    fn hold(&mut self, more: &[u8])
        ensures { Held self.old.octets self.old.held more.now self.new.octets self.new.held }
    {
        let n = more.len().min(self.octets.len() - self.held);
        self.held = words::put_text(&mut self.octets, self.held, &more[..n]);
    }

    // The octets that are held.
    fn text(&self) -> &[u8]
        ensures { result.now ≡ take self.now.held self.now.octets }
    {
        &self.octets[..self.held]
    }

    // Begins the next line.
    fn clear(&mut self)
        ensures { self.new.held ≡ 0 }
    {
        self.held = 0;
    }
}

// Answers a line, and whether its reply was written. A bool and no Result, here and below: why it wasn't is
// looked at by nothing, and it ends the run as the input's end does. What the program lends (output, chunk,
// line and memory) comes apart: the three are borrowed apart.
fn give<W: Write>(output: &mut W, line: &[u8], memory: &mut Memory) -> bool {
    let n = reply::answer(line, memory);
    output.write_all(&memory.reply[..n]).is_ok()
}

// Answers each line that ends in chunk, and holds what comes after the last of them; whether to go
// on. It stops at a reply that is not written, since the replies after it would answer other lines.
fn take_lines<W: Write>(
    output: &mut W,
    chunk: &[u8],
    line: &mut Gathered,
    memory: &mut Memory,
) -> bool {
    let mut rest = chunk;
    while let Some(end) = rest.iter().position(|b| *b == b'\n') {
        line.hold(&rest[..end]);
        if !give(output, line.text(), memory) {
            return false;
        }
        line.clear();
        rest = &rest[end + 1..];
    }
    line.hold(rest);
    true
}

// Reads once; whether to go on. Where the input ends, or cannot be read, a last line without line
// feed is answered.
fn read_some<R: Read, W: Write>(
    input: &mut R,
    output: &mut W,
    chunk: &mut [u8],
    line: &mut Gathered,
    memory: &mut Memory,
) -> bool {
    let n = input.read(chunk).unwrap_or(0);
    if n == 0 {
        let text = line.text();
        if !text.is_empty() {
            give(output, text, memory);
        }
        return false;
    }
    take_lines(output, &chunk[..n], line, memory)
}

// A proved loop has to end, and nothing says that the input does. So the loop counts its turns, up
// to a number that no run uses up.
pub fn run<R: Read, W: Write>(
    input: &mut R,
    output: &mut W,
    chunk: &mut [u8],
    line: &mut Gathered,
    memory: &mut Memory,
) {
    for _ in 0..u64::MAX {
        if !read_some(input, output, chunk, line, memory) {
            return;
        }
    }
}
