// The words of a line: reading them and writing them.
//
// A line is words with exactly one space between. A number is decimal digits; octets are lower-case
// hex, two digits each, and the word `-` is no octets. No function has a `requires`: what a word is
// not is an answer, None; where a name is no word of a text, Err says how many words the text has; and
// a text that has no room is not put. Whether a word is a given name is asked by `check::same`, of the
// kit.
//
// What each function answers, and what it leaves in memory that it is lent, is said in specs/.
#![tactic(auto)]

mod decimal;
mod hex;
mod line;
mod reply;
mod types;

pub use decimal::number;
pub use hex::octets;
pub use line::{index_of, split, word};
pub use reply::{put_number, put_octet, put_octets, put_text};
pub use types::{Span, Words};
