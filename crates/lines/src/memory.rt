// The memory that the program lends itself. Each piece is made by a call (zeros), so that a proof about its
// length goes by its type, and never by its hundreds of thousands of octets.

// What is read at a time.
pub const CHUNK: usize = 65536;
// The longest line that is taken, and one octet more, by which a longer line is told.
pub const LINE: usize = 300001;
// The longest reply that any row could have: six numbers, a part of the image, the matrix or a
// message, and the image, both in hex.
pub const REPLY: usize = 900131;
// The octets of a description, an image, what is to be written or a message: no line that is taken
// has hex digits for more.
pub const OCTETS: usize = 150000;

// So many octets of 0.
pub fn zeros<const N: usize>() -> [u8; N] {
    [0u8; N]
}

// What a line is answered in: room for its reply, and for the octets of D, M and DATA.
#[derive(Drop)]
pub struct Memory {
    pub reply: [u8; REPLY],
    pub description: [u8; OCTETS],
    pub image: [u8; OCTETS],
    pub given: [u8; OCTETS],
}

impl Memory {
    pub fn new() -> Memory {
        Memory {
            reply: zeros(),
            description: zeros(),
            image: zeros(),
            given: zeros(),
        }
    }
}
