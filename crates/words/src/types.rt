// What reading answers.

// A part of a line: its octets from start up to end.
#[derive(Clone, Copy)]
pub struct Span {
    pub start: usize,
    pub end: usize,
}

// The words of a line: word k is the part spans[k], for k below count. What is past count is empty. Memory is
// fixed, so there is a count beside the forty.
#[derive(Clone, Copy)]
pub struct Words {
    pub count: usize,
    pub spans: [Span; 40],
}
