// Octets counted apart: from a table's first octet, and from the image's.
//
// No field is public, so neither can be made from the other, or opened in its place: the one
// function that takes an offset in a table to one in the image belongs to the table's start. Table
// starts come from one another, the first at octet 0, as tables follow one another. Nothing is
// asked of any number: a sum that can't be counted stands at the last number that can.
#![tactic(auto)]

ghost use Rattle.std.specs.Prelude.{◌≡◌, ◌+◌, min};

// A place in a table, counted from the table's first octet.
#[derive(Clone, Copy)]
pub struct TableOffset(usize);

// A place in the image, counted from the image's first octet.
#[derive(Clone, Copy)]
pub struct ImageOffset(usize);

// Where a table starts in the image.
#[derive(Clone, Copy)]
pub struct TableStart(usize);

impl TableOffset {
    pub fn new(octets: usize) -> TableOffset
        ensures { result.0 ≡ octets }
    {
        TableOffset(octets)
    }

    pub fn octets(self) -> usize
        ensures { result ≡ self.0 }
    {
        self.0
    }
}

impl ImageOffset {
    pub fn octet(self) -> usize
        ensures { result ≡ self.0 }
    {
        self.0
    }
}

impl TableStart {
    // Tables start at octet 0.
    pub fn first() -> TableStart
        ensures { result.0 ≡ 0 }
    {
        TableStart(0)
    }

    // The start of the table after one that is `length` octets long.
    pub fn after(self, length: usize) -> TableStart
        ensures { result.0 ≡ min (self.0 + length) 18446744073709551615 }
    {
        TableStart(self.0.saturating_add(length))
    }

    // Where in the image an octet of this table stands.
    pub fn in_image(self, offset: TableOffset) -> ImageOffset
        ensures { result.0 ≡ min (self.0 + offset.0) 18446744073709551615 }
    {
        ImageOffset(self.0.saturating_add(offset.0))
    }
}
