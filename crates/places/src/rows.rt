// Rows: what is found for an element's item while its table is measured and walked.
//
// A row's first octet and its strides are cut at 65,536, which is past every image.
ghost use Rattle.std.specs.Prelude.{◌≡◌, ◌<◌, ◌≤◌, length};
ghost use Rattle.places.specs.Rows.{cut, Few, alone, onward_by, with_array, reached_by};

use basics::least;
use meaning::ElementName;

// An ARRAY round an element: its count, and how far its elements stand apart.
#[derive(Clone, Copy)]
pub struct Level {
    pub count: u32,
    pub stride: u32,
}

// The ARRAYs round an element, outside in, and how many there are: four places, as memory is fixed.
// Places past the depth mean nothing.
#[derive(Clone, Copy)]
pub struct Arrays {
    pub depth: usize,
    pub levels: [Level; 4],
}

// What is found for an element's item: where its first element stands, how long it is, and the ARRAYs
// round it. An item that doesn't stand here has no row.
#[derive(Clone, Copy)]
pub struct Row {
    pub first: usize,
    pub length: usize,
    pub arrays: Arrays,
}

// A size, or 65,536 for any that is past every image.
pub(crate) fn cut(size: usize) -> usize
    ensures { result ≡ cut size }
{
    least(size, 65536)
}

impl Row {
    // A row at the first octet, with no ARRAYs.
    pub(crate) fn alone(length: usize) -> Row
        ensures { result ≡ alone length }
    {
        Row {
            first: 0,
            length,
            arrays: Arrays {
                depth: 0,
                levels: [Level {
                    count: 0,
                    stride: 0,
                }; 4],
            },
        }
    }

    // So many octets further on.
    pub(crate) fn onward(self, by: usize) -> Row
        ensures { result ≡ onward_by by self }
    {
        Row {
            first: cut(cut(by) + cut(self.first)),
            ..self
        }
    }

    // Inside one ARRAY more.
    pub(crate) fn in_array(self, count: u32, stride: usize) -> Row
        requires { (stride ≤ 65536) × Few 3 self.arrays }
        ensures { result ≡ with_array count stride self }
    {
        let Arrays { depth, levels } = self.arrays;
        let outer = Level {
            count,
            stride: stride as u32,
        };
        Row {
            arrays: Arrays {
                depth: depth + 1,
                levels: [outer, levels[0], levels[1], levels[2]],
            },
            ..self
        }
    }
}

// Where the element of these subscripts stands: one for each ARRAY, each below its count; none if they are others.
pub(crate) fn reached(first: usize, arrays: Arrays, name: ElementName) -> Option<usize>
    requires { Few 4 arrays × (length name.subscripts ≡ 4) }
    ensures { result ≡ reached_by first arrays name }
{
    let Arrays { depth, levels } = arrays;
    if name.count != depth {
        return None;
    }
    let mut octet = cut(first);
    for (level, subscript) in levels[..depth].iter().zip(name.subscripts.iter()) {
        if level.count as usize <= *subscript {
            return None;
        }
        octet = cut(octet + cut(*subscript * level.stride as usize));
    }
    Some(octet)
}
