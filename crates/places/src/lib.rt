// Lay the image out; where a table is, or two of them; where an element is; whether a range of a
// table holds an octet of a dimension. Each public call walks the image once.
//
// Any description and any image get an answer: the place, or the refusal, of which 1 to 9 come
// before any other. No memory is written. The definitions lay out element by element; the code goes
// over the description's items once, and finds for an element's item a row, of which the place of
// any of its elements is told by arithmetic. Why there is no such element is told by the items before
// its own, which are looked at once more then. Description and image, and a table's two numbers, come apart,
// since the public calls are so stated (docs/STATEMENTS.md, crates/unique).
#![tactic(auto)]

mod measure;
mod rows;
mod survey;
mod walk;
mod why;

ghost use Rattle.std.specs.Prelude.{◌≡◌, IfSome, length};
ghost use Rattle.meaning.specs.Refusals.{layout_reply, table_place_reply, element_place_in, element_place_reply, integer_place_reply, open_image};
ghost use Rattle.places.specs.Rows.{Few};
ghost use Rattle.places.specs.Opening.{found_by, nothing_asked, found_place, range_in};

use meaning::{ElementName, Location, Place, Refusal, Reply, TableName};
use offsets::{TableOffset, TableStart};
use rows::{Row, reached};
use survey::{Answer, Asked, Standing, TableSpot, open_image};
use why::{suits, why_none};

// Where two tables are.
#[derive(Clone, Copy)]
pub struct Places {
    pub first: Place,
    pub second: Place,
}

// A table that a range may lie in: its item, where it starts, how long it is, and whether the range
// lies in it and holds an octet of a dimension. No TableSpot inside: the definition (range_in) has these fields.
#[derive(Clone, Copy)]
pub struct RangeTable {
    pub item: usize,
    pub start: TableStart,
    pub length: usize,
    pub held: bool,
}

// Where the element of that name stands, by its item's row, if it suits what is asked.
#[tactic(auto, unfolding(crate::specs::Opening::found_by, crate::specs::Opening::standing_found, crate::specs::Opening::spot_found, crate::specs::Rows::spot_by, crate::specs::Rows::spot_at))]
fn found_by(element: Option<Standing>, name: ElementName, suits: bool) -> Option<Location>
    requires { IfSome element (λ e. Few 4 e.row.arrays) }
    ensures { (result ≡ found_by suits element name) × (length name.subscripts ≡ 4) }
{
    if !suits {
        return None;
    }
    let Standing { start, row } = element?;
    let Row {
        first,
        length,
        arrays,
    } = row;
    let octet = reached(first, arrays, name)?;
    Some(Location {
        start: start.in_image(TableOffset::new(octet)),
        length,
    })
}

// Where the table found is, or none.
#[tactic(auto, unfolding(crate::specs::Opening::found_place))]
fn place_of_table(table: Option<TableSpot>) -> Place
    ensures { result ≡ found_place table }
{
    let TableSpot { start, length, .. } = table.ok_or(Refusal::NO_TABLE)?;
    Ok(Location {
        start: start.in_image(TableOffset::new(0)),
        length,
    })
}

// For those who ask for less: table 0 of the standard, item 0, no octets. No Options: one walk finds it all,
// and what wasn't asked for isn't looked at.
fn nothing_asked() -> Asked
    ensures { result ≡ nothing_asked }
{
    let name = TableName {
        manufacturer: 0,
        number: 0,
    };
    Asked {
        first: name,
        second: name,
        item: 0,
        from: TableOffset::new(0),
        octets: 0,
    }
}

// Where an element is, or why there is none; of one whose number is asked, or not: a bool, as the definitions
// (element_place_in, suits, why_none) take it.
fn place_or_why(description: &[u8], image: &[u8], name: ElementName, number: bool) -> Place
    ensures { result ≡ element_place_in number description.now name (open_image description.now image.now) }
{
    let asked = Asked {
        item: name.item,
        ..nothing_asked()
    };
    let Answer {
        numbers,
        element,
        ..
    } = open_image(description, image, asked)?;
    found_by(element, name, suits(description, name, number)).ok_or_else(|| why_none(
        description,
        numbers,
        name,
        number,
    ))
}

// THE PUBLIC CALLS
// Each is stated by a clause and a theorem of crate unique of its own; what two of them share is one function
// above.

// Lays the image out: the total of octets used.
pub fn layout(description: &[u8], image: &[u8]) -> Reply
    ensures { result ≡ layout_reply description.now image.now }
{
    let answer = open_image(description, image, nothing_asked())?;
    Ok(meaning::Answer::Total(answer.total))
}

// Where two tables start, and how long they are.
pub fn table_places(
    description: &[u8],
    image: &[u8],
    manufacturer: u32,
    number: u32,
    other_manufacturer: u32,
    other_number: u32,
) -> Places
    ensures { (result.first ≡ table_place_reply description.now image.now manufacturer number) × (result.second ≡ table_place_reply description.now image.now other_manufacturer other_number) }
{
    let asked = Asked {
        first: TableName {
            manufacturer,
            number,
        },
        second: TableName {
            manufacturer: other_manufacturer,
            number: other_number,
        },
        ..nothing_asked()
    };
    match open_image(description, image, asked) {
        Err(r) => Places {
            first: Err(r),
            second: Err(r),
        },
        Ok(Answer { first, second, .. }) => Places {
            first: place_of_table(first),
            second: place_of_table(second),
        },
    }
}

// Where a table starts, and how long it is.
pub fn table_place(description: &[u8], image: &[u8], manufacturer: u32, number: u32) -> Place
    ensures { result ≡ table_place_reply description.now image.now manufacturer number }
{
    let places = table_places(
        description,
        image,
        manufacturer,
        number,
        manufacturer,
        number,
    );
    places.first
}

// Where an element is: its first octet in the image, and its length.
#[tactic(auto, unfolding(meaning::specs::Refusals::element_place_reply))]
pub fn element_place(description: &[u8], image: &[u8], name: ElementName) -> Place
    ensures { result ≡ element_place_reply description.now image.now name }
{
    place_or_why(description, image, name, false)
}

// Where an element is whose number is asked: of a UINT alone.
#[tactic(auto, unfolding(meaning::specs::Refusals::integer_place_reply))]
pub fn integer_place(description: &[u8], image: &[u8], name: ElementName) -> Place
    ensures { result ≡ integer_place_reply description.now image.now name }
{
    place_or_why(description, image, name, true)
}

// The table that a range may lie in, and whether the range holds an octet of a dimension.
pub fn range_in(
    description: &[u8],
    image: &[u8],
    manufacturer: u32,
    number: u32,
    from: TableOffset,
    octets: usize,
) -> Result<RangeTable, Refusal>
    ensures { result ≡ range_in manufacturer number from octets (open_image description.now image.now) }
{
    let asked = Asked {
        first: TableName {
            manufacturer,
            number,
        },
        from,
        octets,
        ..nothing_asked()
    };
    let Answer { first, held, .. } = open_image(description, image, asked)?;
    let TableSpot {
        item,
        start,
        length,
    } = first.ok_or(Refusal::NO_TABLE)?;
    Ok(RangeTable {
        item,
        start,
        length,
        held,
    })
}
