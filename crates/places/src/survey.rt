// The whole image: its tables walked one after another, and what is asked for found on the way.
//
// 1 to 9 come before any answer. Nothing is written.
ghost use Rattle.std.specs.Prelude.{◌≡◌};
ghost use Rattle.meaning.specs.Layout.{lay_out};
ghost use Rattle.meaning.specs.Refusals.{open_laid, open_image};
ghost use Rattle.places.specs.Surveying.{is_first, seat_in, held_after, TableReady, TableAs, SurveyReady, AnswerAs};

use crate::rows::Row;
use crate::walk::{Aim, Walk, walk_body};
use basics::ends_within;
use items::{Cursor, Read};
use meaning::{Fields, Refusal, TableName};
use offsets::{TableOffset, TableStart};

// Where a table is: its item, where it starts, how long it is.
#[derive(Clone, Copy)]
pub struct TableSpot {
    pub item: usize,
    pub start: TableStart,
    pub length: usize,
}

// What is asked for: two tables, the row of an item, and whether so many octets of the first table,
// from `from` on, hold an octet of a dimension.
#[derive(Clone, Copy)]
pub struct Asked {
    pub first: TableName,
    pub second: TableName,
    pub item: usize,
    pub from: TableOffset,
    pub octets: usize,
}

// A row, and where the table starts that its octets are counted in.
#[derive(Clone, Copy)]
pub struct Standing {
    pub start: TableStart,
    pub row: Row,
}

// The image opened: the total, the numbers of the slots, where the tables asked for are, the row of the
// item, and whether those octets lie in the first table and hold one of a dimension.
#[derive(Clone, Copy)]
pub struct Answer {
    pub total: usize,
    pub numbers: [u32; 64],
    pub first: Option<TableSpot>,
    pub second: Option<TableSpot>,
    pub element: Option<Standing>,
    pub held: bool,
}

// Tables laid one after another: the numbers of the slots, where the next table starts and its item,
// and what of that asked for is found among those laid. No Answer inside: it has no total yet.
#[derive(Clone, Copy)]
pub struct Survey {
    pub numbers: [u32; 64],
    pub start: TableStart,
    pub next: Cursor,
    pub first: Option<TableSpot>,
    pub second: Option<TableSpot>,
    pub element: Option<Standing>,
    pub held: bool,
}

// Whether a table is the one of that name, and none was found before. Number by number: the fields hold a
// name's two numbers apart, and a derived == would need one built first.
#[tactic(auto, unfolding(crate::specs::Surveying::is_first))]
fn is_first(before: Option<TableSpot>, h: Fields, name: TableName) -> bool
    ensures { result ≡ is_first before h name }
{
    match before {
        Some(_) => false,
        None => h.manufacturer == name.manufacturer && h.number == name.number,
    }
}

// The table found before, or this one, if it is the one asked for.
#[tactic(auto, unfolding(crate::specs::Surveying::seat_in))]
fn seat(before: Option<TableSpot>, this: bool, table: TableSpot) -> Option<TableSpot>
    ensures { result ≡ seat_in before this table }
{
    if this {
        return Some(table);
    }
    before
}

// Whether the octets asked about hold one of a dimension: told by the walk over their table, if they
// lie in it.
#[tactic(auto, unfolding(crate::specs::Surveying::held_after))]
fn held_after(before: bool, this: bool, fits: bool, held: bool) -> bool
    ensures { result ≡ held_after before this fits held }
{
    if this {
        return fits && held;
    }
    before
}

// The next table laid, or the refusal of an image that is short in it.
fn survey_table(d: &[u8], image: &[u8], asked: Asked, s: Survey) -> Result<Survey, Refusal>
    requires { TableReady d.now image.now asked s }
    ensures { TableAs d.now image.now asked s result }
{
    let Survey {
        numbers,
        start,
        next: place,
        first,
        second,
        element,
        held,
    } = s;
    let Read { fields: h, next } = place.read(d);
    let this = is_first(first, h, asked.first);
    let that = is_first(second, h, asked.second);
    let aim = Aim {
        start,
        wanted: asked.item,
        from: asked.from,
        octets: asked.octets,
    };
    let before = Walk {
        numbers,
        octets: TableOffset::new(0),
        row: None,
        held: false,
        next,
    };
    let w = walk_body(d, image, aim, &before, next, h.first, 4)?;
    let Walk {
        numbers,
        octets,
        row,
        held: holds,
        ..
    } = w;
    let length = octets.octets();
    let table = TableSpot {
        item: place.item(),
        start,
        length,
    };
    let fits = ends_within(asked.from.octets(), asked.octets, length);
    Ok(Survey {
        numbers,
        start: start.after(length),
        next: next.past(h.first),
        first: seat(first, this, table),
        second: seat(second, that, table),
        element: element.or(row.map(|row| Standing { start, row })),
        held: held_after(held, this, fits, holds),
    })
}

// All tables laid, one after another from octet 0.
fn survey_image(d: &[u8], image: &[u8], asked: Asked) -> Result<Answer, Refusal>
    requires { SurveyReady d.now image.now }
    ensures { AnswerAs d.now image.now asked result (open_laid (lay_out d.now image.now)) }
{
    let items = d.len() / 4;
    let start = TableStart::first();
    let mut s = Survey {
        numbers: [0u32; 64],
        start,
        next: Cursor::first(),
        first: None,
        second: None,
        element: None,
        held: false,
    };
    // The next table is past all items of this one, so no range tells it.
    while s.next.item() < items {
        s = survey_table(d, image, asked, s)?;
    }
    let Survey {
        numbers,
        start,
        first,
        second,
        element,
        held,
        ..
    } = s;
    let end = start.in_image(TableOffset::new(0));
    Ok(Answer {
        total: end.octet(),
        numbers,
        first,
        second,
        element,
        held,
    })
}

// What one walk tells, to whoever asks. 1 to 9 come first: the description is checked, and the
// image's length; then the image is laid out.
pub(crate) fn open_image(d: &[u8], image: &[u8], asked: Asked) -> Result<Answer, Refusal>
    ensures { AnswerAs d.now image.now asked result (open_image d.now image.now) }
{
    sound::check(d)?;
    if 65535 < image.len() {
        return Err(Refusal::IMAGE_TOO_LONG);
    }
    survey_image(d, image, asked)
}
