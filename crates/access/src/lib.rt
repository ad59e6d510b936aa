// Reads and writes: a table, a range of it or an element as a part of the image, an element's number;
// a range of a table or the whole of it, an element's octets, its number written. The public calls
// stand at the end.
//
// Any description, image and question get an answer. Refusals 1 to 9 come first, then 10 or 22 to
// 26, then 12 to 15 in their order. A write's place is found before an octet is written, so a refused write changes none.
// Nothing is kept: each call lays the image out anew. Description and image, and a table's two numbers, come
// apart, since the public calls are so stated (docs/STATEMENTS.md, crates/unique).
#![tactic(auto)]

ghost use Rattle.std.specs.Prelude.{◌≡◌, ◌+◌, ◌^◌, ◌<◌, length, if◌then◌else◌};
ghost use Rattle.meaning.specs.Basics.{◌<?◌, ◌≤?◌, ◌=?◌};
ghost use Rattle.meaning.specs.Description.{item_count, is_table, is_dimension};
ghost use Rattle.meaning.specs.Refusals.{open_image, table_place_reply, element_place_reply, place_part, place_start, table_part_reply, element_part_reply, read_range_reply, read_range_part, element_number_reply, place_verdict, image_with, octets_place_in, number_place_in, write_range_reply, write_range_image, write_octets_reply, write_octets_image, write_number_reply, write_number_image};
ghost use Rattle.meaning.specs.Messages.{write_table_reply, write_table_image};
ghost use Rattle.access.specs.Access.{part_start, part_fits, place_to_write, SeenAs, allowed_by, fitted_by, element_to_write, FitsAt, Inside};

use basics::ends_within;
use items::Cursor;
use meaning::{Answer, ElementName, Fields, Kind, Location, Place, Refusal, Reply, Verdict};
use offsets::{ImageOffset, TableOffset};
use places::RangeTable;

// WHAT THE DESCRIPTION SAYS OF AN ITEM
// An item, and the table that it stands in: the latest TABLE before it.
#[derive(Clone, Copy)]
struct Seen {
    fields: Fields,
    table: Fields,
}

// The latest TABLE, once one more item is passed.
fn latest(fields: Fields, table: Fields) -> Fields
    ensures { result ≡ (if is_table fields then fields else table) }
{
    match fields.kind {
        Kind::Table => fields,
        _ => table,
    }
}

// Items are read one after another, up to the one asked for.
fn around(description: &[u8], item: usize) -> Seen
    requires { item < item_count description.now }
    ensures { SeenAs description.now item result }
{
    let mut read = Cursor::first().read(description);
    let mut table = read.fields;
    for _ in 0..item {
        table = latest(read.fields, table);
        read = read.next.read(description);
    }
    Seen {
        fields: read.fields,
        table,
    }
}

// WHERE A WRITE GOES
// 13, then 14: so many octets from `start` on, in a table that is writable or not, holding an octet
// of a dimension or not.
#[tactic(auto, unfolding(crate::specs::Access::allowed_by))]
fn allowed(writable: bool, held: bool, start: ImageOffset, octets: usize) -> Place
    ensures { result ≡ allowed_by writable held start octets }
{
    if !writable {
        return Err(Refusal::NOT_WRITABLE);
    }
    if held {
        return Err(Refusal::HOLDS_DIMENSION);
    }
    Ok(Location {
        start,
        length: octets,
    })
}

// What of a table is written: as many octets as there are from an offset in it on, or the whole of it.
#[derive(Clone, Copy)]
enum Part {
    Range(TableOffset),
    Whole,
}

impl Part {
    // Where it starts in the table.
    #[tactic(auto, unfolding(crate::specs::Access::part_start))]
    fn start(self) -> TableOffset
        ensures { result ≡ part_start self }
    {
        match self {
            Part::Range(offset) => offset,
            Part::Whole => TableOffset::new(0),
        }
    }

    // Whether so many octets are such a part of a table of that length.
    #[tactic(auto, unfolding(crate::specs::Access::part_fits))]
    fn fits(self, octets: usize, length: usize) -> bool
        ensures { result ≡ part_fits self octets length }
    {
        match self {
            Part::Range(offset) => ends_within(offset.octets(), octets, length),
            Part::Whole => octets == length,
        }
    }
}

// Where a part of a table is written: 10, 12, then 13 and 14. The table's start turns the offset in it
// into one in the image.
fn write_place(
    description: &[u8],
    image: &[u8],
    manufacturer: u32,
    number: u32,
    part: Part,
    octets: usize,
) -> Place
    ensures { result ≡ place_to_write part description.now image.now manufacturer number octets }
{
    let offset = part.start();
    let RangeTable {
        item,
        start,
        length,
        held,
    } = places::range_in(description, image, manufacturer, number, offset, octets)?;
    if !part.fits(octets, length) {
        return Err(Refusal::OUTSIDE_TABLE);
    }
    let table = Cursor::first().past(item).read(description).fields;
    allowed(table.writable, held, start.in_image(offset), octets)
}

// 15: what is to be written doesn't fit the element's length.
#[tactic(auto, unfolding(crate::specs::Access::fitted_by))]
fn fitted(place: Place, fits: bool) -> Place
    ensures { result ≡ fitted_by fits place }
{
    let at = place?;
    if !fits {
        return Err(Refusal::WRONG_SIZE);
    }
    Ok(at)
}

// 13, 14, then 15, where an element is: it holds an octet of a dimension if it is one.
fn element_to_write(description: &[u8], item: usize, at: Location, fits: bool) -> Place
    requires { item < item_count description.now }
    ensures { result ≡ element_to_write description.now item at.start at.length fits }
{
    let Seen { fields, table } = around(description, item);
    fitted(
        allowed(table.writable, 0 < fields.sets, at.start, at.length),
        fits,
    )
}

#[tactic(auto, unfolding(meaning::specs::Refusals::element_place_reply), using(crate::proofs::Laws::write_refused, crate::proofs::Laws::write_there))]
fn octets_place(description: &[u8], image: &[u8], name: ElementName, octets: usize) -> Place
    ensures { result ≡ octets_place_in description.now image.now name octets (open_image description.now image.now) }
{
    let at = places::element_place(description, image, name)?;
    element_to_write(description, name.item, at, octets == at.length)
}

// Whether a number needs no more than so many octets.
#[tactic(auto, using(crate::proofs::Laws::fits_eight, crate::proofs::Laws::fits_fewer))]
fn fits_in(value: u64, octets: usize) -> bool
    ensures { result ≡ (value <? 256 ^ octets) }
{
    if 8 <= octets {
        return true;
    }
    value >> (octets * 8) == 0
}

#[tactic(auto, unfolding(meaning::specs::Refusals::integer_place_reply), using(crate::proofs::Laws::write_refused, crate::proofs::Laws::write_there))]
fn number_place(description: &[u8], image: &[u8], name: ElementName, value: u64) -> Place
    ensures { result ≡ number_place_in description.now image.now name value (open_image description.now image.now) }
{
    let at = places::integer_place(description, image, name)?;
    element_to_write(description, name.item, at, fits_in(value, at.length))
}

// THE OCTETS AT A PLACE
// They are empty where there is a refusal, and no Result: the public calls are so stated (table_part_reply and
// the like), and the place's own call tells the refusal.
#[tactic(auto, unfolding(meaning::specs::Refusals::place_part), using(crate::proofs::Inside::first_told))]
fn part_at<'a>(image: &'a [u8], place: Place) -> &'a [u8]
    requires { Inside image.now place }
    ensures reply { result.now ≡ place_part image.now place }
    ensures place { result.ref_ptr ≡ (image.entry.ref_ptr.0, image.entry.ref_ptr.1 + place_start place) }
{
    match place {
        Ok(at) => octets::part(image, at.start, at.length),
        Err(_) => &image[0..0],
    }
}

// Writes octets at a place; none where there is a refusal. The place is taken refused or not, as the
// definitions of verdict and image have it (place_verdict, image_with).
#[tactic(auto, unfolding(meaning::specs::Refusals::place_verdict, meaning::specs::Refusals::image_with), using(crate::proofs::Laws::put_there))]
fn write_at(image: &mut [u8], place: Place, new: &[u8]) -> Verdict
    requires { FitsAt image.old (length new.now) place }
    ensures reply { result ≡ place_verdict place }
    ensures image { image.new ≡ image_with image.old new.now place }
{
    let at = place?;
    octets::put_octets(image, at.start, new);
    Ok(())
}

// THE PUBLIC CALLS
// Each is stated by a clause and a theorem of crate unique of its own; what two of them share is one function
// above.

// The table itself, as a part of the image; empty on refusal.
#[tactic(auto, unfolding(meaning::specs::Refusals::table_part_reply), using(crate::proofs::Inside::table_inside))]
pub fn table_part<'a>(
    description: &[u8],
    image: &'a [u8],
    manufacturer: u32,
    number: u32,
) -> &'a [u8]
    ensures reply { result.now ≡ table_part_reply description.now image.now manufacturer number }
    ensures place { result.ref_ptr ≡ (image.entry.ref_ptr.0, image.entry.ref_ptr.1 + place_start (table_place_reply description.now image.now manufacturer number)) }
{
    part_at(
        image,
        places::table_place(description, image, manufacturer, number),
    )
}

// Where a range of a table is, from an offset in it on: 10, then 12.
pub fn range_place(
    description: &[u8],
    image: &[u8],
    manufacturer: u32,
    number: u32,
    offset: TableOffset,
    octets: usize,
) -> Place
    ensures { result ≡ read_range_reply description.now image.now manufacturer number offset octets }
{
    let RangeTable { start, length, .. } = places::range_in(
        description,
        image,
        manufacturer,
        number,
        offset,
        octets,
    )?;
    if !ends_within(offset.octets(), octets, length) {
        return Err(Refusal::OUTSIDE_TABLE);
    }
    Ok(Location {
        start: start.in_image(offset),
        length: octets,
    })
}

// A range of a table, as a part of the image; empty on refusal.
#[tactic(auto, unfolding(meaning::specs::Refusals::read_range_part), using(crate::proofs::Inside::range_inside))]
pub fn range_part<'a>(
    description: &[u8],
    image: &'a [u8],
    manufacturer: u32,
    number: u32,
    offset: TableOffset,
    octets: usize,
) -> &'a [u8]
    ensures reply { result.now ≡ read_range_part description.now image.now manufacturer number offset octets }
    ensures place { result.ref_ptr ≡ (image.entry.ref_ptr.0, image.entry.ref_ptr.1 + place_start (read_range_reply description.now image.now manufacturer number offset octets)) }
{
    part_at(
        image,
        range_place(description, image, manufacturer, number, offset, octets),
    )
}

// An element's octets, as a part of the image; empty on refusal.
#[tactic(auto, unfolding(meaning::specs::Refusals::element_part_reply), using(crate::proofs::Inside::element_inside))]
pub fn element_part<'a>(description: &[u8], image: &'a [u8], name: ElementName) -> &'a [u8]
    ensures reply { result.now ≡ element_part_reply description.now image.now name }
    ensures place { result.ref_ptr ≡ (image.entry.ref_ptr.0, image.entry.ref_ptr.1 + place_start (element_place_reply description.now image.now name)) }
{
    part_at(image, places::element_place(description, image, name))
}

// An element's number.
#[tactic(auto, unfolding(meaning::specs::Refusals::element_number_reply, meaning::specs::Refusals::place_number), using(crate::proofs::Inside::read_integer))]
pub fn element_number(description: &[u8], image: &[u8], name: ElementName) -> Reply
    ensures { result ≡ element_number_reply description.now image.now name }
{
    let at = places::integer_place(description, image, name)?;
    let number = octets::number_at(image, at.start, at.length);
    Ok(Answer::Number(number))
}

// Writes a range of a table, from an offset in it on.
#[tactic(auto, unfolding(meaning::specs::Refusals::write_range_reply, meaning::specs::Refusals::write_range_image, crate::specs::Access::place_to_write), using(crate::proofs::Inside::place_fits))]
pub fn write_range(
    description: &[u8],
    image: &mut [u8],
    manufacturer: u32,
    number: u32,
    offset: TableOffset,
    new: &[u8],
) -> Verdict
    ensures reply { result ≡ write_range_reply description.now image.old manufacturer number offset new.now }
    ensures image { image.new ≡ write_range_image description.now image.old manufacturer number offset new.now }
{
    let place = write_place(
        description,
        image,
        manufacturer,
        number,
        Part::Range(offset),
        new.len(),
    );
    write_at(image, place, new)
}

// Writes a whole table: data of another length than the table's are 12.
#[tactic(auto, using(crate::proofs::Inside::place_fits, crate::proofs::Laws::whole_reply, crate::proofs::Laws::whole_image))]
pub fn write_table(
    description: &[u8],
    image: &mut [u8],
    manufacturer: u32,
    number: u32,
    new: &[u8],
) -> Verdict
    ensures reply { result ≡ write_table_reply description.now image.old manufacturer number new.now }
    ensures image { image.new ≡ write_table_image description.now image.old manufacturer number new.now }
{
    let place = write_place(
        description,
        image,
        manufacturer,
        number,
        Part::Whole,
        new.len(),
    );
    write_at(image, place, new)
}

// Writes an element's octets.
#[tactic(auto, unfolding(meaning::specs::Refusals::write_octets_reply, meaning::specs::Refusals::write_octets_image), using(crate::proofs::Inside::octets_fits))]
pub fn write_octets(description: &[u8], image: &mut [u8], name: ElementName, new: &[u8]) -> Verdict
    ensures reply { result ≡ write_octets_reply description.now image.old name new.now }
    ensures image { image.new ≡ write_octets_image description.now image.old name new.now }
{
    let place = octets_place(description, image, name, new.len());
    write_at(image, place, new)
}

// Writes an element's number, in the image's DATA_ORDER.
pub fn write_number(description: &[u8], image: &mut [u8], name: ElementName, value: u64) -> Verdict
    ensures reply { result ≡ write_number_reply description.now image.old name value }
    ensures image { image.new ≡ write_number_image description.now image.old name value }
{
    let at = number_place(description, image, name, value)?;
    octets::put_number(image, at.start, at.length, value);
    Ok(())
}
