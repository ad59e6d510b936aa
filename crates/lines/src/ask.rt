// From what a line asks about tables to the call that answers it, row by row.
ghost use Rattle.std.specs.Prelude.{◌+◌, ◌*◌, ◌≤◌, length};
ghost use Rattle.lines.specs.Answer.{Within};
ghost use Rattle.lines.specs.Ask.{Asks, Parted};
ghost use Rattle.lines.specs.Kinds.{tables_place};

use crate::read::Operands;
use crate::rows::TableKind;
use crate::{put, read};
use meaning::{Refusal, Told};
use offsets::TableOffset;

// What a question tells, and a write done in m.
pub fn ask(kind: TableKind, operands: Operands<'_>, m: &mut [u8]) -> Told
    requires { Within (tables_place kind) operands.numbers }
    ensures { Asks (tables_place kind) operands.entry.d.now m.old operands.entry.numbers operands.entry.given.now result m.new }
{
    let Operands { d, numbers, given } = operands;
    match kind {
        TableKind::Check => replies::verdict_told(sound::check(d)),
        TableKind::Layout => replies::told(places::layout(d, m)),
        TableKind::Table => {
            let t = read::table(numbers);
            replies::place_told(places::table_place(d, m, t.manufacturer, t.number))
        }
        TableKind::Where => {
            replies::place_told(places::element_place(d, m, read::element(numbers)))
        }
        // A part of the image tells no numbers.
        TableKind::TablePart | TableKind::Octets => Told {
            refusal: Refusal::NONE,
            first: 0,
            second: 0,
        },
        TableKind::Number => replies::told(access::element_number(d, m, read::element(numbers))),
        TableKind::WriteRange => {
            let t = read::table(numbers);
            let offset = TableOffset::new(numbers[2] as usize);
            let written = access::write_range(d, m, t.manufacturer, t.number, offset, given);
            replies::verdict_told(written)
        }
        TableKind::WriteOctets => {
            replies::verdict_told(access::write_octets(d, m, read::element(numbers), given))
        }
        TableKind::WriteNumber => {
            let value = numbers[6];
            replies::verdict_told(access::write_number(d, m, read::element(numbers), value))
        }
        TableKind::Tier => {
            let quantity = replies::quantity(numbers[5]);
            replies::told(calendar::tier(d, m, read::moment(numbers), quantity))
        }
        TableKind::Matrix => replies::verdict_told(calendar::matrix_verdict(d, m)),
        TableKind::Seasoned => replies::told(calendar::seasoned(d, m, read::date(numbers))),
        TableKind::ReadRange => {
            let t = read::table(numbers);
            let offset = TableOffset::new(numbers[2] as usize);
            let length = numbers[3] as usize;
            let place = access::range_place(d, m, t.manufacturer, t.number, offset, length);
            replies::place_told(place)
        }
    }
}

// The octets that a question tells, as a word of the reply: a part of the image, or the matrix's
// cells.
pub fn put_part(
    kind: TableKind,
    operands: Operands<'_>,
    m: &[u8],
    out: &mut [u8],
    at: usize,
) -> usize
    requires within { Within (tables_place kind) operands.numbers }
    requires m_in_bounds { at + 2 * length m.now + 300002 ≤ length out.old }
    ensures { Parted (tables_place kind) operands.entry.d.now m.now operands.entry.numbers out.old at out.new result }
{
    let Operands { d, numbers, .. } = operands;
    match kind {
        TableKind::TablePart => {
            let t = read::table(numbers);
            put::put_octets(out, at, access::table_part(d, m, t.manufacturer, t.number))
        }
        TableKind::Octets => {
            put::put_octets(out, at, access::element_part(d, m, read::element(numbers)))
        }
        TableKind::ReadRange => {
            let t = read::table(numbers);
            let offset = TableOffset::new(numbers[2] as usize);
            let length = numbers[3] as usize;
            let part = access::range_part(d, m, t.manufacturer, t.number, offset, length);
            put::put_octets(out, at, part)
        }
        TableKind::Matrix => {
            let cells = replies::cells(calendar::matrix(d, m));
            put::put_octets(out, at, &cells)
        }
        _ => at,
    }
}
