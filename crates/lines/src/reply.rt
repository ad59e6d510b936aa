// What a line is answered: its first word tells the row of the table, the row the form that the line
// must have, and both the reply.
ghost use Rattle.std.specs.Prelude.{◌≤◌, [], length};
ghost use Rattle.lines.specs.Answer.{answer_text, reply_text, row_text, Within, room_for, Replied};
ghost use Rattle.lines.specs.declared.rows.Kind.{Kind};
ghost use Rattle.lines.specs.Kinds.{tables_place, messages_place, kind_place};

use crate::memory::Memory;
use crate::read::{Line, Operands};
use crate::rows::{Kind, MessageKind, TableKind};
use crate::{ask, memory, message, put, read, rows};

// The longest line that is taken.
const LONGEST: usize = 300000;

// The reply to a question about tables, by the octets of D and M, the numbers, each within its limit,
// and the octets of DATA.
fn reply_tables(kind: TableKind, operands: Operands<'_>, m: &mut [u8], out: &mut [u8]) -> usize
    requires m_in_bounds { room_for m.old ≤ length out.old }
    requires within { Within (tables_place kind) operands.numbers }
    ensures { Replied out.old (row_text (tables_place kind) operands.entry.d.now m.old operands.entry.numbers operands.entry.given.now) out.new result }
{
    let form = kind.form();
    let told = replies::numbers(ask::ask(kind, operands, m));
    let first = put::put_numbers(out, &told[..form.told]);
    let second = ask::put_part(kind, operands, m, out, first);
    let last = put::put_octets_if(out, second, form.after, m);
    words::put_octet(out, last, b'\n')
}

// The reply to a row of messages, likewise. That D is at most 150,000 octets is a clause here, and no field
// of the operands: rows of messages alone ask for it, and that there is room in `out` speaks of `m` as well.
fn reply_message(kind: MessageKind, operands: Operands<'_>, m: &mut [u8], out: &mut [u8]) -> usize
    requires m_in_bounds { room_for m.old ≤ length out.old }
    requires within { Within (messages_place kind) operands.numbers }
    requires d_len_bound { length operands.d.now ≤ 150000 }
    ensures { Replied out.old (row_text (messages_place kind) operands.entry.d.now m.old operands.entry.numbers operands.entry.given.now) out.new result }
{
    let form = kind.form();
    let mut part = memory::zeros();
    let answered = message::ask(kind, operands, m, &mut part);
    let told = answered.numbers;
    let first = put::put_numbers(out, &told[..form.told]);
    let second = put::put_octets_if(out, first, form.part, answered.octets);
    let last = put::put_octets_if(out, second, form.after, m);
    words::put_octet(out, last, b'\n')
}

// The reply to a date's weekday: the refusal's number, and the answer's own.
fn reply_weekday(numbers: [u64; 7], out: &mut [u8]) -> usize
    requires within { Within (kind_place Kind.Weekday) numbers }
    requires room_for_in_bounds { room_for [] ≤ length out.old }
    ensures { Replied out.old (row_text (kind_place Kind.Weekday) [] [] numbers []) out.new result }
{
    let told = replies::told(dates::weekday_of(read::date(numbers)));
    let refusal = told.refusal;
    let last = put::put_numbers(out, &[refusal.number, told.first]);
    words::put_octet(out, last, b'\n')
}

// The reply to what a line asks of this row. Numbers that the row doesn't take are no form.
fn reply(kind: Kind, operands: Operands<'_>, m: &mut [u8], out: &mut [u8]) -> usize
    requires m_in_bounds { room_for m.old ≤ length out.old }
    requires within { Within (kind_place kind) operands.numbers }
    requires d_len_bound { length operands.d.now ≤ 150000 }
    ensures { Replied out.old (reply_text (kind_place kind) operands.entry.d.now m.old operands.entry.numbers operands.entry.given.now) out.new result }
{
    if !kind.takes(operands.numbers) {
        return put::no_form(out);
    }
    match kind {
        Kind::Tables(kind) => reply_tables(kind, operands, m, out),
        Kind::Messages(kind) => reply_message(kind, operands, m, out),
        Kind::Weekday => reply_weekday(operands.numbers, out),
    }
}

// Puts the reply to a line, and the line feed that ends it, at the start of the memory's reply, and
// answers how many octets that is. Of a line longer than 300,000 octets the first 300,001 are handed
// over, by which it is told. Nothing of what the memory holds before the call is read.
pub fn answer(text: &[u8], memory: &mut Memory) -> usize
    ensures { Replied memory.old.reply (answer_text text.now) memory.new.reply result }
{
    if LONGEST < text.len() {
        return put::no_form(&mut memory.reply);
    }
    let line = Line::new(text);
    let Some(kind) = rows::kind_of(line.word(0)) else {
        return put::no_form(&mut memory.reply);
    };
    let Some(asked) = read::read_asked(line, kind.form(), memory) else {
        return put::no_form(&mut memory.reply);
    };
    let image = &mut memory.image[..];
    let numbers = asked.numbers;
    let operands = Operands {
        d: &memory.description[..asked.d],
        numbers,
        given: &memory.given[..asked.given],
    };
    reply(kind, operands, &mut image[..asked.m], &mut memory.reply)
}
