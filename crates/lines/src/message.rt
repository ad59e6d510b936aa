// From what a line asks of messages to the call that answers it, row by row.
ghost use Rattle.std.specs.Prelude.{◌≡◌, [], ◌≤◌, length, take};
ghost use Rattle.meaning.specs.Refusals.{told_by, told_numbers};
ghost use Rattle.lines.specs.Answer.{Within, of_request, of_reply};
ghost use Rattle.lines.specs.Ask.{ReadAs, MessageAsked};
ghost use Rattle.lines.specs.Kinds.{messages_place};

use crate::memory::OCTETS;
use crate::read::Operands;
use crate::rows::MessageKind;
use meaning::Reply;

// What a row told: its numbers, and its octets.
#[derive(Clone, Copy)]
pub struct Answered<'a> {
    pub numbers: [u64; 6],
    pub octets: &'a [u8],
}

// What is told of a message that was put into a room.
fn sent(reply: Reply, room: &[u8]) -> Answered<'_>
    requires { (told_by reply).first ≤ length room.now }
    ensures { (result.numbers ≡ told_numbers (told_by reply)) × (result.octets.now ≡ take (told_by reply).first room.now) }
{
    let told = replies::told(reply);
    let count = told.first as usize;
    Answered {
        numbers: replies::numbers(told),
        octets: &room[..count],
    }
}

fn read_request(d: &[u8]) -> Answered<'_>
    ensures { ReadAs (of_request d.now [] [] []) d.now result }
{
    let told = replies::request_told(messages::read_request(d));
    Answered {
        numbers: [told.code, told.kind, told.id, told.offset, told.count, 0],
        octets: messages::request_data(d),
    }
}

fn read_reply(d: &[u8]) -> Answered<'_>
    ensures { ReadAs (of_reply d.now [] [] []) d.now result }
{
    let told = replies::reply_told(messages::read_reply(d));
    let refusal = told.refusal;
    Answered {
        numbers: [refusal.number, told.kind, told.code, 0, 0, 0],
        octets: messages::reply_data(d),
    }
}

// What a row of messages comes to, and a write done in m. A message that is written is put at the
// start of `part`.
pub fn ask<'a>(
    kind: MessageKind,
    operands: Operands<'a>,
    m: &mut [u8],
    part: &'a mut [u8; OCTETS],
) -> Answered<'a>
    requires within { Within (messages_place kind) operands.numbers }
    requires d_len_bound { length operands.d.now ≤ 150000 }
    ensures { MessageAsked (messages_place kind) operands.entry.d.now m.old operands.entry.numbers operands.entry.given.now result m.new }
{
    let Operands { d, numbers, given } = operands;
    match kind {
        MessageKind::Serve => {
            let n = numbers[0] as usize;
            let room = &mut part[..n];
            let reply = messages::serve(d, m, given, room);
            sent(reply, room)
        }
        MessageKind::ReadRequest => read_request(d),
        MessageKind::WriteRequest => {
            let n = numbers[4] as usize;
            let room = &mut part[..n];
            let reply = messages::write_request(
                numbers[0], numbers[1], numbers[2], numbers[3], given, room,
            );
            sent(reply, room)
        }
        MessageKind::ReadReply => read_reply(d),
        MessageKind::WriteReply => {
            let n = numbers[2] as usize;
            let room = &mut part[..n];
            let reply = messages::write_reply(numbers[0], numbers[1], given, room);
            sent(reply, room)
        }
    }
}
