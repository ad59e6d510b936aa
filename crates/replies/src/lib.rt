// A reply as document 01's numbers, for callers that know no enum: a line of text, or C. What they ask by a
// number is turned into its value here too.
//
// What is told is a refusal, all 0 where nothing is refused, and two numbers of the answer's own.
#![tactic(auto, unfolding(meaning::specs::Refusals::told_by, meaning::specs::Refusals::verdict_reply, meaning::specs::Refusals::place_reply, meaning::specs::Messages::request_told, meaning::specs::Messages::reply_told, crate::specs::Asked::quantity_of))]

ghost use Rattle.std.specs.Prelude.{◌≡◌};
ghost use mathlib.Core.List.{flatten};
ghost use Rattle.meaning.specs.Refusals.{refused_with, answered, told_by, told_numbers, verdict_reply, place_reply};
ghost use Rattle.meaning.specs.Messages.{request_told, reply_told};
ghost use Rattle.replies.specs.Asked.{quantity_of};

use meaning::{
    Answer, Heard, Place, Quantity, Refusal, Reply, ReplyTold, RequestTold, Requested, Told,
    Verdict,
};

// Nothing is told but the refusal. Its numbers are named one by one: copied whole, it is put down in pieces of
// other sizes than C reads, since a reply holds an answer or a refusal in the same octets; and C has to wait
// for them.
fn refused_with(refusal: Refusal) -> Told
    ensures { result ≡ refused_with refusal }
{
    Told {
        refusal: Refusal {
            number: refusal.number,
            item: refusal.item,
            octet: refusal.octet,
            depth: refusal.depth,
        },
        first: 0,
        second: 0,
    }
}

// Nothing is refused.
fn answered(first: u64, second: u64) -> Told
    ensures { result ≡ answered first second }
{
    Told {
        refusal: Refusal::NONE,
        first,
        second,
    }
}

// What is told of a request, and of a meter's reply, all that their forms lack 0.
const NO_REQUEST: RequestTold = RequestTold {
    code: 0,
    kind: 0,
    id: 0,
    offset: 0,
    count: 0,
    start: 0,
};

const NO_REPLY: ReplyTold = ReplyTold {
    refusal: Refusal::NONE,
    kind: 0,
    code: 0,
    count: 0,
    start: 0,
};

// A reply in numbers. This, and verdict_told to reply_told below, are no `From`: what they take is the
// library's Result, whose impls may not stand here; crate unique states of each that a call has one reply.
pub fn told(reply: Reply) -> Told
    ensures { result ≡ told_by reply }
{
    match reply {
        Err(r) => refused_with(r),
        Ok(Answer::Passed) => answered(0, 0),
        Ok(Answer::Total(n)) => answered(n as u64, 0),
        Ok(Answer::At(place)) => answered(place.start.octet() as u64, place.length as u64),
        Ok(Answer::Number(n)) => answered(n, 0),
        Ok(Answer::Tier(t)) => answered(0, t as u64),
        Ok(Answer::NoneYet) => answered(1, 0),
        Ok(Answer::Yes) => answered(1, 0),
        Ok(Answer::No) => answered(0, 0),
        Ok(Answer::Weekday(w)) => answered(w as u64, 0),
    }
}

// One after another: the refusal's numbers, then the answer's own.
pub fn numbers(told: Told) -> [u64; 6]
    ensures { result ≡ told_numbers told }
{
    let refusal = told.refusal;
    [
        refusal.number,
        refusal.item,
        refusal.octet,
        refusal.depth,
        told.first,
        told.second,
    ]
}

// A verdict in numbers.
pub fn verdict_told(verdict: Verdict) -> Told
    ensures { result ≡ told_by (verdict_reply verdict) }
{
    match verdict {
        Ok(()) => told(Ok(Answer::Passed)),
        Err(r) => told(Err(r)),
    }
}

// A place in numbers.
pub fn place_told(place: Place) -> Told
    ensures { result ≡ told_by (place_reply place) }
{
    match place {
        Ok(at) => told(Ok(Answer::At(at))),
        Err(r) => told(Err(r)),
    }
}

// A request in numbers.
pub fn request_told(requested: Result<Requested, u32>) -> RequestTold
    ensures { result ≡ request_told requested }
{
    match requested {
        Err(code) => RequestTold {
            code: code as u64,
            ..NO_REQUEST
        },
        Ok(Requested::FullRead { id }) => RequestTold {
            kind: Requested::FULL_READ,
            id: id as u64,
            ..NO_REQUEST
        },
        Ok(Requested::OffsetRead { id, offset, count }) => RequestTold {
            kind: Requested::OFFSET_READ,
            id: id as u64,
            offset: offset as u64,
            count: count as u64,
            ..NO_REQUEST
        },
        Ok(Requested::FullWrite { id, count }) => RequestTold {
            kind: Requested::FULL_WRITE,
            id: id as u64,
            count: count as u64,
            start: Requested::FULL_DATA as u64,
            ..NO_REQUEST
        },
        Ok(Requested::OffsetWrite { id, offset, count }) => RequestTold {
            kind: Requested::OFFSET_WRITE,
            id: id as u64,
            offset: offset as u64,
            count: count as u64,
            start: Requested::OFFSET_DATA as u64,
            ..NO_REQUEST
        },
    }
}

// A meter's reply in numbers.
pub fn reply_told(heard: Result<Heard, Refusal>) -> ReplyTold
    ensures { result ≡ reply_told heard }
{
    match heard {
        Err(refusal) => ReplyTold {
            refusal,
            ..NO_REPLY
        },
        Ok(Heard::Data { count }) => ReplyTold {
            kind: Heard::DATA,
            count: count as u64,
            start: Heard::DATA_START as u64,
            ..NO_REPLY
        },
        Ok(Heard::Done) => ReplyTold {
            kind: Heard::DONE,
            ..NO_REPLY
        },
        Ok(Heard::Refused(code)) => ReplyTold {
            kind: Heard::REFUSED,
            code: code as u64,
            ..NO_REPLY
        },
    }
}

// The matrix's cells, row by row. By index: the must-fail edit row_width changes a row's width here, and for
// `copy_from_slice` of the flattened rows the archive for C would need memmove.
pub fn cells(matrix: [[u8; 22]; 15]) -> [u8; 330]
    ensures { result ≡ flatten matrix }
{
    let mut octets = [0u8; 330];
    for at in 0..330 {
        let row = matrix[at / 22];
        octets[at] = row[at % 22];
    }
    octets
}

// What a tier is asked for: 0 is summations, any other number demands. No `From`: the type is crate meaning's.
pub fn quantity(what: u64) -> Quantity
    ensures { result ≡ quantity_of what }
{
    match what {
        0 => Quantity::Summations,
        _ => Quantity::Demands,
    }
}
