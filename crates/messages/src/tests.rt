use crate::codec::{read, write};
use crate::message::{Kind, Message};
use std::fmt::Debug;
use std::process::Abort;
use std::test::Fail;
use values::answer::Answer;
use values::buffer::TooShort;
use values::count::Count;
use values::kind::Value;

// Checks that a message of this kind about page 258 is written as the format says and reads as itself.
fn trips<V: Value + PartialEq + Debug>(
    rt: &impl Abort,
    kind: Kind<V>,
    number: u8,
    field: &[u8],
) -> Result<(), Fail> {
    let message = Message { page: 258, kind };
    let mut out = [0xEE; 20];
    let size = write(&message, &mut out)?;
    let front: &[u8] = &[1, 0, 1, number, 2, 0, 2, 1, 2];
    assert_eq!(rt; &out[0..9], front);
    assert_eq!(rt; &out[9..size], field);
    assert_eq!(rt; read(&out[0..size]), Some(message));
    Ok(())
}

// Checks all ten kinds; `field` is the field of the value.
fn all_trip<V: Value + PartialEq + Debug>(
    rt: &impl Abort,
    value: V,
    field: &[u8],
) -> Result<(), Fail> {
    trips::<V>(rt, Kind::ShReq, 1, &[])?;
    trips::<V>(rt, Kind::ExReq, 2, &[])?;
    trips(rt, Kind::ShRep(value), 3, field)?;
    trips(rt, Kind::ExRep(value), 4, field)?;
    trips::<V>(rt, Kind::WbReq, 5, &[])?;
    trips::<V>(rt, Kind::FlushReq, 6, &[])?;
    trips::<V>(rt, Kind::InvReq, 7, &[])?;
    trips(rt, Kind::WbRep(value), 8, field)?;
    trips(rt, Kind::FlushRep(value), 9, field)?;
    trips::<V>(rt, Kind::InvRep, 10, &[])
}

#[test]
fn every_kind_round_trips(rt: HostRuntime) -> Result<(), Fail> {
    all_trip(&rt, Count { number: 300 }, &[3, 0, 4, 0, 0, 1, 0x2C])?;
    all_trip(&rt, Answer::Written(300), &[3, 0, 3, 2, 1, 0x2C])
}

#[test]
fn short_buffers_are_refused_and_kept(rt: HostRuntime) {
    let mut short = [0xEE; 15];
    let reply = Message {
        page: 5,
        kind: Kind::ShRep(Count { number: 300 }),
    };
    assert_eq!(rt; write(&reply, &mut short), Err(TooShort));
    assert_eq!(rt; short, [0xEE; 15]);
    let mut shorter = [0xEE; 8];
    let request: Message<Count> = Message {
        page: 5,
        kind: Kind::ShReq,
    };
    assert_eq!(rt; write(&request, &mut shorter), Err(TooShort));
    assert_eq!(rt; shorter, [0xEE; 8]);
}

// Checks that these bytes are no message's.
fn unread<V: Value + PartialEq + Debug>(rt: &impl Abort, from: &[u8]) {
    assert_eq!(rt; read::<V>(from), None);
}

#[test]
fn damaged_bytes_do_not_read(rt: HostRuntime) {
    unread::<Count>(&rt, &[]);
    // A wrong tag.
    unread::<Count>(&rt, &[4, 0, 1, 7, 2, 0, 2, 1, 2]);
    unread::<Count>(&rt, &[1, 0, 1, 7, 1, 0, 2, 1, 2]);
    unread::<Count>(&rt, &[1, 0, 1, 3, 2, 0, 2, 1, 2, 2, 0, 4, 0, 0, 1, 0x2C]);
    // A length one too small or too large.
    unread::<Count>(&rt, &[1, 0, 1, 7, 2, 0, 1, 1, 2]);
    unread::<Count>(&rt, &[1, 0, 1, 7, 2, 0, 3, 1, 2]);
    unread::<Count>(&rt, &[1, 0, 1, 3, 2, 0, 2, 1, 2, 3, 0, 3, 0, 0, 1, 0x2C]);
    unread::<Count>(&rt, &[1, 0, 1, 3, 2, 0, 2, 1, 2, 3, 0, 5, 0, 0, 1, 0x2C]);
    // A trailing byte.
    unread::<Count>(&rt, &[1, 0, 1, 7, 2, 0, 2, 1, 2, 0]);
    unread::<Count>(&rt, &[1, 0, 1, 3, 2, 0, 2, 1, 2, 3, 0, 4, 0, 0, 1, 0x2C, 0]);
    // No such kind.
    unread::<Count>(&rt, &[1, 0, 1, 0, 2, 0, 2, 1, 2]);
    unread::<Count>(&rt, &[1, 0, 1, 11, 2, 0, 2, 1, 2]);
    // A value missing, and one too many.
    unread::<Count>(&rt, &[1, 0, 1, 3, 2, 0, 2, 1, 2]);
    unread::<Count>(&rt, &[1, 0, 1, 7, 2, 0, 2, 1, 2, 3, 0, 4, 0, 0, 1, 0x2C]);
    // No such answer.
    unread::<Answer>(&rt, &[1, 0, 1, 3, 2, 0, 2, 1, 2, 3, 0, 3, 1, 0, 100]);
}
