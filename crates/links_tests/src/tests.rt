use links::bytes::byte_links;
use links::lane::{Lane, Links};
use links::record::record_links;
use messages::message::{Kind, Message};
use queues::denied::Denied;
use std::process::Abort;
use values::count::Count;

// How many bytes a message with a count takes.
const SLOT: usize = 16;

// The memory of 16 stations with room 16, in messages and in bytes, and one more of each.
const ENTRIES: usize = 769;

const BYTES: usize = 12289;

const LANES: [Lane; 3] = [Lane::Request, Lane::Reply, Lane::Down];

// A message that tells its number by its page, with a value or without one.
fn numbered(number: usize) -> Message<Count> {
    let page = (number % 65536) as u16;
    let kind = if number % 2 == 0 {
        Kind::InvReq
    } else {
        Kind::ShRep(Count { number: 7 })
    };
    Message { page, kind }
}

// Sends and drops on one lane, in turns that fill it and go round it many times.
fn check_round<L: Links<Message<Count>>>(rt: &impl Abort, links: &mut L, room: usize) {
    let mut oldest: usize = 0;
    let mut newest: usize = 0;
    for step in 0..80 {
        if step % 7 < 4 {
            let granted = newest.wrapping_sub(oldest) < room;
            assert_eq!(rt;
                links.send(Lane::Down, 0, numbered(newest)).is_ok(),
                granted
            );
            if granted {
                newest = newest.wrapping_add(1);
            }
        } else {
            assert_eq!(rt; links.drop_oldest(Lane::Down, 0).is_ok(), oldest != newest);
            if oldest != newest {
                oldest = oldest.wrapping_add(1);
            }
        }
        assert_eq!(rt; links.waiting(Lane::Down, 0), newest.wrapping_sub(oldest));
        assert_eq!(rt;
            links.oldest(Lane::Down, 0),
            if oldest == newest {
                None
            } else {
                Some(numbered(oldest))
            }
        );
    }
}

fn check_room(rt: &impl Abort, room: usize) {
    let mut entries = [numbered(1); 48];
    let mut memory = [0xEE; 768];
    check_round(rt, &mut record_links(&mut entries, 1, room), room);
    check_round(rt, &mut byte_links::<Count>(&mut memory, 1, room), room);
}

#[test]
fn each_room_goes_round(rt: HostRuntime) {
    for room in 1..17 {
        check_room(&rt, room);
    }
}

// Fills all lanes in turn and empties them one by one.
fn check_apart<L: Links<Message<Count>>>(rt: &impl Abort, links: &mut L) {
    for place in 0..16 {
        for station in 0..16 {
            for lane in LANES {
                assert_eq!(rt; links.waiting(lane, station), place);
                assert_eq!(rt;
                    links.send(lane, station, number_of(lane, station, place)),
                    Ok(())
                );
            }
        }
    }
    assert_eq!(rt; links.send(Lane::Down, 15, numbered(0)), Err(Denied));
    assert_eq!(rt; links.send(Lane::Request, 16, numbered(0)), Err(Denied));
    for station in 0..16 {
        for lane in LANES {
            for place in 0..16 {
                assert_eq!(rt;
                    links.oldest(lane, station),
                    Some(number_of(lane, station, place))
                );
                assert_eq!(rt; links.drop_oldest(lane, station), Ok(()));
            }
            assert_eq!(rt; links.drop_oldest(lane, station), Err(Denied));
        }
    }
}

// A message of its own for each place.
fn number_of(lane: Lane, station: usize, place: usize) -> Message<Count> {
    numbered(
        (lane as usize)
            .wrapping_add(station.wrapping_mul(3))
            .wrapping_mul(17)
            .wrapping_add(place),
    )
}

#[test]
fn all_lanes_are_apart(rt: HostRuntime) {
    let mut entries = [numbered(1); ENTRIES];
    let mut memory = [0xEE; BYTES];
    check_apart(&rt, &mut record_links(&mut entries, 16, 16));
    check_apart(&rt, &mut byte_links::<Count>(&mut memory, 16, 16));
}

// Holds links to how many stations and how much room they should have, with nothing waiting.
fn check_made<L: Links<Message<Count>>>(rt: &impl Abort, links: &L, count: usize, room: usize) {
    assert_eq!(rt; links.count(), count);
    assert_eq!(rt; links.room(), room);
    for station in 0..17 {
        for lane in LANES {
            assert_eq!(rt; links.waiting(lane, station), 0);
            assert_eq!(rt; links.oldest(lane, station), None);
        }
    }
}

// Makes both links of these sizes over so many messages, and so many bytes less, in memory that was used before.
fn check_making(
    rt: &impl Abort,
    entries: usize,
    missing: usize,
    stations: usize,
    room: usize,
    made: bool,
) {
    let mut slice = [numbered(1); ENTRIES];
    let mut memory = [1; BYTES];
    assert_eq!(rt;
        record_links(&mut slice, 16, 16).send(Lane::Down, 0, numbered(3)),
        Ok(())
    );
    assert_eq!(rt;
        byte_links::<Count>(&mut memory, 16, 16).send(Lane::Down, 0, numbered(3)),
        Ok(())
    );
    let size = entries.wrapping_mul(SLOT).wrapping_sub(missing);
    assert!(rt; entries <= slice.len() && size <= memory.len());
    let count = if made { stations } else { 0 };
    let room_made = if made { room } else { 0 };
    check_made(
        rt,
        &byte_links::<Count>(&mut memory[0..size], stations, room),
        count,
        room_made,
    );
    if missing == 0 {
        check_made(
            rt,
            &record_links(&mut slice[0..entries], stations, room),
            count,
            room_made,
        );
    }
}

#[test]
fn only_fitting_sizes_are_made(rt: HostRuntime) {
    check_making(&rt, 768, 0, 16, 16, true);
    check_making(&rt, 767, 0, 16, 16, false);
    check_making(&rt, 768, 1, 16, 16, false);
    check_making(&rt, 3, 0, 1, 1, true);
    check_making(&rt, 2, 0, 1, 1, false);
    check_making(&rt, 768, 0, 17, 1, false);
    check_making(&rt, 768, 0, 1, 17, false);
    check_making(&rt, 768, 0, 0, 1, false);
    check_making(&rt, 768, 0, 1, 0, false);
}

// Feeds two links the same long sequence of sends and drops.
fn check_alike<A: Links<Message<Count>>, B: Links<Message<Count>>>(
    rt: &impl Abort,
    one: &mut A,
    other: &mut B,
) {
    let mut state: usize = 1;
    for step in 0..600 {
        state = state.wrapping_mul(25173).wrapping_add(13849) % 65536;
        let lane = LANES[state / 8 % 3];
        let station = state / 64 % 5;
        if state / 1024 % 5 < 3 {
            let message = numbered(step);
            assert_eq!(rt;
                one.send(lane, station, message),
                other.send(lane, station, message)
            );
        } else {
            assert_eq!(rt;
                one.drop_oldest(lane, station),
                other.drop_oldest(lane, station)
            );
        }
        assert_eq!(rt; one.waiting(lane, station), other.waiting(lane, station));
        assert_eq!(rt; one.oldest(lane, station), other.oldest(lane, station));
    }
}

#[test]
fn both_links_answer_alike(rt: HostRuntime) {
    let mut entries = [numbered(1); 36];
    let mut memory = [0xEE; 576];
    check_alike(
        &rt,
        &mut record_links(&mut entries, 4, 3),
        &mut byte_links::<Count>(&mut memory, 4, 3),
    );
}
