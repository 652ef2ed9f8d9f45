use queues::denied::Denied;
use queues::queue::Queues;
use std::process::Abort;

// Puts numbers into one row and drops them, in turns that fill it and go round it many times.
fn check_round(rt: &impl Abort, places: usize) {
    let mut memory = [0usize; 16];
    let mut queues = Queues::new(&mut memory, 1, places);
    let mut oldest: usize = 0;
    let mut newest: usize = 0;
    for step in 0..200 {
        if step % 7 < 4 {
            let granted = newest.wrapping_sub(oldest) < places;
            assert_eq!(rt; queues.put(0, newest).is_ok(), granted);
            if granted {
                newest = newest.wrapping_add(1);
            }
        } else {
            assert_eq!(rt; queues.drop_oldest(0).is_ok(), oldest != newest);
            if oldest != newest {
                oldest = oldest.wrapping_add(1);
            }
        }
        assert_eq!(rt; queues.waiting(0), newest.wrapping_sub(oldest));
        assert_eq!(rt;
            queues.oldest(0),
            if oldest == newest { None } else { Some(oldest) }
        );
    }
}

#[test]
fn each_size_goes_round(rt: HostRuntime) {
    for places in 1..17 {
        check_round(&rt, places);
    }
}

#[test]
fn all_rows_are_apart(rt: HostRuntime) {
    let mut memory = [0u16; 768];
    let mut queues = Queues::new(&mut memory, 48, 16);
    for place in 0..16 {
        for row in 0..48 {
            assert_eq!(rt; queues.waiting(row), place);
            assert_eq!(rt; queues.put(row, (row * 16 + place) as u16), Ok(()));
        }
    }
    assert_eq!(rt; queues.put(48, 0), Err(Denied));
    for row in 0..48 {
        for place in 0..16 {
            assert_eq!(rt; queues.put(47, 0).is_ok(), row == 47 && place > 0);
            assert_eq!(rt; queues.oldest(row), Some((row * 16 + place) as u16));
            assert_eq!(rt; queues.drop_oldest(row), Ok(()));
        }
        assert_eq!(rt; queues.drop_oldest(row).is_ok(), row == 47);
    }
}

// Holds a making over so many entries to how many rows it should have; the memory was used before.
fn check_making(rt: &impl Abort, entries: usize, rows: usize, places: usize, made: usize) {
    let mut memory = [7u16; 784];
    {
        let mut queues = Queues::new(&mut memory, 48, 16);
        assert_eq!(rt; queues.put(0, 3), Ok(()));
    }
    assert!(rt; entries <= memory.len());
    let mut queues = Queues::new(&mut memory[0..entries], rows, places);
    assert_eq!(rt; queues.rows(), made);
    assert_eq!(rt; queues.places(), if made == 0 { 0 } else { places });
    for row in 0..49 {
        assert_eq!(rt; queues.waiting(row), 0);
        assert_eq!(rt; queues.oldest(row), None);
    }
    assert_eq!(rt; queues.put(0, 1).is_ok(), made > 0 && places > 0);
}

#[test]
fn only_fitting_sizes_are_made(rt: HostRuntime) {
    check_making(&rt, 768, 48, 16, 48);
    check_making(&rt, 767, 48, 16, 0);
    check_making(&rt, 784, 48, 17, 0);
    check_making(&rt, 784, 49, 16, 0);
    check_making(&rt, 49, 49, 1, 0);
    check_making(&rt, 0, 48, 0, 48);
    check_making(&rt, 17, 1, 17, 0);
    check_making(&rt, 15, 1, 16, 0);
}
