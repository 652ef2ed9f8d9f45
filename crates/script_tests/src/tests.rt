use listing::kinds::ScriptKind;
use listing::lines::{fault_line, record_line};
use script::fault::FaultKind;
use script::record::Record;
use std::alloc::{AllocError, Global};
use std::process::Abort;
use std::test::Fail;
use values::count::Count;

fn lists(
    rt: &impl Abort,
    heap: Global,
    kind: ScriptKind,
    script: &[u8],
    text: &str,
) -> Result<(), Fail> {
    let listed = kind.list(heap, script)?;
    assert_eq!(rt; listed.as_str(), text);
    Ok(())
}

fn counts(rt: &impl Abort, heap: Global, script: &[u8], text: &str) -> Result<(), Fail> {
    lists(rt, heap, ScriptKind::Counts, script, text)
}

fn answers(rt: &impl Abort, heap: Global, script: &[u8], text: &str) -> Result<(), Fail> {
    lists(rt, heap, ScriptKind::Answers, script, text)
}

// A field of this tag with `size` zeros in its body.
fn zeros(heap: Global, tag: u8, size: u8) -> Result<Vec<u8>, AllocError> {
    let mut bytes = vec![in heap; tag, 0, size]?;
    bytes.resize(3 + usize::from(size), 0)?;
    Ok(bytes)
}

#[test]
fn the_nineteen_records(rt: HostRuntime) -> Result<(), Fail> {
    let script =
        b"\x01\x00\x04\x02\x00\x01\x01\x02\x00\x06\x00\x00\x00\x00\x00\x0a\x03\x00\x00\x05\x00\x07\x00\x00\x00\x00\x00\x00\x0b\x04\x00\x03\x01\x00\x00\x06\x00\x02\x01\x00\x06\x00\x02\x01\x01\x06\x00\x02\x04\x00\x06\x00\x02\x04\x01\x06\x00\x02\x02\x00\x06\x00\x02\x01\x00\x06\x00\x02\x04\x01\x06\x00\x02\x02\x00\x06\x00\x02\x03\x00\x06\x00\x02\x04\x01\x06\x00\x02\x02\x01\x06\x00\x02\x01\x01\x07\x00\x00\x08\x00\x02\x00\x00";
    counts(
        &rt,
        rt.alloc(),
        script,
        "1 byte 0: prepare stations 2, pages 1, room 1\n2 byte 7: set page 0 to 10\n3 byte 16: start\n4 byte 19: station 0 is to store 11 to page 0\n5 byte 29: station 1 is to load page 0\n6 byte 35: fire: station 0 works its oldest instruction\n7 byte 40: fire: station 1 works its oldest instruction\n8 byte 45: fire: the home takes the request of station 0\n9 byte 50: fire: the home takes the request of station 1\n10 byte 55: fire: station 0 receives from its down lane\n11 byte 60: fire: station 0 works its oldest instruction\n12 byte 65: fire: the home takes the request of station 1\n13 byte 70: fire: station 0 receives from its down lane\n14 byte 75: fire: the home reads from the reply lane of station 0\n15 byte 80: fire: the home takes the request of station 1\n16 byte 85: fire: station 1 receives from its down lane\n17 byte 90: fire: station 1 works its oldest instruction\n18 byte 95: close\n19 byte 98: readout page 0\n",
    )
}

// Numbers of more than one byte, highest first, and the largest of each.
#[test]
fn numbers_highest_byte_first(rt: HostRuntime) -> Result<(), Fail> {
    let heap = rt.alloc();
    counts(
        &rt,
        heap,
        b"\x01\x00\x04\xff\x12\x34\xfe",
        "1 byte 0: prepare stations 255, pages 4660, room 254\n",
    )?;
    counts(
        &rt,
        heap,
        b"\x02\x00\x06\x01\x02\x03\x04\x05\x06",
        "1 byte 0: set page 258 to 50595078\n",
    )?;
    counts(
        &rt,
        heap,
        b"\x05\x00\x07\x07\xff\xff\xff\xff\xff\xff",
        "1 byte 0: station 7 is to store 4294967295 to page 65535\n",
    )?;
    counts(
        &rt,
        heap,
        b"\x04\x00\x03\x09\x01\x00",
        "1 byte 0: station 9 is to load page 256\n",
    )?;
    counts(
        &rt,
        heap,
        b"\x08\x00\x02\x0f\xff",
        "1 byte 0: readout page 4095\n",
    )
}

#[test]
fn every_case_of_an_answer(rt: HostRuntime) -> Result<(), Fail> {
    let heap = rt.alloc();
    answers(
        &rt,
        heap,
        b"\x02\x00\x05\x00\x01\x00\x00\x00",
        "1 byte 0: set page 1 to blank 0\n",
    )?;
    answers(
        &rt,
        heap,
        b"\x02\x00\x05\x00\x01\x01\x00\x63",
        "1 byte 0: set page 1 to ticked 99\n",
    )?;
    answers(
        &rt,
        heap,
        b"\x05\x00\x06\x02\x00\x01\x02\xff\xff",
        "1 byte 0: station 2 is to store written 65535 to page 1\n",
    )?;
    answers(
        &rt,
        heap,
        b"\x05\x00\x06\x02\x00\x01\x03\x00\x00",
        "1 byte 0: station 2 is to store refused 0 to page 1\n",
    )?;
    answers(
        &rt,
        heap,
        b"\x02\x00\x05\x00\x01\x01\x00\x64",
        "1 byte 0: fault 2 25: the value or the kind of firing does not read\n",
    )?;
    answers(
        &rt,
        heap,
        b"\x02\x00\x05\x00\x01\x01\x00\x00",
        "1 byte 0: fault 2 25: the value or the kind of firing does not read\n",
    )?;
    answers(
        &rt,
        heap,
        b"\x02\x00\x05\x00\x01\x00\x00\x01",
        "1 byte 0: fault 2 25: the value or the kind of firing does not read\n",
    )?;
    answers(
        &rt,
        heap,
        b"\x02\x00\x05\x00\x01\x04\x00\x00",
        "1 byte 0: fault 2 25: the value or the kind of firing does not read\n",
    )
}

#[test]
fn padding_is_skipped_and_not_counted(rt: HostRuntime) -> Result<(), Fail> {
    let heap = rt.alloc();
    counts(&rt, heap, b"", "")?;
    counts(&rt, heap, b"\x00\x00\x00", "")?;
    counts(&rt, heap, b"\x00\x00\x02\x03\x00\x00\x00\x01\xff", "")?;
    counts(
        &rt,
        heap,
        b"\x00\x00\x01\x09\x03\x00\x00\x00\x00\x00\x07\x00\x00",
        "1 byte 4: start\n2 byte 10: close\n",
    )?;
    counts(
        &rt,
        heap,
        b"\x00\x00\x00\x00\x00\x01",
        "1 byte 3: fault 1 22: fewer bytes are left than the header says\n",
    )
}

// The first field of each is whole, so that the fault's byte is not 0.
#[test]
fn each_fault_at_its_byte(rt: HostRuntime) -> Result<(), Fail> {
    let heap = rt.alloc();
    counts(
        &rt,
        heap,
        b"\x03\x00\x00\x07",
        "1 byte 0: start\n2 byte 3: fault 1 21: fewer than three bytes are left for a header\n",
    )?;
    counts(
        &rt,
        heap,
        b"\x03\x00\x00\x00\x00",
        "1 byte 0: start\n2 byte 3: fault 1 21: fewer than three bytes are left for a header\n",
    )?;
    counts(
        &rt,
        heap,
        b"\x03\x00\x00\x08\x00\x02\x00",
        "1 byte 0: start\n2 byte 3: fault 1 22: fewer bytes are left than the header says\n",
    )?;
    counts(
        &rt,
        heap,
        b"\x03\x00\x00\x08\x01\x02\x00\x00",
        "1 byte 0: start\n2 byte 3: fault 1 22: fewer bytes are left than the header says\n",
    )?;
    counts(
        &rt,
        heap,
        b"\x03\x00\x00\x09\x00\x00\x07\x00\x00",
        "1 byte 0: start\n2 byte 3: fault 2 23: no record has this tag\n",
    )?;
    counts(
        &rt,
        heap,
        b"\x03\x00\x00\xff\x00\x00",
        "1 byte 0: start\n2 byte 3: fault 2 23: no record has this tag\n",
    )?;
    counts(
        &rt,
        heap,
        b"\x03\x00\x00\x07\x00\x01\x00",
        "1 byte 0: start\n2 byte 3: fault 2 24: no record of this tag has this length\n",
    )?;
    counts(
        &rt,
        heap,
        b"\x03\x00\x00\x06\x00\x02\x00\x00",
        "1 byte 0: start\n2 byte 3: fault 2 25: the value or the kind of firing does not read\n",
    )?;
    counts(
        &rt,
        heap,
        b"\x03\x00\x00\x06\x00\x02\x05\x00",
        "1 byte 0: start\n2 byte 3: fault 2 25: the value or the kind of firing does not read\n",
    )
}

// Two faults at once: the question that is asked first decides.
#[test]
fn the_first_question_decides(rt: HostRuntime) -> Result<(), Fail> {
    let heap = rt.alloc();
    // 21 before 22: the two bytes would begin a body of five.
    counts(
        &rt,
        heap,
        b"\x08\x05",
        "1 byte 0: fault 1 21: fewer than three bytes are left for a header\n",
    )?;
    // 22 before 23: an unknown tag whose body is cut.
    counts(
        &rt,
        heap,
        b"\x09\x00\x05\x01",
        "1 byte 0: fault 1 22: fewer bytes are left than the header says\n",
    )?;
    // 22 before 24: a start with a body, which is cut.
    counts(
        &rt,
        heap,
        b"\x03\x00\x05\x01",
        "1 byte 0: fault 1 22: fewer bytes are left than the header says\n",
    )?;
    // 23 before 24: an unknown tag with a length that no record has.
    counts(
        &rt,
        heap,
        b"\x0a\x00\x05\x01\x02\x03\x04\x05",
        "1 byte 0: fault 2 23: no record has this tag\n",
    )?;
    // 24 before 25: a firing of kind 9 with a byte too many, and an unreadable answer with a byte too few.
    counts(
        &rt,
        heap,
        b"\x06\x00\x03\x09\x00\x00",
        "1 byte 0: fault 2 24: no record of this tag has this length\n",
    )?;
    answers(
        &rt,
        heap,
        b"\x02\x00\x04\x00\x01\x09\x00",
        "1 byte 0: fault 2 24: no record of this tag has this length\n",
    )
}

// Every tag's body one byte too long and, where it has any, one too short; at counts and at answers.
#[test]
fn every_length_wrong_by_one(rt: HostRuntime) -> Result<(), Fail> {
    let heap = rt.alloc();
    let sizes: [(u8, u8, u8); 8] = [
        (1, 4, 4),
        (2, 6, 5),
        (3, 0, 0),
        (4, 3, 3),
        (5, 7, 6),
        (6, 2, 2),
        (7, 0, 0),
        (8, 2, 2),
    ];
    let wrong = "1 byte 0: fault 2 24: no record of this tag has this length\n";
    for (tag, of_counts, of_answers) in sizes {
        for (kind, size) in [
            (ScriptKind::Counts, of_counts),
            (ScriptKind::Answers, of_answers),
        ] {
            let long = zeros(heap, tag, size.saturating_add(1))?;
            lists(&rt, heap, kind, long.as_slice(), wrong)?;
            if let Some(less) = size.checked_sub(1) {
                let short = zeros(heap, tag, less)?;
                lists(&rt, heap, kind, short.as_slice(), wrong)?;
            }
        }
    }
    Ok(())
}

// Zeros are padding, three bytes a field.
#[test]
fn the_longest_script(rt: HostRuntime) -> Result<(), Fail> {
    let heap = rt.alloc();
    let mut script = vec![in heap; 0u8; 65535]?;
    counts(&rt, heap, script.as_slice(), "")?;
    script.push(0)?;
    counts(
        &rt,
        heap,
        script.as_slice(),
        "1 byte 65535: fault 1 21: fewer than three bytes are left for a header\n",
    )?;
    script.push(0)?;
    counts(
        &rt,
        heap,
        script.as_slice(),
        "0 byte 0: fault 1 20: the script has more than 65536 bytes\n",
    )
}

// A line is added to what a text holds already.
#[test]
fn lines_are_added_to_a_text(rt: HostRuntime) -> Result<(), Fail> {
    let mut text = String::from_str(rt.alloc(), "before\n")?;
    let record = Record::Set {
        page: 258,
        value: Count { number: 300 },
    };
    record_line(&mut text, 7, 12, record)?;
    fault_line(&mut text, 8, FaultKind::UnknownTag.at(21))?;
    assert_eq!(rt;
        text.as_str(),
        "before\n7 byte 12: set page 258 to 300\n8 byte 21: fault 2 23: no record has this tag\n"
    );
    Ok(())
}
