// Short tables, tables of two lengths, and the limits: 01's numbers themselves, and not the reader's constants, which are tried.
use crate::compare::{Reading, Tally};
use crate::records::{COUNTERS, TEN_USED};

// Case A with tables of so many words.
fn case_a(tally: &mut Tally<impl Print>, name: &str, values: u8, descriptors: u8, expected: &str) {
    let reading = Reading {
        name,
        description: COUNTERS,
        input: b"\xFF\xFA\x00\x04",
        expected,
    };
    tally.with_room(values, descriptors, reading);
}

/// Five entries have room, or have not.
pub fn rooms(tally: &mut Tally<impl Print>) {
    case_a(tally, "case A, room 5", 20, 20, TEN_USED);
    case_a(
        tally,
        "case A, room 4: refused 13",
        16,
        16,
        "refused 13 0\n",
    );
    case_a(
        tally,
        "case A, no words: refused 13",
        0,
        0,
        "refused 13 0\n",
    );
    case_a(
        tally,
        "case A, no descriptor words: refused 13",
        24,
        0,
        "refused 13 0\n",
    );
}

/// Tables of unequal lengths, and of lengths that are no multiple of 4.
pub fn unequal(tally: &mut Tally<impl Print>) {
    case_a(
        tally,
        "case A, 20 value words and 24 descriptor words",
        20,
        24,
        TEN_USED,
    );
    case_a(
        tally,
        "case A, 24 value words and 16 descriptor words: refused 13",
        24,
        16,
        "refused 13 0\n",
    );
    case_a(
        tally,
        "case A, 23 value words and 22 descriptor words",
        23,
        22,
        TEN_USED,
    );
    case_a(
        tally,
        "case A, 19 value words and 23 descriptor words: refused 13",
        19,
        23,
        "refused 13 0\n",
    );
}

// bits 8, unit, bottom, a sequence without an end, absorbed
const ALL_BYTES: &[u8] = b"\x02\x08\x00\x01\x09\x00\x01\x02\x00\xFF\xFF\xFF\xFF\x0B\x03";

/// The longest input, and one that is longer.
pub fn inputs(tally: &mut Tally<impl Print>) {
    tally.with_room(
        4,
        4,
        Reading {
            name: "8,191 bytes: read to the last bit",
            description: ALL_BYTES,
            input: &[0; 8191],
            expected: "ok 1 65528\n4 0 65528 0 0 0 0 1\n",
        },
    );
    tally.with_room(
        4,
        4,
        Reading {
            name: "8,192 bytes: refused 12",
            description: ALL_BYTES,
            input: &[0; 8192],
            expected: "refused 12 0\n",
        },
    );
}

/// Which refusal comes first.
pub fn refusals(tally: &mut Tally<impl Print>) {
    tally.with_room(
        3,
        3,
        Reading {
            name: "8,192 bytes, and no room: refused 12, before 13",
            description: ALL_BYTES,
            input: &[0; 8192],
            expected: "refused 12 0\n",
        },
    );
    tally.with_room(
        3,
        3,
        Reading {
            name: "8,192 bytes, no room, and width 33: refused 5, before both",
            description: b"\x02\x21",
            input: &[0; 8192],
            expected: "refused 5 0\n",
        },
    );
}
