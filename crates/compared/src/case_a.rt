// Case A: two counters of 16 bits and the use between them.
use crate::compare::{Reading, Tally};
use crate::records::{COUNTERS, TEN_USED};

/// The counter turns between two readings.
pub fn turns(tally: &mut Tally<impl Print>) {
    tally.over(Reading {
        name: "case A over FF FA 00 04: ten pulses used",
        description: COUNTERS,
        input: b"\xFF\xFA\x00\x04",
        expected: TEN_USED,
    });
    tally.over(Reading {
        name: "case A over FF FF 00 00: one used",
        description: COUNTERS,
        input: b"\xFF\xFF\x00\x00",
        expected: "ok 5 32\n4 0 32 0 0 0 0 5\n0 0 16 0 0 65535 0 1\n3 16 32 0 0 0 0 3\n1 16 32 0 0 0 0 1\n2 32 32 0 0 1 0 1\n",
    });
}

/// No turn, and a record that is cut.
pub fn others(tally: &mut Tally<impl Print>) {
    tally.over(Reading {
        name: "case A over 00 00 FF FF: 65,535 used",
        description: COUNTERS,
        input: b"\x00\x00\xFF\xFF",
        expected: "ok 5 32\n4 0 32 0 0 0 0 5\n0 0 16 0 0 0 0 1\n3 16 32 0 0 0 0 3\n1 16 32 0 0 65535 0 1\n2 32 32 0 0 65535 0 1\n",
    });
    tally.over(Reading {
        name: "case A over FF FA 00: node 1 fails at 16, use reads 6 with 0 errors",
        description: COUNTERS,
        input: b"\xFF\xFA\x00",
        expected: "ok 5 16\n4 0 16 2 1 0 0 5\n0 0 16 0 0 65530 0 1\n3 16 16 2 1 0 0 3\n1 16 16 2 1 0 8 1\n2 16 16 0 0 6 0 1\n",
    });
}
