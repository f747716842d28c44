// "Readings to compare".
use crate::compare::{Reading, Tally};
use crate::records::{EITHER, FIVES};

/// 8 bits that are 2A, or else 4 bits.
pub fn eithers(tally: &mut Tally<impl Print>) {
    tally.over(Reading {
        name: "either over 2A: detail 1, three entries, end 8",
        description: EITHER,
        input: b"\x2A",
        expected: "ok 3 8\n3 0 8 0 0 0 1 3\n1 0 8 0 0 42 0 2\n0 0 8 0 0 42 0 1\n",
    });
    tally.over(Reading {
        name: "either over 2B: detail 2, two entries, number 2, end 4",
        description: EITHER,
        input: b"\x2B",
        expected: "ok 2 4\n3 0 4 0 0 0 2 2\n2 0 4 0 0 2 0 1\n",
    });
    tally.over(Reading {
        name: "either over no bytes: root 1 error, fail, end 0",
        description: EITHER,
        input: b"",
        expected: "ok 2 0\n3 0 0 2 1 0 2 2\n2 0 0 2 1 0 4 1\n",
    });
}

/// 5 bits, again and again.
pub fn sequences(tally: &mut Tally<impl Print>) {
    tally.over(Reading {
        name: "sequence over 00: two elements, 1 error, err, end 5",
        description: FIVES,
        input: b"\x00",
        expected: "ok 4 5\n3 0 5 1 1 0 2 4\n0 0 5 0 0 0 0 1\n1 5 5 0 0 0 0 1\n0 5 5 2 1 0 2 1\n",
    });
    tally.over(Reading {
        name: "sequence over no bytes: empty, ok, one entry",
        description: FIVES,
        input: b"",
        expected: "ok 1 0\n3 0 0 0 0 0 0 1\n",
    });
}

/// A scan, a signed number, and the widest bits.
pub fn numbers(tally: &mut Tally<impl Print>) {
    tally.over(Reading {
        name: "scan over 00 2A: skipped 8, 1 error, end 16",
        description: b"\x02\x08\x08\x00\x00\x00\x00\x00\x00\x2A\x0C\x01",
        input: b"\x00\x2A",
        expected: "ok 3 16\n2 0 16 1 1 0 8 3\n1 8 16 0 0 42 0 2\n0 8 16 0 0 42 0 1\n",
    });
    tally.over(Reading {
        name: "03 08 over FF: number word 4,294,967,295",
        description: b"\x03\x08",
        input: b"\xFF",
        expected: "ok 1 8\n0 0 8 0 0 4294967295 0 1\n",
    });
    tally.over(Reading {
        name: "02 20 over FF FF FF FF: accepted",
        description: b"\x02\x20",
        input: b"\xFF\xFF\xFF\xFF",
        expected: "ok 1 32\n0 0 32 0 0 4294967295 0 1\n",
    });
}

/// Descriptions that are refused.
pub fn refusals(tally: &mut Tally<impl Print>) {
    tally.over(Reading {
        name: "02 21: refused 5",
        description: b"\x02\x21",
        input: b"\xFF\xFF\xFF\xFF\xFF",
        expected: "refused 5 0\n",
    });
    tally.over(Reading {
        name: "00 00: refused 9, node 0",
        description: b"\x00\x00",
        input: b"",
        expected: "refused 9 0\n",
    });
    tally.over(Reading {
        name: "00 04 00 00: refused 7, node 1",
        description: b"\x00\x04\x00\x00",
        input: b"",
        expected: "refused 7 1\n",
    });
    tally.over(Reading {
        name: "0B 00: refused 6",
        description: b"\x0B\x00",
        input: b"",
        expected: "refused 6 0\n",
    });
}

/// Request 1: how many bits were missing.
pub fn missing(tally: &mut Tally<impl Print>) {
    tally.over(Reading {
        name: "signed 16 from bit 5 of FF FF: 5 bits missing",
        description: b"\x02\x05\x03\x10\x04\x00\x01",
        input: b"\xFF\xFF",
        expected: "ok 3 5\n2 0 5 2 1 0 0 3\n0 0 5 0 0 31 0 1\n1 5 5 2 1 0 5 1\n",
    });
    tally.over(Reading {
        name: "either, scan and absorb over 2A: of what is missing the either's second part alone is kept",
        description: b"\x02\x10\x02\x0C\x06\x00\x01\x02\x10\x0C\x03\x02\x10\x0B\x05\x04\x04\x06\x04\x02\x07",
        input: b"\x2A",
        expected: "ok 6 0\n8 0 0 2 2 0 0 6\n2 0 0 2 1 0 2 2\n1 0 0 2 1 0 4 1\n7 0 0 2 2 0 0 3\n4 0 0 2 1 0 0 1\n6 0 0 2 1 0 0 1\n",
    });
}
