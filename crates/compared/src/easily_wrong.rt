// "Easy to get wrong".
use crate::compare::{Reading, Tally};
use crate::records::{ABANDONED, SECOND_ALONE};

/// An either abandons its first part: nothing of it is kept, and its room is not needed.
pub fn abandoned(tally: &mut Tally<impl Print>) {
    tally.over(Reading {
        name: "either over A5: nothing of the abandoned part is kept",
        description: ABANDONED,
        input: b"\xA5",
        expected: SECOND_ALONE,
    });
    tally.with_room(
        8,
        8,
        Reading {
            name: "either over A5, room 2: the abandoned part outgrew it, the kept entries do not",
            description: ABANDONED,
            input: b"\xA5",
            expected: SECOND_ALONE,
        },
    );
}

/// At most one error from each side.
pub fn one_from_each_side(tally: &mut Tally<impl Print>) {
    tally.over(Reading {
        name: "then of a then of two bottoms: 1 error above 2",
        description: b"\x01\x01\x04\x00\x01\x00\x04\x02\x03",
        input: b"",
        expected: "ok 5 0\n4 0 0 2 1 0 0 5\n2 0 0 2 2 0 0 3\n0 0 0 2 1 0 0 1\n1 0 0 2 1 0 0 1\n3 0 0 0 0 0 0 1\n",
    });
}

/// A round that goes on though its element stands still.
pub fn whole_round(tally: &mut Tally<impl Print>) {
    tally.over(Reading {
        name: "sequence over 2A 00 00 00: the separator moves while the element stands still",
        description: b"\x02\x08\x08\x00\x00\x00\x00\x00\x00\x2A\x00\x06\x01\x02\x02\x08\x01\x09\x03\x04\x05\x00\xFF\xFF\xFF\xFF",
        input: b"\x2A\x00\x00\x00",
        expected: "ok 13 32\n6 0 32 0 0 0 4 13\n3 0 8 0 0 0 1 3\n1 0 8 0 0 42 0 2\n0 0 8 0 0 42 0 1\n4 8 16 0 0 0 0 1\n3 16 16 0 0 0 2 2\n2 16 16 0 0 0 0 1\n4 16 24 0 0 0 0 1\n3 24 24 0 0 0 2 2\n2 24 24 0 0 0 0 1\n4 24 32 0 0 0 0 1\n3 32 32 0 0 0 2 2\n2 32 32 0 0 0 0 1\n",
    });
}

/// Binds are counted outward.
pub fn binds(tally: &mut Tally<impl Print>) {
    tally.over(Reading {
        name: "three binds over 01 02 03: number 2 outward from 0 is the farthest",
        description: b"\x02\x08\x02\x08\x02\x08\x0A\x08\x00\x01\x00\x00\x00\x02\x00\x00\x00\x00\x00\x05\x02\x03\x05\x01\x04\x05\x00\x05",
        input: b"\x01\x02\x03",
        expected: "ok 7 24\n6 0 24 0 0 0 0 7\n0 0 8 0 0 1 0 1\n5 8 24 0 0 0 0 5\n1 8 16 0 0 2 0 1\n4 16 24 0 0 0 0 3\n2 16 24 0 0 3 0 1\n3 24 24 0 0 1 0 1\n",
    });
}
