// Descriptions that several readings are of, and what one of them gives.

/// bits 16, bits 16, the difference modulo 2^16, bind, bind
pub const COUNTERS: &[u8] =
    b"\x02\x10\x02\x10\x0A\x10\x01\x01\x00\x00\x00\x00\x01\x00\x00\x00\x01\x05\x01\x02\x05\x00\x03";

/// What case A prints.
pub const TEN_USED: &str =
    "ok 5 32\n4 0 32 0 0 0 0 5\n0 0 16 0 0 65530 0 1\n3 16 32 0 0 0 0 3\n1 16 32 0 0 4 0 1\n2 32 32 0 0 10 0 1\n";

/// 8 bits that are 2A, or else 4 bits
pub const EITHER: &[u8] = b"\x02\x08\x08\x00\x00\x00\x00\x00\x00\x2A\x02\x04\x06\x01\x02";

/// 5 bits, a unit between them, no terminator and no count
pub const FIVES: &[u8] = b"\x02\x05\x00\x01\x09\x00\x01\x02\x00\xFF\xFF\xFF\xFF";

/// 8 bits, or else 4, whose first part has three entries and fails
pub const ABANDONED: &[u8] = b"\x02\x08\x01\x04\x00\x01\x02\x04\x06\x02\x03";

/// What it prints over A5.
pub const SECOND_ALONE: &str = "ok 2 4\n4 0 4 0 0 0 2 2\n3 0 4 0 0 10 0 1\n";
