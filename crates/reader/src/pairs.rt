// Where the second of two children begins, and what is lent to it, by the kind.
ghost use Rattle.std.specs.Prelude.{◌≡◌, ◌<◌, ◌≤◌, length};
ghost use Rattle.description.specs.Bodies.{byte_of};
ghost use Rattle.reader.specs.Inner.Pairs.{second_at, Lent};

use crate::readings::{FAIL, Reading};
use description::kinds::Kind;

/// "both: both at o"; then and bind: "second at the first's end".
pub fn second_at(kind: Kind, o: u32, end: u32) -> u32
    ensures { result ≡ second_at (byte_of kind) o end }
{
    match kind {
        Kind::Both => o,
        _ => end,
    }
}

/// "Bind lends the second the first's number ..., 0 after code fail." It stands in front of those lent before, in the last place that is free.
/// How many places are then free.
pub fn lend(lent: &mut [i64], free: usize, kind: Kind, first: Reading) -> usize
    requires { (free ≤ length lent.old) × (byte_of kind ≡ byte_of Kind.Bind → 0 < free) }
    ensures { Lent (byte_of kind) first.code first.number free lent.old lent.new result }
{
    match kind {
        Kind::Bind => {
            let last = free - 1;
            lent[last] = if first.code == FAIL { 0 } else { first.number };
            last
        }
        _ => free,
    }
}
