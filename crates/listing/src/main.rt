// The listing program: a description and an input on standard input, the entries on standard output. What it prints is worked out, and
// proved, in the crate `text`; here it is read and written.
#![tactic(auto)]

ghost use Rattle.std.specs.Counts.{IsPrefixLen};

use std::io::{self, Read};
use text::{MOST_GIVEN, MOST_TEXT};

// It answers no error: where a read or a write fails its exit status is 0 all the same, as README.md promises (docs/DECISIONS.md, "What cannot be had").
fn main(rt: HostRuntime) {
    let mut given = [0u8; MOST_GIVEN];
    let n = fill(&rt, &mut rt.stdin(), &mut given);
    let mut text = [0u8; MOST_TEXT];
    let length = text::list(&given[..n], &mut text);
    if let Err(e) = rt.write_all(&text[..length]) {
        say(&rt, "standard output", e);
    }
}

// Reads until the buffer is full or the input ends. Where a read fails, what follows the stated length may not be all there: it says so, and
// answers the length alone.
fn fill(rt: &impl Eprint, input: &mut impl Read, given: &mut [u8]) -> usize
    ensures { IsPrefixLen result given.new }
{
    let mut n = 0;
    // No `for`: how much a read gives, and so how many there are, is known only afterwards.
    while n < given.len() {
        match input.read(&mut given[n..]) {
            Ok(0) => break,
            Ok(k) => n += k,
            Err(e) => {
                say(rt, "standard input", e);
                return n.min(2);
            }
        }
    }
    n
}

// Says on standard error what failed, and why.
fn say(rt: &impl Eprint, what: &str, e: io::Error) {
    let _ = eprintln!(rt; "listing: {what}: {e}");
}
