// What reading a node gives, as the functions of the reader hand it to each other.
ghost use Rattle.std.specs.Prelude.{◌≡◌, ◌+◌, ◌≤◌, if◌then◌else◌};
ghost use Rattle.rules.specs.Entries.{any};
ghost use Rattle.rules.specs.Reading.{code_for};
ghost use Rattle.reader.specs.Inner.Readings.{counted};

use crate::tables::MOST_ENTRIES;

// "a code: 0 ok, 1 err, 2 fail". Numbers and no enum: tried and proved, but its one byte made a reading take a tenth longer, as
// long as with the interpreter written for Rust, and the stack grow.

/// "0 ok"
pub const OK: u32 = 0;

/// "1 err"
pub const ERR: u32 = 1;

/// "2 fail"
pub const FAIL: u32 = 2;

// No table has room for as many entries: a count stops here.
const MOST_COUNTED: u32 = MOST_ENTRIES as u32 + 1;

/// A node that is read. Of the places for numbers lent the first `free` are free; the numbers stand after them, the nearest bind's first. It goes beside
/// the numbers and not with them in one struct, which would be no plainer: by value, nothing has to be put back after a bind's second child.
/// Nor is the offset a part of it: a node's children, and a sequence's node itself, are read at one offset after another, so one would be made anew for
/// each, which would be no plainer either. What may be rested on where a node is read, `Visit`, is of all three, so each function asks it and no type has it.
#[derive(Clone, Copy)]
pub struct At {
    pub node: usize,
    pub free: usize,
}

/// What a node gives: end, errors, code and number, and how many entries it has.
#[derive(Clone, Copy)]
pub struct Reading {
    pub end: u32,
    pub errors: u32,
    pub code: u32,
    pub number: i64,
    pub size: u32,
}

/// A node's own entry, but for its size.
#[derive(Clone, Copy)]
pub struct Own {
    pub node: usize,
    pub begin: u32,
    pub end: u32,
    pub errors: u32,
    pub code: u32,
    pub number: i64,
    pub detail: u32,
}

/// What the rounds of a sequence give so far, and how many entries the sequence then has, its own included.
#[derive(Clone, Copy)]
pub struct Rounds {
    pub end: u32,
    pub elements: u32,
    pub errors: u32,
    pub size: u32,
}

/// ""Any(e)" is 1 if e is above 0, else 0."
#[tactic(auto, unfolding(rules::specs::Entries::any))]
pub fn any_of(errors: u32) -> u32
    ensures value { result ≡ any errors }
    ensures small { result ≤ 1 }
{
    errors.min(1)
}

/// "Code ok at 0 errors, else err."
#[tactic(auto, unfolding(rules::specs::Reading::code_for))]
pub fn code_for(errors: u32) -> u32
    ensures { result ≡ code_for errors }
{
    if errors == 0 { OK } else { ERR }
}

/// "plus 1 if the relation ... is false"
pub fn unless(holds: bool) -> u32
    ensures value { result ≡ (if holds then 0 else 1) }
    ensures small { result ≤ 1 }
{
    u32::from(!holds)
}

/// How many entries a and b are together.
pub fn together(a: u32, b: u32) -> u32
    ensures { result ≡ counted (a + b) }
{
    a.saturating_add(b).min(MOST_COUNTED)
}
