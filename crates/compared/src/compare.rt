// One reading, with what was expected of it.
use reader::{DESCRIPTOR_WORDS, VALUE_WORDS};

/// What is read with what description, and what is to be printed of it.
#[derive(Clone, Copy)]
pub struct Reading<'a> {
    pub name: &'a str,
    pub description: &'a [u8],
    pub input: &'a [u8],
    pub expected: &'a str,
}

/// How many readings were run, and how many came out as expected; and where they are told.
#[derive(Drop)]
pub struct Tally<'a, R> {
    rt: &'a R,
    readings: u32,
    same: u32,
}

// What stands in the tables before a call, so that what a call leaves is its own.
const RUBBISH: u32 = 0xDEAD_BEEF;

impl<'a, R: Print> Tally<'a, R> {
    /// No reading was run yet.
    pub fn new(rt: &'a R) -> Tally<'a, R> {
        Tally {
            rt,
            readings: 0,
            same: 0,
        }
    }

    /// A reading with tables that are large enough.
    pub fn over(&mut self, reading: Reading) {
        self.with_room(64, 64, reading);
    }

    /// A reading with tables of so many words: two numbers, which differ in some readings. A byte counts them, so that none can be asked for that are not
    /// there.
    pub fn with_room(&mut self, values: u8, descriptors: u8, reading: Reading) {
        let values = &mut [RUBBISH; u8::MAX as usize][..usize::from(values)];
        let descriptors = &mut [RUBBISH; u8::MAX as usize][..usize::from(descriptors)];
        let answer = reader::read(reading.description, reading.input, values, descriptors);
        let mut text = [0u8; 512];
        let length = text::call(answer, values, descriptors, &mut text);
        let found = &text[..length];
        let count = answer.map_or(0, |success| success.count) as usize;
        let is_clear = is_clear_from(values, VALUE_WORDS * count)
            && is_clear_from(descriptors, DESCRIPTOR_WORDS * count);
        self.show(reading, found, is_clear);
        self.readings = self.readings.saturating_add(1);
        if is_clear && found == reading.expected.as_bytes() {
            self.same = self.same.saturating_add(1);
        }
    }

    // Piece by piece: where a write fails, nothing is told of it, and what comes after it is still written.
    fn show(&self, reading: Reading, found: &[u8], is_clear: bool) {
        self.put(reading.name.as_bytes());
        self.put(b"\nexpected\n");
        self.put(reading.expected.as_bytes());
        self.put(b"found\n");
        self.put(found);
        self.put(b"\n");
        if !is_clear {
            self.put(b"and words after the last entry that are not 0\n");
        }
    }

    fn put(&self, bytes: &[u8]) {
        let _ = self.rt.write_all(bytes);
    }

    /// The last line.
    pub fn count(self) {
        let Tally { rt, readings, same } = self;
        let _ = println!(rt; "{readings} readings, {same} as expected");
    }
}

// "Words after the last entry are 0."
fn is_clear_from(table: &[u32], from: usize) -> bool {
    table.iter().skip(from).all(|&word| word == 0)
}
