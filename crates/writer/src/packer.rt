// A buffer that bits are put into, most significant first, 32 at a time.
ghost use Rattle.std.specs.Prelude.{◌≡◌, ◌+◌, ◌%◌, ◌^◌, ◌<◌, ◌≤◌, ◌++◌, length, take, drop};
ghost use Rattle.std.specs.Int.{bytes_high_first};

use crate::stored::Stored;
use writing::Refused;

// "the bytes exceed ... 8,191". The reader has the same number for another sentence: "input over 8,191 bytes".
const MOST_WRITTEN: usize = 8191;

/// A buffer and how far it is written: `at` bytes stand in it, and the bits that are still to come are the highest of `acc`, above `free` places that
/// are 0, so that a number is moved once, to its place. What stands in the buffer after the bytes does not count.
#[derive(Drop)]
pub struct Packer<'a> {
    buffer: &'a mut [u8],
    at: usize,
    free: usize,
    acc: u64,
    // As soon as 32 bits are held, they are stored.
    ghost few: { (32 < free) × (free ≤ 64) },
    ghost clear: { acc % 2 ^ free ≡ 0 },
    // The bytes of those that are held can be counted too.
    ghost near: { at + 4 < 2 ^ 64 },
}

impl<'a> Packer<'a> {
    ghost use Rattle.std.specs.Prelude.{◌≡◌, ℕ, ◌+◌, ◌%◌, ◌^◌, ◌<◌, ◌≤◌, List, [], ◌++◌, OnOk, length};
    ghost use Rattle.writing.specs.Bits.{in_width, width_of};
    ghost use Rattle.writing.specs.Outcome.{writing};
    ghost use Rattle.writer.specs.Inner.Packing.{Packs, Held};

    /// Nothing is put yet.
    pub fn new(buffer: &'a mut [u8]) -> Packer<'a>
        ensures same_buffer { result.buffer ≡ buffer.entry }
        ensures packs { Packs [] result }
    {
        Packer {
            buffer,
            at: 0,
            free: 64,
            acc: 0,
        }
    }

    /// The bits of a field's number more. Bytes for which there is no room are counted, and not stored.
    pub fn put(&mut self, field: Stored, bits: u32)
        requires near { self.old.at + 8 < 2 ^ 64 }
        requires some { 0 < width_of field }
        requires fits { bits < 2 ^ width_of field }
        ensures same_reference { self.new.buffer.ghost_name ≡ self.old.buffer.ghost_name }
        ensures same_length { length self.new.buffer.now ≡ length self.old.buffer.now }
        ensures near { self.new.at ≤ self.old.at + 4 }
        ensures packs { (row : List ℕ) → Packs row self.old → Packs (row ++ in_width (width_of field) bits) self.new }
    {
        self.free -= field.width() as usize;
        self.acc |= u64::from(bits) << self.free;
        if self.free <= 32 {
            let word = (self.acc >> 32) as u32;
            self.acc <<= 32;
            self.free += 32;
            store_word(self.buffer, self.at, word);
            self.at += 4;
        }
    }

    /// "16, the bytes exceed the buffer or 8,191"; if not, the bits that are still held are "padded with zero bits to a byte", and
    /// "bytes after the written ones are 0".
    /// Taken apart, and its parts handed on, since a packer that is taken by value cannot be written through after a branch.
    pub fn finish(self) -> Result<u32, Refused>
        ensures answer { (row : List ℕ) → Packs row self.entry
            → result ≡ (writing (length self.entry.buffer.now) row).answer }
        ensures bytes { (row : List ℕ) → Packs row self.entry
            → OnOk result (self.exit.0.now ≡ (writing (length self.entry.buffer.now) row).buffer) }
    {
        let Packer {
            buffer,
            at,
            free,
            acc,
        } = self;
        Packer::store_last(buffer, at, free, acc)
    }

    // The same of a packer's parts.
    fn store_last(buffer: &mut [u8], at: usize, free: usize, acc: u64) -> Result<u32, Refused>
        requires few { (32 < free) × (free ≤ 64) }
        requires clear { acc % 2 ^ free ≡ 0 }
        requires near { at + 4 < 2 ^ 64 }
        ensures answer { (row : List ℕ) → Held row at free acc buffer.old → result ≡ (writing (length buffer.old) row).answer }
        ensures bytes { (row : List ℕ) → Held row at free acc buffer.old → OnOk result (buffer.new ≡ (writing (length buffer.old) row).buffer) }
    {
        let held = 64 - free;
        let held_bytes = held.div_ceil(8);
        let end = at + held_bytes;
        if buffer.len().min(MOST_WRITTEN) < end {
            return Err(Refused::NoSpace);
        }
        store(&mut buffer[at..end], (acc >> 32) >> (32 - 8 * held_bytes));
        buffer[end..].fill(0);
        Ok((8 * at + held) as u32)
    }
}

// A word's four bytes, where there is room for them. By index, since nothing is known of what the slice holds after `get_mut`, nor after
// `split_at_mut_checked` and then `first_chunk_mut`; `split_at_mut` after a test is one test more. One test of the sum: with one of the length and one of
// the length less 4, the compiler makes a second loop for buffers that are shorter, and an entry's time hangs on where the first one is linked.
fn store_word(buffer: &mut [u8], at: usize, word: u32)
    requires { at + 4 < 2 ^ 64 }
    ensures stored { at + 4 ≤ length buffer.old
        → buffer.new ≡ take at buffer.old ++ (bytes_high_first 4 word ++ drop 4 (drop at buffer.old)) }
    ensures unchanged { length buffer.old < at + 4 → buffer.new ≡ buffer.old }
{
    if buffer.len() < at + 4 {
        return;
    }
    buffer[at..at + 4].copy_from_slice(&word.to_be_bytes());
}

// As many of a word's low bytes as there is room for, the most significant first. Byte by byte: a copy of so many calls `memcpy`, which a host in C, that
// links the library alone, need not have. The smaller of their number and 4 is their number, and tells the compiler that they are few.
fn store(bytes: &mut [u8], word: u64)
    requires { length bytes.old ≤ 4 }
    ensures { bytes.new ≡ bytes_high_first (length bytes.old) word }
{
    let n = bytes.len().min(4);
    for i in 0..n {
        bytes[i] = ((word >> (8 * (n - 1 - i))) % 256) as u8;
    }
}
