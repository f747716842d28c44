// The lines of the listing, put into a buffer that is lent; what has no room is left out. What is said of how much each of them puts at most is how
// large a buffer has to be.
ghost use Rattle.std.specs.Prelude.{◌≡◌, ◌+◌, ◌*◌, ◌≤◌, ◌++◌, [], ◌∷◌, length, slice_index_or};
ghost use Rattle.reader.specs.Answers.{said};
ghost use Rattle.text.specs.Lines.{decimal, following as following_numbers};
ghost use Rattle.text.specs.Listing.{ok_line, refusal_line, entry_line, entry_lines};
ghost use Rattle.text.specs.Listing.{short_input as short_input_line};
ghost use Rattle.text.specs.Inner.Puts.{Puts};

use itoa::Buffer;
use reader::{DESCRIPTOR_WORDS, Refused, VALUE_WORDS};
use std::array::from_fn;

/// A buffer, and the place in it where the next byte goes.
#[derive(Drop)]
pub struct Text<'a> {
    pub bytes: &'a mut [u8],
    pub next: usize,
}

/// Both tables after a call, to be read. Not the reader's own `Tables`, in which it writes: a struct is of slices that are lent to be written, or of others.
#[derive(Clone, Copy)]
pub struct Tables<'a> {
    pub values: &'a [u32],
    pub descriptors: &'a [u32],
}

impl Text<'_> {
    fn byte(&mut self, b: u8)
        ensures { Puts self.old self.new (b ∷ []) 1 }
    {
        // By index: std's `get_mut` does not say what the slice holds afterwards.
        if self.next < self.bytes.len() {
            self.bytes[self.next] = b;
            self.next += 1;
        }
    }

    // Byte by byte: what has no room is left out, and a copy of the part that has room would first ask how long that is, and whether `next` is past the end.
    fn word(&mut self, letters: &[u8])
        ensures { Puts self.old self.new letters.now (length letters.now) }
    {
        for &b in letters {
            self.byte(b);
        }
    }

    // Not by `write!`, which promises what it wrote only where it answers `Ok`, and never that it does.
    #[tactic(auto, using(crate::proofs::Decimals::decimal_is))]
    fn number(&mut self, n: u32)
        ensures { Puts self.old self.new (decimal n) 10 }
    {
        // Most numbers of a listing have one digit, which is put without a buffer to write it in.
        if n < 10 {
            return self.byte(b'0' + n as u8);
        }
        self.word(Buffer::new().format(n).as_bytes());
    }

    // The numbers that follow on a line, each after a single space; then the line feed.
    fn following(&mut self, numbers: &[u32])
        ensures { Puts self.old self.new (following_numbers numbers.now) (11 * length numbers.now + 1) }
    {
        for &n in numbers {
            self.byte(b' ');
            self.number(n);
        }
        self.byte(b'\n');
    }

    // What a listing begins with: a word of seven letters at most, and two numbers.
    fn first_line(&mut self, word: &[u8], numbers: &[u32; 2])
        requires { length word.now ≤ 7 }
        ensures { Puts self.old self.new (word.now ++ following_numbers numbers.now) 30 }
    {
        self.word(word);
        self.following(numbers);
    }

    /// "ok", count and end
    pub fn ok(&mut self, count: u32, end: u32)
        ensures { Puts self.old self.new (ok_line count end) 30 }
    {
        self.first_line(b"ok", &[count, end]);
    }

    /// "refused", number, node
    #[tactic(auto, unfolding(reader::specs::Answers::stated_by))]
    pub fn refused(&mut self, refused: Refused)
        ensures { Puts self.old self.new (refusal_line (said (Err refused))) 30 }
    {
        self.first_line(
            b"refused",
            &[refused.number().into(), refused.node().into()],
        );
    }

    /// "short input"
    pub fn short_input(&mut self)
        ensures { Puts self.old self.new short_input_line 30 }
    {
        self.word(b"short input\n");
    }

    // "node, begin, end, code, errors, number word, detail, size"
    fn entry(&mut self, tables: &Tables, i: u32)
        ensures { Puts self.old self.new (entry_line tables.now.values.now tables.now.descriptors.now i) 88 }
    {
        let value = |k| word_at(tables.values, VALUE_WORDS * i as usize + k);
        let descriptor = |k| word_at(tables.descriptors, DESCRIPTOR_WORDS * i as usize + k);
        let [node, number, detail, size]: [u32; VALUE_WORDS] = from_fn(value);
        let [begin, end, code, errors]: [u32; DESCRIPTOR_WORDS] = from_fn(descriptor);
        self.number(node);
        self.following(&[begin, end, code, errors, number, detail, size]);
    }

    /// "a line for each entry"
    #[tactic(auto, unfolding(crate::specs::Listing::entry_lines))]
    pub fn entries(&mut self, tables: &Tables, count: u32)
        ensures { Puts self.old self.new (entry_lines tables.now.values.now tables.now.descriptors.now count) (88 * count) }
    {
        for i in 0..count {
            self.entry(tables, i);
        }
    }
}

// Word n of a table, and 0 past the table's end. The index stays beside the table: an entry past the end has no part of it to be handed on.
fn word_at(table: &[u32], n: usize) -> u32
    ensures { result ≡ slice_index_or table.now n 0 }
{
    table.get(n).copied().unwrap_or(0)
}
