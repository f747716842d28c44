// The two tables. A node is lent the part of each from its own entry on.
ghost use Rattle.std.specs.Prelude.{◌≡◌, ◌*◌, ◌<◌, ◌≤◌, min, ◌++◌, length, drop};
ghost use Rattle.description.specs.Limits.{most_nodes};
ghost use Rattle.rules.specs.Tables.{room};
ghost use Rattle.reader.specs.Inner.Windows.{value_size, descriptor_size, words_of, SameTables, Entered, forgotten};

use crate::numbers;
use crate::readings::{Own, Reading};

// Words to an entry, of each table: the same number of two things.

/// "A value entry has four 32-bit words: node number, number (low 32 bits), detail, size".
pub const VALUE_WORDS: usize = 4;

/// "A descriptor entry has begin, end, code, errors."
pub const DESCRIPTOR_WORDS: usize = 4;

/// "never above 65,535"
pub const MOST_ENTRIES: usize = 65535;

/// "Room is the smaller of the two lengths divided by 4 and rounded down, and never above 65,535."
#[tactic(auto, unfolding(rules::specs::Tables::room))]
pub fn room_of(values: usize, descriptors: usize) -> usize
    ensures { result ≡ room values descriptors }
{
    (values / VALUE_WORDS)
        .min(descriptors / DESCRIPTOR_WORDS)
        .min(MOST_ENTRIES)
}

/// Where entry k begins in a table of n words, or the table's end where there is no room for it.
pub fn first_word(k: u32, words: usize, n: usize) -> usize
    requires { words < 16 }
    ensures { result ≡ min (words * k) n }
{
    (words * k as usize).min(n)
}

/// Both tables, from a node's own entry on. The numbers lent are no part of it, though they go with it through eleven functions: it is made anew for each
/// child, of a part of each table, and the numbers are the same array all the way down.
#[derive(Drop)]
pub struct Tables<'a> {
    pub values: &'a mut [u32],
    pub descriptors: &'a mut [u32],
}

impl Tables<'_> {
    /// The entries from entry k on, up to entry n, are 0 again.
    pub fn forget(&mut self, k: u32, n: u32)
        requires { k ≤ n }
        ensures values { self.new.values.now ≡ forgotten self.old.values.now (value_size * k) (value_size * n) }
        ensures descriptors { self.new.descriptors.now ≡ forgotten self.old.descriptors.now (descriptor_size * k) (descriptor_size * n) }
        ensures same { SameTables self.old self.new }
    {
        forget(self.values, VALUE_WORDS, k, n);
        forget(self.descriptors, DESCRIPTOR_WORDS, k, n);
    }

    /// A node's own entry, over those beneath it, and the reading that it is of; `size` counts it and them.
    pub fn enter(&mut self, own: Own, size: u32) -> Reading
        requires { own.node < most_nodes }
        ensures entered { Entered own size (words_of self.old) (words_of self.new) result }
        ensures same { SameTables self.old self.new }
    {
        let number = numbers::word_of(own.number);
        put(self.values, [own.node as u32, number, own.detail, size]);
        put(self.descriptors, [own.begin, own.end, own.code, own.errors]);
        // Field by field: an `Own` with a `Reading` in it would be no plainer, since what makes an `Own` does not know its size.
        Reading {
            end: own.end,
            errors: own.errors,
            code: own.code,
            number: own.number,
            size,
        }
    }
}

// The entries from entry k on, up to entry n, are 0 again.
fn forget(table: &mut [u32], words: usize, k: u32, n: u32)
    requires { (words < 16) × (k ≤ n) }
    ensures { table.new ≡ forgotten table.old (words * k) (words * n) }
{
    let from = first_word(k, words, table.len());
    let to = first_word(n, words, table.len());
    table[from..to].fill(0);
}

// An entry's words at the front of a table, if there is room for them: of either table, as long as both have four words to an entry.
fn put(table: &mut [u32], entry: [u32; 4])
    ensures { 4 ≤ length table.old → table.new ≡ entry ++ drop 4 table.old }
{
    if let Some(words) = table.first_chunk_mut() {
        *words = entry;
    }
}
