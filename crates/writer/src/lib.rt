// The writer: one call puts the numbers of a value table back into bits, in the layout that a description says.
#![tactic(auto)]

mod entries;
mod fields;
mod packer;
mod stored;

ghost use Rattle.std.specs.Prelude.{◌≡◌, OnOk, length};
ghost use Rattle.writing.specs.Outcome.{given, outcome};

use crate::entries::ENTRY_WORDS;
use crate::stored::Stored;
use description::MOST_NODES;
use description::places::Nodes;
use writing::Refused;

/// A call: "the number of bits without the padding", and every byte of the buffer, whatever stood in it. The count stands beside the table because
/// request 2 and the C header have it so: a count beyond the table is refused with 15.
pub fn write(desc: &[u8], values: &[u32], count: usize, buffer: &mut [u8]) -> Result<u32, Refused>
    ensures { given result buffer.new ≡ outcome (length buffer.old) desc.now values.now count }
{
    let written = try_write(desc, values, count, buffer);
    if written.is_err() {
        buffer.fill(0);
    }
    written
}

// The call, but that anything may stand in the buffer where it is refused: 1 to 10, then 14, then 15 for the count.
fn try_write(desc: &[u8], values: &[u32], count: usize, buffer: &mut [u8]) -> Result<u32, Refused>
    ensures answer { result ≡ (outcome (length buffer.old) desc.now values.now count).answer }
    ensures bytes { OnOk result
        (buffer.new ≡ (outcome (length buffer.old) desc.now values.now count).buffer) }
{
    let mut starts = [0usize; MOST_NODES];
    let n = description::examine(desc, &mut starts)?;
    let nodes = Nodes {
        desc,
        starts: &starts[..n],
    };
    let mut fields = [Stored::default(); MOST_NODES];
    fields::look_up(&nodes, &mut fields)?;
    let (entries, _) = values.as_chunks::<ENTRY_WORDS>();
    // By a test: the loop over what `get(..count).ok_or(..)?` gives has the same instructions, but is laid out so that an entry takes a quarter longer.
    if entries.len() < count {
        return Err(Refused::WrongTable);
    }
    entries::write_entries(&fields[..n], &entries[..count], buffer)
}
