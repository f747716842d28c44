// The entries of a value table, put into a buffer.
ghost use Rattle.std.specs.Prelude.{◌≡◌, OnOk, length};
ghost use Rattle.writer.specs.Inner.Entries.{entered};

use crate::packer::Packer;
use crate::stored::Stored;
use writing::Refused;

/// Words to an entry of a value table. The reader has the same number for each of its two tables: three numbers, which a request may change one by one.
pub const ENTRY_WORDS: usize = 4;

/// 15 for the entries, then 16.
pub fn write_entries(
    fields: &[Stored],
    entries: &[[u32; ENTRY_WORDS]],
    buffer: &mut [u8],
) -> Result<u32, Refused>
    ensures answer { result ≡ (entered (length buffer.old) fields.now entries.now).answer }
    ensures bytes { OnOk result (buffer.new ≡ (entered (length buffer.old) fields.now entries.now).buffer) }
{
    let mut packer = Packer::new(buffer);
    for &[node, number, ..] in entries {
        let &field = fields.get(node as usize).ok_or(Refused::WrongTable)?;
        if field.width() != 0 {
            let bits = field.bits_of(number).ok_or(Refused::WrongTable)?;
            packer.put(field, bits);
        }
    }
    packer.finish()
}
