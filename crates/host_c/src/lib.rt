// The static library: what host/rippleshrug.h declares for C, each a call of the function of that name in the crate `host`, with its clauses. A crate is a
// library or a static library, and not both, and `contracts` speaks of `host`.
#![tactic(auto)]

ghost use Rattle.std.specs.Prelude.{◌≡◌, length};
ghost use Rattle.host.specs.Answer.{answer, Got, Wrote};
ghost use Rattle.rules.specs.Outcome.{outcome};
ghost use Rattle.writing.specs.Outcome as writing;

use host::{Bits, Numbers};

/// The check of a description: the refusal plus 256 times the node, 0 where it accepts.
#[unsafe(no_mangle)]
pub extern "C" fn rippleshrug_check_slice(desc: &[u8]) -> u32
    ensures { result ≡ answer desc.now }
{
    host::rippleshrug_check_slice(desc)
}

/// A call of the reader: its four numbers, and both tables, whatever stood in them.
#[unsafe(no_mangle)]
pub extern "C" fn rippleshrug_read_slices(
    desc: &[u8],
    input: &[u8],
    values: &mut [u32],
    descriptors: &mut [u32],
) -> Numbers
    ensures { Got (outcome (length values.old) (length descriptors.old) desc.now input.now)
        result values.new descriptors.new }
{
    host::rippleshrug_read_slices(desc, input, values, descriptors)
}

/// A call of the writer: its three numbers, and every byte of the buffer, whatever stood in it.
#[unsafe(no_mangle)]
pub extern "C" fn rippleshrug_write_slices(
    desc: &[u8],
    values: &[u32],
    count: usize,
    buffer: &mut [u8],
) -> Bits
    ensures { Wrote (writing.outcome (length buffer.old) desc.now values.now count) result buffer.new }
{
    host::rippleshrug_write_slices(desc, values, count, buffer)
}
