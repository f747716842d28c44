// What a host calls through the static library, as host/rippleshrug.h declares it for C: the check, a call of the reader, and one of the writer. The
// crate `host_c` exports them.
#![tactic(auto)]

ghost use Rattle.std.specs.Prelude.{◌≡◌, length};
ghost use Rattle.rules.specs.Outcome.{outcome};
ghost use Rattle.writing.specs.Outcome as writing;
ghost use Rattle.host.specs.Answer.{answer, Got, Wrote};

use reader::{Refused, Success};

/// The check of a description: the refusal plus 256 times the node, 0 where it accepts.
#[tactic(auto, unfolding(crate::specs::Answer::answer))]
#[unsafe(no_mangle)]
pub extern "C" fn rippleshrug_check_slice(desc: &[u8]) -> u32
    ensures { result ≡ answer desc.now }
{
    match description::check(desc) {
        Ok(()) => 0,
        Err(r) => u32::from(r.number()) + 256 * u32::from(r.node()),
    }
}

/// "refusal 0, node 0, count and end", or a refusal's: the four numbers of a call, laid out as C lays out a struct.
#[repr(C)]
#[derive(Clone, Copy, PartialEq, Eq, Debug)]
pub struct Numbers {
    pub refusal: u32,
    pub node: u32,
    pub count: u32,
    pub end: u32,
}

impl From<Result<Success, Refused>> for Numbers {
    ghost use Rattle.std.specs.Prelude.{◌≡◌};
    ghost use Rattle.reader.specs.Answers.{stated_by};
    ghost use Rattle.host.specs.Answer.{numbers_of};

    ghost from_gives = { λ answer numbers. numbers ≡ numbers_of (stated_by answer) };

    #[tactic(auto, unfolding(crate::specs::Answer::numbers_of, reader::specs::Answers::stated_by, reader::specs::Answers::said, rules::specs::Outcome::stated))]
    fn from(answer: Result<Success, Refused>) -> Numbers {
        match answer {
            Ok(success) => Numbers {
                refusal: 0,
                node: 0,
                count: success.count,
                end: success.end,
            },
            Err(refused) => Numbers {
                refusal: refused.number().into(),
                node: refused.node().into(),
                count: 0,
                end: 0,
            },
        }
    }
}

/// A call of the reader: its four numbers, and both tables, whatever stood in them.
#[tactic(auto, unfolding(reader::specs::Answers::given, reader::specs::Answers::stated_by))]
#[unsafe(no_mangle)]
pub extern "C" fn rippleshrug_read_slices(
    desc: &[u8],
    input: &[u8],
    values: &mut [u32],
    descriptors: &mut [u32],
) -> Numbers
    ensures { Got (outcome (length values.old) (length descriptors.old) desc.now input.now)
        result values.new descriptors.new }
{
    reader::read(desc, input, values, descriptors).into()
}

/// "the number of bits without the padding", or a refusal: the three numbers of a call of the writer, laid out as C lays out a struct.
#[repr(C)]
#[derive(Clone, Copy, PartialEq, Eq, Debug)]
pub struct Bits {
    pub refusal: u32,
    pub node: u32,
    pub bits: u32,
}

// Beside the conversion to `Numbers`: C has two structs.
impl From<Result<u32, writing::Refused>> for Bits {
    ghost use Rattle.std.specs.Prelude.{◌≡◌};
    ghost use Rattle.writing.specs.Outcome.{stated};
    ghost use Rattle.host.specs.Answer.{bits_of};

    ghost from_gives = { λ answer bits. bits ≡ bits_of (stated answer) };

    #[tactic(auto, unfolding(crate::specs::Answer::bits_of, writing::specs::Outcome::stated))]
    fn from(answer: Result<u32, writing::Refused>) -> Bits {
        match answer {
            Ok(bits) => Bits {
                refusal: 0,
                node: 0,
                bits,
            },
            Err(refused) => Bits {
                refusal: refused.number().into(),
                node: refused.node().into(),
                bits: 0,
            },
        }
    }
}

/// A call of the writer: its three numbers, and every byte of the buffer, whatever stood in it. The count stands beside the table, as in C's header.
#[tactic(auto, unfolding(writing::specs::Outcome::given))]
#[unsafe(no_mangle)]
pub extern "C" fn rippleshrug_write_slices(
    desc: &[u8],
    values: &[u32],
    count: usize,
    buffer: &mut [u8],
) -> Bits
    ensures { Wrote (writing.outcome (length buffer.old) desc.now values.now count) result buffer.new }
{
    writer::write(desc, values, count, buffer).into()
}
