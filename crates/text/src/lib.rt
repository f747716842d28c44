// What the listing prints, as bytes in a buffer that is lent.
#![tactic(auto)]

mod lines;

ghost use Rattle.std.specs.Prelude.{◌+◌, ◌*◌, ◌≤◌, ◌≡◌, length, take};
ghost use Rattle.std.proofs.lemmas.List.Edits.{sets};
ghost use Rattle.reader.specs.Answers.{said, stated_by};
ghost use Rattle.rules.specs.Outcome.{outcome};
ghost use Rattle.text.specs.Inner.Lengths.{most_text};
ghost use Rattle.text.specs.Inner.Puts.{Puts};
ghost use Rattle.text.specs.Listing.{printed, printed_outcome, table_words, listing};
ghost use Rattle.text.specs.Listing.{listed as listed_text};
ghost use Rattle.text.specs.Put.{Put};

use description::{MOST_BYTES, Refusal};
use lines::{Tables, Text};
use reader::{DESCRIPTOR_WORDS, MOST_INPUT, Refused, Success, VALUE_WORDS};

// "Its tables have room for 1,024 entries".
const ENTRIES: usize = 1024;

/// No listing is longer: a first line of 30 bytes, and for each entry eight numbers, each with ten digits and what follows it.
pub const MOST_TEXT: usize = 30 + 88 * ENTRIES;

/// No more of standard input is needed: two bytes of length, 1,024 of description, and of input one byte more than is read, which is refused
/// (`proofs/Enough.antt`).
pub const MOST_GIVEN: usize = 2 + MOST_BYTES + MOST_INPUT + 1;

/// What is printed for what standard input holds, and how long it is. All of it has room.
/// Not the printed part itself: what is promised is of the whole buffer (`text_after`, and `put` of `call`), and a part that is answered would keep it lent.
#[tactic(auto, using(crate::proofs::Putting::put_counts, crate::proofs::Putting::put_ends, crate::proofs::Putting::put_inside))]
pub fn list(given: &[u8], text: &mut [u8; MOST_TEXT]) -> usize
    ensures text_after { text.new ≡ sets text.old 0 (listing given.now) }
    ensures value { result ≡ length (listing given.now) }
    ensures upper_bound { (result ≤ length text.new) × (result ≡ length (take result text.new)) }
{
    let mut out = Text {
        bytes: text,
        next: 0,
    };
    list_into(given, &mut out);
    out.next
}

#[tactic(auto, unfolding(crate::specs::Listing::listing))]
fn list_into(given: &[u8], text: &mut Text)
    ensures { Puts text.old text.new (listing given.now) most_text }
{
    let [high, low, bytes @ ..] = given else {
        return text.short_input();
    };
    listed(u16::from_be_bytes([*high, *low]), bytes, text);
}

// What follows a stated length n.
#[tactic(auto, unfolding(reader::specs::Answers::said, rules::specs::Outcome::stated, description::specs::Limits::most_bytes, crate::specs::Listing::listed))]
fn listed(n: u16, bytes: &[u8], text: &mut Text)
    ensures { Puts text.old text.new (listed_text n bytes.now) most_text }
{
    let n = usize::from(n);
    if n == 0 || MOST_BYTES < n {
        return text.refused(Refusal::EmptyOrTooLong.into());
    }
    let Some((desc, input)) = bytes.split_at_checked(n) else {
        return text.short_input();
    };
    read(desc, input, text);
}

// A description and an input, read into tables of the listing's own.
#[tactic(auto, using(crate::proofs::Printed::few_entries), unfolding(reader::specs::Answers::given, reader::specs::Answers::stated_by))]
fn read(desc: &[u8], input: &[u8], text: &mut Text)
    ensures { Puts
        text.old
        text.new
        (printed_outcome (outcome table_words table_words desc.now input.now))
        most_text }
{
    let mut values = [0u32; VALUE_WORDS * ENTRIES];
    let mut descriptors = [0u32; DESCRIPTOR_WORDS * ENTRIES];
    let answer = reader::read(desc, input, &mut values, &mut descriptors);
    let tables = Tables {
        values: &values,
        descriptors: &descriptors,
    };
    answered(answer, &tables, text);
}

/// What is printed of a call of the reader, its answer and both tables afterwards, and where it ends in the buffer.
pub fn call(
    answer: Result<Success, Refused>,
    values: &[u32],
    descriptors: &[u32],
    text: &mut [u8],
) -> usize
    ensures put { Put text.old 0 (printed values.now descriptors.now (said answer)) text.new result }
    ensures answer_len_bound { length (printed values.now descriptors.now (said answer)) ≤ 30 + 88 * (stated_by answer).count }
    ensures upper_bound { (result ≤ length text.new) × (result ≡ length (take result text.new)) }
{
    let mut out = Text {
        bytes: text,
        next: 0,
    };
    let tables = Tables {
        values,
        descriptors,
    };
    answered(answer, &tables, &mut out);
    out.next
}

#[tactic(auto, unfolding(reader::specs::Answers::said, crate::specs::Listing::printed))]
fn answered(answer: Result<Success, Refused>, tables: &Tables, text: &mut Text)
    ensures { Puts
        text.old
        text.new
        (printed tables.now.values.now tables.now.descriptors.now (said answer))
        (30 + 88 * (stated_by answer).count) }
{
    match answer {
        Ok(Success { count, end }) => {
            text.ok(count, end);
            text.entries(tables, count);
        }
        Err(refused) => text.refused(refused),
    }
}
