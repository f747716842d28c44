// The nodes without children: unit, bottom, bits, signed and compute. Each gives its own entry.
ghost use Rattle.std.specs.Prelude.{◌≡◌, ◌+◌, ◌<◌, ◌≤◌, [], length, drop};
ghost use Rattle.bits.specs.Bits.{total, number};
ghost use Rattle.bits.specs.Lowest.{lowest};
ghost use Rattle.description.specs.Binds.{needs};
ghost use Rattle.description.specs.Bodies.{byte_of, child_count};
ghost use Rattle.description.specs.Places.{kind_of, tree_of};
ghost use Rattle.rules.specs.Reading.{read_bits};
ghost use Rattle.reader.specs.Inner.Leaves.{number_for, compute_at};
ghost use Rattle.reader.specs.Inner.Readings.{made};
ghost use Rattle.reader.specs.Inner.Visits.{Visit, read_at};

use crate::nodes::Reader;
use crate::readings::{At, Own};
use crate::{numbers, owns};
use bits::Unread;
use description::kinds::Kind;

impl Reader<'_, '_> {
    /// A node without children, read at o.
    #[tactic(auto, unfolding(description::specs::Bodies::child_count, description::specs::Bodies::child_counts))]
    pub fn leaf(&self, lent: &[i64], at: At, kind: Kind, o: u32) -> Own
        requires { Visit self.now lent.now at o × (byte_of kind ≡ kind_of self.now.nodes.desc.now at.node) × (child_count (byte_of kind) ≡ 0) }
        ensures { read_at self.now lent.now at o ≡ made result [] }
    {
        let node = at.node;
        match kind {
            Kind::Unit => owns::clean(node, o, o, 0),
            Kind::Bottom => owns::failed(node, o, 0),
            Kind::Bits | Kind::Signed => {
                let w = self.nodes.field_of(node, 0);
                self.bits(node, kind, o, w)
            }
            Kind::Compute => owns::clean(node, o, o, self.compute(lent, at)),
            // the others have children
            _ => unreachable!(),
        }
    }

    // "The number is a + b or a - b, kept modulo 2 to the power w".
    fn compute(&self, lent: &[i64], at: At) -> i64
        requires { (at.node < length self.now.nodes.starts.now) × (kind_of self.now.nodes.desc.now at.node ≡ byte_of Kind.Compute)
            × (needs (tree_of self.now.nodes.desc.now at.node) + at.free ≤ length lent.now) }
        ensures { result ≡ compute_at self.now.nodes.desc.now (drop at.free lent.now) at.node }
    {
        let w = self.nodes.field_of(at.node, 0);
        let operator = self.nodes.operator_of(at.node);
        let a = self.value_of(lent, at, 2);
        let b = self.value_of(lent, at, 7);
        numbers::computed(w, operator, a, b)
    }

    // "with o + w at most T, the w bits as unsigned or two's complement number, end o + w, ok. Otherwise end o, number 0, 1 error, fail."
    // "its missing bits too, o + w - T, and the detail word of its entry holds them" (request 1).
    #[tactic(auto, unfolding(bits::specs::Bits::total, bits::specs::Lowest::lowest, bits::specs::Lowest::missing_bits, rules::specs::Outcome::most_input, rules::specs::Reading::read_bits))]
    fn bits(&self, node: usize, kind: Kind, o: u32, w: u8) -> Own
        requires { (o ≤ total self.now.input.now) × (w ≤ 32) }
        ensures { read_bits self.now.input.now node o w (number_for (byte_of kind) w (number self.now.input.now o w)) ≡ made result [] }
    {
        match self.number_of(kind, o, w) {
            Ok(z) => owns::clean(node, o, o + w as u32, z),
            Err(Unread::Missing(missing)) => owns::failed(node, o, missing as u32),
            // no width is above 32
            Err(Unread::TooWide) => unreachable!(),
        }
    }

    // "as unsigned or two's complement number", by the kind.
    fn number_of(&self, kind: Kind, o: u32, w: u8) -> Result<i64, Unread>
        ensures { result ≡ lowest self.now.input.now o w (number_for (byte_of kind) w (number self.now.input.now o w)) }
    {
        match kind {
            Kind::Bits => bits::unsigned(self.input, o as usize, w),
            _ => bits::signed(self.input, o as usize, w),
        }
    }
}
