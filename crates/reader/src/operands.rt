// What an operand stands for.
ghost use Rattle.std.specs.Prelude.{◌≡◌, ◌+◌, ◌<◌, ◌≤◌, length, drop};
ghost use Rattle.description.specs.Binds.{needs_of};
ghost use Rattle.description.specs.Kinds.{row_of};
ghost use Rattle.description.specs.Places.{kind_of, operand_of};
ghost use Rattle.rules.specs.Numbers.{value_of};

use crate::nodes::Reader;
use crate::readings::At;
use description::places::Operand;

impl Reader<'_, '_> {
    /// The operand at byte j of a node's body: a constant, or a number lent.
    pub fn value_of(&self, lent: &[i64], at: At, j: usize) -> i64
        requires operand { (at.node < length self.now.nodes.starts.now) × (j + 5 ≤ (row_of (kind_of self.now.nodes.desc.now at.node)).bytes) }
        requires free_in_bounds { needs_of (operand_of self.now.nodes.desc.now at.node j) + at.free ≤ length lent.now }
        ensures { result ≡ value_of (drop at.free lent.now) (operand_of self.now.nodes.desc.now at.node j) }
    {
        match self.nodes.operand_of(at.node, j) {
            Operand::Constant(z) => z,
            Operand::Bound(k) => lent[at.free + k as usize],
        }
    }
}
