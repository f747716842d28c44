// The nodes of a description, found by where they begin. Whoever visits a node has them from the check (`examine`), and nothing is tested again.
ghost use Rattle.std.specs.Prelude.{◌≡◌, ℕ, ◌+◌, ◌≤◌, ◌<◌, length};
ghost use Rattle.description.specs.Limits.{most_bytes};
ghost use Rattle.description.specs.Places.{Known};

use crate::kinds::{Kind, Operator, Relation};

/// An operand: a constant, or the number bound by the k-th enclosing bind counted outward from 0.
#[derive(Clone, Copy, PartialEq, Eq, Debug)]
pub enum Operand {
    Constant(i64),
    Bound(u8),
}

/// The first nodes of a description, of which node k begins at byte `starts[k]`. That a node is among them, and that its body has the bytes that are asked
/// for, each method asks, as a slice does of an index. Where in a body something stands is a number, as in 01's table of kinds.
#[derive(Clone, Copy)]
pub struct Nodes<'a> {
    pub desc: &'a [u8],
    pub starts: &'a [usize],
    ghost short: { length desc.now ≤ most_bytes },
    ghost known: { (k : ℕ) → k < length starts.now → Known desc.now starts.now k },
}

impl Nodes<'_> {
    ghost use Rattle.description.specs.Bodies.{byte_of, child_count, relation_meant, operator_meant};
    ghost use Rattle.description.specs.Inner.Children.{bind_named};
    ghost use Rattle.description.specs.Kinds.{row_of, relation, operator};
    ghost use Rattle.description.specs.Places.{kind_of, field_of, operand_of, meant};

    /// A node's kind.
    pub fn kind_of(&self, node: usize) -> Kind
        requires { node < length self.now.starts.now }
        ensures { byte_of result ≡ kind_of self.now.desc.now node }
    {
        Kind::try_from(self.desc[self.starts[node]]).unwrap()
    }

    /// Byte j of a node's body: a width, or what the methods below are for.
    pub fn field_of(&self, node: usize, j: usize) -> u8
        requires node { node < length self.now.starts.now }
        requires inside { j < (row_of (kind_of self.now.desc.now node)).bytes }
        ensures { result ≡ field_of self.now.desc.now node j }
    {
        self.desc[self.starts[node] + 1 + j]
    }

    /// A node's child at place j of its body, which is a smaller node.
    pub fn child_of(&self, node: usize, j: usize) -> usize
        requires node { node < length self.now.starts.now }
        requires inside { j < child_count (kind_of self.now.desc.now node) }
        ensures value { result ≡ field_of self.now.desc.now node j }
        ensures smaller { result < node }
    {
        self.field_of(node, j) as usize
    }

    /// The relation of a where.
    #[tactic(auto, unfolding(crate::specs::Kinds::kinds, crate::specs::Kinds::row_of))]
    pub fn relation_of(&self, node: usize) -> Relation
        requires node { node < length self.now.starts.now }
        requires kind { kind_of self.now.desc.now node ≡ byte_of Kind.Where }
        ensures { relation_meant result ≡ relation (field_of self.now.desc.now node 1) }
    {
        Relation::try_from(self.field_of(node, 1)).unwrap()
    }

    /// The operator of a compute. No one function for both, over the type: that the byte is listed, and what it means, each kind says of its own.
    #[tactic(auto, unfolding(crate::specs::Kinds::kinds, crate::specs::Kinds::row_of))]
    pub fn operator_of(&self, node: usize) -> Operator
        requires node { node < length self.now.starts.now }
        requires kind { kind_of self.now.desc.now node ≡ byte_of Kind.Compute }
        ensures { operator_meant result ≡ operator (field_of self.now.desc.now node 1) }
    {
        Operator::try_from(self.field_of(node, 1)).unwrap()
    }

    // The bind that the operand at byte j of a node's body names, where it is no constant.
    #[tactic(auto, using(crate::proofs::Bodies::body_bytes), unfolding(crate::specs::Places::operand_of, crate::specs::Places::field_of, crate::specs::Kinds::operand))]
    pub(crate) fn bind_of(&self, node: usize, j: usize) -> Option<u8>
        requires node { node < length self.now.starts.now }
        requires inside { j + 5 ≤ (row_of (kind_of self.now.desc.now node)).bytes }
        ensures { result ≡ bind_named (operand_of self.now.desc.now node j) }
    {
        match self.field_of(node, j) {
            0 => None,
            _ => Some(self.field_of(node, j + 4)),
        }
    }

    /// The operand whose five bytes begin at byte j of a node's body. A constant is read as a record's signed numbers are: by `i32::from_be_bytes` it would
    /// need a law that both are one.
    #[tactic(auto, using(crate::proofs::Bodies::body_bytes), unfolding(crate::specs::Places::operand_of, crate::specs::Places::field_of, crate::specs::Kinds::operand))]
    pub fn operand_of(&self, node: usize, j: usize) -> Operand
        requires node { node < length self.now.starts.now }
        requires inside { j + 5 ≤ (row_of (kind_of self.now.desc.now node)).bytes }
        ensures { meant result ≡ operand_of self.now.desc.now node j }
    {
        if let Some(k) = self.bind_of(node, j) {
            return Operand::Bound(k);
        }
        let i = self.starts[node] + 1 + j;
        Operand::Constant(bits::signed(self.desc, 8 * (i + 1), 32).unwrap())
    }
}
