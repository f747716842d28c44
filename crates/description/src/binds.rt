// How many binds a subtree needs around it.
ghost use Rattle.std.specs.Prelude.{◌≡◌, ◌+◌, ◌≤◌, ◌<◌, length};
ghost use Rattle.description.specs.Binds.{needs_of, needs};
ghost use Rattle.description.specs.Bodies.{byte_of};
ghost use Rattle.description.specs.Inner.Children.{own_needs, binding};
ghost use Rattle.description.specs.Kinds.{row_of};
ghost use Rattle.description.specs.Places.{start, kind_of, operand_of, tree_of};

use crate::kinds::Kind;
use crate::places::Nodes;

/// "operand names no enclosing bind": how many binds the subtree of a node needs around it. The children's node numbers fall.
pub fn needs(nodes: &Nodes, node: usize) -> usize
    requires { node < length nodes.now.starts.now }
    ensures { result ≡ needs (tree_of nodes.now.desc.now node) }
{
    let kind = nodes.kind_of(node);
    let mut most = own_needs(nodes, node, kind);
    for j in 0..kind.children() {
        let needed = needs(nodes, nodes.child_of(node, j));
        most = most.max(needed.saturating_sub(binding(kind, j)));
    }
    most
}

// How many binds a node's operands need around them. The kind goes with its node, so that it is looked up once.
#[tactic(auto, unfolding(crate::specs::Inner::Children::own_needs, crate::specs::Kinds::row_of, crate::specs::Kinds::kinds, crate::specs::Places::operand_of))]
fn own_needs(nodes: &Nodes, node: usize, kind: Kind) -> usize
    requires node { node < length nodes.now.starts.now }
    requires kind { byte_of kind ≡ kind_of nodes.now.desc.now node }
    ensures { result ≡ own_needs nodes.now.desc.now (byte_of kind) (start nodes.now.desc.now node + 1) }
{
    match kind {
        Kind::Where => operand_needs(nodes, node, 2),
        Kind::Sequence => operand_needs(nodes, node, 3),
        Kind::Compute => operand_needs(nodes, node, 2).max(operand_needs(nodes, node, 7)),
        _ => 0,
    }
}

// How many binds the operand at byte j of a node's body needs around it.
#[tactic(auto, using(crate::proofs::Bodies::body_bytes), unfolding(crate::specs::Binds::needs_of, crate::specs::Kinds::operand, crate::specs::Places::operand_of, crate::specs::Places::field_of))]
fn operand_needs(nodes: &Nodes, node: usize, j: usize) -> usize
    requires node { node < length nodes.now.starts.now }
    requires inside { j + 5 ≤ (row_of (kind_of nodes.now.desc.now node)).bytes }
    ensures { result ≡ needs_of (operand_of nodes.now.desc.now node j) }
{
    nodes.bind_of(node, j).map_or(0, |k| k as usize + 1)
}

// How many binds a node puts around its child at place j: "Only the second child of a bind lies inside that binding."
#[tactic(auto, unfolding(crate::specs::Inner::Children::binding))]
fn binding(kind: Kind, j: usize) -> usize
    ensures { result ≡ binding (byte_of kind) j }
{
    usize::from(kind == Kind::Bind && j == 1)
}
