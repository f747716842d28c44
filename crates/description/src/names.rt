// Which nodes are named as children.
ghost use Rattle.std.specs.Prelude.{false, ◌≡◌, OnOk, is_err, not, position};
ghost use Rattle.description.specs.Check.{some_not_smaller};
ghost use Rattle.description.specs.Limits.{most_nodes};
ghost use Rattle.description.specs.Inner.Names.{some_marked, marked};

use crate::MOST_NODES;

/// Whether one of the children is not smaller than node n.
#[tactic(auto, unfolding(crate::specs::Check::some_not_smaller))]
pub fn some_not_smaller(children: &[u8], n: usize) -> bool
    ensures { result ≡ some_not_smaller n children.now }
{
    children.iter().any(|&child| n <= child as usize)
}

/// A child that is named before, or twice in one node.
#[derive(Clone, Copy, PartialEq, Eq, Debug)]
pub struct NamedBefore;

/// Names the children, unless one of them is named before. That the flags say which nodes are named (`Marks`) is asked of them and of the nodes so far, and
/// is no type's: one with both would be made anew for each node, and its flags are a node ahead once that node's children are named.
#[tactic(auto, unfolding(crate::specs::Check::some_not_smaller, crate::specs::Inner::Names::some_marked, crate::specs::Inner::Names::marked, crate::specs::Limits::most_nodes))]
pub fn name_all(children: &[u8], named: &mut [bool; MOST_NODES]) -> Result<(), NamedBefore>
    requires { some_not_smaller most_nodes children.now ≡ false }
    ensures named_before { is_err result ≡ some_marked named.old children.now }
    ensures named_after { OnOk result (named.new ≡ marked named.old children.now) }
{
    for &child in children {
        let child = child as usize;
        if named[child] {
            return Err(NamedBefore);
        }
        named[child] = true;
    }
    Ok(())
}

/// The lowest node that is not named.
pub fn lowest_unnamed(named: &[bool]) -> Option<usize>
    ensures { result ≡ position not named.now }
{
    named.iter().position(|&is_named| !is_named)
}
