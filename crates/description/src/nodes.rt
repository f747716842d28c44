// Node by node from the front.
ghost use Rattle.std.specs.Prelude.{false, [], ◌++◌, ◌≡◌, ◌≤◌, ◌<◌, IfOk, length};
ghost use Rattle.std.proofs.Math.Option.{none};
ghost use Rattle.description.specs.Bodies.{byte_of, child_count};
ghost use Rattle.description.specs.Check.{some_not_smaller, some_no_number, named_by, node_at, node_end, node_refusal, nodes_from};
ghost use Rattle.description.specs.Limits.{most_bytes, most_nodes};
ghost use Rattle.description.specs.Inner.Children.{number_children};
ghost use Rattle.description.specs.Inner.Names.{Marks};
ghost use Rattle.description.specs.Nodes.{children};
ghost use Rattle.description.specs.Places.{placed_starts};
ghost use Rattle.description.specs.Inner.Steps.{Whole, counted, front, step_of};

use crate::kinds::Kind;
use crate::places::Nodes;
use crate::{MOST_NODES, Refusal, fields, names};

/// "node by node from the front": how many nodes there are, where they begin, and which are named. `starts` is lent since what it holds after a refusal
/// is promised (`starts_after` of `examine`), and `named` with it, as 64 flags are not to be copied.
pub fn parse(
    desc: &[u8],
    starts: &mut [usize; MOST_NODES],
    named: &mut [bool; MOST_NODES],
) -> Result<usize, Refusal>
    requires { (length desc.now ≤ most_bytes) × Marks named.old [] }
    ensures value { result ≡ counted (nodes_from desc.now most_nodes [] 0) }
    ensures starts_after { starts.new ≡ placed_starts desc.now starts.old }
    ensures whole { IfOk result (Whole desc.now starts.new named.new) }
{
    // No `for`: how long a node is, its kind says, and how many there are is known at the end.
    let mut at: usize = 0;
    let mut n: usize = 0;
    while at < desc.len() {
        if n == MOST_NODES {
            return Err(Refusal::TooManyNodes);
        }
        let before = Nodes {
            desc,
            starts: &starts[..n],
        };
        let end = node(&before, at, named)?;
        starts[n] = at;
        n += 1;
        at = end;
    }
    Ok(n)
}

// "2, 3, 5, 6, 7, 8", for the node that begins at byte at: where the next begins, or its refusal; its children are named.
fn node(before: &Nodes, at: usize, named: &mut [bool; MOST_NODES]) -> Result<usize, Refusal>
    requires within { (at < length before.now.desc.now) × (length before.now.starts.now < most_nodes) }
    requires marks { Marks named.old (named_by (front before.now)) }
    ensures value { result ≡ step_of (node_refusal before.now.desc.now (front before.now) at) (node_end before.now.desc.now at) }
    ensures marked { node_refusal before.now.desc.now (front before.now) at ≡ none
        → Marks named.new (named_by (front before.now) ++ children (node_at before.now.desc.now at)) }
{
    let n = before.starts.len() as u8;
    let Ok(kind) = Kind::try_from(before.desc[at]) else {
        return Err(Refusal::UnknownKind(n));
    };
    let end = at + 1 + kind.bytes();
    let Some(body) = before.desc.get(at + 1..end) else {
        return Err(Refusal::BodyCutShort(n));
    };
    if !fields::is_listed(kind, body) {
        return Err(Refusal::NotListed(n));
    }
    let children = &body[..kind.children()];
    if names::some_not_smaller(children, before.starts.len()) {
        return Err(Refusal::ChildNotSmaller(n));
    }
    if names::name_all(children, named).is_err() {
        return Err(Refusal::ChildNamedBefore(n));
    }
    if some_no_number(before, kind, children) {
        return Err(Refusal::NumberNodeWanted(n));
    }
    Ok(end)
}

// "the first child of bind and the child of where must be number nodes": whether one that must be is none.
fn some_no_number(before: &Nodes, kind: Kind, children: &[u8]) -> bool
    requires count { length children.now ≡ child_count (byte_of kind) }
    requires smaller { some_not_smaller (length before.now.starts.now) children.now ≡ false }
    ensures { result ≡ some_no_number (front before.now) (number_children (byte_of kind) children.now) }
{
    matches!(kind, Kind::Bind | Kind::Where) && !before.kind_of(children[0] as usize).is_number()
}
