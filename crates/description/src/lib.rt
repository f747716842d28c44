// A description's bytes: refusals, and the check.
#![tactic(auto)]

mod binds;
mod fields;
pub mod kinds;
mod names;
mod nodes;
pub mod places;

ghost use Rattle.std.specs.Prelude.{◌≡◌, ◌<◌, IfOk, length};
ghost use Rattle.description.specs.Check.{checked, named_by};
ghost use Rattle.description.specs.Examine.{examined, starts_after, Readable};
ghost use Rattle.description.specs.Inner.Names.{Marks};
ghost use Rattle.description.specs.Inner.Steps.{front, judged};

use places::Nodes;

/// "description empty or over 1,024 bytes"
pub const MOST_BYTES: usize = 1024;

/// "A description holds 1 to 64 nodes."
pub const MOST_NODES: usize = 64;

/// "64 nodes allow 31" binds around one node: what a reader has room for.
pub const MOST_BINDS: usize = 31;

/// Why a description is refused: the first of document 01's reasons, in its order. A case holds the node that it gives, where 01 does not fix
/// that number. 11 is "not used again".
#[derive(Clone, Copy, PartialEq, Eq, Debug)]
pub enum Refusal {
    /// 1: description empty or over 1,024 bytes.
    EmptyOrTooLong,
    /// 2: unknown kind.
    UnknownKind(u8),
    /// 3: body cut short.
    BodyCutShort(u8),
    /// 4: a 65th node begins.
    TooManyNodes,
    /// 5: width, relation, operator or operand not listed.
    NotListed(u8),
    /// 6: child not smaller than the node.
    ChildNotSmaller(u8),
    /// 7: child named before, also twice in one node.
    ChildNamedBefore(u8),
    /// 8: a number node is wanted.
    NumberNodeWanted(u8),
    /// 9: a node never named.
    NeverNamed(u8),
    /// 10: operand names no enclosing bind.
    NoEnclosingBind(u8),
}

impl Refusal {
    ghost use Rattle.description.specs.Refusals.{refusal_number, refusal_node};

    /// Its number in 01's table.
    pub fn number(self) -> u8
        ensures { result ≡ refusal_number self }
    {
        match self {
            Refusal::EmptyOrTooLong => 1,
            Refusal::UnknownKind(_) => 2,
            Refusal::BodyCutShort(_) => 3,
            Refusal::TooManyNodes => 4,
            Refusal::NotListed(_) => 5,
            Refusal::ChildNotSmaller(_) => 6,
            Refusal::ChildNamedBefore(_) => 7,
            Refusal::NumberNodeWanted(_) => 8,
            Refusal::NeverNamed(_) => 9,
            Refusal::NoEnclosingBind(_) => 10,
        }
    }

    /// The node that is given with it.
    pub fn node(self) -> u8
        ensures { result ≡ refusal_node self }
    {
        match self {
            Refusal::EmptyOrTooLong => 0,
            Refusal::TooManyNodes => 64,
            Refusal::UnknownKind(node)
            | Refusal::BodyCutShort(node)
            | Refusal::NotListed(node)
            | Refusal::ChildNotSmaller(node)
            | Refusal::ChildNamedBefore(node)
            | Refusal::NumberNodeWanted(node)
            | Refusal::NeverNamed(node)
            | Refusal::NoEnclosingBind(node) => node,
        }
    }
}

/// "The check alone".
#[tactic(auto, unfolding(crate::specs::Check::checked, crate::specs::Check::verdict, crate::specs::Examine::examined))]
pub fn check(desc: &[u8]) -> Result<(), Refusal>
    ensures { result ≡ checked desc.now }
{
    let mut starts = [0usize; MOST_NODES];
    examine(desc, &mut starts)?;
    Ok(())
}

/// The check as a reader asks for it: how many nodes an accepted description has; where each begins is left in `starts`, which is lent and no part of the
/// result, since what it holds after a refusal is promised too (`starts_after`).
pub fn examine(desc: &[u8], starts: &mut [usize; MOST_NODES]) -> Result<usize, Refusal>
    ensures value { result ≡ examined desc.now }
    ensures starts_after { starts.new ≡ starts_after desc.now starts.old }
    ensures readable { IfOk result (Readable desc.now starts.new) }
{
    if desc.is_empty() || MOST_BYTES < desc.len() {
        return Err(Refusal::EmptyOrTooLong);
    }
    let mut named = [false; MOST_NODES];
    let n = nodes::parse(desc, starts, &mut named)?;
    let nodes = Nodes {
        desc,
        starts: &starts[..n],
    };
    whole(&nodes, &named)
}

// 9 and 10, for all nodes of a description: how many there are.
fn whole(nodes: &Nodes, named: &[bool; MOST_NODES]) -> Result<usize, Refusal>
    requires some_node { 0 < length nodes.now.starts.now }
    requires marks { Marks named.now (named_by (front nodes.now)) }
    ensures { result ≡ judged (front nodes.now) }
{
    let n = nodes.starts.len();
    let root = n - 1;
    if let Some(i) = names::lowest_unnamed(&named[..root]) {
        return Err(Refusal::NeverNamed(i as u8));
    }
    if 0 < binds::needs(nodes, root) {
        return Err(Refusal::NoEnclosingBind(root as u8));
    }
    Ok(n)
}
