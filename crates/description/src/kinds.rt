// The table of kinds: what a node's kind decides of its body.
ghost use Rattle.std.specs.Prelude.{◌≡◌};
ghost use Rattle.description.specs.Bodies.{body_of, byte_of, child_count, is_number_kind, KindOf, RelationOf, OperatorOf};
ghost use Rattle.description.specs.Kinds.{row_of};

/// 01's kinds, 00 to 0C in this order.
#[derive(Clone, Copy, PartialEq, Eq, Debug)]
pub enum Kind {
    Unit,
    Bottom,
    Bits,
    Signed,
    Then,
    Bind,
    Either,
    Both,
    Where,
    Sequence,
    Compute,
    Absorb,
    Scan,
}

/// A byte that says no kind.
#[derive(Clone, Copy, PartialEq, Eq, Debug)]
pub struct UnknownKind;

impl TryFrom<u8> for Kind {
    type Error = UnknownKind;

    ghost try_from_gives = { KindOf };

    #[tactic(auto, unfolding(crate::specs::Kinds::kinds))]
    fn try_from(byte: u8) -> Result<Self, UnknownKind> {
        match byte {
            0 => Ok(Kind::Unit),
            1 => Ok(Kind::Bottom),
            2 => Ok(Kind::Bits),
            3 => Ok(Kind::Signed),
            4 => Ok(Kind::Then),
            5 => Ok(Kind::Bind),
            6 => Ok(Kind::Either),
            7 => Ok(Kind::Both),
            8 => Ok(Kind::Where),
            9 => Ok(Kind::Sequence),
            10 => Ok(Kind::Compute),
            11 => Ok(Kind::Absorb),
            12 => Ok(Kind::Scan),
            _ => Err(UnknownKind),
        }
    }
}

impl Kind {
    /// How many bytes the body has.
    #[tactic(auto, unfolding(crate::specs::Kinds::row_of, crate::specs::Kinds::kinds, crate::specs::Kinds::unit_row))]
    pub fn bytes(self) -> usize
        ensures { result ≡ (row_of (byte_of self)).bytes }
    {
        match self {
            Kind::Unit | Kind::Bottom => 0,
            Kind::Bits | Kind::Signed | Kind::Absorb | Kind::Scan => 1,
            Kind::Then | Kind::Bind | Kind::Either | Kind::Both => 2,
            Kind::Where => 7,
            Kind::Sequence => 8,
            Kind::Compute => 12,
        }
    }

    /// How many children the body begins with.
    #[tactic(auto, unfolding(crate::specs::Bodies::child_count, crate::specs::Bodies::child_counts))]
    pub fn children(self) -> usize
        ensures { result ≡ child_count (byte_of self) }
    {
        match self {
            Kind::Unit | Kind::Bottom | Kind::Bits | Kind::Signed | Kind::Compute => 0,
            Kind::Where | Kind::Absorb | Kind::Scan => 1,
            Kind::Then | Kind::Bind | Kind::Either | Kind::Both => 2,
            Kind::Sequence => 3,
        }
    }

    /// "Number nodes are kinds 02, 03, 08 and 0A".
    #[tactic(auto, unfolding(crate::specs::Bodies::is_number_kind))]
    pub fn is_number(self) -> bool
        ensures { result ≡ is_number_kind (byte_of self) }
    {
        matches!(
            self,
            Kind::Bits | Kind::Signed | Kind::Where | Kind::Compute
        )
    }
}

/// The body of a kind: how many bytes it has, and how many children it begins with.
#[derive(Clone, Copy, PartialEq, Eq, Debug)]
pub struct Body {
    pub bytes: usize,
    pub children: usize,
}

// Three functions that promise an answer of any byte, also of one that says no kind, which the methods of `Kind` do not. Whoever has a byte alone calls
// them.

/// The body that a byte says, none where it says no kind.
#[tactic(auto, using(crate::proofs::Bodies::byte_below, crate::proofs::Bodies::body_known), unfolding(crate::specs::Bodies::body_of, crate::specs::Kinds::kinds))]
pub fn body_of(byte: u8) -> Option<Body>
    ensures { result ≡ body_of byte }
{
    let kind = Kind::try_from(byte).ok()?;
    Some(Body {
        bytes: kind.bytes(),
        children: kind.children(),
    })
}

/// How many children the body that a byte says begins with, 0 where it says no kind.
#[tactic(auto, using(crate::proofs::Bodies::no_children), unfolding(crate::specs::Kinds::kinds))]
pub fn children_of(byte: u8) -> usize
    ensures { result ≡ child_count byte }
{
    Kind::try_from(byte).map_or(0, |kind| kind.children())
}

/// Whether a byte says a number node.
#[tactic(auto, unfolding(crate::specs::Bodies::is_number_kind, crate::specs::Kinds::kinds))]
pub fn is_number(byte: u8) -> bool
    ensures { result ≡ is_number_kind byte }
{
    Kind::try_from(byte).is_ok_and(|kind| kind.is_number())
}

/// "Relations 0 to 5: equal, not equal, less, at most, greater, at least."
#[derive(Clone, Copy, PartialEq, Eq, Debug)]
pub enum Relation {
    Equal,
    NotEqual,
    Less,
    AtMost,
    Greater,
    AtLeast,
}

/// "Operators: 0 add, 1 subtract."
#[derive(Clone, Copy, PartialEq, Eq, Debug)]
pub enum Operator {
    Add,
    Subtract,
}

/// A byte that is not listed: as a relation, or as an operator. Not `UnknownKind`: 01 refuses that with 2, and this with 5.
#[derive(Clone, Copy, PartialEq, Eq, Debug)]
pub struct NotListed;

impl TryFrom<u8> for Relation {
    type Error = NotListed;

    ghost try_from_gives = { RelationOf };

    #[tactic(auto, unfolding(crate::specs::Kinds::is_relation, crate::specs::Kinds::relation, crate::specs::Kinds::relations))]
    fn try_from(byte: u8) -> Result<Self, NotListed> {
        match byte {
            0 => Ok(Relation::Equal),
            1 => Ok(Relation::NotEqual),
            2 => Ok(Relation::Less),
            3 => Ok(Relation::AtMost),
            4 => Ok(Relation::Greater),
            5 => Ok(Relation::AtLeast),
            _ => Err(NotListed),
        }
    }
}

impl TryFrom<u8> for Operator {
    type Error = NotListed;

    ghost try_from_gives = { OperatorOf };

    #[tactic(auto, unfolding(crate::specs::Kinds::is_operator, crate::specs::Kinds::operator, crate::specs::Kinds::operators))]
    fn try_from(byte: u8) -> Result<Self, NotListed> {
        match byte {
            0 => Ok(Operator::Add),
            1 => Ok(Operator::Subtract),
            _ => Err(NotListed),
        }
    }
}
