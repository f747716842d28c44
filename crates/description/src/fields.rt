// The fields of a body: which widths, relations, operators and operands are listed.
ghost use Rattle.std.specs.Prelude.{◌≡◌, ◌+◌, ◌≤◌, length};
ghost use Rattle.description.specs.Bodies.{byte_of};
ghost use Rattle.description.specs.Kinds.{row_of, is_width, is_signed_width, is_operand};

use crate::kinds::{Kind, Operator, Relation};

/// Whether the width, relation, operator and operands of a body are listed.
#[tactic(auto, unfolding(crate::specs::Kinds::row_of, crate::specs::Kinds::kinds, crate::specs::Kinds::unit_row, crate::specs::Kinds::byte))]
pub fn is_listed(kind: Kind, body: &[u8]) -> bool
    requires { (row_of (byte_of kind)).bytes ≤ length body.now }
    ensures { result ≡ (row_of (byte_of kind)).listed body.now 0 }
{
    match kind {
        Kind::Bits => is_width(body[0]),
        Kind::Signed => is_signed_width(body[0]),
        Kind::Where => Relation::try_from(body[1]).is_ok() && is_operand(body, 2),
        Kind::Sequence => is_operand(body, 3),
        Kind::Compute => {
            is_width(body[0])
                && Operator::try_from(body[1]).is_ok()
                && is_operand(body, 2)
                && is_operand(body, 7)
        }
        _ => true,
    }
}

// "width 1 to 32"
#[tactic(auto, unfolding(crate::specs::Kinds::is_width))]
fn is_width(w: u8) -> bool
    ensures { result ≡ is_width w }
{
    matches!(w, 1..=32)
}

// "width 8, 16 or 32"
#[tactic(auto, unfolding(crate::specs::Kinds::is_signed_width))]
fn is_signed_width(w: u8) -> bool
    ensures { result ≡ is_signed_width w }
{
    matches!(w, 8 | 16 | 32)
}

// Whether the five bytes from byte i on are an operand.
#[tactic(auto, unfolding(crate::specs::Kinds::is_operand, crate::specs::Kinds::byte))]
fn is_operand(body: &[u8], i: usize) -> bool
    requires { i + 5 ≤ length body.now }
    ensures { result ≡ is_operand body.now i }
{
    matches!(&body[i..i + 5], [0, ..] | [1, 0, 0, 0, _])
}
