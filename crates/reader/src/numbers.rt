// Whole numbers and their words: the low 32 bits, relations, and what a compute gives.
ghost use Rattle.std.specs.Prelude.{◌≡◌, ◌+◌, ◌%◌, ◌^◌, ◌≤◌, pos};
ghost use Rattle.bits.specs.Whole.{modulo, word};
ghost use Rattle.description.specs.Bodies.{relation_meant, operator_meant};
ghost use Rattle.rules.specs.Numbers.{holds, result as result_of};

use description::kinds::{Operator, Relation};

// 2 to the power 32.
const TWO_TO_32: i64 = 1 << 32;

/// "number (low 32 bits)"
#[tactic(auto, unfolding(bits::specs::Whole::word, bits::specs::Whole::modulo))]
pub fn word_of(z: i64) -> u32
    ensures { result ≡ word z }
{
    z.rem_euclid(TWO_TO_32) as u32
}

/// "equal, not equal, less, at most, greater, at least"
#[tactic(auto, using(crate::proofs::Signs::same_bits), unfolding(rules::specs::Numbers::holds))]
pub fn in_relation(relation: Relation, a: i64, b: i64) -> bool
    ensures { result ≡ holds (relation_meant relation) a b }
{
    match relation {
        Relation::Equal => a == b,
        Relation::NotEqual => a != b,
        Relation::Less => a < b,
        Relation::AtMost => a <= b,
        Relation::Greater => a > b,
        Relation::AtLeast => a >= b,
    }
}

/// "a + b or a - b, kept modulo 2 to the power w"
pub fn computed(w: u8, operator: Operator, a: i64, b: i64) -> i64
    requires { w ≤ 32 }
    ensures { result ≡ pos (modulo w (result_of (operator_meant operator) a b)) }
{
    (u64::from(on_words(operator, word_of(a), word_of(b))) % (1 << w)) as i64
}

// "a + b or a - b" on the numbers' words, past either end of 32 bits: the low 32 bits of a sum or a difference are those of its terms' low 32 bits.
fn on_words(operator: Operator, x: u32, y: u32) -> u32
    ensures less { operator ≡ Operator.Subtract → (result + y) % 2 ^ 32 ≡ x }
    ensures more { operator ≡ Operator.Add → result ≡ (x + y) % 2 ^ 32 }
{
    match operator {
        Operator::Add => x.wrapping_add(y),
        Operator::Subtract => x.wrapping_sub(y),
    }
}
