// Writing records back as definitions, with their laws and the round trip: specs/ and proofs/. The code here is what a field and what an answer can be.
#![tactic(auto)]

ghost use Rattle.std.specs.Prelude.{◌≡◌};
ghost use Rattle.writing.specs.declared.Refused.TheVariants.{BadDescription};

use description::Refusal;

/// What a node of a description is to the writer. The definitions speak of it, and it is what the writer's `Stored` stands for.
#[derive(Clone, Copy, PartialEq, Eq, Debug)]
pub enum Field {
    /// Nothing of it is stored: its entries are passed over.
    Nothing,
    /// A number of so many bits.
    Bits(u8),
    /// A two's complement number of so many bits.
    Signed(u8),
    /// "the description has both, absorb or scan": what it read cannot be told from its entries.
    Unwritable,
}

/// Why a call of the writer is refused. Not one enum with the reader's reasons: each call can be refused for its own alone.
#[derive(Clone, Copy, PartialEq, Eq, Debug)]
pub enum Refused {
    /// 1 to 10: the description is refused.
    BadDescription(Refusal),
    /// 14: the description has both, absorb or scan.
    NotWritable,
    /// 15: the count is more than the table holds, a node number is not in the description, or a number to write is not one of its width.
    WrongTable,
    /// 16: the bytes exceed the buffer or 8,191.
    NoSpace,
}

impl Refused {
    ghost use Rattle.writing.specs.Outcome.{stated};

    /// Its number: 01's, or request 2's.
    #[tactic(auto, unfolding(crate::specs::Outcome::stated))]
    pub fn number(self) -> u8
        ensures { result ≡ (stated (Err self)).refusal }
    {
        match self {
            Refused::BadDescription(refusal) => refusal.number(),
            Refused::NotWritable => 14,
            Refused::WrongTable => 15,
            Refused::NoSpace => 16,
        }
    }

    /// The node that is given with it: "all three give node 0".
    #[tactic(auto, unfolding(crate::specs::Outcome::stated))]
    pub fn node(self) -> u8
        ensures { result ≡ (stated (Err self)).node }
    {
        match self {
            Refused::BadDescription(refusal) => refusal.node(),
            Refused::NotWritable | Refused::WrongTable | Refused::NoSpace => 0,
        }
    }
}

impl From<Refusal> for Refused {
    ghost from_gives = { λ refusal refused. refused ≡ BadDescription refusal };

    fn from(refusal: Refusal) -> Refused {
        Refused::BadDescription(refusal)
    }
}
