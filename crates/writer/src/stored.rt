// What is looked up of a node: what its field's numbers are checked and written by, so that no number is asked anything that its node has told.
use description::kinds::Kind;
use description::places::Nodes;
use std::marker::Model;

/// A field that can be written. 0 and no Option for a number that has no sign: it is moved up by nothing, and nothing is turned back, with no case for it;
/// the same of a field of which nothing is stored, which has no bits.
#[derive(Clone, Copy, Default)]
pub struct Stored {
    // How many bits, 0 where nothing is stored.
    width: u32,
    // The largest number of that width.
    most: u32,
    // Half of what a two's complement number of that width can be, 0 for one that has no sign.
    half: u32,
}

impl Model for Stored {
    ghost use Rattle.std.specs.Prelude.{◌-◌, ◌^◌};
    ghost use Rattle.writing.specs.Bits.{width_of};
    ghost use Rattle.writing.specs.declared.Field.{Field};
    ghost use Rattle.writer.specs.Inner.Stored.{field_with, half_of, IsLooked};

    ghost Value = { Field };

    ghost view = { λ s. field_with s.width s.half };

    ghost invariant = { λ s. IsLooked (field_with s.width s.half) s.width s.most s.half };

    ghost inverse = { λ f. record { width = width_of f; most = 2 ^ width_of f - 1; half = half_of f } };
}

impl Stored {
    ghost use Rattle.std.specs.Prelude.{◌≡◌, ◌<◌, ◌-◌, ◌^◌, ◌%◌, not, is_none, IfSome, length};
    ghost use Rattle.writing.specs.Bits.{width_of, of_width};
    ghost use Rattle.writing.specs.Fields.{is_unwritable};
    ghost use Rattle.writing.specs.declared.Field.TheVariants.{Nothing};
    ghost use Rattle.writer.specs.Inner.Fields.{node_field};
    ghost use Rattle.writer.specs.Inner.Stored.{field_with, IsLooked};

    /// What is looked up of a node; None for one that cannot be written. Kinds are matched here alone.
    pub fn of_node(nodes: &Nodes, node: usize) -> Option<Stored>
        requires { node < length nodes.now.starts.now }
        ensures unwritable { is_none result ≡ is_unwritable (node_field nodes.now.desc.now node) }
        ensures value { IfSome result (λ stored. stored ≡ node_field nodes.now.desc.now node) }
    {
        match nodes.kind_of(node) {
            Kind::Bits => Some(Stored::new(nodes.field_of(node, 0), 0)),
            Kind::Signed => {
                let width = nodes.field_of(node, 0);
                Some(Stored::new(width, 1 << (width - 1)))
            }
            Kind::Both | Kind::Absorb | Kind::Scan => None,
            _ => Some(Stored::default()),
        }
    }

    // The field that has so many bits and this half.
    fn new(width: u8, half: u32) -> Stored
        requires { IsLooked (field_with width half) width (2 ^ width - 1) half }
        ensures { result ≡ field_with width half }
    {
        Stored {
            width: u32::from(width),
            most: ((1u64 << width) - 1) as u32,
            half,
        }
    }

    /// How many bits a field has, 0 where nothing of it is stored.
    #[tactic(auto, using(crate::proofs::Looked::with_none))]
    pub fn width(self) -> u32
        ensures value { result ≡ width_of self }
        ensures nothing { result ≡ 0 → self ≡ Nothing }
    {
        self.width
    }

    /// The bits of a number that is one of its width. Moved up by half of what there is, modulo 2^32, such a number lies below all of it; that has turned
    /// the bit of the sign over, which is then turned back.
    pub fn bits_of(self, number: u32) -> Option<u32>
        requires { 0 < width_of self }
        ensures wrong { is_none result ≡ not (of_width self number) }
        ensures value { IfSome result (λ bits. bits ≡ number % 2 ^ width_of self) }
    {
        let moved = number.wrapping_add(self.half);
        if self.most < moved {
            return None;
        }
        Some(moved ^ self.half)
    }
}
