// The lowest number read: w bits at a bit offset, as an unsigned or a two's complement number.
#![tactic(auto)]

ghost use Rattle.std.specs.Prelude.{◌≡◌, ◌+◌, ◌^◌, ◌≤◌, ◌<◌, ◌↔◌, IsTrue};
ghost use Rattle.bits.specs.Bits.{total, bit, number};
ghost use Rattle.bits.specs.Whole.{twos_complement};
ghost use Rattle.bits.specs.Lowest.{missing_bits, lowest, lowest_unsigned, lowest_signed};

/// Why a number cannot be read.
#[derive(Clone, Copy, PartialEq, Eq, Debug)]
pub enum Unread {
    /// The input ends before the last of the bits: how many are missing, counted from its end to theirs.
    Missing(usize),
    /// The width is above 32.
    TooWide,
}

/// The w bits from offset o on, as an unsigned number.
#[tactic(auto, using(crate::proofs::Numbers::number_small), unfolding(crate::specs::Lowest::lowest))]
pub fn unsigned(input: &[u8], o: usize, w: u8) -> Result<i64, Unread>
    ensures { result ≡ lowest_unsigned input.now o w }
{
    Ok(read(input, o, w)? as i64)
}

/// The w bits from offset o on, as a two's complement number.
#[tactic(auto, unfolding(crate::specs::Lowest::lowest))]
pub fn signed(input: &[u8], o: usize, w: u8) -> Result<i64, Unread>
    ensures { result ≡ lowest_signed input.now o w }
{
    Ok(twos_complement(w, read(input, o, w)?))
}

// The number of the w bits from offset o on. What tells the bits stays loose down to here: any width is answered, and a `Run` has none above 32.
#[tactic(auto, unfolding(crate::specs::Lowest::lowest))]
fn read(input: &[u8], o: usize, w: u8) -> Result<u64, Unread>
    ensures { result ≡ lowest input.now o w (number input.now o w) }
{
    if 32 < w {
        return Err(Unread::TooWide);
    }
    let run = Run { input, o, w };
    if !run.is_inside() {
        return Err(Unread::Missing(run.missing()));
    }
    Ok(run.number())
}

// The w bits from offset o on, no more than 32.
#[derive(Clone, Copy)]
struct Run<'a> {
    input: &'a [u8],
    o: usize,
    w: u8,
    ghost narrow: { w ≤ 32 },
}

impl Run<'_> {
    // Whether all the bits lie inside the input. o + w may pass 64 bits, so bytes are counted.
    #[tactic(auto, unfolding(crate::specs::Bits::total))]
    fn is_inside(&self) -> bool
        ensures { IsTrue result ↔ (self.now.o + self.now.w ≤ total self.now.input.now) }
    {
        let at = self.o / 8;
        let touched = (self.o % 8 + self.w as usize).div_ceil(8);
        at <= self.input.len() && touched <= self.input.len() - at
    }

    // "o + w - T": how many bits are missing. o + w may pass 64 bits, so bytes are counted, and the largest number stands for every larger one.
    #[tactic(auto, unfolding(crate::specs::Bits::total, crate::specs::Lowest::missing_bits))]
    fn missing(&self) -> usize
        requires past_end { total self.now.input.now < self.now.o + self.now.w }
        ensures { result ≡ missing_bits self.now.input.now self.now.o self.now.w }
    {
        let at = self.o / 8;
        let wanted = self.o % 8 + self.w as usize;
        if self.input.len() < at {
            return (8 * (at - self.input.len())).saturating_add(wanted);
        }
        wanted - 8 * (self.input.len() - at)
    }

    // The number that the bits are, which are all there.
    #[tactic(auto, using(crate::proofs::Numbers::number_more, crate::proofs::Numbers::number_small, crate::proofs::Numbers::bit_below), unfolding(crate::specs::Bits::number))]
    fn number(&self) -> u64
        requires inside { self.now.o + self.now.w ≤ total self.now.input.now }
        ensures { result ≡ number self.now.input.now self.now.o self.now.w }
    {
        let mut n: u64 = 0;
        for i in 0..self.w {
            n = 2 * n + self.bit(i);
        }
        n
    }

    // The bit i after offset o.
    #[tactic(auto, unfolding(crate::specs::Bits::total, crate::specs::Bits::bit))]
    fn bit(&self, i: u8) -> u64
        requires { self.now.o + i < total self.now.input.now }
        ensures { result ≡ bit self.now.input.now (self.now.o + i) }
    {
        let k = self.o % 8 + i as usize;
        let byte = self.input[self.o / 8 + k / 8] as u64;
        (byte >> (7 - k % 8)) % 2
    }
}

// The two's complement number of width w that has the bits of n.
#[tactic(auto, using(std::proofs::Common::pow_mono), unfolding(crate::specs::Whole::twos_complement))]
fn twos_complement(w: u8, n: u64) -> i64
    requires narrow { w ≤ 32 }
    requires fits { n < 2 ^ w }
    ensures { result ≡ twos_complement w n }
{
    let all = 1u64 << w;
    if 2 * n < all {
        n as i64
    } else {
        n as i64 - all as i64
    }
}
