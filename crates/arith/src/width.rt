ghost use Rattle.std.specs.Prelude.{◌≡◌, ◌-◌, ◌/◌, ◌%◌, ◌^◌, ◌<◌, ◌≤◌, ◌⊎◌, nat_lt, pos, MatchOption};
ghost use Rattle.ir.specs.Bitvectors.{signed, unsigned};

/// How many bits a number has, from 1 to 64.
#[derive(Clone, Copy, PartialEq, Eq, Debug)]
pub struct Width {
    pub bits: u8,
    ghost in_range: { (0 < bits) × (bits ≤ 64) },
}

impl Width {
    /// The width of so many bits, if there are 1 to 64.
    pub fn new(bits: u8) -> Option<Width>
        ensures { MatchOption result ((bits ≡ 0) ⊎ (64 < bits)) (λ w. w.bits ≡ bits) }
    {
        if 0 < bits && bits <= 64 {
            Some(Width { bits })
        } else {
            None
        }
    }

    /// The largest number.
    #[tactic(auto, using(crate::proofs::Masks::mask_is))]
    pub fn max(self) -> u64
        ensures { result ≡ 2 ^ self.bits - 1 }
    {
        u64::MAX >> (64 - self.bits)
    }

    /// A number read as signed; one of more bits is read as -1.
    pub fn signed(self, x: u64) -> i64
        ensures { result ≡ signed self.bits x }
    {
        let max = self.max();
        if x <= max / 2 {
            x as i64
        } else {
            -(max.saturating_sub(x) as i64) - 1
        }
    }

    /// An integer modulo 2 to the width.
    pub fn unsigned(self, z: i64) -> u64
        ensures { result ≡ unsigned self.bits z }
    {
        let max = self.max();
        if z >= 0 {
            z as u64 & max
        } else {
            max - ((-(z + 1)) as u64 & max)
        }
    }
}
