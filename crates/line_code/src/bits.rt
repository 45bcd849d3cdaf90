// Bits of item numbers: sets of at most two, and how many a line needs.
ghost use Rattle.std.specs.Prelude.{◌≡◌, ℕ, ◌^◌, ◌<◌, ◌≤◌};
ghost use Rattle.halves.specs.Gathered.{place};
ghost use Rattle.line_code.specs.Sets.{holds, Within};

// A set of at most two bit positions; of two the lower one stands first.
#[derive(Clone, Copy)]
pub(crate) enum BitSet {
    Empty,
    One(usize),
    Two(usize, usize),
}

impl BitSet {
    pub(crate) fn holds(self, bit: usize) -> bool
        ensures { result ≡ holds self bit }
    {
        match self {
            BitSet::Empty => false,
            BitSet::One(j) => bit == j,
            BitSet::Two(j, k) => bit == j || bit == k,
        }
    }

    // The number whose bits are the set.
    pub(crate) fn place(self) -> usize
        requires { Within 8 self }
        ensures { result ≡ place (holds self) 8 }
    {
        match self {
            BitSet::Empty => 0,
            BitSet::One(j) => run_length(j),
            BitSet::Two(j, k) => run_length(k) + run_length(j),
        }
    }
}

// How many items have numbers of so many bits.
pub(crate) fn run_length(bits: usize) -> usize
    requires { bits ≤ 8 }
    ensures { result ≡ 2 ^ bits }
{
    1 << bits
}

// The least n for which 2^n is no less than the count.
pub(crate) fn exponent(count: usize) -> usize
    requires { count ≤ 256 }
    ensures fits { count ≤ 2 ^ result }
    ensures least { (k : ℕ) → k < result → 2 ^ k < count }
{
    count.next_power_of_two().ilog2() as usize
}
