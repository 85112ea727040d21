// A set of numbers below 128.
ghost use Rattle.std.specs.Prelude.{◌≡◌, ℕ, ◌<◌, not, ◌&&◌, ◌||◌, ◌==◌, nat_lt};
ghost use Rattle.masks.specs.Members.{FirstIn, member};

// How many numbers a mask can have.
const WIDTH: usize = 128;

// The number k is a member where bit k is set.
#[derive(Clone, Copy, Debug, PartialEq, Eq)]
pub struct Mask {
    bits: u128,
}

impl Mask {
    pub fn empty() -> Mask
        ensures { result.bits ≡ 0 }
    {
        Mask { bits: 0 }
    }

    // Puts a number in; one of 128 or more stays out.
    pub fn insert(&mut self, k: usize)
        ensures { (j : ℕ) → member self.new.bits j ≡ (j == k && nat_lt k 128 || member self.old.bits j) }
    {
        if k < WIDTH {
            self.bits |= 1u128 << k;
        }
    }

    // Takes a number out, if it is in.
    pub fn remove(&mut self, k: usize)
        ensures { (j : ℕ) → j < 128 → member self.new.bits j ≡ (not (j == k) && member self.old.bits j) }
    {
        if k < WIDTH {
            self.bits &= !(1u128 << k);
        }
    }

    // The least member from one number on and below another.
    pub fn first_in(&self, low: usize, high: usize) -> Option<usize>
        ensures { FirstIn self.now.bits low high result }
    {
        if low >= WIDTH {
            return None;
        }
        let first = low + (self.bits >> low).trailing_zeros() as usize;
        (first < high.min(low + WIDTH)).then_some(first)
    }
}
