// Sets of numbers below 32, each a word of 32 bits: a number is in the set where its binary digit is 1.
#![tactic(auto)]

ghost use Rattle.std.specs.Prelude.{◌≡◌, ◌||◌, ℕ, ◌≤◌, ◌<◌, T, eqb};
ghost use Rattle.query_sets.specs.Sets.{holds};

// Whether v is in the set.
pub fn has(set: u32, v: u32) -> bool
    requires { v < 32 }
    ensures { result ≡ holds set v }
{
    (set >> v) % 2 == 1
}

// The set with v put in.
pub fn with(set: u32, v: u32) -> u32
    requires { v < 32 }
    ensures { (u : ℕ) → holds result u ≡ (eqb u v || holds set u) }
{
    set | (1 << v)
}

// The lowest number that is not in the set; 32 where all numbers below 32 are.
pub fn lowest_missing(set: u32) -> u32
    ensures { (result ≤ 32) × ((u : ℕ) → u < result → T (holds set u)) × (result < 32 → ¬ T (holds set result)) }
{
    (!set).trailing_zeros()
}
