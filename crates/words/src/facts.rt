// The fields of a fact's word, and its predicate and its head as one number each.
ghost use Rattle.std.specs.Prelude.{◌≡◌, ◌^◌, ◌<◌};
ghost use Rattle.words.specs.FactWords.{predicate_of, head_of, exchanged as exchanged_in};
ghost use Rattle.words.specs.Limits.{word_width, name_bound, word_object_bound};
ghost use Rattle.words.specs.Records.{fact_kind, fact_name, fact_first, fact_second};

// 0 for a concept, 1 for a role: a number, as it stands in 01's fact record.
pub fn fact_kind(f: u64) -> u64
    ensures { (result ≡ fact_kind word_width f) × (result < 2) }
{
    f / 0x8000000000000000 % 2
}

pub fn fact_name(f: u64) -> u64
    ensures { (result ≡ fact_name word_width f) × (result < name_bound) }
{
    f / 0x1000000000000 % 0x1000
}

pub fn fact_first(f: u64) -> u64
    ensures { (result ≡ fact_first word_width f) × (result < word_object_bound) }
{
    f / 0x1000000 % 0x1000000
}

// A role's second object.
pub fn fact_second(f: u64) -> u64
    ensures { (result ≡ fact_second word_width f) × (result < word_object_bound) }
{
    f % 0x1000000
}

// Kind and number as one number, as they stand in a fact's word.
pub fn predicate(kind: u64, number: u64) -> u64
    requires { (kind < 2) × (number < name_bound) }
    ensures { (result ≡ predicate_of kind number) × (result < 2 ^ 16) }
{
    kind * 0x8000 + number
}

// Predicate and first object as one number: a fact's word without its second object.
pub fn head(predicate: u64, first: u64) -> u64
    requires { (predicate < 2 ^ 16) × (first < word_object_bound) }
    ensures { result ≡ head_of word_width predicate first }
{
    predicate * 0x1000000 + first
}

// The word with its two objects exchanged.
pub fn exchanged(f: u64) -> u64
    ensures { result ≡ exchanged_in word_width f }
{
    (f / 0x1000000000000 * 0x1000000 + f % 0x1000000) * 0x1000000 + f / 0x1000000 % 0x1000000
}
