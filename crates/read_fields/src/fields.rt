// The fields of a sheet's records: terms of 17 bits, atoms and facts of 48.
ghost use Rattle.std.specs.Prelude.{◌≡◌, ◌/◌, ◌%◌, ◌<◌};
ghost use Rattle.words.specs.Limits.{sheet_width, object_bound, name_bound, sheet_term_bound};
ghost use Rattle.words.specs.Records.{atom_kind, atom_zero, atom_name, atom_first, atom_second};
ghost use Rattle.words.specs.Records.{fact_kind, fact_zeros, fact_name, fact_first, fact_second};

// What stands above a term's number: 0 for a variable, 1 for an object.
pub fn term_kind(t: u64) -> u64
    ensures { result ≡ t / object_bound }
{
    t / 0x10000
}

// The number of a term's variable or object.
pub fn term_number(t: u64) -> u64
    ensures { (result ≡ t % object_bound) × (result < object_bound) }
{
    t % 0x10000
}

// 0 for a concept atom, 1 for a role atom.
pub fn atom_kind(x: u64) -> u64
    ensures { (result ≡ atom_kind sheet_width x) × (result < 2) }
{
    x / 0x800000000000 % 2
}

// The bit that must be zero.
pub fn atom_zero(x: u64) -> u64
    ensures { result ≡ atom_zero sheet_width x }
{
    x / 0x400000000000 % 2
}

// The number of an atom's concept or role.
pub fn atom_name(x: u64) -> u64
    ensures { (result ≡ atom_name sheet_width x) × (result < name_bound) }
{
    x / 0x400000000 % 0x1000
}

// An atom's terms; a concept atom has no second one.
pub fn atom_first(x: u64) -> u64
    ensures { (result ≡ atom_first sheet_width x) × (result < sheet_term_bound) }
{
    x / 0x20000 % 0x20000
}

pub fn atom_second(x: u64) -> u64
    ensures { (result ≡ atom_second sheet_width x) × (result < sheet_term_bound) }
{
    x % 0x20000
}

// 0 for a concept's fact, 1 for a role's.
pub fn fact_kind(x: u64) -> u64
    ensures { (result ≡ fact_kind sheet_width x) × (result < 2) }
{
    x / 0x800000000000 % 2
}

// The three bits that must be zero.
pub fn fact_zeros(x: u64) -> u64
    ensures { result ≡ fact_zeros sheet_width x }
{
    x / 0x100000000000 % 8
}

// The number of a fact's concept or role.
pub fn fact_name(x: u64) -> u64
    ensures { (result ≡ fact_name sheet_width x) × (result < name_bound) }
{
    x / 0x100000000 % 0x1000
}

// A fact's objects; a concept's fact has no second one.
pub fn fact_first(x: u64) -> u64
    ensures { (result ≡ fact_first sheet_width x) × (result < object_bound) }
{
    x / 0x10000 % 0x10000
}

pub fn fact_second(x: u64) -> u64
    ensures { (result ≡ fact_second sheet_width x) × (result < object_bound) }
{
    x % 0x10000
}
