// The fields of a rule's word.
ghost use Rattle.std.specs.Prelude.{◌≡◌, ◌<◌};
ghost use Rattle.words.specs.Limits.{name_bound};
ghost use Rattle.words.specs.Records.{rule_kind, left_form, left_name, right_form, right_name};

// 1 for an inclusion of descriptions, 2 for one of roles: a number, as it stands in 01's rule record.
pub fn rule_kind(x: u64) -> u64
    ensures { (result ≡ rule_kind x) × (result < 16) }
{
    x / 0x10000000 % 0x10
}

pub fn left_form(x: u64) -> u64
    ensures { (result ≡ left_form x) × (result < 4) }
{
    x / 0x4000000 % 4
}

pub fn left_name(x: u64) -> u64
    ensures { (result ≡ left_name x) × (result < name_bound) }
{
    x / 0x4000 % 0x1000
}

pub fn right_form(x: u64) -> u64
    ensures { (result ≡ right_form x) × (result < 4) }
{
    x / 0x1000 % 4
}

pub fn right_name(x: u64) -> u64
    ensures { (result ≡ right_name x) × (result < name_bound) }
{
    x % 0x1000
}
