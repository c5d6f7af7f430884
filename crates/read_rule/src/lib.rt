// One rule: which records are rules, with kinds and forms as named, and a rule as read.
#![tactic(auto)]

pub mod pair;

ghost use Rattle.std.specs.Prelude.{◌≡◌, ◌<◌, true, ◌&&◌, ◌||◌, eqb, ltb};
ghost use Rattle.std.specs.Bool.{xor};
ghost use Rattle.theory.specs.Lists.{pick};
ghost use Rattle.words.specs.Limits.{name_bound, rule_bound};
ghost use Rattle.words.specs.Records.{rule_kind, is_rule, pair_forms, basic_of, rule_in};
ghost use Rattle.sheets.specs.Partners.{is_higher, basic_as_read, rule_as_read};
ghost use Rattle.sheets.specs.Tests.{passes2, follows as follows_rule};
ghost use Rattle.read_rule.specs.Described.{described, description_bound};

use read_records::partners::{is_higher, lower};
use words::rules::{left_form, left_name, right_form, right_name, rule_kind};

// Kind 1 takes forms 0 to 2 on both sides.
fn concept_forms(left: u64, right: u64) -> bool
    ensures { result ≡ (ltb left 3 && ltb right 3) }
{
    match left {
        0..=2 => match right {
            0..=2 => true,
            _ => false,
        },
        _ => false,
    }
}

// Kind 2 takes the left form 0 and the right form 0 or 1.
fn role_forms(left: u64, right: u64) -> bool
    ensures { result ≡ (eqb left 0 && ltb right 2) }
{
    match left {
        0 => match right {
            0..=1 => true,
            _ => false,
        },
        _ => false,
    }
}

// Kind 3 takes forms 0 to 2 on the left, and 1 or 2 on the right.
fn role_to_forms(left: u64, direction: u64) -> bool
    ensures { result ≡ (ltb left 3 && ltb 0 direction && ltb direction 3) }
{
    match left {
        0..=2 => match direction {
            1..=2 => true,
            _ => false,
        },
        _ => false,
    }
}

// Kind 4 takes the left form 0, and zeros on the right.
fn filler_forms(left: u64, right: u64, name: u64) -> bool
    ensures { result ≡ (eqb left 0 && eqb right 0 && eqb name 0) }
{
    match left {
        0 => match right {
            0 => name == 0,
            _ => false,
        },
        _ => false,
    }
}

// The kinds are 1 and 2, each with its forms, and 3 and 4, whose forms are judged with the pair.
fn kind_and_forms(kind: u64, left: u64, right: u64) -> bool
    ensures { result ≡ (eqb kind 3 || eqb kind 4
        || pick (eqb kind 1) (ltb left 3 && ltb right 3) (eqb kind 2 && eqb left 0 && ltb right 2)) }
{
    match kind {
        1 => concept_forms(left, right),
        2 => role_forms(left, right),
        3..=4 => true,
        _ => false,
    }
}

// The forms and zero fields of kinds 3 and 4; other kinds are not judged.
fn pair_kind_and_forms(kind: u64, left: u64, right: u64, name: u64) -> bool
    ensures { result ≡ pick (eqb kind 3) (ltb left 3 && ltb 0 right && ltb right 3)
        (pick (eqb kind 4) (eqb left 0 && eqb right 0 && eqb name 0) true) }
{
    match kind {
        3 => role_to_forms(left, right),
        4 => filler_forms(left, right, name),
        _ => true,
    }
}

// Whether a record of 32 bits is a rule, or of a kind that stands in pairs: 2 does not refuse it.
pub fn is_named(x: u64) -> bool
    ensures { result ≡ passes2 x }
{
    kind_and_forms(rule_kind(x), left_form(x), right_form(x))
}

// Whether the forms and zero fields of a record are as a pair's must be.
fn pair_forms(x: u64) -> bool
    ensures { result ≡ pair_forms x }
{
    pair_kind_and_forms(rule_kind(x), left_form(x), right_form(x), right_name(x))
}

// Whether the record may stand here, a kind 4 exactly where one waits for it, with a pair's forms if it is of one.
pub fn follows(waits: bool, x: u64) -> bool
    ensures { result ≡ follows_rule waits x }
{
    (rule_kind(x) == 4) == waits && pair_forms(x)
}

// A description as read, in 14 bits: at a higher role forms 1 and 2 change places, and the number becomes the lower.
pub fn description_as_read(form: u64, number: u64, partners: &[u16]) -> u64
    requires { (form < 3) × (number < name_bound) }
    ensures { (described result ≡ basic_as_read partners.now (basic_of form number)) × (result < description_bound) }
{
    if form == 0 {
        return number;
    }
    let low = lower(partners, number);
    if is_higher(partners, number) {
        (3 - form) * 0x1000 + low
    } else {
        form * 0x1000 + low
    }
}

// A right form of kind 2, flipped where the role is the higher.
fn flipped(form: u64, higher: bool) -> u64
    requires { form < 2 }
    ensures { (eqb result 1 ≡ xor (eqb form 1) higher) × (result < 2) }
{
    if higher { 1 - form } else { form }
}

// The right form of kind 2 as read: each higher role flips it.
fn direction_as_read(form: u64, left: u64, right: u64, partners: &[u16]) -> u64
    requires { (form < 2) × (left < name_bound) × (right < name_bound) }
    ensures { (eqb result 1 ≡ xor (eqb form 1) (xor (is_higher partners.now left) (is_higher partners.now right)))
        × (result < 2) }
{
    flipped(
        flipped(form, is_higher(partners, left)),
        is_higher(partners, right),
    )
}

// A rule of kind 1 as read: both descriptions as read.
fn concept_rule_as_read(x: u64, partners: &[u16]) -> u64
    requires { (is_rule x ≡ true) × (rule_kind x ≡ 1) }
    ensures { (rule_in result ≡ rule_as_read partners.now (rule_in x)) × (result < rule_bound) }
{
    let left = description_as_read(left_form(x), left_name(x), partners);
    let right = description_as_read(right_form(x), right_name(x), partners);
    0x10000000 + left * 0x4000 + right
}

// A rule of kind 2 as read: both roles as their lower partners, the direction as read.
fn role_rule_as_read(x: u64, partners: &[u16]) -> u64
    requires { (is_rule x ≡ true) × (rule_kind x ≡ 1 → ⊥) }
    ensures { (rule_in result ≡ rule_as_read partners.now (rule_in x)) × (result < rule_bound) }
{
    let left = left_name(x);
    let right = right_name(x);
    let direction = direction_as_read(right_form(x), left, right, partners);
    0x20000000 + lower(partners, left) * 0x4000 + direction * 0x1000 + lower(partners, right)
}

// The rule with reciprocal names read.
pub fn rule_as_read(x: u64, partners: &[u16]) -> u64
    requires { is_rule x ≡ true }
    ensures { (rule_in result ≡ rule_as_read partners.now (rule_in x)) × (result < rule_bound) }
{
    if rule_kind(x) == 1 {
        concept_rule_as_read(x, partners)
    } else {
        role_rule_as_read(x, partners)
    }
}
