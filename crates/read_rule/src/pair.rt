// A pair, a kind 3 and its kind 4: the three rules over a helper role that it is read as (02, T-04).
ghost use Rattle.std.specs.Prelude.{◌≡◌, ◌+◌, ◌<◌, ◌≤◌, true, false, not, eqb, length};
ghost use Rattle.std.specs.Bool.{xor};
ghost use Rattle.theory.specs.Syntax.{named, concept_inclusion, role_inclusion};
ghost use Rattle.theory.specs.Qualified.{some_role};
ghost use Rattle.words.specs.Limits.{name_bound};
ghost use Rattle.words.specs.Records.{kind3_forms, rule_in};
ghost use Rattle.read_rule.specs.Described.{described, description_bound};
ghost use Rattle.read_rule.specs.PairPut.{PairPut};

use crate::description_as_read;
use read_records::partners::{is_higher, lower};
use words::rules::{left_form, left_name, right_form, right_name};

// A right form of kind 3 as read: forms 1 and 2 change places where the role is the higher.
fn turned(form: u64, higher: bool) -> u64
    requires { (0 < form) × (form < 3) }
    ensures { (eqb result 2 ≡ xor (eqb form 2) higher) × (0 < result) × (result < 3) }
{
    if higher { 3 - form } else { form }
}

// "the left side has the helper in the direction given"
fn has_helper(left: u64, form: u64, helper: u64) -> u64
    requires { (left < description_bound) × (0 < form) × (form < 3) × (helper < name_bound) }
    ensures { rule_in result ≡ concept_inclusion (described left) (some_role (eqb form 2) helper) }
{
    0x10000000 + left * 0x4000 + (form * 0x1000 + helper)
}

// "the helper implies the role in the same direction"
fn helper_implies(helper: u64, role: u64) -> u64
    requires { (helper < name_bound) × (role < name_bound) }
    ensures { rule_in result ≡ role_inclusion helper false role }
{
    0x20000000 + helper * 0x4000 + role
}

// "and its far end bears the filler"
fn far_end_bears(form: u64, helper: u64, filler: u64) -> u64
    requires { (0 < form) × (form < 3) × (helper < name_bound) × (filler < name_bound) }
    ensures { rule_in result ≡ concept_inclusion (some_role (not (eqb form 2)) helper) (named filler) }
{
    0x10000000 + ((3 - form) * 0x1000 + helper) * 0x4000 + filler
}

// Puts the three rules into the table from place `at` on.
pub fn put_pair(x: u64, y: u64, helper: u64, partners: &[u16], at: usize, table: &mut [u64])
    requires { (kind3_forms x ≡ true) × (helper < name_bound) × (at + 3 ≤ length table.old) }
    ensures kept { length table.new ≡ length table.old }
    ensures put { PairPut partners.now x y helper at table.old table.new }
{
    let left = description_as_read(left_form(x), left_name(x), partners);
    let role = right_name(x);
    let form = turned(right_form(x), is_higher(partners, role));
    table[at] = has_helper(left, form, helper);
    table[at + 1] = helper_implies(helper, lower(partners, role));
    table[at + 2] = far_end_bears(form, helper, left_name(y));
}
