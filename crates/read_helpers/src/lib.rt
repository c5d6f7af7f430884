// Helper roles (02, T-04): whether one that is in use stands as a role in the rules as written, in the question or in a fact, which is 18.
// So many are in use, the numbers from 4,095 down.
#![tactic(auto)]

ghost use Rattle.std.specs.Prelude.{◌≡◌, ◌≤◌, ◌<◌, true, false, ◌||◌, map, length};
ghost use Rattle.theory.specs.Lists.{all};
ghost use Rattle.theory.specs.Qualified.{roles_of_basic, roles_of_rules, roles_of_atom, roles_of_atoms};
ghost use Rattle.words.specs.Limits.{sheet_width, name_bound, most_rules};
ghost use Rattle.words.specs.Records.{basic_of};
ghost use Rattle.words.specs.Words.{word_atom, word_fact, query_of, Small, facts_in};
ghost use Rattle.sheets.specs.Format.{rule_records};
ghost use Rattle.sheets.specs.Partners.{basic_as_read};
ghost use Rattle.sheets.specs.Reading.{rules_as_written};
ghost use Rattle.sheets.specs.Tests.{passes2, pairs_sound};
ghost use Rattle.read_helpers.specs.InUse.{is_helper as is_helper_of, clashing, record_roles};

use read_fields::bytes::four;
use read_records::partners::lower;
use words::facts::{fact_kind, fact_name};
use words::limits::{FIRST_HELPER, RULE_BYTES};
use words::rules::{left_form, left_name, right_form, right_name, rule_kind};
use words::{QueryWords, kind_of, number_of};

// Whether the role is a helper in use.
fn is_helper(role: u64, helpers: u64) -> bool
    requires { role < name_bound }
    ensures { result ≡ is_helper_of helpers role }
{
    FIRST_HELPER - role < helpers
}

// Whether a description has one; a concept is no role.
fn side_clashes(form: u64, name: u64, partners: &[u16], helpers: u64) -> bool
    requires { name < name_bound }
    ensures { result ≡ clashing helpers (roles_of_basic (basic_as_read partners.now (basic_of form name))) }
{
    form != 0 && is_helper(lower(partners, name), helpers)
}

// Whether one of a record's two roles or descriptions has one; a filler is a concept.
fn record_clashes(x: u64, partners: &[u16], helpers: u64) -> bool
    ensures { result ≡ clashing helpers (record_roles partners.now x) }
{
    match rule_kind(x) {
        2 => {
            is_helper(lower(partners, left_name(x)), helpers)
                || is_helper(lower(partners, right_name(x)), helpers)
        }
        4 => false,
        _ => {
            side_clashes(left_form(x), left_name(x), partners, helpers)
                || side_clashes(right_form(x), right_name(x), partners, helpers)
        }
    }
}

// 18 by the rules: whether one stands in a rule as written of a sheet whose records are named and paired.
pub fn rules_clash(s: &[u8], partners: &[u16], helpers: u64) -> bool
    requires { (helpers ≤ most_rules) × (all passes2 (rule_records s.now) ≡ true) × (pairs_sound false (rule_records s.now) ≡ true) }
    ensures { result ≡ clashing helpers (roles_of_rules (rules_as_written partners.now sheet_width s.now)) }
{
    for i in 0..s.len() / RULE_BYTES {
        if record_clashes(four(s, RULE_BYTES * i), partners, helpers) {
            return true;
        }
    }
    false
}

// Whether an atom's role is one.
fn atom_clashes(a: u64, helpers: u64) -> bool
    ensures { result ≡ clashing helpers (roles_of_atom (word_atom a)) }
{
    kind_of(a) != 0 && is_helper(number_of(a), helpers)
}

// 18 by the question: whether one stands in its atoms.
fn question_clashes(q: QueryWords, helpers: u64) -> bool
    requires { Small q }
    ensures { result ≡ clashing helpers (roles_of_atoms (query_of q).atoms) }
{
    q.atoms[..q.size].iter().any(|a| atom_clashes(*a, helpers))
}

// 18 by rules and question: `clash` says whether one stands in a rule as written.
pub fn asked_clashes(clash: bool, q: QueryWords, helpers: u64) -> bool
    requires { (helpers ≤ most_rules) × Small q }
    ensures { result ≡ (clash || clashing helpers (roles_of_atoms (query_of q).atoms)) }
{
    clash || question_clashes(q, helpers)
}

// Whether a fact's role is one.
fn fact_clashes(f: u64, helpers: u64) -> bool
    ensures { result ≡ clashing helpers (roles_of_atom (word_fact f)) }
{
    fact_kind(f) != 0 && is_helper(fact_name(f), helpers)
}

// 18 by the facts: whether one stands in them.
fn facts_clash(facts: &[u64], helpers: u64) -> bool
    ensures { result ≡ clashing helpers (roles_of_atoms (map word_fact facts.now)) }
{
    facts.iter().any(|f| fact_clashes(*f, helpers))
}

// 18 by all: `clash` says whether one stands in a rule as written or in the question.
pub fn drawn_clashes(clash: bool, table: &[u64], count: usize, helpers: u64) -> bool
    requires { (helpers ≤ most_rules) × (count ≤ length table.now) }
    ensures { result ≡ (clash || clashing helpers (roles_of_atoms (facts_in table.now count))) }
{
    clash || facts_clash(&table[..count], helpers)
}
