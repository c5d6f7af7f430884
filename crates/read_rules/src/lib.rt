// A rule sheet: its records judged, and its rules as read in a table.
#![tactic(auto)]

ghost use Rattle.std.specs.Prelude.{◌≡◌, ◌/◌, ◌≤◌, true, false, length};
ghost use Rattle.theory.specs.Lists.{all};
ghost use Rattle.words.specs.Limits.{sheet_width, most_rules, rule_bytes, most_rule_bytes};
ghost use Rattle.words.specs.Refusals.{number_in};
ghost use Rattle.words.specs.Words.{rules_in};
ghost use Rattle.sheets.specs.Format.{rule_records, pairs_in};
ghost use Rattle.sheets.specs.Reading.{rules_as_read};
ghost use Rattle.sheets.specs.Tests.{passes2, pairs_sound};
ghost use Rattle.read_rules.specs.Filling.{FewRules};
ghost use Rattle.read_rules.specs.RuleWords.{RulesRead, HelpersRead, PairedRead, rule_count, helper_count, clash_in};

use read_fields::bytes::four;
use read_helpers::rules_clash;
use read_rule::pair::put_pair;
use read_rule::{follows, is_named, rule_as_read};
use words::limits::{FIRST_HELPER, MOST_RULE_BYTES, MOST_RULES, RULE_BYTES};
use words::refusals::Refusal;
use words::rules::rule_kind;

// What reading a rule sheet gives: how many rules it is read as, and how many helpers they use; and whether a helper in use stands in a
// rule as written, for which the list has a later place.
#[derive(Clone, Copy)]
pub struct RuleSheet {
    pub count: usize,
    pub helpers: u64,
    pub clash: bool,
}

// Whether 2 refuses no record of the sheet.
fn all_named(s: &[u8]) -> bool
    ensures { result ≡ all passes2 (rule_records s.now) }
{
    for i in 0..s.len() / RULE_BYTES {
        if !is_named(four(s, RULE_BYTES * i)) {
            return false;
        }
    }
    true
}

// Whether each kind 3 has its kind 4 right after it and no kind 4 stands by itself, all with forms as said.
fn pairs_sound(s: &[u8]) -> bool
    ensures { result ≡ pairs_sound false (rule_records s.now) }
{
    let mut waits = false;
    for i in 0..s.len() / RULE_BYTES {
        let x = four(s, RULE_BYTES * i);
        if !follows(waits, x) {
            return false;
        }
        waits = rule_kind(x) == 3;
    }
    !waits
}

// How many pairs there are: records of kind 3.
fn count_pairs(s: &[u8]) -> usize
    ensures { (result ≡ pairs_in (rule_records s.now)) × (result ≤ length s.now / rule_bytes) }
{
    let mut pairs = 0;
    for i in 0..s.len() / RULE_BYTES {
        if rule_kind(four(s, RULE_BYTES * i)) == 3 {
            pairs += 1;
        }
    }
    pairs
}

// The sheet's rules as read, at the front of the table: a pair takes two records and three places, and helpers are numbered down.
fn fill_rules(s: &[u8], partners: &[u16], table: &mut [u64])
    requires { FewRules partners.now s.now × (most_rules ≤ length table.old)
        × (all passes2 (rule_records s.now) ≡ true) × (pairs_sound false (rule_records s.now) ≡ true) }
    ensures { (rules_in table.new (length (rules_as_read partners.now sheet_width s.now))
        ≡ rules_as_read partners.now sheet_width s.now)
        × (length table.new ≡ length table.old) }
{
    let n = s.len() / RULE_BYTES;
    let mut i = 0;
    let mut count = 0;
    let mut helper = FIRST_HELPER;
    while i < n {
        let x = four(s, RULE_BYTES * i);
        if rule_kind(x) == 3 {
            let y = four(s, RULE_BYTES * (i + 1));
            put_pair(x, y, helper, partners, count, table);
            helper -= 1;
            count += 3;
            i += 2;
        } else {
            table[count] = rule_as_read(x, partners);
            count += 1;
            i += 1;
        }
    }
}

// Reads a sheet whose records are named and paired: 17 where that is too many rules.
fn read_paired(s: &[u8], partners: &[u16], table: &mut [u64]) -> Result<RuleSheet, Refusal>
    requires { (most_rules ≤ length table.old) × (length s.now ≤ most_rule_bytes) × (all passes2 (rule_records s.now) ≡ true)
        × (pairs_sound false (rule_records s.now) ≡ true) }
    ensures kept { length table.new ≡ length table.old }
    ensures read { PairedRead partners.now s.now table.new (number_in result) (rule_count result) (helper_count result)
        (clash_in result) }
{
    let pairs = count_pairs(s);
    let count = s.len() / RULE_BYTES + pairs;
    if count > MOST_RULES {
        return Err(Refusal::PairMalformed);
    }
    fill_rules(s, partners, table);
    let helpers = pairs as u64;
    let clash = rules_clash(s, partners, helpers);
    Ok(RuleSheet {
        count,
        helpers,
        clash,
    })
}

// Reads the rule sheet into the table, or gives its first refusal.
pub fn read_rules(s: &[u8], partners: &[u16], table: &mut [u64]) -> Result<RuleSheet, Refusal>
    requires { most_rules ≤ length table.old }
    ensures kept { length table.new ≡ length table.old }
    ensures rules { RulesRead partners.now s.now table.new (number_in result) (rule_count result) }
    ensures helpers { HelpersRead partners.now s.now (number_in result) (helper_count result) (clash_in result) }
{
    if s.len() % RULE_BYTES != 0 {
        return Err(Refusal::RuleSheetLength);
    }
    if s.len() > MOST_RULE_BYTES {
        return Err(Refusal::RuleSheetLength);
    }
    if !all_named(s) {
        return Err(Refusal::NoSuchRule);
    }
    if !pairs_sound(s) {
        return Err(Refusal::PairMalformed);
    }
    read_paired(s, partners, table)
}
