// Refusal 11: every step from every member leads to a question that is alike to a member.
#![tactic(auto)]

ghost use Rattle.std.specs.Prelude.{◌≡◌, ◌≤◌, ◌<◌, eqb, length, get_or, IfSome};
ghost use Rattle.theory.specs.Lists.{Unrepeated, any, numbers};
ghost use Rattle.theory.specs.Syntax.{Query};
ghost use Rattle.theory.specs.Rewriting.{steps};
ghost use Rattle.theory.specs.Union.{refuses11 as refuses_eleven};
ghost use Rattle.words.specs.Words.{query_of, Small, rules_in};
ghost use Rattle.words.specs.Rows.{member_in};
ghost use Rattle.query_steps.specs.StepResults.{query_found};
ghost use Rattle.check_chains.specs.Chains.{places};
ghost use Rattle.check_distinct.specs.Union.{union_of};
ghost use Rattle.check_closed.specs.Outside.{outside, leads_outside, rule_out, rules_out, merges_out};
ghost use Rattle.check_closed.specs.Rules.{rules_of, stands_earlier, TriedOnce};

use check_chains::{Chained, INDEX_WORDS, MANY, PLACES, chain};
use check_distinct::alike_to_member;
use check_distinct::members::Members;
use check_rules::distinct;
use query_rule::names;
use query_steps::steps::{merge_step, rule_step};
use words::rows::load;
use words::{QueryWords, number_of};

// Whether a step gives a question that is alike to no member.
fn leads_outside(r: Option<QueryWords>, members: &Members) -> bool
    requires { IfSome r (λ q. Small q × Unrepeated (query_of q).atoms) }
    ensures { result ≡ leads_outside (union_of members.now) (query_found r) }
{
    match r {
        Some(q) => !alike_to_member(q, members),
        None => false,
    }
}

// Whether the rule word at index k stands earlier in the table.
pub fn repeated(rules: &[u64], k: usize) -> bool
    requires { k < length rules.now }
    ensures { result ≡ any (λ j. eqb (get_or rules.now j 0) (get_or rules.now k 0)) (numbers 0 k) }
{
    let word = rules[k];
    for earlier in 0..k {
        if rules[earlier] == word {
            return true;
        }
    }
    false
}

// Whether rule k leads outside from atom i: a rule for another predicate makes nothing of the atom, and a word that stands earlier is left
// to its first place. Where there is an index the words were made distinct before, and each is tried.
fn rule_leads_outside(rules: &Chained, q: QueryWords, i: usize, k: usize, members: &Members) -> bool
    requires { (k < length rules.now.words.now) × Small q × (i < q.size) }
    ensures once { TriedOnce (rule_out (union_of members.now) (query_of q) (rules_of rules.now) i k)
        (stands_earlier rules.now.words.now k) result }
    ensures indexed { IfSome rules.now.index (λ numbers. result
        ≡ rule_out (union_of members.now) (query_of q) (rules_of rules.now) i k) }
{
    let rule = rules.words[k];
    let atoms = q.atoms;
    if !names(rule, atoms[i]) {
        return false;
    }
    if rules.index.is_none() {
        if repeated(rules.words, k) {
            return false;
        }
    }
    leads_outside(rule_step(q, i, rule), members)
}

// Whether some rule leads outside from atom i: only rules at the place of the atom's name are looked at. The name is the low bits of a
// rule's word, which are its right side's.
fn rules_lead_outside(rules: &Chained, q: QueryWords, i: usize, members: &Members) -> bool
    requires { Small q × (i < q.size) }
    ensures { result ≡ rules_out (union_of members.now) (query_of q) (rules_of rules.now) (length rules.now.words.now) i }
{
    let atoms = q.atoms;
    let mut at = rules.last_with(number_of(atoms[i]));
    while let Some(k) = at {
        if rule_leads_outside(rules, q, i, k, members) {
            return true;
        }
        at = rules.before(k);
    }
    false
}

// Whether some rule leads outside from some atom.
fn atoms_lead_outside(rules: &Chained, q: QueryWords, members: &Members) -> bool
    requires { Small q }
    ensures { result ≡ any (rules_out (union_of members.now) (query_of q) (rules_of rules.now) (length rules.now.words.now))
        (numbers 0 q.size) }
{
    for i in 0..q.size {
        if rules_lead_outside(rules, q, i, members) {
            return true;
        }
    }
    false
}

// Whether a merge of atom i with a later one leads outside.
fn merges_lead_outside(q: QueryWords, i: usize, members: &Members) -> bool
    requires { Small q × (i < q.size) }
    ensures { result ≡ merges_out (union_of members.now) (query_of q) q.size i }
{
    for j in i + 1..q.size {
        if leads_outside(merge_step(q, i, j), members) {
            return true;
        }
    }
    false
}

// Whether some merge leads outside.
fn pairs_lead_outside(q: QueryWords, members: &Members) -> bool
    requires { Small q }
    ensures { result ≡ any (merges_out (union_of members.now) (query_of q) q.size) (numbers 0 q.size) }
{
    for first in 0..q.size {
        if merges_lead_outside(q, first, members) {
            return true;
        }
    }
    false
}

// Whether some step from member m leads outside.
fn member_leads_outside(rules: &Chained, members: &Members, m: usize) -> bool
    requires { m < length members.now.keys.words.now }
    ensures { result ≡ any (outside (union_of members.now)) (steps (rules_of rules.now) (member_in members.now.table.now m).query) }
{
    let q = load(members.table, m);
    atoms_lead_outside(rules, q, members) || pairs_lead_outside(q, members)
}

// Whether some step from some member leads outside.
fn some_lead_outside(rules: &Chained, members: &Members) -> bool
    ensures { (q : Query) → result ≡ refuses_eleven (rules_of rules.now) q (union_of members.now) }
{
    for m in 0..members.count() {
        if member_leads_outside(rules, members, m) {
            return true;
        }
    }
    false
}

// The same with each rule once, chained by the names of right sides.
fn some_by_chains(rules: &[u64], members: &Members) -> bool
    requires { length rules.now ≤ places }
    ensures { (q : Query) → result ≡ refuses_eleven (rules_in rules.now (length rules.now)) q (union_of members.now) }
{
    let mut table = [0u64; PLACES];
    let mut index = [0u16; INDEX_WORDS];
    let count = distinct(rules, &mut table);
    chain(&table[..count], &mut index);
    some_lead_outside(&Chained::indexed(&table[..count], &index), members)
}

// Refusal 11: a step from some member leads outside. Chains of the rules are worth making where they are many.
pub fn refuses11(rules: &[u64], members: &Members) -> bool
    ensures { (q : Query) → result ≡ refuses_eleven (rules_in rules.now (length rules.now)) q (union_of members.now) }
{
    if MANY <= rules.len() {
        if rules.len() <= PLACES {
            return some_by_chains(rules, members);
        }
    }
    some_lead_outside(&Chained::plain(rules), members)
}
