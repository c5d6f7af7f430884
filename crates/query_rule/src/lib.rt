// What a rule makes of an atom of a query.
#![tactic(auto)]

ghost use Rattle.std.specs.Prelude.{◌≡◌, true, ◌<◌, eqb, IfSome};
ghost use Rattle.theory.specs.Lists.{pick};
ghost use Rattle.theory.specs.Syntax.{var, instance, oriented};
ghost use Rattle.theory.specs.Rewriting.{bearer as bearer_in, rewrite_atom};
ghost use Rattle.words.specs.Records.{rule_kind, left_name, right_form, basic_of, rule_in};
ghost use Rattle.words.specs.Words.{query_of, Small, word_term, word_atom, word_first, word_second, LowAtom};
ghost use Rattle.words.specs.Limits.{name_bound, word_object_bound, word_term_bound};
ghost use Rattle.query_rule.specs.RuleOnAtom.{term_found, atom_found, right_of, names as names_in};

use query_variables::fresh::fresh;
use query_variables::unbound::unbound;
use words::rules::{left_form, left_name, right_form, right_name, rule_kind};
use words::{QueryWords, concept_word, first_term, kind_of, number_of, role_word, second_term};

// The kind of the rule's right side: 0 for a concept, 1 for a role.
fn right_kind(rule: u64) -> u64
    ensures { result ≡ pick (eqb (rule_kind rule) 1) (pick (eqb (right_form rule) 0) 0 1) 1 }
{
    if rule_kind(rule) == 1 && right_form(rule) == 0 {
        0
    } else {
        1
    }
}

// Whether the rule's right side has the atom's predicate. A rule whose right side has another makes nothing of the atom.
pub fn names(rule: u64, a: u64) -> bool
    ensures { result ≡ names_in (rule_in rule) (word_atom a) }
{
    right_name(rule) == number_of(a) && right_kind(rule) == kind_of(a)
}

// The term of which the atom says the right description of a rule of kind 1, if the other term is unbound.
fn bearer(q: QueryWords, rule: u64, a: u64) -> Option<u64>
    requires { Small q × (rule_kind rule ≡ 1) × (names_in (rule_in rule) (word_atom a) ≡ true) }
    ensures bears { term_found result ≡ bearer_in (query_of q) (right_of rule) (word_atom a) }
    ensures word { IfSome result (λ t. t < word_term_bound) }
{
    let t = first_term(a);
    let u = second_term(a);
    match right_form(rule) {
        0 => Some(t),
        1 => unbound(q, u).then_some(t),
        _ => unbound(q, t).then_some(u),
    }
}

// The word of the description of t, with the variable z where it says "something".
fn instance_word(form: u64, number: u64, t: u64, z: u64) -> u64
    requires { (number < name_bound) × (t < word_term_bound) × (z < word_object_bound) }
    ensures { word_atom result ≡ instance (basic_of form number) (word_term t) (var z) }
{
    match form {
        0 => concept_word(number, t),
        1 => role_word(number, t, z),
        _ => role_word(number, z, t),
    }
}

// What a rule of kind 1 makes of an atom of its right side's predicate.
fn describe(q: QueryWords, rule: u64, a: u64) -> Option<u64>
    requires { Small q × (rule_kind rule ≡ 1) × (names_in (rule_in rule) (word_atom a) ≡ true) }
    ensures made { atom_found result ≡ rewrite_atom (query_of q) (rule_in rule) (word_atom a) }
    ensures low { LowAtom a → IfSome result LowAtom }
{
    let t = bearer(q, rule, a)?;
    Some(instance_word(left_form(rule), left_name(rule), t, fresh(q)))
}

// The word of the left role of a rule of kind 2, with the atom's terms kept or exchanged.
fn oriented_word(rule: u64, a: u64) -> u64
    ensures { word_atom result ≡ oriented (eqb (right_form rule) 1) (left_name rule) (word_term (word_first a))
        (word_term (word_second a)) }
{
    let left = left_name(rule);
    let t = first_term(a);
    let u = second_term(a);
    if right_form(rule) == 1 {
        role_word(left, u, t)
    } else {
        role_word(left, t, u)
    }
}

// What the rule makes of an atom of the query, if it fits.
pub fn rewrite_atom(q: QueryWords, rule: u64, a: u64) -> Option<u64>
    requires { Small q }
    ensures made { atom_found result ≡ rewrite_atom (query_of q) (rule_in rule) (word_atom a) }
    ensures low { LowAtom a → IfSome result LowAtom }
{
    if !names(rule, a) {
        return None;
    }
    if rule_kind(rule) == 1 {
        return describe(q, rule, a);
    }
    Some(oriented_word(rule, a))
}
