// The steps on a query in words: a rule on an atom, and a merge of two atoms.
ghost use Rattle.std.specs.Prelude.{◌≡◌, List, map, ℕ, ◌+◌, ◌≤◌, ◌<◌, take, IfSome};
ghost use Rattle.theory.specs.Lists.{At, any};
ghost use Rattle.theory.specs.Syntax.{Rule, map_atom, subst_term, same_atom};
ghost use Rattle.theory.specs.Rewriting.{substitute as substituted, change_atom, rule_step, merge_step};
ghost use Rattle.words.specs.Limits.{most_atoms};
ghost use Rattle.words.specs.Records.{rule_in};
ghost use Rattle.words.specs.Words.{TermWords, query_of, Small, word_term, word_atom, LowAtom};
ghost use Rattle.query_substitution.specs.Substitutions.{SmallTargets, subst_of};
ghost use Rattle.query_steps.specs.StepResults.{once_each, with_atom, query_found};

use query_rule::rewrite_atom;
use query_substitution::{Substitution, unify};
use words::limits::{MOST_ATOMS, MOST_TERMS};
use words::{QueryWords, same_atom};

// Whether the query has the atom.
fn has_atom(q: QueryWords, a: u64) -> bool
    requires { q.size ≤ most_atoms }
    ensures { result ≡ any (same_atom (word_atom a)) (query_of q).atoms }
{
    q.atoms[..q.size].iter().any(|b| same_atom(a, *b))
}

// The query with one atom more, unless it stands there already.
fn with_atom(mut q: QueryWords, a: u64) -> QueryWords
    requires { q.size < most_atoms }
    ensures { (query_of result ≡ with_atom (query_of q) (word_atom a)) × (result.size ≤ q.size + 1)
        × (result.terms ≡ q.terms) × (result.answers ≡ q.answers) }
{
    if has_atom(q, a) {
        return q;
    }
    q.atoms[q.size] = a;
    q.size += 1;
    q
}

// The query with equal atoms kept once: the later of two goes.
fn keep_once(q: QueryWords) -> QueryWords
    requires { Small q }
    ensures { (query_of result ≡ once_each (query_of q)) × Small result }
{
    let mut kept = q;
    kept.size = 0;
    for i in 0..q.size {
        kept = with_atom(kept, q.atoms[i]);
    }
    kept
}

// The query with the atom at index i changed to b.
fn change_atom(mut q: QueryWords, i: usize, b: u64) -> QueryWords
    requires { Small q × (i < q.size) × LowAtom b }
    ensures { (query_of result ≡ change_atom (query_of q) i (word_atom b)) × Small result }
{
    q.atoms[i] = b;
    keep_once(q)
}

// The words of the query's answer terms under the replacement.
// This loop and the next stay two: one for both would need a contract for its step, and be longer.
fn apply_answers(s: Substitution, q: QueryWords) -> [u64; MOST_TERMS]
    requires { SmallTargets s × Small q }
    ensures { (map word_term (take q.terms result) ≡ map (subst_term (subst_of s)) (query_of q).answers) × TermWords result }
{
    let mut words = [0u64; MOST_TERMS];
    for i in 0..q.terms {
        words[i] = s.apply(q.answers[i]);
    }
    words
}

// The words of the query's atoms under the replacement.
fn apply_atoms(s: Substitution, q: QueryWords) -> [u64; MOST_ATOMS]
    requires { SmallTargets s × Small q }
    ensures { map word_atom (take q.size result) ≡ map (map_atom (subst_term (subst_of s))) (query_of q).atoms }
{
    let mut words = [0u64; MOST_ATOMS];
    for i in 0..q.size {
        words[i] = s.apply_atom(q.atoms[i]);
    }
    words
}

// The query under the replacement, in its answer terms and its atoms alike. The replacement goes by value, 01's form of its methods.
pub fn substitute(s: Substitution, q: QueryWords) -> QueryWords
    requires { SmallTargets s × Small q }
    ensures { (query_of result ≡ substituted (subst_of s) (query_of q)) × Small result }
{
    let answers = apply_answers(s, q);
    let atoms = apply_atoms(s, q);
    keep_once(QueryWords {
        terms: q.terms,
        answers,
        size: q.size,
        atoms,
    })
}

// A step of kind 1: the rule on the atom at index i.
pub fn rule_step(q: QueryWords, i: usize, rule: u64) -> Option<QueryWords>
    requires { Small q }
    ensures step { (rules : List Rule) (k : ℕ) → At rules k (rule_in rule) → query_found result ≡ rule_step rules (query_of q) i k }
    ensures small { IfSome result Small }
{
    if q.size <= i {
        return None;
    }
    let made = rewrite_atom(q, rule, q.atoms[i])?;
    Some(change_atom(q, i, made))
}

// A step of kind 2: the atom at index i merged with the later one at index j.
pub fn merge_step(q: QueryWords, i: usize, j: usize) -> Option<QueryWords>
    requires { Small q }
    ensures step { query_found result ≡ merge_step (query_of q) i j }
    ensures small { IfSome result Small }
{
    if j <= i {
        return None;
    }
    if q.size <= j {
        return None;
    }
    let unifier = unify(q.atoms[i], q.atoms[j])?;
    Some(substitute(unifier, q))
}
