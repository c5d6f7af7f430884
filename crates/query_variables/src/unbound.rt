// Unbound terms of a query.
ghost use Rattle.std.specs.Prelude.{◌≡◌, ◌≤◌, ◌<◌};
ghost use Rattle.theory.specs.Lists.{pick, any, count};
ghost use Rattle.theory.specs.Syntax.{args, places, same_term};
ghost use Rattle.theory.specs.Rewriting.{unbound as unbound_in};
ghost use Rattle.words.specs.Words.{query_of, Small, word_term, word_atom};
ghost use Rattle.words.specs.Limits.{word_term_bound};

use words::{QueryWords, first_term, is_variable, kind_of, same_term, second_term};

// At how many places of the atom the term stands.
fn places_of(a: u64, t: u64) -> u64
    requires { t < word_term_bound }
    ensures { (result ≡ count (same_term (word_term t)) (args (word_atom a))) × (result ≤ 2) }
{
    let first = u64::from(same_term(t, first_term(a)));
    if kind_of(a) == 0 {
        first
    } else {
        first + u64::from(same_term(t, second_term(a)))
    }
}

// At how many places of the query's atoms the term stands.
fn count_places(q: QueryWords, t: u64) -> u64
    requires { Small q × (t < word_term_bound) }
    ensures { result ≡ count (same_term (word_term t)) (places (query_of q).atoms) }
{
    let mut found = 0;
    for i in 0..q.size {
        found += places_of(q.atoms[i], t);
    }
    found
}

// Whether the term is among the query's answer terms.
fn in_answers(q: QueryWords, t: u64) -> bool
    requires { Small q × (t < word_term_bound) }
    ensures { result ≡ any (same_term (word_term t)) (query_of q).answers }
{
    for i in 0..q.terms {
        if same_term(t, q.answers[i]) {
            return true;
        }
    }
    false
}

// Whether the term is an unbound variable of the query.
pub fn unbound(q: QueryWords, t: u64) -> bool
    requires { Small q × (t < word_term_bound) }
    ensures { result ≡ unbound_in (query_of q) (word_term t) }
{
    is_variable(t) && !in_answers(q, t) && count_places(q, t) == 1
}
