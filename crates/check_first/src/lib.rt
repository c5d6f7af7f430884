// Refusal 7: member 0 is the question, with no step beside it.
#![tactic(auto)]

ghost use Rattle.std.specs.Prelude.{◌≡◌, List, map, ◌≤◌, take};
ghost use Rattle.theory.specs.Lists.{pairwise};
ghost use Rattle.theory.specs.Syntax.{Rule, same_term, same_atom};
ghost use Rattle.theory.specs.Union.{same_query, refuses7 as refuses_seven};
ghost use Rattle.words.specs.Limits.{most_terms, most_atoms};
ghost use Rattle.words.specs.Words.{TermWords, query_of, Small, union_in, word_term, word_atom};
ghost use Rattle.words.specs.Rows.{Rows};

use words::limits::{MOST_ATOMS, MOST_TERMS};
use words::rows::load;
use words::steps::zero_step;
use words::{QueryWords, same_atom, same_term};

// Whether the first n words of two arrays are the same terms.
fn equal_terms(a: [u64; MOST_TERMS], b: [u64; MOST_TERMS], n: usize) -> bool
    requires { (n ≤ most_terms) × TermWords a × TermWords b }
    ensures { result ≡ pairwise same_term (map word_term (take n a)) (map word_term (take n b)) }
{
    for i in 0..n {
        if !same_term(a[i], b[i]) {
            return false;
        }
    }
    true
}

// Whether the first n words of two arrays are the same atoms. Beside the loop over terms, since a closure for the test would need a
// `requires` for term words that atoms do not have.
fn equal_atoms(a: [u64; MOST_ATOMS], b: [u64; MOST_ATOMS], n: usize) -> bool
    requires { n ≤ most_atoms }
    ensures { result ≡ pairwise same_atom (map word_atom (take n a)) (map word_atom (take n b)) }
{
    for i in 0..n {
        if !same_atom(a[i], b[i]) {
            return false;
        }
    }
    true
}

// Whether two questions have the same answer terms and the same atoms, in order.
fn same_query(p: QueryWords, q: QueryWords) -> bool
    requires { Small p × Small q }
    ensures { result ≡ same_query (query_of p) (query_of q) }
{
    if p.terms != q.terms {
        return false;
    }
    if p.size != q.size {
        return false;
    }
    equal_terms(p.answers, q.answers, p.terms) && equal_atoms(p.atoms, q.atoms, p.size)
}

// Refusal 7: member 0 has a step, or is not the question.
pub fn refuses7(question: QueryWords, table: &[u64], n: usize) -> bool
    requires { Small question × Rows table.now n }
    ensures { (rules : List Rule) → result ≡ refuses_seven rules (query_of question) (union_in table.now n) }
{
    if n == 0 {
        return true;
    }
    !zero_step(table[0]) || !same_query(load(table, 0), question)
}
