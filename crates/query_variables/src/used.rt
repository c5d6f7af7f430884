// The set of a query's variables.
ghost use Rattle.std.specs.Prelude.{◌≡◌, [], ◌∷◌, ℕ};
ghost use Rattle.theory.specs.Lists.{any};
ghost use Rattle.theory.specs.Syntax.{var, args, places, terms, same_term};
ghost use Rattle.words.specs.Words.{query_of, Small, word_term, word_atom, LowTerm, LowAtom};
ghost use Rattle.query_sets.specs.Sets.{holds};
ghost use Rattle.query_variables.specs.UsedVariables.{AddsVariables};

use query_sets::with;
use words::{QueryWords, first_term, kind_of, second_term};

// The set with the term put in if it is a variable. The word of a variable is its number, that of an object is 0x1000000 or more.
fn with_term(set: u32, t: u64) -> u32
    requires { LowTerm t }
    ensures { AddsVariables (word_term t ∷ []) set result }
{
    if t < 32 { with(set, t as u32) } else { set }
}

// The set with the atom's variables put in.
pub fn with_atom(set: u32, a: u64) -> u32
    requires { LowAtom a }
    ensures { AddsVariables (args (word_atom a)) set result }
{
    let first = with_term(set, first_term(a));
    if kind_of(a) == 0 {
        first
    } else {
        with_term(first, second_term(a))
    }
}

// The set with the variables of the query's answer terms put in.
// This loop and the next stay two: one for both would need a contract for its step, and be longer.
fn with_answers(q: QueryWords, set: u32) -> u32
    requires { Small q }
    ensures { AddsVariables (query_of q).answers set result }
{
    let mut all = set;
    for i in 0..q.terms {
        all = with_term(all, q.answers[i]);
    }
    all
}

// The set with the variables of the query's atoms put in.
fn with_atoms(q: QueryWords, set: u32) -> u32
    requires { Small q }
    ensures { AddsVariables (places (query_of q).atoms) set result }
{
    let mut all = set;
    for k in 0..q.size {
        all = with_atom(all, q.atoms[k]);
    }
    all
}

// The set of the query's variables.
pub fn used(q: QueryWords) -> u32
    requires { Small q }
    ensures { (u : ℕ) → holds result u ≡ any (same_term (var u)) (terms (query_of q)) }
{
    with_atoms(q, with_answers(q, 0))
}
