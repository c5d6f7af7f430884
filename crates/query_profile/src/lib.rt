// Numbers of variables that a renaming keeps: tests that rule most renamings out before the search tries them.
#![tactic(auto)]

ghost use Rattle.std.specs.Prelude.{◌≡◌, Bool, true, ◌<◌};
ghost use Rattle.theory.specs.Lists.{◌∈◌};
ghost use Rattle.theory.specs.Syntax.{Term, var, Atom, terms};
ghost use Rattle.theory.specs.Renaming.{Alike};
ghost use Rattle.words.specs.Words.{query_of, Small, word_atom};
ghost use Rattle.query_partial.specs.Partial.{same_predicate, Decides};
ghost use Rattle.query_profile.specs.Gathered.{stands_in, Gathers};

use query_partial::same_predicate;
use query_variables::used::with_atom;
use words::{QueryWords, stands};

// The variables of the atoms that pass the test.
fn gathered<F: Fn(u64) -> bool>(q: QueryWords, test: F) -> u32
    requires { Small q × F.IsAlwaysCallable test }
    ensures { (passes : Atom Term → Bool) → Decides passes (F.post test) → Gathers passes (query_of q) result }
{
    let mut set = 0;
    for i in 0..q.size {
        if test(q.atoms[i]) {
            set = with_atom(set, q.atoms[i]);
        }
    }
    set
}

// The variables of the atoms that have v in them.
pub fn beside(q: QueryWords, v: u32) -> u32
    requires { Small q × (v < 32) }
    ensures { Gathers (stands_in v) (query_of q) result }
{
    gathered(q, |a| stands(a, u64::from(v)))
}

// The variables of the atoms that have the predicate of a.
fn spread(q: QueryWords, a: u64) -> u32
    requires { Small q }
    ensures { Gathers (same_predicate (word_atom a)) (query_of q) result }
{
    gathered(q, |b| same_predicate(a, b))
}

// Whether as many variables stand beside v in p as beside w in q.
pub fn beside_alike(p: QueryWords, q: QueryWords, v: u32, w: u32) -> bool
    requires { Small p × Small q × (v < 32) × (w < 32) }
    ensures { (r : Alike (query_of p) (query_of q)) → var v ∈ terms (query_of p) → r.to v ≡ w → result ≡ true }
{
    beside(p, v).count_ones() == beside(q, w).count_ones()
}

// Whether each predicate of p has as many variables in p as in q.
pub fn spread_alike(p: QueryWords, q: QueryWords) -> bool
    requires { Small p × Small q }
    ensures { Alike (query_of p) (query_of q) → result ≡ true }
{
    for i in 0..p.size {
        if spread(p, p.atoms[i]).count_ones() != spread(q, p.atoms[i]).count_ones() {
            return false;
        }
    }
    true
}
