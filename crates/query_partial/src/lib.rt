// Renamings in the making, and the test that nothing speaks against one.
#![tactic(auto)]

ghost use Rattle.std.specs.Prelude.{◌≡◌, ℕ, Bool, true, ◌<◌, replicate};
ghost use Rattle.theory.specs.Lists.{any, all, pairwise};
ghost use Rattle.theory.specs.Syntax.{Term, var, Atom, on_atoms};
ghost use Rattle.theory.specs.Renaming.{promising as promising_in};
ghost use Rattle.words.specs.Words.{query_of, Small, word_term, word_atom, LowTerm, LowAtom};
ghost use Rattle.words.specs.Limits.{word_term_bound};
ghost use Rattle.query_partial.specs.Partial.{may_become, Sends, same_predicate, Decides};

use query_sets::{has, with};
use words::{QueryWords, first_term, kind_of, number_of, second_term};

// Where each variable goes, 32 where it is not assigned, and the set of the targets taken: the list is handed back so, 01's form.
#[derive(Clone, Copy)]
pub struct Partial {
    pub to: [u8; 32],
    pub taken: u32,
}

// No variable is assigned.
pub fn nothing() -> Partial
    ensures { (result.to ≡ replicate 32 32) × (result.taken ≡ 0) }
{
    let to = [32u8; 32];
    Partial { to, taken: 0 }
}

// The partial renaming with v sent to w.
pub fn assign(mut m: Partial, v: u32, w: u32) -> Partial
    requires { (v < 32) × (w < 32) }
    ensures { Sends m v w result }
{
    m.to[v as usize] = w as u8;
    m.taken = with(m.taken, w);
    m
}

// Whether v may still go to w.
fn may_go(m: &Partial, v: u32, w: u32) -> bool
    requires { (v < 32) × (w < 32) }
    ensures { result ≡ may_become m.now (var v) (var w) }
{
    let u = u32::from(m.to[v as usize]);
    if u == 32 { !has(m.taken, w) } else { u == w }
}

// Whether the term s may still become t. The word of an object is higher than 32, and no other term has it.
fn may_be(m: &Partial, s: u64, t: u64) -> bool
    requires { LowTerm s × LowTerm t × (s < word_term_bound) × (t < word_term_bound) }
    ensures { result ≡ may_become m.now (word_term s) (word_term t) }
{
    if s < 32 {
        t < 32 && may_go(m, s as u32, t as u32)
    } else {
        s == t
    }
}

// Whether the atoms have one predicate.
pub fn same_predicate(a: u64, b: u64) -> bool
    ensures { result ≡ same_predicate (word_atom a) (word_atom b) }
{
    kind_of(a) == kind_of(b) && number_of(a) == number_of(b)
}

// Whether the atom a may still become b, which has its predicate.
fn may_terms(m: &Partial, a: u64, b: u64) -> bool
    requires { LowAtom a × LowAtom b × (same_predicate (word_atom a) (word_atom b) ≡ true) }
    ensures { result ≡ on_atoms (may_become m.now) (word_atom a) (word_atom b) }
{
    may_be(m, first_term(a), first_term(b))
        && (kind_of(a) == 0 || may_be(m, second_term(a), second_term(b)))
}

// Whether the atom a may still become b.
pub fn may_atom(m: &Partial, a: u64, b: u64) -> bool
    requires { LowAtom a × LowAtom b }
    ensures { result ≡ on_atoms (may_become m.now) (word_atom a) (word_atom b) }
{
    same_predicate(a, b) && may_terms(m, a, b)
}

// Whether some atom of the query passes the test.
fn some_atom<F: Fn(u64) -> bool>(q: QueryWords, test: F) -> bool
    requires small { Small q }
    requires callable { (a : ℕ) → LowAtom a → F.pre test a }
    ensures { (passes : Atom Term → Bool) → Decides passes (F.post test) → result ≡ any passes (query_of q).atoms }
{
    for i in 0..q.size {
        if test(q.atoms[i]) {
            return true;
        }
    }
    false
}

// Whether each atom of the query passes the test.
fn each_atom<F: Fn(u64) -> bool>(q: QueryWords, test: F) -> bool
    requires small { Small q }
    requires callable { (a : ℕ) → LowAtom a → F.pre test a }
    ensures { (passes : Atom Term → Bool) → Decides passes (F.post test) → result ≡ all passes (query_of q).atoms }
{
    for i in 0..q.size {
        if !test(q.atoms[i]) {
            return false;
        }
    }
    true
}

// Whether each atom of p may still become one of q.
fn all_go(m: &Partial, p: QueryWords, q: QueryWords) -> bool
    requires { Small p × Small q }
    ensures { result ≡ all (λ a. any (λ b. on_atoms (may_become m.now) a b) (query_of q).atoms) (query_of p).atoms }
{
    each_atom(p, |a| some_atom(q, |b| may_atom(m, a, b)))
}

// Whether each atom of q may still come from one of p.
fn all_come(m: &Partial, p: QueryWords, q: QueryWords) -> bool
    requires { Small p × Small q }
    ensures { result ≡ all (λ b. any (λ a. on_atoms (may_become m.now) a b) (query_of p).atoms) (query_of q).atoms }
{
    each_atom(q, |b| some_atom(p, |a| may_atom(m, a, b)))
}

// Whether the answer terms of p may still become those of q, in order.
fn answers_go(m: &Partial, p: QueryWords, q: QueryWords) -> bool
    requires { Small p × Small q }
    ensures { result ≡ pairwise (may_become m.now) (query_of p).answers (query_of q).answers }
{
    if p.terms != q.terms {
        return false;
    }
    for i in 0..p.terms {
        if !may_be(m, p.answers[i], q.answers[i]) {
            return false;
        }
    }
    true
}

// Whether no answer term and no atom speaks against the partial renaming.
pub fn promising(m: &Partial, p: QueryWords, q: QueryWords) -> bool
    requires { Small p × Small q }
    ensures { result ≡ promising_in (may_become m.now) (query_of p) (query_of q) }
{
    answers_go(m, p, q) && all_go(m, p, q) && all_come(m, p, q)
}
