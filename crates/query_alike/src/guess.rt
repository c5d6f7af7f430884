// A renaming guessed along the atoms and tested once: nothing is promised where the answer is no.
ghost use Rattle.std.specs.Prelude.{◌≡◌, true, ◌&&◌, ◌<◌, eqb};
ghost use Rattle.theory.specs.Renaming.{Alike};
ghost use Rattle.words.specs.Words.{query_of, Small, LowAtom};
ghost use Rattle.query_sets.specs.Sets.{holds};
ghost use Rattle.query_partial.specs.Partial.{entry, Apart};
ghost use Rattle.query_alike.specs.Guess.{AllSent};

use query_partial::{Partial, assign, may_atom, nothing, promising};
use query_sets::has;
use query_variables::used::used;
use words::{QueryWords, first_term, kind_of, second_term};

// The shapes of the variables of the two queries.
#[derive(Clone, Copy)]
pub struct Shapes {
    pub from: [u64; 32],
    pub to: [u64; 32],
}

// v sent to w, if w is not taken and v has no target yet.
fn sent_variable(m: Partial, v: u32, w: u32) -> Partial
    requires { Apart m × (v < 32) × (w < 32) }
    ensures { Apart result }
{
    if m.to[v as usize] == 32 && !has(m.taken, w) {
        assign(m, v, w)
    } else {
        m
    }
}

// The term s sent to t, if both are variables.
fn sent(m: Partial, s: u64, t: u64) -> Partial
    requires { Apart m }
    ensures { Apart result }
{
    if s < 32 && t < 32 {
        sent_variable(m, s as u32, t as u32)
    } else {
        m
    }
}

// The terms of the atom a sent to those of b.
fn sent_terms(m: Partial, a: u64, b: u64) -> Partial
    requires { Apart m }
    ensures { Apart result }
{
    let first = sent(m, first_term(a), first_term(b));
    if kind_of(a) == 0 {
        first
    } else {
        sent(first, second_term(a), second_term(b))
    }
}

// Whether the terms have one shape, as far as both are variables.
fn same_shape(shapes: &Shapes, s: u64, t: u64) -> bool {
    s >= 32 || t >= 32 || shapes.from[s as usize] == shapes.to[t as usize]
}

// Whether the terms of the atoms, which are of one kind, have the same shapes.
fn same_shapes(shapes: &Shapes, a: u64, b: u64) -> bool {
    same_shape(shapes, first_term(a), first_term(b))
        && (kind_of(a) == 0 || same_shape(shapes, second_term(a), second_term(b)))
}

// Whether a may still become b, and their terms have the same shapes.
fn fits(m: &Partial, a: u64, b: u64, shapes: &Shapes) -> bool
    requires { LowAtom a × LowAtom b }
{
    may_atom(m, a, b) && same_shapes(shapes, a, b)
}

// The terms of a sent to those of the first atom of q that it fits.
fn guess_atom(m: Partial, a: u64, q: QueryWords, shapes: &Shapes) -> Partial
    requires { Apart m × LowAtom a × Small q }
    ensures { Apart result }
{
    for i in 0..q.size {
        if fits(&m, a, q.atoms[i], shapes) {
            return sent_terms(m, a, q.atoms[i]);
        }
    }
    m
}

// Each atom of p in order, its terms sent to those of the first atom of q that it fits.
fn guess(p: QueryWords, q: QueryWords, shapes: &Shapes) -> Partial
    requires { Small p × Small q }
    ensures { Apart result }
{
    let mut m = nothing();
    for i in 0..p.size {
        m = guess_atom(m, p.atoms[i], q, shapes);
    }
    m
}

// Whether v is in the set and has no target.
fn unsent(set: u32, v: u32, m: &Partial) -> bool
    requires { v < 32 }
    ensures { result ≡ (holds set v && eqb (entry m.now v) 32) }
{
    has(set, v) && m.to[v as usize] == 32
}

// Whether every variable of p has a target.
fn all_sent(p: QueryWords, m: &Partial) -> bool
    requires { Small p }
    ensures { result ≡ true → AllSent (query_of p) m.now }
{
    let set = used(p);
    for v in 0..32 {
        if unsent(set, v, m) {
            return false;
        }
    }
    true
}

// Whether the partial renaming is a whole one that carries p to q.
fn tested(p: QueryWords, q: QueryWords, m: &Partial) -> bool
    requires { Small p × Small q × Apart m.now }
    ensures { result ≡ true → Alike (query_of p) (query_of q) }
{
    all_sent(p, m) && promising(m, p, q)
}

// Whether the guess by these shapes is a renaming that carries p to q.
pub fn guessed(p: QueryWords, q: QueryWords, shapes: &Shapes) -> bool
    requires { Small p × Small q }
    ensures { result ≡ true → Alike (query_of p) (query_of q) }
{
    tested(p, q, &guess(p, q, shapes))
}
