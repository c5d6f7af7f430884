// The search for a renaming: source variables rising, targets rising, so that the first one found is the smallest.
ghost use Rattle.std.specs.Prelude.{◌≡◌, true, false, not, ◌&&◌, ◌+◌, ◌≤◌, ◌<◌, replicate};
ghost use Rattle.theory.specs.Renaming.{promising as promising_in};
ghost use Rattle.theory.specs.Targets.{places, no_target, HandedBack};
ghost use Rattle.words.specs.Words.{query_of, Small};
ghost use Rattle.query_sets.specs.Sets.{holds};
ghost use Rattle.query_partial.specs.Partial.{entry, may_become};
ghost use Rattle.query_renaming.specs.Comparison.{Begun, Offers, Allows, Judges, Completes};

use crate::compared::{Compared, prepared};
use query_partial::{Partial, assign, nothing, promising};
use query_profile::{beside, beside_alike, spread_alike};
use query_sets::has;
use words::QueryWords;

// Whether w is a variable of the second query that is not taken.
fn free(s: &Compared, m: &Partial, w: u32) -> bool
    requires { w < 32 }
    ensures { result ≡ (holds s.now.targets w && not (holds m.now.taken w)) }
{
    has(s.targets, w) && !has(m.taken, w)
}

// Whether v, not assigned yet, may go to w as far as w alone tells: w is free, and as many variables stand beside it.
fn offers(s: &Compared, v: u32, w: u32, m: &Partial) -> bool
    requires { (v < 32) × (w < 32) × (holds s.now.sources v ≡ true) × (entry m.now v ≡ 32) }
    ensures { Offers s.now m.now v w result }
{
    free(s, m, w) && beside_alike(s.p, s.q, v, w)
}

// Whether the variable v, not assigned yet, has a target left against which nothing speaks.
fn has_target(s: &Compared, v: u32, m: &Partial) -> bool
    requires { (v < 32) × (holds s.now.sources v ≡ true) × (entry m.now v ≡ 32) }
    ensures { Allows s.now m.now result }
{
    for x in 0..32 {
        if offers(s, v, x, m) && promising(&assign(*m, v, x), s.p, s.q) {
            return true;
        }
    }
    false
}

// Whether the variable v, if it is to be looked at, has a target left.
fn still_open(s: &Compared, look: u32, v: u32, m: &Partial) -> bool
    requires { (v < 32) × (entry m.now v ≡ 32) }
    ensures { Allows s.now m.now result }
{
    !has(look, v) || !has(s.sources, v) || has_target(s, v, m)
}

// Whether each variable from n on that is to be looked at has a target left.
fn hopeful(s: &Compared, look: u32, n: u32, m: &Partial) -> bool
    requires { (n ≤ 32) × Begun (query_of s.now.p) n m.now }
    ensures { Allows s.now m.now result }
{
    for v in n..32 {
        if !still_open(s, look, v, m) {
            return false;
        }
    }
    true
}

// Whether nothing speaks against the partial renaming, v being assigned last, nor leaves a variable beside v without a target.
fn viable(s: &Compared, v: u32, m: &Partial) -> bool
    requires { (v < 32) × Begun (query_of s.now.p) (v + 1) m.now }
    ensures { Judges s.now m.now result }
{
    promising(m, s.p, s.q) && hopeful(s, beside(s.p, v), v + 1, m)
}

// 02, T-05, "the renaming itself, variable by variable": whether there is one, and where each variable of the first query goes; 32 at
// every place without a target.
#[derive(Clone, Copy)]
pub struct Renaming {
    pub found: bool,
    pub targets: [u8; 32],
}

// There is no renaming.
pub fn no_renaming() -> Renaming
    ensures { (result.found ≡ false) × (result.targets ≡ replicate places no_target) }
{
    let targets = [32u8; 32];
    Renaming {
        found: false,
        targets,
    }
}

// The targets of the partial renaming, in which every variable is assigned.
fn all_of(m: &Partial) -> Renaming
    ensures { (result.found ≡ true) × (result.targets ≡ m.now.to) }
{
    Renaming {
        found: true,
        targets: m.to,
    }
}

// The smallest renaming that goes on from the partial one, in which the variables below v are assigned: targets are tried rising.
fn complete(s: &Compared, v: u32, m: &Partial) -> Renaming
    requires { (v ≤ 32) × Begun (query_of s.now.p) v m.now
        × (promising_in (may_become m.now) (query_of s.now.p) (query_of s.now.q) ≡ true) }
    ensures { Completes s.now m.now result.found result.targets }
{
    if v == 32 {
        return all_of(m);
    }
    if !has(s.sources, v) {
        return complete(s, v + 1, m);
    }
    for w in 0..32 {
        if !offers(s, v, w, m) {
            continue;
        }
        let next = assign(*m, v, w);
        if !viable(s, v, &next) {
            continue;
        }
        let r = complete(s, v + 1, &next);
        if r.found {
            return r;
        }
    }
    no_renaming()
}

// The smallest renaming, nothing being assigned yet.
fn first_of(s: &Compared, m: &Partial) -> Renaming
    requires { Begun (query_of s.now.p) 0 m.now
        × (promising_in (may_become m.now) (query_of s.now.p) (query_of s.now.q) ≡ true) }
    ensures { Completes s.now m.now result.found result.targets }
{
    if !spread_alike(s.p, s.q) {
        return no_renaming();
    }
    if !hopeful(s, u32::MAX, 0, m) {
        return no_renaming();
    }
    complete(s, 0, m)
}

// The smallest one-to-one renaming of variables that carries p to q, or that there is none.
pub fn rename(p: QueryWords, q: QueryWords) -> Renaming
    requires { Small p × Small q }
    ensures { HandedBack (query_of p) (query_of q) result.found result.targets }
{
    let m = nothing();
    if promising(&m, p, q) {
        first_of(&prepared(p, q), &m)
    } else {
        no_renaming()
    }
}
