// Replacements of variables by terms, and the most general one that makes two atoms equal.
#![tactic(auto)]

ghost use Rattle.std.specs.Prelude.{◌≡◌, ◌<◌, IfSome};
ghost use Rattle.theory.specs.Syntax.{var, map_atom, subst_term};
ghost use Rattle.theory.specs.Rewriting.{replace, after, join, bind, unify as unifier};
ghost use Rattle.words.specs.Words.{word_term, word_atom, LowAtom};
ghost use Rattle.query_substitution.specs.Substitutions.{SmallTerm, SmallTargets, subst_of, unifier_of};

use words::{concept_word, first_term, kind_of, number_of, role_word, second_term};

// Where each variable goes: the word of a term at its place.
#[derive(Clone, Copy)]
pub struct Substitution {
    pub to: [u64; 32],
}

// The term w with the variable v replaced by t.
fn replaced(w: u64, v: u64, t: u64) -> u64
    requires { SmallTerm w × (v < 32) × SmallTerm t }
    ensures { (word_term result ≡ subst_term (replace v (word_term t)) (word_term w)) × SmallTerm result }
{
    if w == v { t } else { w }
}

impl Substitution {
    // The replacement that changes nothing.
    pub fn identity() -> Self
        ensures { (subst_of result ≡ var) × SmallTargets result }
    {
        let mut to = [0u64; 32];
        for i in 0..32 {
            to[i] = i as u64;
        }
        Self { to }
    }

    // The term that t goes to: a word below 32 is a variable, any other an object.
    pub fn apply(self, t: u64) -> u64
        requires { SmallTargets self × SmallTerm t }
        ensures { (word_term result ≡ subst_term (subst_of self) (word_term t)) × SmallTerm result }
    {
        if t < 32 { self.to[t as usize] } else { t }
    }

    // This replacement, and then v replaced by t.
    fn after(mut self, v: u64, t: u64) -> Self
        requires { SmallTargets self × (v < 32) × SmallTerm t }
        ensures { (subst_of result ≡ after (subst_of self) v (word_term t)) × SmallTargets result }
    {
        for i in 0..32 {
            self.to[i] = replaced(self.to[i], v, t);
        }
        self
    }

    // This replacement, and then two terms made equal, if they can be: an object is kept before a variable, and the lower of two
    // variables.
    fn join(self, s: u64, t: u64) -> Option<Self>
        requires { SmallTargets self × SmallTerm s × SmallTerm t }
        ensures joins { unifier_of result ≡ join (subst_of self) (word_term s) (word_term t) }
        ensures small { IfSome result SmallTargets }
    {
        if s < 32 {
            if t < s {
                return Some(self.after(s, t));
            }
            if t < 32 {
                return Some(self.after(t, s));
            }
            return Some(self.after(s, t));
        }
        if t < 32 {
            return Some(self.after(t, s));
        }
        (s == t).then_some(self)
    }

    // This replacement made to send s and t to one term too, if it can be.
    pub fn bind(self, s: u64, t: u64) -> Option<Self>
        requires { SmallTargets self × SmallTerm s × SmallTerm t }
        ensures binds { unifier_of result ≡ bind (subst_of self) (word_term s) (word_term t) }
        ensures small { IfSome result SmallTargets }
    {
        self.join(self.apply(s), self.apply(t))
    }

    // The atom that a goes to; a concept atom has one place.
    pub fn apply_atom(self, a: u64) -> u64
        requires { SmallTargets self × LowAtom a }
        ensures { (word_atom result ≡ map_atom (subst_term (subst_of self)) (word_atom a)) × LowAtom result }
    {
        let kind = kind_of(a);
        let number = number_of(a);
        let first = self.apply(first_term(a));
        if kind == 0 {
            concept_word(number, first)
        } else {
            let second = self.apply(second_term(a));
            role_word(number, first, second)
        }
    }
}

// The most general replacement that makes two atoms equal, if there is one: they are of one kind and one number.
pub fn unify(a: u64, b: u64) -> Option<Substitution>
    requires { LowAtom a × LowAtom b }
    ensures unifies { unifier_of result ≡ unifier (word_atom a) (word_atom b) }
    ensures small { IfSome result SmallTargets }
{
    if kind_of(a) != kind_of(b) {
        return None;
    }
    if number_of(a) != number_of(b) {
        return None;
    }
    let s = Substitution::identity().bind(first_term(a), first_term(b))?;
    if kind_of(a) == 0 {
        return Some(s);
    }
    s.bind(second_term(a), second_term(b))
}
