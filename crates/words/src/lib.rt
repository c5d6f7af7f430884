// Words: a query in a struct, and terms and atoms as numbers.
#![tactic(auto)]

pub mod facts;
pub mod limits;
pub mod lost_tags;
pub mod refusals;
pub mod rows;
pub mod rules;
pub mod steps;

ghost use Rattle.std.specs.Prelude.{◌≡◌, true, ◌&&◌, ◌/◌, ◌%◌, ◌<◌, eqb};
ghost use Rattle.theory.specs.Lists.{pick, any};
ghost use Rattle.theory.specs.Syntax.{concept, role, args, same_term, same_atom};
ghost use Rattle.words.specs.Limits.{name_bound, word_object_bound, word_term_bound};
ghost use Rattle.words.specs.Words.{word_term, word_atom, word_kind, word_name, word_first, word_second};

use limits::{MOST_ATOMS, MOST_TERMS};

// A query: its answer terms, of 25 bits each, and its atoms, of 64.
#[derive(Clone, Copy)]
pub struct QueryWords {
    pub terms: usize,
    pub answers: [u64; MOST_TERMS],
    pub size: usize,
    pub atoms: [u64; MOST_ATOMS],
}

// The word of a concept atom: nothing stands in its second place.
pub fn concept_word(number: u64, t: u64) -> u64
    requires { (number < name_bound) × (t < word_term_bound) }
    ensures { word_atom result ≡ concept number (word_term t) }
{
    number * 0x4000000000000 + t * 0x2000000
}

// The word of a role atom.
pub fn role_word(number: u64, t: u64, u: u64) -> u64
    requires { (number < name_bound) × (t < word_term_bound) × (u < word_term_bound) }
    ensures { word_atom result ≡ role number (word_term t) (word_term u) }
{
    0x8000000000000000 + number * 0x4000000000000 + t * 0x2000000 + u
}

// Whether two words are one term.
pub fn same_term(a: u64, b: u64) -> bool
    requires { (a < word_term_bound) × (b < word_term_bound) }
    ensures { result ≡ same_term (word_term a) (word_term b) }
{
    a == b
}

// Whether a term's word is that of a variable, and the number of its variable or object.
pub fn is_variable(t: u64) -> bool
    ensures { result ≡ eqb (t / word_object_bound) 0 }
{
    t / 0x1000000 == 0
}

pub fn number_in(t: u64) -> u64
    ensures { (result ≡ t % word_object_bound) × (result < word_object_bound) }
{
    t % 0x1000000
}

// 0 for a concept atom, 1 for a role atom: a number, as it stands in 01's atom record.
pub fn kind_of(a: u64) -> u64
    ensures { (result ≡ word_kind a) × (result < 2) }
{
    a / 0x8000000000000000 % 2
}

// The number of an atom's concept or role.
pub fn number_of(a: u64) -> u64
    ensures { (result ≡ word_name a) × (result < name_bound) }
{
    a / 0x4000000000000 % 0x1000
}

// An atom's first term.
pub fn first_term(a: u64) -> u64
    ensures { (result ≡ word_first a) × (result < word_term_bound) }
{
    a / 0x2000000 % 0x2000000
}

// A role atom's second term.
pub fn second_term(a: u64) -> u64
    ensures { (result ≡ word_second a) × (result < word_term_bound) }
{
    a % 0x2000000
}

// Whether two atoms of one kind have the same terms.
fn same_terms(kind: u64, a: u64, b: u64) -> bool
    ensures { result ≡ (eqb (word_first a) (word_first b) && pick (eqb kind 0) true (eqb (word_second a) (word_second b))) }
{
    first_term(a) == first_term(b) && (kind == 0 || second_term(a) == second_term(b))
}

// Whether two words are one atom.
pub fn same_atom(a: u64, b: u64) -> bool
    ensures { result ≡ same_atom (word_atom a) (word_atom b) }
{
    let kind = kind_of(a);
    kind == kind_of(b) && number_of(a) == number_of(b) && same_terms(kind, a, b)
}

// Whether the term stands in the atom.
pub fn stands(a: u64, t: u64) -> bool
    requires { t < word_term_bound }
    ensures { result ≡ any (same_term (word_term t)) (args (word_atom a)) }
{
    same_term(t, first_term(a)) || kind_of(a) != 0 && same_term(t, second_term(a))
}
