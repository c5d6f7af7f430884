// The key of a query: alike queries share it. Its variables are coloured by two rounds of colour refinement.
#![tactic(auto)]

ghost use Rattle.std.specs.Prelude.{◌≡◌, ◌+◌, ◌*◌, ◌≤◌, ◌<◌};
ghost use Rattle.theory.specs.Lists.{pick};
ghost use Rattle.theory.specs.Syntax.{same_term};
ghost use Rattle.theory.specs.Laws.Counting.{total};
ghost use Rattle.words.specs.Words.{query_of, Small, word_term, word_atom, LowTerm, LowAtom};
ghost use Rattle.words.specs.Limits.{word_term_bound};
ghost use Rattle.query_key.specs.Key.{scramble, top, mix, along, mix_answer, mix_atom, given, given_by, colour_by, next};
ghost use Rattle.query_key.specs.Key.{colours as colours_after, key};
ghost use Rattle.query_key.specs.Colours.{colour_in, ColoursOf, Plus, Upto};

use words::{QueryWords, first_term, kind_of, number_of, same_term, second_term};

// The number scrambled.
fn scrambled(m: u64) -> u64
    ensures { (result ≡ scramble m) × (result < top) }
{
    m % 536870909 * (m % 536870879)
}

// A code and two numbers as one number.
fn mixed(code: u64, x: u64, y: u64) -> u64
    requires { code < 65536 }
    ensures { (result ≡ mix code x y) × (result < top) }
{
    scrambled(code * 47615012787481 + x % 2147483647 * 1678998313 + y % 2147483647 * 1560889471)
}

// The colour of a term: the word of an object, and the listed colour of a variable.
fn colour_of(colours: &[u64; 32], t: u64) -> u64
    requires { (t < word_term_bound) × LowTerm t }
    ensures { result ≡ colour_by (colour_in colours.now) (word_term t) }
{
    if t < 32 { colours[t as usize] } else { t }
}

// 4 where both places of a role atom hold one term, else 3.
fn role_code(t: u64, u: u64) -> u64
    requires { (t < word_term_bound) × (u < word_term_bound) }
    ensures { (result ≡ pick (same_term (word_term t) (word_term u)) 4 3) × (result ≤ 4) }
{
    3 + u64::from(same_term(t, u))
}

// The number of an atom.
fn mixed_atom(colours: &[u64; 32], a: u64) -> u64
    requires { LowAtom a }
    ensures { (result ≡ mix_atom (colour_by (colour_in colours.now)) (word_atom a)) × (result < top) }
{
    let t = first_term(a);
    let x = colour_of(colours, t);
    if kind_of(a) == 0 {
        mixed(4 * number_of(a) + 2, x, 0)
    } else {
        let u = second_term(a);
        let y = colour_of(colours, u);
        mixed(4 * number_of(a) + role_code(t, u), x, y)
    }
}

// Puts w more into the list for the term, if it is a variable.
fn give(all: &mut [u64; 32], t: u64, w: u64)
    requires { (t < word_term_bound) × LowTerm t × (w < top) × Upto 32 all.old }
    ensures { Plus (given (word_term t) w) all.old all.new }
{
    if t < 32 {
        all[t as usize] += w;
    }
}

// Puts into the list what the atom gives to each variable, by the colours before.
fn give_atom(all: &mut [u64; 32], colours: &[u64; 32], a: u64)
    requires { LowAtom a × Upto 16 all.old }
    ensures { Plus (given_by (colour_by (colour_in colours.now)) (word_atom a)) all.old all.new }
{
    let w = mixed_atom(colours, a);
    give(all, first_term(a), w);
    if kind_of(a) != 0 {
        give(all, second_term(a), scrambled(w));
    }
}

// The first colours: what the answer positions give.
fn first_colours(q: QueryWords) -> [u64; 32]
    requires { Small q }
    ensures { ColoursOf (colours_after 0 (query_of q)) result }
{
    let mut all = [0u64; 32];
    for i in 0..q.terms {
        give(&mut all, q.answers[i], mixed(4 * (i as u64) + 1, 0, 0));
    }
    all
}

// One round of colour refinement: what all atoms give.
fn next_colours(q: QueryWords, colours: &[u64; 32]) -> [u64; 32]
    requires { Small q }
    ensures { ColoursOf (next (query_of q) (colour_in colours.now)) result }
{
    let mut all = [0u64; 32];
    for i in 0..q.size {
        give_atom(&mut all, colours, q.atoms[i]);
    }
    all
}

// The sum of the answer terms' numbers.
fn answers_sum(q: QueryWords, colours: &[u64; 32]) -> u64
    requires { Small q }
    ensures { (result ≡ along (mix_answer (colour_by (colour_in colours.now))) 0 (query_of q).answers) × (result ≤ 4 * top) }
{
    let mut sum = 0;
    for i in 0..q.terms {
        sum += mixed(4 * (i as u64) + 1, colour_of(colours, q.answers[i]), 0);
    }
    sum
}

// The sum of the atoms' numbers.
fn atoms_sum(q: QueryWords, colours: &[u64; 32]) -> u64
    requires { Small q }
    ensures { (result ≡ total (mix_atom (colour_by (colour_in colours.now))) (query_of q).atoms) × (result ≤ 8 * top) }
{
    let mut sum = 0;
    for i in 0..q.size {
        sum += mixed_atom(colours, q.atoms[i]);
    }
    sum
}

// The shapes of the query's variables: their colours after two rounds.
pub fn shapes_of(q: QueryWords) -> [u64; 32]
    requires { Small q }
    ensures { ColoursOf (colours_after 2 (query_of q)) result }
{
    let first = first_colours(q);
    let second = next_colours(q, &first);
    next_colours(q, &second)
}

// The key of the query.
pub fn key_of(q: QueryWords) -> u64
    requires { Small q }
    ensures { result ≡ key (query_of q) }
{
    let shapes = shapes_of(q);
    answers_sum(q, &shapes) + atoms_sum(q, &shapes)
}
