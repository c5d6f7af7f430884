// A question read into a struct, with its refusals.
#![tactic(auto)]

ghost use Rattle.std.specs.Prelude.{◌≡◌, true, ◌&&◌, map, ◌+◌, ◌*◌, ◌≤◌, ◌<◌, length, take};
ghost use Rattle.theory.specs.Lists.{any, all};
ghost use Rattle.theory.specs.Syntax.{places, same_term, same_atom};
ghost use Rattle.words.specs.Limits.{sheet_width, word_term_bound, most_terms, most_atoms, answer_bytes, record_bytes};
ghost use Rattle.words.specs.Records.{term_of, atom_of};
ghost use Rattle.words.specs.Refusals.{number_in};
ghost use Rattle.words.specs.Words.{query_of, TermWords, word_term, word_atom};
ghost use Rattle.sheets.specs.Format.{term_count, atom_count, question_length};
ghost use Rattle.sheets.specs.Partners.{atom_as_read};
ghost use Rattle.sheets.specs.Tests.{answer_sound, atom_sound, question_sound, covered as covered_by, refuses4, refuses5};
ghost use Rattle.read_question.specs.QuestionWords.{ReadFrom, Judged, QuestionRead, query_in, answers_from, atoms_from, longest_counted};

use read_fields::bytes::{six, three};
use read_records::terms::{answer_sound, atom_sound, atom_word, widen_term};
use words::limits::{ANSWER_BYTES, ATOM_BYTES, MOST_ATOMS, MOST_TERMS};
use words::refusals::Refusal;
use words::{QueryWords, is_variable, same_atom, stands};

// How many answer terms the question at byte `at` has, and how many atoms, in or out of range.
pub fn term_count(s: &[u8], at: usize) -> usize
    requires { at < length s.now }
    ensures { (result ≡ term_count s.now at) × (result < 16) }
{
    usize::from(s[at]) / 16
}

fn atom_count(s: &[u8], at: usize) -> usize
    requires { at < length s.now }
    ensures { (result ≡ atom_count s.now at) × (result < 16) }
{
    usize::from(s[at]) % 16
}

// How many bytes the counts of the question at byte `at` give it.
pub fn question_length(s: &[u8], at: usize) -> usize
    requires { at < length s.now }
    ensures { (result ≡ question_length sheet_width s.now at) × (result ≤ longest_counted) }
{
    1 + ANSWER_BYTES * term_count(s, at) + ATOM_BYTES * atom_count(s, at)
}

// Whether the n answer records from byte `from` on are sound. The loop over atoms is another: size, reading and test all differ.
fn answers_sound(s: &[u8], from: usize, n: usize) -> bool
    requires { from + answer_bytes sheet_width * n ≤ length s.now }
    ensures { result ≡ all (answer_sound sheet_width) (answers_from s.now from n) }
{
    for i in 0..n {
        if !answer_sound(three(s, from + ANSWER_BYTES * i)) {
            return false;
        }
    }
    true
}

// Whether the n atom records from byte `from` on are sound.
fn atoms_sound(s: &[u8], from: usize, n: usize) -> bool
    requires { from + record_bytes sheet_width * n ≤ length s.now }
    ensures { result ≡ all (atom_sound sheet_width) (atoms_from s.now from n) }
{
    for i in 0..n {
        if !atom_sound(six(s, from + ATOM_BYTES * i)) {
            return false;
        }
    }
    true
}

// Whether the records of the question at byte `at` are sound, the counts being in range.
fn records_sound(s: &[u8], at: usize, terms: usize, size: usize) -> bool
    requires { (at + 1 + answer_bytes sheet_width * terms + record_bytes sheet_width * size ≤ length s.now)
        × (terms ≤ most_terms) × (size ≤ most_atoms) }
    ensures { result ≡ (all (answer_sound sheet_width) (answers_from s.now (at + 1) terms)
        && all (atom_sound sheet_width) (atoms_from s.now (at + 1 + answer_bytes sheet_width * terms) size)) }
{
    answers_sound(s, at + 1, terms) && atoms_sound(s, at + 1 + ANSWER_BYTES * terms, size)
}

// Whether the question at byte `at` has counts in range and sound records.
pub fn question_sound(s: &[u8], at: usize) -> bool
    requires { at + question_length sheet_width s.now at ≤ length s.now }
    ensures { result ≡ question_sound sheet_width s.now at }
{
    let terms = term_count(s, at);
    let size = atom_count(s, at);
    match (terms, size) {
        (0..=MOST_TERMS, 1..=MOST_ATOMS) => records_sound(s, at, terms, size),
        _ => false,
    }
}

// The words of the n answer terms from byte `from` on. The loop over atoms is another: size, reading and what is promised all differ.
fn read_answers(s: &[u8], from: usize, n: usize) -> [u64; MOST_TERMS]
    requires { (from + answer_bytes sheet_width * n ≤ length s.now) × (n ≤ most_terms)
        × (all (answer_sound sheet_width) (answers_from s.now from n) ≡ true) }
    ensures { (map word_term (take n result) ≡ map (term_of sheet_width) (answers_from s.now from n)) × TermWords result }
{
    let mut words = [0u64; MOST_TERMS];
    for i in 0..n {
        words[i] = widen_term(three(s, from + ANSWER_BYTES * i));
    }
    words
}

// The words of the n atoms from byte `from` on, as read.
fn read_atoms(s: &[u8], from: usize, n: usize, partners: &[u16]) -> [u64; MOST_ATOMS]
    requires { (from + record_bytes sheet_width * n ≤ length s.now) × (n ≤ most_atoms) }
    ensures { map word_atom (take n result)
        ≡ map (atom_as_read partners.now) (map (atom_of sheet_width) (atoms_from s.now from n)) }
{
    let mut words = [0u64; MOST_ATOMS];
    for i in 0..n {
        words[i] = atom_word(six(s, from + ATOM_BYTES * i), partners);
    }
    words
}

// The question at byte `at`, as read.
pub fn read_query(s: &[u8], at: usize, partners: &[u16]) -> QueryWords
    requires { (at + question_length sheet_width s.now at ≤ length s.now) × (question_sound sheet_width s.now at ≡ true) }
    ensures { ReadFrom partners.now s.now at result }
{
    let terms = term_count(s, at);
    let size = atom_count(s, at);
    let answers = read_answers(s, at + 1, terms);
    let atoms = read_atoms(s, at + 1 + ANSWER_BYTES * terms, size, partners);
    QueryWords {
        terms,
        answers,
        size,
        atoms,
    }
}

// Whether the term stands in one of the atoms.
fn stands_in(atoms: &[u64], t: u64) -> bool
    requires { t < word_term_bound }
    ensures { result ≡ any (same_term (word_term t)) (places (map word_atom atoms.now)) }
{
    for a in atoms {
        if stands(*a, t) {
            return true;
        }
    }
    false
}

// Whether the term is an object or stands in one of the atoms.
fn covered(atoms: &[u64], t: u64) -> bool
    requires { t < word_term_bound }
    ensures { result ≡ covered_by (map word_atom atoms.now) (word_term t) }
{
    !is_variable(t) || stands_in(atoms, t)
}

// Refusal 4 on a question in words.
pub fn missing_answer(q: QueryWords) -> bool
    requires { (q.terms ≤ most_terms) × (q.size ≤ most_atoms) × TermWords q.answers }
    ensures { result ≡ refuses4 (query_of q) }
{
    let atoms = &q.atoms[..q.size];
    for t in &q.answers[..q.terms] {
        if !covered(atoms, *t) {
            return true;
        }
    }
    false
}

// Whether the atom is one of these.
fn stands_among(atoms: &[u64], a: u64) -> bool
    ensures { result ≡ any (same_atom (word_atom a)) (map word_atom atoms.now) }
{
    atoms.iter().any(|b| same_atom(a, *b))
}

// Refusal 5 on a question in words.
pub fn repeated_atom(q: QueryWords) -> bool
    requires { q.size ≤ most_atoms }
    ensures { result ≡ refuses5 (query_of q) }
{
    let atoms = &q.atoms[..q.size];
    for (i, a) in atoms.iter().enumerate() {
        if stands_among(&atoms[i + 1..], *a) {
            return true;
        }
    }
    false
}

// Refusals 4 and 5, on a question that was read.
fn judged(query: QueryWords) -> Result<QueryWords, Refusal>
    requires { (query.terms ≤ most_terms) × (query.size ≤ most_atoms) × TermWords query.answers }
    ensures { Judged query (number_in result) (query_in result) }
{
    if missing_answer(query) {
        return Err(Refusal::AnswerVariableNowhere);
    }
    if repeated_atom(query) {
        return Err(Refusal::AtomTwice);
    }
    Ok(query)
}

// The question of a sheet as read, or the first of its refusals that applies.
pub fn read_question(s: &[u8], partners: &[u16]) -> Result<QueryWords, Refusal>
    ensures { QuestionRead partners.now s.now (number_in result) (query_in result) }
{
    if s.len() == 0 {
        return Err(Refusal::QuestionMalformed);
    }
    if s.len() != question_length(s, 0) {
        return Err(Refusal::QuestionMalformed);
    }
    if !question_sound(s, 0) {
        return Err(Refusal::QuestionMalformed);
    }
    judged(read_query(s, 0, partners))
}
