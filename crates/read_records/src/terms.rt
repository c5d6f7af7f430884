// Terms and atoms of a sheet: which are sound, and their words as read.
ghost use Rattle.std.specs.Prelude.{◌≡◌, ◌<◌, eqb};
ghost use Rattle.theory.specs.Lists.{pick};
ghost use Rattle.theory.specs.Syntax.{role};
ghost use Rattle.words.specs.Records.{term_of, atom_kind, atom_second, atom_of};
ghost use Rattle.words.specs.Limits.{sheet_width, name_bound, sheet_term_bound, word_term_bound};
ghost use Rattle.words.specs.Words.{word_term, word_atom};
ghost use Rattle.sheets.specs.Partners.{atom_as_read};
ghost use Rattle.sheets.specs.Tests.{term_sound, answer_sound, atom_sound};

use crate::partners::{is_higher, lower};
use read_fields::fields::{
    atom_first, atom_kind, atom_name, atom_second, atom_zero, term_kind, term_number,
};
use words::limits::{SHEET_TERM_BOUND, VARIABLE_BOUND};
use words::{concept_word, role_word};

// The word of a term record.
pub fn widen_term(t: u64) -> u64
    requires { t < sheet_term_bound }
    ensures { (word_term result ≡ term_of sheet_width t) × (result < word_term_bound) }
{
    term_kind(t) * 0x1000000 + term_number(t)
}

// The word of the role atom with this number and these terms, as read.
fn role_as_read(number: u64, t: u64, u: u64, partners: &[u16]) -> u64
    requires { (number < name_bound) × (t < word_term_bound) × (u < word_term_bound) }
    ensures { word_atom result ≡ atom_as_read partners.now (role number (word_term t) (word_term u)) }
{
    let low = lower(partners, number);
    if is_higher(partners, number) {
        role_word(low, u, t)
    } else {
        role_word(low, t, u)
    }
}

// The word of an atom record, as read.
pub fn atom_word(x: u64, partners: &[u16]) -> u64
    ensures { word_atom result ≡ atom_as_read partners.now (atom_of sheet_width x) }
{
    let number = atom_name(x);
    let t = widen_term(atom_first(x));
    if atom_kind(x) == 0 {
        concept_word(number, t)
    } else {
        role_as_read(number, t, widen_term(atom_second(x)), partners)
    }
}

// Whether a term record is an object or a variable up to 31.
fn term_sound(t: u64) -> bool
    ensures { result ≡ term_sound sheet_width t }
{
    term_kind(t) != 0 || term_number(t) < VARIABLE_BOUND
}

// Whether an answer record has its zero bits and a sound term.
pub fn answer_sound(x: u64) -> bool
    ensures { result ≡ answer_sound sheet_width x }
{
    x < SHEET_TERM_BOUND && term_sound(x)
}

// Whether an atom record's second place is zero for a concept, a sound term for a role.
fn second_sound(x: u64) -> bool
    ensures { result ≡ pick (eqb (atom_kind sheet_width x) 0)
        (eqb (atom_second sheet_width x) 0) (term_sound sheet_width (atom_second sheet_width x)) }
{
    let t = atom_second(x);
    if atom_kind(x) == 0 {
        t == 0
    } else {
        term_sound(t)
    }
}

// Whether an atom record has its zero bits and sound terms.
pub fn atom_sound(x: u64) -> bool
    ensures { result ≡ atom_sound sheet_width x }
{
    atom_zero(x) == 0 && term_sound(atom_first(x)) && second_sound(x)
}
