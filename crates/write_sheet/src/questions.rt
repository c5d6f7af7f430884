// A question on a sheet: its counts, its answer terms, its atoms.
ghost use Rattle.std.specs.Prelude.{◌≡◌, map, ◌+◌, ◌*◌, ◌≤◌, length, take};
ghost use Rattle.words.specs.Limits.{sheet_width, most_terms, most_atoms, answer_bytes, record_bytes, most_question_bytes};
ghost use Rattle.words.specs.Words.{TermWords, query_of, Small, word_term, word_atom};
ghost use Rattle.sheets.specs.Packing.{pack_query};
ghost use Rattle.write_sheet.specs.PutAt.{put_at, answers_bytes, atoms_bytes};

use crate::numbers::{put_answer, put_atom, put_number};
use words::QueryWords;
use words::limits::{ANSWER_BYTES, ATOM_BYTES, MOST_ATOMS, MOST_TERMS};

// How many bytes a question has.
pub fn packed_length(q: QueryWords) -> usize
    requires { Small q }
    ensures { (result ≡ length (pack_query sheet_width (query_of q))) × (result ≤ most_question_bytes sheet_width) }
{
    1 + ANSWER_BYTES * q.terms + ATOM_BYTES * q.size
}

// Puts the first n answer terms at `at`.
fn put_answers(sheet: &mut [u8], at: usize, answers: [u64; MOST_TERMS], n: usize)
    requires { (n ≤ most_terms) × TermWords answers × (at + answer_bytes sheet_width * n ≤ length sheet.old) }
    ensures { sheet.new ≡ put_at sheet.old at (answers_bytes sheet_width (map word_term (take n answers))) }
{
    for i in 0..n {
        put_answer(sheet, at + ANSWER_BYTES * i, answers[i]);
    }
}

// Puts the first n atoms at `at`. Beside the loop over answer terms, since a closure for what is put would need a `requires` for term
// words that atoms do not have.
fn put_atoms(sheet: &mut [u8], at: usize, atoms: [u64; MOST_ATOMS], n: usize)
    requires { (n ≤ most_atoms) × (at + record_bytes sheet_width * n ≤ length sheet.old) }
    ensures { sheet.new ≡ put_at sheet.old at (atoms_bytes sheet_width (map word_atom (take n atoms))) }
{
    for i in 0..n {
        put_atom(sheet, at + ATOM_BYTES * i, atoms[i]);
    }
}

// Puts a question at `at`: the two counts in one byte, then the answer terms, then the atoms.
pub fn put_question(sheet: &mut [u8], at: usize, q: QueryWords)
    requires { Small q × (at + length (pack_query sheet_width (query_of q)) ≤ length sheet.old) }
    ensures { sheet.new ≡ put_at sheet.old at (pack_query sheet_width (query_of q)) }
{
    let answers = q.answers;
    let atoms = q.atoms;
    let counts = q.terms * 16 + q.size;
    put_number(sheet, at, 1, counts as u64);
    put_answers(sheet, at + 1, answers, q.terms);
    put_atoms(sheet, at + 1 + ANSWER_BYTES * q.terms, atoms, q.size);
}
