// Numbers on a sheet: that of a term, that of an atom, and a number's bytes.
ghost use Rattle.std.specs.Prelude.{◌≡◌, ◌+◌, ◌≤◌, ◌<◌, length};
ghost use Rattle.words.specs.Limits.{sheet_width, word_term_bound, answer_bytes, record_bytes};
ghost use Rattle.words.specs.Words.{word_term, word_atom};
ghost use Rattle.sheets.specs.Packing.{bytes_of, term_number, atom_number};
ghost use Rattle.write_sheet.specs.PutAt.{put_at, answer_record, atom_record};

use words::limits::{ANSWER_BYTES, ATOM_BYTES};
use words::{first_term, kind_of, number_in, number_of, second_term};

// The number of a term on a sheet, from its word: whether it is an object, and 16 bits.
fn narrow_term(t: u64) -> u64
    requires { t < word_term_bound }
    ensures { (result ≡ term_number sheet_width (word_term t)) × (result < word_term_bound) }
{
    t / 0x1000000 * 0x10000 + number_in(t)
}

// The number of an atom on a sheet, from its word. A concept has zeros in the second place, whatever the word has there.
fn narrow_atom(a: u64) -> u64
    ensures { result ≡ atom_number sheet_width (word_atom a) }
{
    let name = number_of(a);
    let first = narrow_term(first_term(a));
    if kind_of(a) == 0 {
        name * 0x400000000 + first * 0x20000
    } else {
        0x800000000000 + name * 0x400000000 + first * 0x20000 + narrow_term(second_term(a))
    }
}

// Puts so many bytes of a number at `at`, the most significant first.
pub fn put_number(sheet: &mut [u8], at: usize, size: usize, number: u64)
    requires { at + size ≤ length sheet.old }
    ensures { sheet.new ≡ put_at sheet.old at (bytes_of size number) }
{
    let mut rest = number;
    for k in (0..size).rev() {
        sheet[at + k] = (rest % 256) as u8;
        rest /= 256;
    }
}

// Puts the answer term of a word at `at`.
pub fn put_answer(sheet: &mut [u8], at: usize, t: u64)
    requires { (t < word_term_bound) × (at + answer_bytes sheet_width ≤ length sheet.old) }
    ensures { sheet.new ≡ put_at sheet.old at (answer_record t) }
{
    put_number(sheet, at, ANSWER_BYTES, narrow_term(t));
}

// Puts the atom of a word at `at`.
pub fn put_atom(sheet: &mut [u8], at: usize, a: u64)
    requires { at + record_bytes sheet_width ≤ length sheet.old }
    ensures { sheet.new ≡ put_at sheet.old at (atom_record a) }
{
    put_number(sheet, at, ATOM_BYTES, narrow_atom(a));
}
