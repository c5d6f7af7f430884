// Members in a table, a row of 16 words each.
ghost use Rattle.std.specs.Prelude.{◌≡◌, ◌+◌, ◌*◌, ◌≤◌, length, take, drop};
ghost use Rattle.std.proofs.Math.Seq.{paste};
ghost use Rattle.words.specs.Limits.{most_terms, most_atoms};
ghost use Rattle.words.specs.Records.{step_of};
ghost use Rattle.words.specs.Words.{query_of, Small, TermWords, stride};
ghost use Rattle.words.specs.Rows.{Row, row_at, member_in, RowOf};

use crate::QueryWords;
use crate::limits::{MEMBER_WORDS, MOST_ATOMS, MOST_TERMS};

// So many words of the table.
fn words_from<const N: usize>(table: &[u64], at: usize) -> [u64; N]
    requires { at + N ≤ length table.now }
    ensures { result ≡ take N (drop at table.now) }
{
    let mut words = [0; N];
    words.copy_from_slice(&table[at..at + N]);
    words
}

// The question of member j.
pub fn load(table: &[u64], j: usize) -> QueryWords
    requires { (stride * j + stride ≤ length table.now) × Row (row_at table.now j) }
    ensures { (query_of result ≡ (member_in table.now j).query) × Small result }
{
    let at = MEMBER_WORDS * j;
    let answers = words_from::<MOST_TERMS>(table, at + 2);
    let atoms = words_from::<MOST_ATOMS>(table, at + 8);
    QueryWords {
        terms: table[at + 1] as usize,
        answers,
        size: table[at + 6] as usize,
        atoms,
    }
}

// The row of a member, from its step and its question.
pub fn member_words(step: u64, q: QueryWords) -> [u64; MEMBER_WORDS]
    requires { (q.terms ≤ most_terms) × (q.size ≤ most_atoms) × TermWords q.answers }
    ensures { RowOf (record { step = step_of step; query = query_of q }) result }
{
    let a = q.answers;
    let b = q.atoms;
    let terms = q.terms as u64;
    let size = q.size as u64;
    [
        step, terms, a[0], a[1], a[2], a[3], size, 0, b[0], b[1], b[2], b[3], b[4], b[5], b[6],
        b[7],
    ]
}

// Puts a row into the table, from word `at` on.
pub fn put_row(table: &mut [u64], at: usize, row: [u64; MEMBER_WORDS])
    requires { at + stride ≤ length table.old }
    ensures { table.new ≡ paste table.old at row stride }
{
    table[at..at + MEMBER_WORDS].copy_from_slice(&row);
}
