// A union read into a table of 16 words a member.
#![tactic(auto)]

ghost use Rattle.std.specs.Prelude.{◌≡◌, map, ◌≤◌, length};
ghost use Rattle.theory.specs.Lists.{numbers};
ghost use Rattle.words.specs.Limits.{sheet_width, most_members, most_union_bytes};
ghost use Rattle.words.specs.Refusals.{number_in, count_in};
ghost use Rattle.words.specs.Words.{union_in, table_words};
ghost use Rattle.words.specs.Rows.{NarrowRows};
ghost use Rattle.sheets.specs.Format.{member_at};
ghost use Rattle.sheets.specs.Partners.{member_as_read};
ghost use Rattle.read_union.specs.UnionRows.{Readable, UnionRead};

use read_fields::bytes::four;
use read_question::read_query;
use read_walk::{member_count, member_end, union_sound};
use words::limits::{COUNT_BYTES, MEMBER_WORDS, STEP_BYTES};
use words::refusals::Refusal;
use words::rows::{member_words, put_row};

// Reads the first `count` members of the sheet into the table's first rows.
fn fill_union(s: &[u8], partners: &[u16], table: &mut [u64], count: usize)
    requires { (length s.now ≤ most_union_bytes sheet_width) × (count ≤ most_members) × (table_words ≤ length table.old)
        × Readable s.now count }
    ensures { (length table.new ≡ length table.old)
        × (union_in table.new count
        ≡ map (member_as_read partners.now) (map (member_at sheet_width s.now) (numbers 0 count)))
        × NarrowRows table.new count }
{
    let mut at: usize = COUNT_BYTES;
    for row in 0..count {
        let step = four(s, at);
        let q = read_query(s, at + STEP_BYTES, partners);
        put_row(table, MEMBER_WORDS * row, member_words(step, q));
        at = member_end(s, at);
    }
}

// Reads the union sheet into the table, 16 words a member, and gives their number, unless it meets 6 for a question with so many answer
// terms.
pub fn read_union(
    s: &[u8],
    partners: &[u16],
    arity: usize,
    table: &mut [u64],
) -> Result<usize, Refusal>
    requires { table_words ≤ length table.old }
    ensures kept { length table.new ≡ length table.old }
    ensures union { UnionRead partners.now s.now arity table.new (number_in result) (count_in result) }
{
    if !union_sound(s, partners, arity) {
        return Err(Refusal::UnionMalformed);
    }
    let count = member_count(s);
    fill_union(s, partners, table, count);
    Ok(count)
}
