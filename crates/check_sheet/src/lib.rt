// A union sheet: its members read into a table, and checked against rules and question.
#![tactic(auto)]

ghost use Rattle.std.specs.Prelude.{◌≡◌, ◌≤◌, length};
ghost use Rattle.words.specs.Refusals.{number_in, count_in};
ghost use Rattle.words.specs.Words.{rules_in, query_of, Small, table_words};
ghost use Rattle.check_sheet.specs.Members.{union_number, MembersRead};

use check_union::check_union;
use read_union::read_union;
use words::QueryWords;
use words::limits::{MOST_MEMBERS, TABLE_WORDS};
use words::refusals::Refusal;

// Refusals 6 to 11, for rules and a question that were read: the first that applies, or how many members there are now in the table.
pub fn read_members(
    rules: &[u64],
    question: QueryWords,
    union: &[u8],
    partners: &[u16],
    table: &mut [u64],
) -> Result<usize, Refusal>
    requires { Small question × (table_words ≤ length table.old) }
    ensures kept { length table.new ≡ length table.old }
    ensures members { MembersRead partners.now (rules_in rules.now (length rules.now)) (query_of question) question.terms
        union.now table.new (number_in result) (count_in result) }
{
    let count = read_union(union, partners, question.terms, table)?;
    let mut keys = [0u64; MOST_MEMBERS];
    check_union(rules, question, table, &mut keys[..count])?;
    Ok(count)
}

// The same where the members are not needed.
pub fn check_members(
    rules: &[u64],
    question: QueryWords,
    union: &[u8],
    partners: &[u16],
) -> Result<(), Refusal>
    requires { Small question }
    ensures { number_in result ≡ union_number partners.now (rules_in rules.now (length rules.now)) (query_of question) question.terms
        union.now }
{
    let mut table = [0u64; TABLE_WORDS];
    read_members(rules, question, union, partners, &mut table)?;
    Ok(())
}
