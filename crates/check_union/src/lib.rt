// Refusals 7 to 11, in the order of 01's list.
#![tactic(auto)]

ghost use Rattle.std.specs.Prelude.{◌≡◌, [], ◌∷◌, ◌≤◌, length};
ghost use Rattle.theory.specs.Refusals.{first_refusal, number_of};
ghost use Rattle.theory.specs.Syntax.{Query};
ghost use Rattle.theory.specs.Union.{refuses10 as refuses_ten, refuses11 as refuses_eleven, check};
ghost use Rattle.words.specs.Refusals.{number_in};
ghost use Rattle.words.specs.Words.{query_of, Small, rules_in, union_in};
ghost use Rattle.words.specs.Rows.{Rows};
ghost use Rattle.check_chains.specs.Chains.{places};
ghost use Rattle.check_distinct.specs.Keys.{Keys};
ghost use Rattle.check_distinct.specs.Union.{union_of};

use check_chains::{Chained, INDEX_WORDS, MANY, PLACES, chain};
use check_closed::refuses11;
use check_distinct::members::Members;
use check_distinct::{fill_keys, refuses10};
use check_first::refuses7;
use check_steps::check_written;
use words::QueryWords;
use words::refusals::Refusal;

// The first of refusals 10 and 11 that applies, if any.
fn decide_alike(rules: &[u64], members: &Members) -> Result<(), Refusal>
    ensures { (q : Query) → number_in result
        ≡ number_of (first_refusal ((10, refuses_ten (rules_in rules.now (length rules.now)) q (union_of members.now))
        ∷ (11, refuses_eleven (rules_in rules.now (length rules.now)) q (union_of members.now)) ∷ [])) }
{
    if refuses10(members) {
        return Err(Refusal::MembersAlike);
    }
    if refuses11(rules, members) {
        return Err(Refusal::UnionOpen);
    }
    Ok(())
}

// The same with an index of the keys.
fn decide_indexed(rules: &[u64], table: &[u64], keys: &[u64]) -> Result<(), Refusal>
    requires { Rows table.now (length keys.now) × Keys table.now (length keys.now) keys.now × (length keys.now ≤ places) }
    ensures { (q : Query) → number_in result
        ≡ number_of (first_refusal ((10, refuses_ten (rules_in rules.now (length rules.now)) q (union_in table.now (length keys.now)))
        ∷ (11, refuses_eleven (rules_in rules.now (length rules.now)) q (union_in table.now (length keys.now))) ∷ [])) }
{
    let mut index = [0u16; INDEX_WORDS];
    chain(keys, &mut index);
    decide_alike(rules, &Members::new(table, Chained::indexed(keys, &index)))
}

// The first of refusals 10 and 11 that applies, if any. The list is lent for the members' keys.
fn check_alike(rules: &[u64], table: &[u64], keys: &mut [u64]) -> Result<(), Refusal>
    requires { Rows table.now (length keys.old) }
    ensures { (q : Query) → number_in result
        ≡ number_of (first_refusal ((10, refuses_ten (rules_in rules.now (length rules.now)) q (union_in table.now (length keys.old)))
        ∷ (11, refuses_eleven (rules_in rules.now (length rules.now)) q (union_in table.now (length keys.old))) ∷ [])) }
{
    fill_keys(table, keys);
    if MANY <= keys.len() {
        if keys.len() <= PLACES {
            return decide_indexed(rules, table, keys);
        }
    }
    decide_alike(rules, &Members::new(table, Chained::plain(keys)))
}

// The first of refusals 7 to 11 that applies to the union, if any. The list is lent for the members' keys, one for each.
pub fn check_union(
    rules: &[u64],
    question: QueryWords,
    table: &[u64],
    keys: &mut [u64],
) -> Result<(), Refusal>
    requires { Small question × Rows table.now (length keys.old) }
    ensures { number_in result
        ≡ number_of (check (rules_in rules.now (length rules.now)) (query_of question) (union_in table.now (length keys.old))) }
{
    let n = keys.len();
    if refuses7(question, table, n) {
        return Err(Refusal::FirstMemberNotQuestion);
    }
    check_written(rules, table, n)?;
    check_alike(rules, table, keys)
}
