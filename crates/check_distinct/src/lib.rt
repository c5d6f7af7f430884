// Refusal 10, and whether a question is alike to a member: only members at its key's place are looked at, and those with another key
// passed over.
#![tactic(auto)]

pub mod members;

ghost use Rattle.std.specs.Prelude.{◌≡◌, List, ◌≤◌, ◌<◌, length, drop};
ghost use Rattle.theory.specs.Lists.{Unrepeated, any};
ghost use Rattle.theory.specs.Syntax.{Rule, Query};
ghost use Rattle.theory.specs.Renaming.{alike as alike_in};
ghost use Rattle.theory.specs.Union.{refuses10 as refuses_ten};
ghost use Rattle.words.specs.Words.{query_of, Small};
ghost use Rattle.words.specs.Rows.{Rows, member_in};
ghost use Rattle.query_key.specs.Key.{key};
ghost use Rattle.check_distinct.specs.Keys.{Keys};
ghost use Rattle.check_distinct.specs.Union.{union_of};

use members::Members;
use query_alike::alike;
use query_key::key_of;
use words::QueryWords;
use words::rows::load;

// The keys of the members are put into the list, which has as many.
pub fn fill_keys(table: &[u64], keys: &mut [u64])
    requires { Rows table.now (length keys.old) }
    ensures { Keys table.now (length keys.old) keys.new }
{
    for j in 0..keys.len() {
        keys[j] = key_of(load(table, j));
    }
}

// Whether the question, with its key, is alike to member j.
fn alike_at(q: QueryWords, wanted: u64, members: &Members, j: usize) -> bool
    requires { Small q × Unrepeated (query_of q).atoms × (wanted ≡ key (query_of q)) × (j < length members.now.keys.words.now) }
    ensures { result ≡ alike_in (query_of q) (member_in members.now.table.now j).query }
{
    if members.keys.words[j] != wanted {
        return false;
    }
    alike(q, load(members.table, j))
}

// Whether the question, with its key, is alike to a member from number `from` on: those at the key's place are looked at, the last first.
fn alike_from(q: QueryWords, wanted: u64, members: &Members, from: usize) -> bool
    requires { Small q × Unrepeated (query_of q).atoms × (wanted ≡ key (query_of q)) × (from ≤ length members.now.keys.words.now) }
    ensures { result ≡ any (λ m. alike_in (query_of q) m.query) (drop from (union_of members.now)) }
{
    let mut at = members.keys.last_with(wanted);
    while let Some(j) = at {
        if j < from {
            return false;
        }
        if alike_at(q, wanted, members, j) {
            return true;
        }
        at = members.keys.before(j);
    }
    false
}

// Whether the question is alike to a member.
pub fn alike_to_member(q: QueryWords, members: &Members) -> bool
    requires { Small q × Unrepeated (query_of q).atoms }
    ensures { result ≡ any (λ m. alike_in (query_of q) m.query) (union_of members.now) }
{
    alike_from(q, key_of(q), members, 0)
}

// Refusal 10: a member is alike to a later one.
pub fn refuses10(members: &Members) -> bool
    ensures { (rules : List Rule) (q : Query) → result ≡ refuses_ten rules q (union_of members.now) }
{
    for i in 0..members.count() {
        if alike_from(
            load(members.table, i),
            members.keys.words[i],
            members,
            i + 1,
        ) {
            return true;
        }
    }
    false
}
