// 02, T-02, "Our own unions": the members of the union that the register writes, found from rules and question into a table.
#![tactic(auto)]

ghost use Rattle.std.specs.Prelude.{◌≡◌, ◌≤◌, ◌<◌, length, IfSome, MatchResult};
ghost use mathlib.Core.List.{[], ◌∷◌, ◌++◌, flat_map};
ghost use Rattle.std.proofs.Math.Option.{some};
ghost use Rattle.theory.specs.Lists.{Unrepeated, any, numbers};
ghost use Rattle.theory.specs.Renaming.{alike};
ghost use Rattle.theory.specs.Writing.{stepped, by_rule, by_merge, appended_all, with_steps_of, written_union};
ghost use Rattle.words.specs.Limits.{most_rules, most_members};
ghost use Rattle.words.specs.Records.{step_of};
ghost use Rattle.words.specs.Refusals.{code};
ghost use Rattle.words.specs.Words.{query_of, Small, rules_in, union_in, table_words};
ghost use Rattle.words.specs.Rows.{Rows, member_in};
ghost use Rattle.query_steps.specs.StepResults.{query_found};
ghost use Rattle.check_distinct.specs.Keys.{Keys};
ghost use Rattle.write_members.specs.Members.{MembersFound, Appended, HoldsUnion, members_in, Tried};

use check_chains::Chained;
use check_closed::repeated;
use check_distinct::alike_to_member;
use check_distinct::members::Members;
use query_key::key_of;
use query_rule::names;
use query_steps::steps::{merge_step, rule_step};
use words::QueryWords;
use words::limits::{MEMBER_WORDS, MOST_MEMBERS};
use words::refusals::Refusal;
use words::rows::{load, member_words, put_row};
use words::steps::step_word;

// Appends the question with the step beside it, where there is room. The number of members then.
fn append_new(
    q: QueryWords,
    step: u64,
    table: &mut [u64],
    n: usize,
    keys: &mut [u64],
) -> Result<usize, Refusal>
    requires { MembersFound table.old keys.old n × Small q × Unrepeated (query_of q).atoms }
    ensures { Appended (union_in table.old n ++ (record { step = step_of step; query = query_of q } ∷ []))
        table.new keys.new result }
{
    if MOST_MEMBERS <= n {
        return Err(Refusal::TooManyQuestions);
    }
    put_row(table, MEMBER_WORDS * n, member_words(step, q));
    keys[n] = key_of(q);
    Ok(n + 1)
}

// Whether the question is alike to one of the n members.
fn is_there(q: QueryWords, table: &[u64], n: usize, keys: &[u64]) -> bool
    requires { Small q × Unrepeated (query_of q).atoms × Rows table.now n × Keys table.now n keys.now }
    ensures { result ≡ any (λ m. alike (query_of q) m.query) (union_in table.now n) }
{
    alike_to_member(q, &Members::new(table, Chained::plain(&keys[..n])))
}

// Appends what a step leads to, with the step beside it, unless that is alike to a member. The number of members then.
fn append(
    r: Option<QueryWords>,
    step: u64,
    table: &mut [u64],
    n: usize,
    keys: &mut [u64],
) -> Result<usize, Refusal>
    requires { MembersFound table.old keys.old n × IfSome r (λ q. Small q × Unrepeated (query_of q).atoms) }
    ensures { Appended (appended_all (union_in table.old n) (stepped (step_of step) (query_found r)))
        table.new keys.new result }
{
    let Some(q) = r else {
        return Ok(n);
    };
    if is_there(q, table, n, keys) {
        return Ok(n);
    }
    append_new(q, step, table, n, keys)
}

// Appends what rule k makes of atom i of member `parent`, whose question is q. A rule for another predicate makes nothing of the atom, and
// what a word that stands earlier makes of it has been appended.
fn append_by_rule(
    rules: &[u64],
    parent: usize,
    q: QueryWords,
    i: usize,
    k: usize,
    table: &mut [u64],
    n: usize,
    keys: &mut [u64],
) -> Result<usize, Refusal>
    requires { (length rules.now ≤ most_rules) × (k < length rules.now) × (parent < most_members) × Small q × (i < q.size)
        × MembersFound table.old keys.old n
        × Tried (rules_in rules.now (length rules.now)) (query_of q) i k (union_in table.old n) }
    ensures { Appended (appended_all (union_in table.old n)
        (by_rule (rules_in rules.now (length rules.now)) parent (query_of q) i k)) table.new keys.new result }
{
    let rule = rules[k];
    let atoms = q.atoms;
    if !names(rule, atoms[i]) {
        return Ok(n);
    }
    if repeated(rules, k) {
        return Ok(n);
    }
    append(
        rule_step(q, i, rule),
        step_word(1, parent, i, k),
        table,
        n,
        keys,
    )
}

// Appends what the rules, in order, make of atom i.
fn append_by_rules(
    rules: &[u64],
    parent: usize,
    q: QueryWords,
    i: usize,
    table: &mut [u64],
    n: usize,
    keys: &mut [u64],
) -> Result<usize, Refusal>
    requires { (length rules.now ≤ most_rules) × (parent < most_members) × Small q × (i < q.size)
        × MembersFound table.old keys.old n }
    ensures { Appended (appended_all (union_in table.old n)
        (flat_map (by_rule (rules_in rules.now (length rules.now)) parent (query_of q) i) (numbers 0 (length rules.now))))
        table.new keys.new result }
{
    let mut members = n;
    for k in 0..rules.len() {
        members = append_by_rule(rules, parent, q, i, k, table, members, keys)?;
    }
    Ok(members)
}

// Appends what the rules make of the atoms, atom after atom.
fn append_by_atoms(
    rules: &[u64],
    parent: usize,
    q: QueryWords,
    table: &mut [u64],
    n: usize,
    keys: &mut [u64],
) -> Result<usize, Refusal>
    requires { (length rules.now ≤ most_rules) × (parent < most_members) × Small q × MembersFound table.old keys.old n }
    ensures { Appended (appended_all (union_in table.old n)
        (flat_map (λ i. flat_map (by_rule (rules_in rules.now (length rules.now)) parent (query_of q) i) (numbers 0 (length rules.now)))
        (numbers 0 q.size))) table.new keys.new result }
{
    let mut members = n;
    for i in 0..q.size {
        members = append_by_rules(rules, parent, q, i, table, members, keys)?;
    }
    Ok(members)
}

// Appends what atom i merged with each later one gives.
fn append_merged(
    parent: usize,
    q: QueryWords,
    i: usize,
    table: &mut [u64],
    n: usize,
    keys: &mut [u64],
) -> Result<usize, Refusal>
    requires { (parent < most_members) × Small q × (i < q.size) × MembersFound table.old keys.old n }
    ensures { Appended (appended_all (union_in table.old n)
        (flat_map (by_merge parent (query_of q) i) (numbers 0 q.size))) table.new keys.new result }
{
    let mut members = n;
    for j in i + 1..q.size {
        members = append(
            merge_step(q, i, j),
            step_word(2, parent, i, j),
            table,
            members,
            keys,
        )?;
    }
    Ok(members)
}

// Appends what merges give, pairs by the earlier atom and then the later one.
fn append_by_merges(
    parent: usize,
    q: QueryWords,
    table: &mut [u64],
    n: usize,
    keys: &mut [u64],
) -> Result<usize, Refusal>
    requires { (parent < most_members) × Small q × MembersFound table.old keys.old n }
    ensures { Appended (appended_all (union_in table.old n)
        (flat_map (λ i. flat_map (by_merge parent (query_of q) i) (numbers 0 q.size)) (numbers 0 q.size)))
        table.new keys.new result }
{
    let mut members = n;
    for i in 0..q.size {
        members = append_merged(parent, q, i, table, members, keys)?;
    }
    Ok(members)
}

// Appends what the steps from member k lead to: by rules, then by merges.
fn append_steps(
    rules: &[u64],
    k: usize,
    table: &mut [u64],
    n: usize,
    keys: &mut [u64],
) -> Result<usize, Refusal>
    requires { (length rules.now ≤ most_rules) × (k < n) × MembersFound table.old keys.old n }
    ensures { Appended (with_steps_of (rules_in rules.now (length rules.now)) k (some (member_in table.old k))
        (union_in table.old n)) table.new keys.new result }
{
    let q = load(table, k);
    let members = append_by_atoms(rules, k, q, table, n, keys)?;
    append_by_merges(k, q, table, members, keys)
}

// Takes the members of the table in order, from member 0 alone to all that are found.
fn take_members(rules: &[u64], table: &mut [u64], keys: &mut [u64]) -> Result<usize, Refusal>
    requires { (length rules.now ≤ most_rules) × MembersFound table.old keys.old 1
        × ((member_in table.old 0).step ≡ step_of 0) }
    ensures { Appended (written_union most_members (rules_in rules.now (length rules.now)) (member_in table.old 0).query)
        table.new keys.new result }
{
    let mut members: usize = 1;
    let mut k: usize = 0;
    // a `while`: the number of members grows
    while k < members {
        members = append_steps(rules, k, table, members, keys)?;
        k += 1;
    }
    Ok(members)
}

// The members of the union for the rules and the question, in the table: their number, or 15 where there are more than 512.
pub fn write_members(rules: &[u64], q: QueryWords, table: &mut [u64]) -> Result<usize, Refusal>
    requires { (length rules.now ≤ most_rules) × Small q × Unrepeated (query_of q).atoms × (table_words ≤ length table.old) }
    ensures members { HoldsUnion (written_union most_members (rules_in rules.now (length rules.now)) (query_of q)) table.new
        (members_in result) }
    ensures few { MatchResult result (λ n. n ≤ most_members) (λ refusal. code refusal ≡ 15) }
{
    let mut keys = [0u64; MOST_MEMBERS];
    put_row(table, 0, member_words(0, q));
    keys[0] = key_of(q);
    take_members(rules, table, &mut keys)
}
