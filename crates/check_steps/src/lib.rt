// Refusals 8 and 9: the step written beside each later member, and what it yields.
#![tactic(auto)]

ghost use Rattle.std.specs.Prelude.{◌≡◌, true, [], ◌∷◌, ◌<◌, length, IfSome, IfOk, IfErr};
ghost use Rattle.theory.specs.Refusals.{first_refusal, number_of};
ghost use Rattle.theory.specs.Syntax.{Query};
ghost use Rattle.theory.specs.Rewriting.{rule_step};
ghost use Rattle.theory.specs.Union.{yield, refuses8 as refuses_eight, refuses9 as refuses_nine};
ghost use Rattle.words.specs.Records.{step_of};
ghost use Rattle.words.specs.Refusals.{code, number_in};
ghost use Rattle.words.specs.Words.{query_of, Small, rules_in, union_in};
ghost use Rattle.words.specs.Rows.{Rows, member_in};
ghost use Rattle.query_steps.specs.StepResults.{query_found};
ghost use Rattle.theory.specs.Explaining.{step_from};
ghost use Rattle.check_steps.specs.Written.{YieldsAlike, FailsAt};

use query_alike::alike;
use query_steps::steps::{merge_step, rule_step};
use words::QueryWords;
use words::limits::MEMBER_WORDS;
use words::refusals::Refusal;
use words::rows::load;
use words::steps::{atom_in, kind_in, other_in, parent_in};

// Rule k on atom i, if there is such a rule.
fn rule_at(rules: &[u64], q: QueryWords, i: usize, k: usize) -> Option<QueryWords>
    requires { Small q }
    ensures step { query_found result ≡ rule_step (rules_in rules.now (length rules.now)) (query_of q) i k }
    ensures small { IfSome result Small }
{
    if rules.len() <= k {
        return None;
    }
    rule_step(q, i, rules[k])
}

// What the step makes of the question that it starts from.
fn applied(rules: &[u64], q: QueryWords, step: u64) -> Option<QueryWords>
    requires { Small q }
    ensures step { query_found result ≡ step_from (rules_in rules.now (length rules.now)) (query_of q) (step_of step) }
    ensures small { IfSome result Small }
{
    let atom = atom_in(step);
    let other = other_in(step);
    match kind_in(step) {
        1 => rule_at(rules, q, atom, other),
        2 => merge_step(q, atom, other),
        _ => None,
    }
}

// What the step beside member k yields.
pub fn yielded(rules: &[u64], table: &[u64], n: usize, k: usize) -> Option<QueryWords>
    requires { Rows table.now n × (k < n) }
    ensures step { query_found result ≡ yield (rules_in rules.now (length rules.now)) (union_in table.now n) k
        (member_in table.now k).step }
    ensures small { IfSome result Small }
{
    let step = table[MEMBER_WORDS * k];
    let parent = parent_in(step);
    if k <= parent {
        return None;
    }
    applied(rules, load(table, parent), step)
}

// Refusal 8: a later member's step does not apply.
pub fn refuses8(rules: &[u64], table: &[u64], n: usize) -> bool
    requires { Rows table.now n }
    ensures { (q : Query) → result ≡ refuses_eight (rules_in rules.now (length rules.now)) q (union_in table.now n) }
{
    for k in 1..n {
        if yielded(rules, table, n, k).is_none() {
            return true;
        }
    }
    false
}

// Whether what the step beside member k yields is alike to the member; the refusal where it yields nothing.
fn judged(rules: &[u64], table: &[u64], n: usize, k: usize) -> Result<bool, Refusal>
    requires { Rows table.now n × (k < n) }
    ensures alike { IfOk result (λ same. YieldsAlike
        (yield (rules_in rules.now (length rules.now)) (union_in table.now n) k (member_in table.now k).step)
        (member_in table.now k).query same) }
    ensures fails { IfErr result (λ refusal. FailsAt
        (yield (rules_in rules.now (length rules.now)) (union_in table.now n) k (member_in table.now k).step) (code refusal)) }
{
    match yielded(rules, table, n, k) {
        Some(q) => Ok(alike(q, load(table, k))),
        None => Err(Refusal::StepDoesNotApply),
    }
}

// Refusal 9 where some result is not alike to its member: 8 comes before it if any step of the union does not apply.
fn eight_or_nine(rules: &[u64], table: &[u64], n: usize) -> Refusal
    requires { Rows table.now n }
    ensures { (q : Query) → code result
        ≡ number_of (first_refusal ((8, refuses_eight (rules_in rules.now (length rules.now)) q (union_in table.now n))
        ∷ (9, true) ∷ [])) }
{
    if refuses8(rules, table, n) {
        Refusal::StepDoesNotApply
    } else {
        Refusal::StepGivesAnother
    }
}

// The first of refusals 8 and 9 that applies, if any: one pass where neither does, or to the first step that does not apply.
pub fn check_written(rules: &[u64], table: &[u64], n: usize) -> Result<(), Refusal>
    requires { Rows table.now n }
    ensures { (q : Query) → number_in result
        ≡ number_of (first_refusal ((8, refuses_eight (rules_in rules.now (length rules.now)) q (union_in table.now n))
        ∷ (9, refuses_nine (rules_in rules.now (length rules.now)) q (union_in table.now n)) ∷ [])) }
{
    for k in 1..n {
        if !judged(rules, table, n, k)? {
            return Err(eight_or_nine(rules, table, n));
        }
    }
    Ok(())
}
