// Explaining, stage by stage: the question, the union, the facts, the tuple, and then the steps behind it.
#![tactic(auto)]

ghost use Rattle.std.specs.Prelude.{◌≤◌, length};
ghost use Rattle.words.specs.FactWords.{ZeroBits};
ghost use Rattle.words.specs.Limits.{most_rules, most_terms, most_members, most_facts};
ghost use Rattle.words.specs.Refusals.{number_in, count_in};
ghost use Rattle.words.specs.Words.{rules_in, query_of, union_in, facts_in, Small};
ghost use Rattle.words.specs.Rows.{Rows, Arity};
ghost use Rattle.promises.specs.Laws.Telling.{Tells};
ghost use Rattle.answer_evaluate.specs.Merges.{SafeMembers, MergesMade};
ghost use Rattle.explain_steps.specs.Filling.{StepsMade};
ghost use Rattle.explain_stages.specs.Stages.{TellsFromFacts, TellsFromUnion, TellsFromQuestion};

use answer_draw::refuse;
use check_sheet::read_members;
use explain_member::lowest;
use explain_steps::explain_from;
use read_facts::read_facts;
use read_helpers::{asked_clashes, drawn_clashes};
use read_question::read_question;
use read_rules::RuleSheet;
use words::QueryWords;
use words::limits::{MOST_FACTS, OBJECT_BYTES, TABLE_WORDS};
use words::refusals::Refusal;

// Refusals 19 and 20, or the steps behind the tuple, from facts and members that were read.
fn explain_tuple(
    facts: &[u64],
    held: usize,
    rules: &[u64],
    table: &[u64],
    n: usize,
    terms: usize,
    tuple: &[u8],
    steps: &mut [u8],
) -> Result<u64, Refusal>
    requires { (held ≤ length facts.now) × (held ≤ most_facts) × ZeroBits facts.now held
        × (n ≤ most_members) × (terms ≤ most_terms) × Rows table.now n
        × Arity (union_in table.now n) terms × SafeMembers (union_in table.now n) × MergesMade (union_in table.now n)
        × StepsMade (rules_in rules.now (length rules.now)) (union_in table.now n) }
    ensures { Tells (rules_in rules.now (length rules.now)) (facts_in facts.now held)
        (union_in table.now n) terms tuple.now (length steps.old) (number_in result) (count_in result)
        steps.new }
{
    if tuple.len() != OBJECT_BYTES * terms {
        return refuse(Refusal::NoAnswer, steps);
    }
    match lowest(facts, held, table, n, terms, tuple) {
        Some(k) => explain_from(rules, table, n, k, steps),
        None => refuse(Refusal::NoAnswer, steps),
    }
}

// Refusals 12, 13, 18, 19 and 20, or the steps behind the tuple. `read` says how many helpers are in use, and whether one stands in a rule
// as written or in the question.
fn explain_facts(
    rules: &[u64],
    read: RuleSheet,
    table: &[u64],
    n: usize,
    terms: usize,
    facts: &[u8],
    partners: &[u16],
    tuple: &[u8],
    steps: &mut [u8],
) -> Result<u64, Refusal>
    requires { (read.helpers ≤ most_rules) × (n ≤ most_members) × (terms ≤ most_terms)
        × Rows table.now n × Arity (union_in table.now n) terms × SafeMembers (union_in table.now n)
        × MergesMade (union_in table.now n) × StepsMade (rules_in rules.now (length rules.now)) (union_in table.now n) }
    ensures { TellsFromFacts partners.now (rules_in rules.now (length rules.now)) facts.now
        (union_in table.now n) terms read.helpers read.clash tuple.now (length steps.old) (number_in result) (count_in result)
        steps.new }
{
    let mut words = [0u64; MOST_FACTS];
    let held = match read_facts(facts, partners, &mut words) {
        Ok(held) => held,
        Err(refusal) => return refuse(refusal, steps),
    };
    if drawn_clashes(read.clash, &words, held, read.helpers) {
        return refuse(Refusal::HelperAsRole, steps);
    }
    explain_tuple(&words, held, rules, table, n, terms, tuple, steps)
}

// Refusals 6 to 13, 18, 19 and 20, for rules and a question that were read, or the steps behind the tuple.
fn explain_members(
    rules: &[u64],
    read: RuleSheet,
    question: QueryWords,
    union: &[u8],
    facts: &[u8],
    partners: &[u16],
    tuple: &[u8],
    steps: &mut [u8],
) -> Result<u64, Refusal>
    requires { (read.helpers ≤ most_rules) × Small question }
    ensures { TellsFromUnion partners.now (rules_in rules.now (length rules.now)) (query_of question) question.terms
        union.now facts.now read.helpers read.clash tuple.now (length steps.old) (number_in result) (count_in result)
        steps.new }
{
    let mut table = [0u64; TABLE_WORDS];
    match read_members(rules, question, union, partners, &mut table) {
        Ok(n) => explain_facts(
            rules,
            read,
            &table,
            n,
            question.terms,
            facts,
            partners,
            tuple,
            steps,
        ),
        Err(refusal) => refuse(refusal, steps),
    }
}

// Refusals 3 to 13, 18, 19 and 20, for rules that were read, or the steps behind the tuple. `read` says how many helpers are in use, and
// whether one stands in a rule as written.
pub fn explain_question(
    rules: &[u64],
    read: RuleSheet,
    question: &[u8],
    union: &[u8],
    facts: &[u8],
    partners: &[u16],
    tuple: &[u8],
    steps: &mut [u8],
) -> Result<u64, Refusal>
    requires { read.helpers ≤ most_rules }
    ensures { TellsFromQuestion partners.now (rules_in rules.now (length rules.now)) question.now
        union.now facts.now read.helpers read.clash tuple.now (length steps.old) (number_in result) (count_in result)
        steps.new }
{
    let query = match read_question(question, partners) {
        Ok(query) => query,
        Err(refusal) => return refuse(refusal, steps),
    };
    let asked = RuleSheet {
        clash: asked_clashes(read.clash, query, read.helpers),
        ..read
    };
    explain_members(rules, asked, query, union, facts, partners, tuple, steps)
}
