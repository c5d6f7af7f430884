// The steps from a member back to member 0, by the written parents, each with its renaming (02, T-06).
#![tactic(auto)]

ghost use Rattle.std.specs.Prelude.{◌≡◌, ◌≤◌, ◌<◌, length};
ghost use Rattle.theory.specs.Explaining.{PlaceOf};
ghost use Rattle.theory.specs.Laws.Explaining.{Behind};
ghost use Rattle.words.specs.Limits.{most_members};
ghost use Rattle.words.specs.Refusals.{number_in, count_in};
ghost use Rattle.words.specs.Words.{rules_in, union_in};
ghost use Rattle.words.specs.Rows.{Rows};
ghost use Rattle.explain_place.specs.Places.{step_of_place};
ghost use Rattle.explain_steps.specs.Filling.{StepsMade, ParentsEarlier, RoomFor, FilledBack, TellsFrom};

use answer_draw::refuse;
use check_steps::yielded;
use explain_place::{Place, put_place};
use query_renaming::search::rename;
use words::limits::{MEMBER_WORDS, PLACE_BYTES};
use words::refusals::Refusal;
use words::rows::load;
use words::steps::{atom_in, kind_in, other_in, parent_in};

// How many written parents lead from member k up to member 0.
fn parents_behind(table: &[u64], n: usize, k: usize) -> usize
    requires { Rows table.now n × (n ≤ most_members) × (k < n) × ParentsEarlier (union_in table.now n) }
    ensures { Behind (union_in table.now n) result k × (result ≤ k) }
{
    let mut at = k;
    let mut count: usize = 0;
    while 0 < at {
        at = parent_in(table[MEMBER_WORDS * at]);
        count += 1;
    }
    count
}

// The place of member k: the step beside it, and the smallest renaming from what the step yields to the member.
fn place_of(rules: &[u64], table: &[u64], n: usize, k: usize) -> Place
    requires { Rows table.now n × (n ≤ most_members) × (0 < k) × (k < n)
        × StepsMade (rules_in rules.now (length rules.now)) (union_in table.now n) }
    ensures { PlaceOf (rules_in rules.now (length rules.now)) (union_in table.now n) k (step_of_place result) }
{
    let step = table[MEMBER_WORDS * k];
    let made = yielded(rules, table, n, k).unwrap();
    let member = load(table, k);
    let renaming = rename(made, member);
    let targets = renaming.targets;
    Place {
        member: k as u16,
        kind: kind_in(step) as u8,
        parent: parent_in(step) as u16,
        atom: atom_in(step) as u8,
        other: other_in(step) as u16,
        targets,
    }
}

// Fills the list with the places from member k back to member 0, and zeros after them.
fn fill_back(rules: &[u64], table: &[u64], n: usize, k: usize, steps: &mut [u8])
    requires { Rows table.now n × (n ≤ most_members) × (k < n)
        × StepsMade (rules_in rules.now (length rules.now)) (union_in table.now n) × RoomFor (union_in table.now n) k (length steps.old) }
    ensures { FilledBack (rules_in rules.now (length rules.now)) (union_in table.now n) k (length steps.old)
        steps.new }
{
    let mut next = k;
    let mut done: usize = 0;
    while 0 < next {
        let place = place_of(rules, table, n, next);
        put_place(&mut steps[PLACE_BYTES * done..], place);
        next = parent_in(table[MEMBER_WORDS * next]);
        done += 1;
    }
    steps[PLACE_BYTES * done..].fill(0);
}

// The steps from member k back, or refusal 20 where the list is too short for them.
pub fn explain_from(
    rules: &[u64],
    table: &[u64],
    n: usize,
    k: usize,
    steps: &mut [u8],
) -> Result<u64, Refusal>
    requires { Rows table.now n × (n ≤ most_members) × (k < n)
        × StepsMade (rules_in rules.now (length rules.now)) (union_in table.now n) }
    ensures { TellsFrom (rules_in rules.now (length rules.now)) (union_in table.now n) k (length steps.old)
        (number_in result) (count_in result) steps.new }
{
    let behind = parents_behind(table, n, k);
    if steps.len() < PLACE_BYTES * behind {
        return refuse(Refusal::StepsTooShort, steps);
    }
    fill_back(rules, table, n, k, steps);
    Ok(behind as u64)
}
