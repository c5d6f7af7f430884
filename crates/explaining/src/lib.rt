// The entry that says which rules put an answer on a list (02, T-06): the steps from the lowest member that yields it back to member 0.
#![tactic(auto)]

ghost use Rattle.std.specs.Prelude.{length};
ghost use Rattle.words.specs.Refusals.{number_in, count_in};
ghost use Rattle.promises.specs.Explaining.{Explained};

use answer_draw::refuse;
use explain_stages::explain_question;
use read_records::partners::default_partners;
use read_rules::read_rules;
use words::limits::MOST_RULES;
use words::refusals::Refusal;

// Explains a tuple, packed as in the answer list, into a list of steps of 40 bytes each: the first refusal of 1, 2, 17, 3 to 13, 18, 19 and
// 20 that applies, or the count of the steps. With the count the list holds the steps from the lowest member that yields the tuple back to
// member 0, each with its renaming, and zeros after them; on a refusal it is all zeros.
pub fn explain(
    rules: &[u8],
    question: &[u8],
    union: &[u8],
    facts: &[u8],
    tuple: &[u8],
    steps: &mut [u8],
) -> Result<u64, Refusal>
    ensures { Explained rules.now question.now union.now facts.now
        tuple.now (length steps.old) (number_in result) (count_in result) steps.new }
{
    let partners = default_partners();
    let mut table = [0u64; MOST_RULES];
    let read = match read_rules(rules, &partners, &mut table) {
        Ok(read) => read,
        Err(refusal) => return refuse(refusal, steps),
    };
    explain_question(
        &table[..read.count],
        read,
        question,
        union,
        facts,
        &partners,
        tuple,
        steps,
    )
}
