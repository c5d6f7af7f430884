// The packed list that lent places are filled from (02, T-06): as many bytes are lent on as the places would take.
#![tactic(auto)]

ghost use Rattle.std.specs.Prelude.{◌≡◌, ◌≤◌, length};
ghost use Rattle.words.specs.Limits.{most_steps};
ghost use Rattle.words.specs.Refusals.{number_in, count_in};
ghost use Rattle.explain_packed.specs.Packed.{most_bytes, PlacesUsed, ExplainedIn};

use explaining::explain;
use words::limits::{MOST_STEPS, PLACE_BYTES};
use words::refusals::Refusal;

// How many of the lent places are used: more than 511 no explanation needs.
fn places_used(room: usize) -> usize
    ensures { PlacesUsed room result × (result ≤ most_steps) }
{
    room.min(MOST_STEPS)
}

// The packed form, with as many bytes lent as those places take.
pub fn explain_packed(
    rules: &[u8],
    question: &[u8],
    union: &[u8],
    facts: &[u8],
    tuple: &[u8],
    room: usize,
    packed: &mut [u8],
) -> Result<u64, Refusal>
    requires { length packed.old ≡ most_bytes }
    ensures { ExplainedIn rules.now question.now union.now facts.now
        tuple.now room (number_in result) (count_in result) packed.new }
{
    let places = places_used(room);
    explain(
        rules,
        question,
        union,
        facts,
        tuple,
        &mut packed[..PLACE_BYTES * places],
    )
}
