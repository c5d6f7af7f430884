// 02, T-06, in the form that 01 names: "a lent slice of step structs filled by one thin function".
#![tactic(auto)]

ghost use mathlib.Core.List.{flat_map};
ghost use Rattle.std.specs.Prelude.{◌*◌, length};
ghost use Rattle.words.specs.Limits.{place_size};
ghost use Rattle.words.specs.Refusals.{number_in, count_in};
ghost use Rattle.promises.specs.Explaining.{Explained};
ghost use Rattle.explain_place.specs.Places.{bytes_of_place};

use explain_packed::explain_packed;
use explain_place::Place;
use explain_places::fill_places;
use words::refusals::Refusal;

// Explains the tuple into the lent places. They hold the list of steps, packed 40 bytes a place.
pub fn explain_places(
    rules: &[u8],
    question: &[u8],
    union: &[u8],
    facts: &[u8],
    tuple: &[u8],
    steps: &mut [Place],
) -> Result<u64, Refusal>
    ensures { Explained rules.now question.now union.now facts.now tuple.now
        (place_size * length steps.old) (number_in result) (count_in result) (flat_map bytes_of_place steps.new) }
{
    let mut packed = [0u8; 20440];
    let room = steps.len();
    let told = explain_packed(rules, question, union, facts, tuple, room, &mut packed);
    fill_places(&packed, told.unwrap_or(0), steps);
    told
}
