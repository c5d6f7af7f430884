// 02, T-05, "Alike, and by which names": the entry that compares two questions and hands back the renaming.
#![tactic(auto)]

ghost use Rattle.words.specs.Refusals.{number_in};
ghost use Rattle.promises.specs.Renaming.{Renamed};
ghost use Rattle.comparing.specs.HandedBack.{found_in, targets_in};

use query_alike::by_which_names;
use query_renaming::search::Renaming;
use read_question::read_question;
use read_records::partners::default_partners;
use words::refusals::Refusal;

// Compares two questions: the first refusal of 3 to 5 that applies to the first sheet, then of 3 to 5 to the second; or the smallest
// renaming from the first question to the second, or that there is none.
pub fn rename(first: &[u8], second: &[u8]) -> Result<Renaming, Refusal>
    ensures { Renamed first.now second.now (number_in result) (found_in result) (targets_in result) }
{
    let partners = default_partners();
    let from = read_question(first, &partners)?;
    let to = read_question(second, &partners)?;
    Ok(by_which_names(from, to))
}
