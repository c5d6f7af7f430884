// The entries that a union is handed to: it is checked against rules and question, answers are drawn with it from facts, a member is shown.
#![tactic(auto)]

ghost use Rattle.std.specs.Prelude.{◌≡◌, length};
ghost use Rattle.words.specs.Refusals.{number_in, count_in};
ghost use Rattle.promises.specs.Checking.{Checked};
ghost use Rattle.promises.specs.Drawing.{Drawn};
ghost use Rattle.promises.specs.TheSheets.{the_part};

use answer_draw::refuse;
use answer_stages::draw_members;
use check_sheet::check_members;
use read_helpers::asked_clashes;
use read_question::read_question;
use read_records::partners::default_partners;
use read_rules::{RuleSheet, read_rules};
use words::limits::MOST_RULES;
use words::refusals::Refusal;

// Checks a union against rules and question: the first refusal of 1, 2, 17, 3 to 11 and 18 that applies, if any.
pub fn check(rules: &[u8], question: &[u8], union: &[u8]) -> Result<(), Refusal>
    ensures { Checked rules.now question.now union.now (number_in result) }
{
    let partners = default_partners();
    let mut table = [0u64; MOST_RULES];
    let read = read_rules(rules, &partners, &mut table)?;
    let query = read_question(question, &partners)?;
    check_members(&table[..read.count], query, union, &partners)?;
    if asked_clashes(read.clash, query, read.helpers) {
        return Err(Refusal::HelperAsRole);
    }
    Ok(())
}

// Draws the answers of an accepted union from facts into the list: the first refusal of 1, 2, 17, 3 to 13, 18 and 14 that applies, or the
// count. With the count the list holds exactly the tuples of registered objects that the question finds in some round from the facts under
// the rules as written, ascending, and zeros after them; on a refusal it is all zeros.
pub fn answer(
    rules: &[u8],
    question: &[u8],
    union: &[u8],
    facts: &[u8],
    list: &mut [u8],
) -> Result<u64, Refusal>
    ensures { Drawn rules.now question.now union.now facts.now
        (length list.old) (number_in result) (count_in result) list.new }
{
    let partners = default_partners();
    let mut table = [0u64; MOST_RULES];
    let read = match read_rules(rules, &partners, &mut table) {
        Ok(read) => read,
        Err(refusal) => return refuse(refusal, list),
    };
    let query = match read_question(question, &partners) {
        Ok(query) => query,
        Err(refusal) => return refuse(refusal, list),
    };
    let asked = RuleSheet {
        clash: asked_clashes(read.clash, query, read.helpers),
        ..read
    };
    draw_members(
        &table[..read.count],
        asked,
        query,
        union,
        facts,
        &partners,
        list,
    )
}

// The part of the caller's sheet that holds the question of member m; an empty part if the sheet meets 6 on its own or has no such member.
pub fn member<'a>(sheet: &'a [u8], m: usize) -> &'a [u8]
    ensures { result.now ≡ the_part sheet.now m }
{
    let partners = default_partners();
    read_shown::member(sheet, m, &partners)
}
