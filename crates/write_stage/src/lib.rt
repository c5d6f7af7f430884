// Writing once rules and question are read: the union put on the lent sheet, or 15, and else 16; a refusal, with zeros in the whole sheet.
#![tactic(auto)]

ghost use Rattle.std.specs.Prelude.{◌≡◌, ◌≤◌, length, replicate};
ghost use Rattle.theory.specs.Lists.{Unrepeated};
ghost use Rattle.theory.specs.Writing.{written_union};
ghost use Rattle.words.specs.Limits.{most_rules, most_members};
ghost use Rattle.words.specs.Words.{query_of, Small, rules_in};
ghost use Rattle.write_stage.specs.Stage.{GivesUnion};

use answer_bytes::moves::clear;
use words::QueryWords;
use words::limits::TABLE_WORDS;
use words::refusals::Refusal;
use write_members::write_members;
use write_sheet::{put_union, union_length};

// What a call that writes a union gives beside the sheet: how many members there are, and how many bytes.
#[derive(Clone, Copy)]
pub struct Written {
    pub count: usize,
    pub length: usize,
}

// A refusal, of whatever type, with zeros in the whole sheet.
pub fn refuse_writing<E>(refusal: E, sheet: &mut [u8]) -> Result<Written, E>
    ensures { (result ≡ Err refusal) × (sheet.new ≡ replicate (length sheet.old) 0) }
{
    clear(sheet);
    Err(refusal)
}

// The union of rules and question that were read, with zeros after it; or 15, and else 16.
pub fn write_read(rules: &[u64], q: QueryWords, sheet: &mut [u8]) -> Result<Written, Refusal>
    requires { (length rules.now ≤ most_rules) × Small q × Unrepeated (query_of q).atoms }
    ensures { GivesUnion (written_union most_members (rules_in rules.now (length rules.now)) (query_of q)) (length sheet.old) result
        sheet.new }
{
    let mut table = [0u64; TABLE_WORDS];
    let count = match write_members(rules, q, &mut table) {
        Ok(count) => count,
        Err(refusal) => return refuse_writing(refusal, sheet),
    };
    let length = union_length(&table, count);
    if sheet.len() < length {
        return refuse_writing(Refusal::SheetTooShort, sheet);
    }
    put_union(&table, count, sheet);
    Ok(Written { count, length })
}
