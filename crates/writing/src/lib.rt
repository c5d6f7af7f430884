// 02, T-02, "Our own unions": the entry that writes a union for rules and a question into a lent sheet.
#![tactic(auto)]

ghost use Rattle.std.specs.Prelude.{length};
ghost use Rattle.words.specs.Refusals.{number_in};
ghost use Rattle.promises.specs.Writing.{UnionWritten};
ghost use Rattle.write_stage.specs.Counted.{count_written, size_written};

use read_helpers::asked_clashes;
use read_question::read_question;
use read_records::partners::default_partners;
use read_rules::read_rules;
use words::limits::MOST_RULES;
use words::refusals::Refusal;
use write_stage::{Written, refuse_writing, write_read};

// Writes the union for rules and question into the sheet: the first refusal of 1, 2, 17, 3 to 5, 18, 15 and 16 that applies, or the count
// of members and the length in bytes. With them the union is one that `check` accepts, and the bytes after it are zero; on a refusal all
// bytes are.
pub fn write(rules: &[u8], question: &[u8], sheet: &mut [u8]) -> Result<Written, Refusal>
    ensures { UnionWritten rules.now question.now (length sheet.old)
        (number_in result) (count_written result) (size_written result) sheet.new }
{
    let partners = default_partners();
    let mut table = [0u64; MOST_RULES];
    let read = match read_rules(rules, &partners, &mut table) {
        Ok(read) => read,
        Err(refusal) => return refuse_writing(refusal, sheet),
    };
    let query = match read_question(question, &partners) {
        Ok(query) => query,
        Err(refusal) => return refuse_writing(refusal, sheet),
    };
    if asked_clashes(read.clash, query, read.helpers) {
        return refuse_writing(Refusal::HelperAsRole, sheet);
    }
    write_read(&table[..read.count], query, sheet)
}
