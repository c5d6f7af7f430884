// What the program `write_union` writes for two sheets: the union's bytes, or the line for a refusal.
#![tactic(auto)]

ghost use Rattle.std.specs.Prelude.{◌≡◌, ◌≤◌, length, take};
ghost use Rattle.words.specs.Refusals.{code};
ghost use Rattle.promises.specs.Output.{sheet_room, error_room, error_line, output_for, error_for};
ghost use Rattle.program_files.specs.Files.{TwoFilled, OutputOf};
ghost use Rattle.promises.specs.Counts.{IsPrefixLen};

use program_files::TwoLengths;
use report::put_drawn;
use words::refusals::Refusal;
use writing::write;

// How many bytes go to standard output, and how many to standard error.
#[derive(Clone, Copy)]
pub struct OutputLengths {
    pub output: usize,
    pub error: usize,
}

// The line for a refusal at the start of `text`, and its length.
fn put_refusal(refusal: Refusal, text: &mut [u8]) -> usize
    requires { error_room ≤ length text.old }
    ensures text { take result text.new ≡ error_line (code refusal) }
    ensures within { IsPrefixLen result text.new }
{
    put_drawn(Err(refusal), 0, &[], text)
}

// Writes the union into the sheet, or the line for a refusal into `text`; how much of each goes out.
fn put_written(rules: &[u8], question: &[u8], sheet: &mut [u8], text: &mut [u8]) -> OutputLengths
    requires { (length sheet.old ≡ sheet_room) × (error_room ≤ length text.old) }
    ensures output { (take result.output sheet.new ≡ output_for rules.now question.now)
        × IsPrefixLen result.output sheet.new }
    ensures error { (take result.error text.new ≡ error_for rules.now question.now)
        × IsPrefixLen result.error text.new }
{
    match write(rules, question, sheet) {
        Ok(written) => OutputLengths {
            output: written.length,
            error: 0,
        },
        Err(refusal) => OutputLengths {
            output: 0,
            error: put_refusal(refusal, text),
        },
    }
}

// Writes what goes out for the two files that were read: the union into the sheet, the line for a refusal into `text`. Each buffer has room
// for one byte beyond its file's limit, which also tells them apart.
pub fn put_output(
    rules: &[u8],
    question: &[u8],
    read: TwoLengths,
    sheet: &mut [u8],
    text: &mut [u8],
) -> OutputLengths
    requires two_filled { TwoFilled rules.now read.rules question.now read.question }
    requires sheet_len { (length sheet.old ≡ sheet_room) × (error_room ≤ length text.old) }
    ensures output { OutputOf rules.now read.rules question.now read.question
        (take result.output sheet.new) (take result.error text.new) }
    ensures within { IsPrefixLen result.output sheet.new × IsPrefixLen result.error text.new }
{
    put_written(
        &rules[..read.rules],
        &question[..read.question],
        sheet,
        text,
    )
}
