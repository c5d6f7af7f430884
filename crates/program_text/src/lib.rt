// The text that the program prints for four sheets.
#![tactic(auto)]

ghost use Rattle.std.specs.Prelude.{◌≡◌, ◌/◌, ◌≤◌, length, take, get_or};
ghost use Rattle.promises.specs.Text.{list_room, text_room, text_for};
ghost use Rattle.program_files.specs.Files.{Filled, TextOf};
ghost use Rattle.promises.specs.Counts.{IsPrefixLen};

use answering::answer;
use program_files::Lengths;
use report::put_drawn;

// "Its answer list has 16,384 bytes."
const LIST: usize = 16384;

// How many answer terms the question has, by its first byte.
fn term_count(question: &[u8]) -> usize
    ensures { result ≡ get_or question.now 0 0 / 16 }
{
    match question.first() {
        Some(first) => usize::from(*first) / 16,
        None => 0,
    }
}

// Draws the answers into the list, and puts the program's text for them at the start of `text`; returns its length.
fn put_answers(
    rules: &[u8],
    question: &[u8],
    union: &[u8],
    facts: &[u8],
    list: &mut [u8],
    text: &mut [u8],
) -> usize
    requires { (length list.old ≡ list_room) × (text_room ≤ length text.old) }
    ensures text { take result text.new
        ≡ text_for rules.now question.now union.now facts.now }
    ensures within { IsPrefixLen result text.new }
{
    let drawn = answer(rules, question, union, facts, list);
    put_drawn(drawn, term_count(question), list, text)
}

// Puts the text for the four files that were read at the start of `text`, and returns its length. Each buffer has room for one byte
// beyond its file's limit, which also tells them apart: with two of them exchanged the `requires` fails.
pub fn put_files(
    rules: &[u8],
    question: &[u8],
    union: &[u8],
    facts: &[u8],
    read: Lengths,
    text: &mut [u8],
) -> usize
    requires filled { Filled rules.now read.rules question.now read.question union.now read.union facts.now read.facts }
    requires text_room_in_bounds { text_room ≤ length text.old }
    ensures text { TextOf rules.now read.rules question.now read.question
        union.now read.union facts.now read.facts (take result text.new) }
    ensures within { IsPrefixLen result text.new }
{
    let mut list = [0u8; LIST];
    put_answers(
        &rules[..read.rules],
        &question[..read.question],
        &union[..read.union],
        &facts[..read.facts],
        &mut list,
        text,
    )
}
