// The walk over a union sheet, member after member: where each ends, and whether it is sound. Refusal 6.
#![tactic(auto)]

ghost use Rattle.std.specs.Prelude.{◌≡◌, true, false, not, ◌&&◌, ◌+◌, ◌≤◌, eqb, length, MatchOption};
ghost use Rattle.theory.specs.Lists.{all, numbers};
ghost use Rattle.words.specs.Limits.{sheet_width, count_bytes, step_bytes, most_union_bytes};
ghost use Rattle.sheets.specs.Format.{question_length, member_start, member_count};
ghost use Rattle.sheets.specs.Tests.{member_sound_at, member_sound, refuses6};
ghost use Rattle.read_question.specs.QuestionWords.{longest_counted};
ghost use Rattle.read_walk.specs.Ends.{member_end, whole_and_sound};

use read_fields::bytes::two;
use read_question::{missing_answer, question_length, question_sound, read_query, repeated_atom};
use words::limits::{COUNT_BYTES, MOST_MEMBERS, MOST_UNION_BYTES, STEP_BYTES};

// How many members the sheet says that it has.
pub fn member_count(s: &[u8]) -> usize
    requires { count_bytes ≤ length s.now }
    ensures { result ≡ member_count s.now }
{
    two(s, 0) as usize
}

// Where the member that begins at `at` ends, whether the sheet goes on so far or not.
pub fn member_end(s: &[u8], at: usize) -> usize
    requires { (at ≤ length s.now) × (length s.now ≤ most_union_bytes sheet_width) }
    ensures { (result ≡ member_end s.now at) × (result ≤ most_union_bytes sheet_width + step_bytes + longest_counted) }
{
    let question = at + STEP_BYTES;
    if question < s.len() {
        question + question_length(s, question)
    } else {
        question + 1
    }
}

// Whether the question at `at`, which ends within the sheet, may be a member's: it meets none of 3 to 5, and has so many answer terms.
fn member_sound(s: &[u8], at: usize, arity: usize, partners: &[u16]) -> bool
    requires { at + question_length sheet_width s.now at ≤ length s.now }
    ensures { result ≡ member_sound_at partners.now sheet_width arity s.now at }
{
    if !question_sound(s, at) {
        return false;
    }
    let q = read_query(s, at, partners);
    !missing_answer(q) && !repeated_atom(q) && q.terms == arity
}

// Where the member that begins at `at` ends, if it ends within the sheet and is sound.
fn checked_end(s: &[u8], at: usize, arity: usize, partners: &[u16]) -> Option<usize>
    requires { (at ≤ length s.now) × (length s.now ≤ most_union_bytes sheet_width) }
    ensures { MatchOption result (whole_and_sound partners.now arity s.now at ≡ false)
        (λ end. (end ≡ member_end s.now at) × (whole_and_sound partners.now arity s.now at ≡ true)) }
{
    let end = member_end(s, at);
    if s.len() < end {
        return None;
    }
    member_sound(s, at + STEP_BYTES, arity, partners).then_some(end)
}

// Whether the sheet is `count` sound members and nothing after them.
fn members_sound(s: &[u8], partners: &[u16], arity: usize, count: usize) -> bool
    requires { (count_bytes ≤ length s.now) × (length s.now ≤ most_union_bytes sheet_width) }
    ensures { result ≡ (eqb (member_start sheet_width s.now count) (length s.now)
        && all (member_sound partners.now sheet_width arity s.now) (numbers 0 count)) }
{
    let mut at: usize = COUNT_BYTES;
    for _seen in 0..count {
        match checked_end(s, at, arity, partners) {
            Some(end) => at = end,
            None => return false,
        }
    }
    at == s.len()
}

// Whether the sheet doesn't meet 6 for a question with so many answer terms. A sheet longer than 512 members can be meets it.
pub fn union_sound(s: &[u8], partners: &[u16], arity: usize) -> bool
    ensures { result ≡ not (refuses6 partners.now sheet_width arity s.now) }
{
    match s.len() {
        COUNT_BYTES..=MOST_UNION_BYTES => {
            let count = member_count(s);
            match count {
                1..=MOST_MEMBERS => members_sound(s, partners, arity, count),
                _ => false,
            }
        }
        _ => false,
    }
}
