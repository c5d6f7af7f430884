// The part of a union sheet that holds a member's question.
#![tactic(auto)]

ghost use Rattle.std.specs.Prelude.{◌≡◌, ◌≤◌, length};
ghost use Rattle.words.specs.Limits.{sheet_width, most_union_bytes};
ghost use Rattle.sheets.specs.Format.{member_start};
ghost use Rattle.sheets.specs.Showing.{has_member, member_part, Placed};

use read_question::{question_length, term_count};
use read_walk::{member_count, member_end, union_sound};
use words::limits::{COUNT_BYTES, STEP_BYTES};

// Where member m begins, which lies within the sheet.
fn member_start(s: &[u8], m: usize) -> usize
    requires { (length s.now ≤ most_union_bytes sheet_width) × (member_start sheet_width s.now m ≤ length s.now) }
    ensures { result ≡ member_start sheet_width s.now m }
{
    let mut at: usize = COUNT_BYTES;
    for _earlier in 0..m {
        at = member_end(s, at);
    }
    at
}

// Whether the sheet doesn't meet 6 on its own, and has a member m.
fn has_member(s: &[u8], m: usize, partners: &[u16]) -> bool
    ensures { result ≡ has_member partners.now sheet_width s.now m }
{
    let first = COUNT_BYTES + STEP_BYTES;
    s.len() > first && union_sound(s, partners, term_count(s, first)) && m < member_count(s)
}

// The place of a part of a sheet: its first byte, 0 for an empty part, as the C interface gives it, and its length.
#[derive(Clone, Copy)]
pub struct Place {
    pub start: usize,
    pub length: usize,
}

// The place of the part that holds the question of member m; an empty part if the sheet meets 6 on its own or has no such member.
pub fn member_place(sheet: &[u8], m: usize, partners: &[u16]) -> Place
    ensures { Placed partners.now sheet_width sheet.now m result.start result.length }
{
    if has_member(sheet, m, partners) {
        let start = member_start(sheet, m) + STEP_BYTES;
        let length = question_length(sheet, start);
        Place { start, length }
    } else {
        Place {
            start: 0,
            length: 0,
        }
    }
}

// That part.
pub fn member<'a>(sheet: &'a [u8], m: usize, partners: &[u16]) -> &'a [u8]
    ensures { result.now ≡ member_part partners.now sheet_width sheet.now m }
{
    let place = member_place(sheet, m, partners);
    let from = place.start;
    let to = from + place.length;
    &sheet[from..to]
}
