// A union in a table of members, written to a lent sheet: its packed bytes, and zeros after them.
#![tactic(auto)]

pub mod numbers;
pub mod questions;

ghost use Rattle.std.specs.Prelude.{◌≡◌, ◌+◌, ◌*◌, ◌≤◌, length};
ghost use Rattle.words.specs.Limits.{sheet_width, most_members, most_union_bytes, count_bytes};
ghost use Rattle.words.specs.Words.{union_in, stride};
ghost use Rattle.words.specs.Rows.{Row, Rows, row_at, member_in};
ghost use Rattle.sheets.specs.Packing.{pack_member, pack_union, union_sheet};
ghost use Rattle.write_sheet.specs.PutAt.{put_at, members_bytes};

use answer_bytes::moves::clear;
use numbers::put_number;
use questions::{packed_length, put_question};
use words::limits::{COUNT_BYTES, MEMBER_WORDS, STEP_BYTES};
use words::rows::load;

// How many bytes the union in the table's first n rows has when it is packed.
pub fn union_length(table: &[u64], n: usize) -> usize
    requires { (n ≤ most_members) × Rows table.now n }
    ensures { (result ≡ length (pack_union sheet_width (union_in table.now n))) × (result ≤ most_union_bytes sheet_width) }
{
    let mut total: usize = COUNT_BYTES;
    for j in 0..n {
        total += STEP_BYTES + packed_length(load(table, j));
    }
    total
}

// Puts member j at `at`: its step and its question. Gives where it ends.
fn put_member(table: &[u64], j: usize, sheet: &mut [u8], at: usize) -> usize
    requires { (stride * j + stride ≤ length table.now) × Row (row_at table.now j)
        × (at + length (pack_member sheet_width (member_in table.now j)) ≤ length sheet.old) }
    ensures { (sheet.new ≡ put_at sheet.old at (pack_member sheet_width (member_in table.now j)))
        × (result ≡ at + length (pack_member sheet_width (member_in table.now j))) }
{
    let q = load(table, j);
    let from = at + STEP_BYTES;
    put_number(sheet, at, STEP_BYTES, table[MEMBER_WORDS * j] % 0x100000000);
    put_question(sheet, from, q);
    from + packed_length(q)
}

// Puts the members in the table's first n rows behind the count, one after another. Gives where the last one ends.
fn put_members(table: &[u64], n: usize, sheet: &mut [u8]) -> usize
    requires { Rows table.now n × (count_bytes + length (members_bytes table.now n) ≤ length sheet.old) }
    ensures { (sheet.new ≡ put_at sheet.old count_bytes (members_bytes table.now n))
        × (result ≡ count_bytes + length (members_bytes table.now n)) }
{
    let mut at: usize = COUNT_BYTES;
    for j in 0..n {
        at = put_member(table, j, sheet, at);
    }
    at
}

// Puts the union in the table's first n rows at the beginning of the sheet, and zeros after it.
pub fn put_union(table: &[u64], n: usize, sheet: &mut [u8])
    requires { (n ≤ most_members) × Rows table.now n
        × (length (pack_union sheet_width (union_in table.now n)) ≤ length sheet.old) }
    ensures { sheet.new ≡ union_sheet sheet_width (length sheet.old) (union_in table.now n) }
{
    put_number(sheet, 0, COUNT_BYTES, n as u64);
    let end = put_members(table, n, sheet);
    clear(&mut sheet[end..]);
}
