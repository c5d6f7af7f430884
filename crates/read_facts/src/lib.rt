// Facts: which records are sound, a fact as read in a word, and a sheet's facts read into a table.
#![tactic(auto)]

ghost use Rattle.std.specs.Prelude.{◌≡◌, true, ◌/◌, ◌≤◌, ◌<◌, length};
ghost use Rattle.theory.specs.Lists.{all};
ghost use Rattle.words.specs.FactWords.{FactWord};
ghost use Rattle.words.specs.Limits.{sheet_width, object_bound, name_bound, sheet_record_bound, most_facts, record_bytes};
ghost use Rattle.words.specs.Records.{fact_name, fact_of};
ghost use Rattle.words.specs.Refusals.{number_in, count_in};
ghost use Rattle.words.specs.Words.{word_fact};
ghost use Rattle.sheets.specs.Format.{fact_records};
ghost use Rattle.sheets.specs.Partners.{is_higher, atom_as_read};
ghost use Rattle.sheets.specs.Tests.{fact_sound};
ghost use Rattle.read_facts.specs.FactSheets.{FactsRead, HoldsFacts, Widened, HasFields};

use read_fields::bytes::six;
use read_fields::fields::{fact_first, fact_kind, fact_name, fact_second, fact_zeros};
use read_records::partners::{is_higher, lower};
use words::limits::{FACT_BYTES, MOST_FACT_BYTES};
use words::refusals::Refusal;

// Whether the record's three zero bits are zero, and a concept's second object too; no branch goes by the kind, which is hard to foresee.
fn fact_sound(x: u64) -> bool
    ensures { result ≡ fact_sound sheet_width x }
{
    let zeros = fact_zeros(x);
    let kind = fact_kind(x);
    let second = fact_second(x);
    (zeros == 0) & ((kind == 1) | (second == 0))
}

// The word of a fact: kind 1 bit, 3 zero bits, number 12, two objects of 24.
fn word(kind: u64, number: u64, first: u64, second: u64) -> u64
    requires { (kind < 2) × (number < name_bound) × (first < object_bound) × (second < object_bound) }
    ensures { HasFields kind number first second result }
{
    kind * 0x8000_0000_0000_0000 + number * 0x1_0000_0000_0000 + first * 0x100_0000 + second
}

// The record with 24 bits for each object in place of 16.
fn widened(x: u64) -> u64
    requires { x < sheet_record_bound }
    ensures { Widened x result }
{
    x / 0x1_0000_0000 * 0x1_0000_0000_0000 + x / 0x1_0000 % 0x1_0000 * 0x100_0000 + x % 0x1_0000
}

// The word of a record's fact as read, whose number is the higher of two partners: a role's becomes the lower, with the objects exchanged.
fn higher_word(x: u64, partners: &[u16]) -> u64
    requires { is_higher partners.now (fact_name sheet_width x) ≡ true }
    ensures { (word_fact result ≡ atom_as_read partners.now (fact_of sheet_width x)) × FactWord result }
{
    let number = fact_name(x);
    let first = fact_first(x);
    if fact_kind(x) == 0 {
        word(0, number, first, 0)
    } else {
        let read = lower(partners, number);
        word(1, read, fact_second(x), first)
    }
}

// The word of a sound record's fact as read: the record with wider objects, but for the higher of two partners. No branch goes by the
// kind.
fn fact_word(x: u64, partners: &[u16]) -> u64
    requires { (x < sheet_record_bound) × (fact_sound sheet_width x ≡ true) }
    ensures { (word_fact result ≡ atom_as_read partners.now (fact_of sheet_width x)) × FactWord result }
{
    if is_higher(partners, fact_name(x)) {
        higher_word(x, partners)
    } else {
        widened(x)
    }
}

// Puts the sheet's facts as read into the first words of the table, as long as its records are sound; tells whether all are.
fn fill_facts(s: &[u8], partners: &[u16], table: &mut [u64]) -> bool
    requires { length s.now / record_bytes sheet_width ≤ length table.old }
    ensures { (length table.new ≡ length table.old)
        × (result ≡ all (fact_sound sheet_width) (fact_records sheet_width s.now))
        × (result ≡ true → HoldsFacts partners.now s.now table.new) }
{
    for i in 0..s.len() / FACT_BYTES {
        let x = six(s, FACT_BYTES * i);
        if !fact_sound(x) {
            return false;
        }
        table[i] = fact_word(x, partners);
    }
    true
}

// Reads the fact sheet into the table: the number of facts, or the sheet's first refusal.
pub fn read_facts(s: &[u8], partners: &[u16], table: &mut [u64]) -> Result<usize, Refusal>
    requires { most_facts ≤ length table.old }
    ensures kept { length table.new ≡ length table.old }
    ensures facts { FactsRead partners.now s.now table.new (number_in result) (count_in result) }
{
    if s.len() % FACT_BYTES != 0 {
        return Err(Refusal::FactSheetLength);
    }
    if s.len() > MOST_FACT_BYTES {
        return Err(Refusal::FactSheetLength);
    }
    if !fill_facts(s, partners, table) {
        return Err(Refusal::FactMalformed);
    }
    Ok(s.len() / FACT_BYTES)
}
