// The text of an outcome, as the program prints it (01, "The program and its cards").
#![tactic(auto)]

ghost use Rattle.std.specs.Prelude.{◌≡◌, ◌+◌, ◌*◌, ◌≤◌, ◌<◌, cond, ◌∷◌, [], ◌++◌, length, take};
ghost use Rattle.promises.specs.Report.{decimal_of, object_at, objects_at, line, lines_at, first_line, newline, space, report as report_of};
ghost use Rattle.report.specs.Put.{Put};
ghost use Rattle.promises.specs.Counts.{IsPrefixLen};
ghost use Rattle.words.specs.Refusals.{number_in, count_in};

mod number;

use number::decimal;
use words::refusals::Refusal;

// What stands behind an object in its line.
fn separator(last: bool) -> u8
    ensures { result ≡ cond last newline space }
{
    if last { b'\n' } else { b' ' }
}

// A text in a lent buffer, and where it ends.
#[derive(Drop)]
struct Text<'a> {
    out: &'a mut [u8],
    end: usize,
}

impl<'a> Text<'a> {
    // Puts the piece behind the text so far.
    fn push(&mut self, piece: &[u8])
        requires { self.old.end + length piece.now ≤ length self.old.out.now }
        ensures put { Put self.old.out.now self.old.end piece.now self.new.out.now self.new.end }
        ensures same_buffer { self.new.out.ghost_name ≡ self.old.out.ghost_name }
    {
        let to = self.end + piece.len();
        self.out[self.end..to].copy_from_slice(piece);
        self.end = to;
    }

    // Puts one byte there.
    fn push_byte(&mut self, byte: u8)
        requires { self.old.end < length self.old.out.now }
        ensures put { Put self.old.out.now self.old.end (byte ∷ []) self.new.out.now self.new.end }
        ensures same_buffer { self.new.out.ghost_name ≡ self.old.out.ghost_name }
    {
        self.out[self.end] = byte;
        self.end += 1;
    }

    // Puts a number there in decimal.
    fn push_decimal(&mut self, n: u64)
        requires { self.old.end + length (decimal_of n) ≤ length self.old.out.now }
        ensures put { Put self.old.out.now self.old.end (decimal_of n) self.new.out.now self.new.end }
        ensures same_buffer { self.new.out.ghost_name ≡ self.old.out.ghost_name }
    {
        let mut digits = [0u8; 20];
        let k = decimal(n, &mut digits);
        self.push(&digits[..k]);
    }

    // Puts the object there that stands at byte `at` of the list, and what stands behind it. Five digits are the most.
    fn push_object(&mut self, list: &[u8], at: usize, last: bool)
        requires { (at + 2 ≤ length list.now) × (self.old.end + 6 ≤ length self.old.out.now) }
        ensures put { Put self.old.out.now self.old.end (decimal_of (object_at list.now at) ++ (cond last newline space ∷ []))
            self.new.out.now self.new.end }
        ensures short { self.new.end ≤ self.old.end + 6 }
        ensures same_buffer { self.new.out.ghost_name ≡ self.old.out.ghost_name }
    {
        self.push_decimal(256 * u64::from(list[at]) + u64::from(list[at + 1]));
        self.push_byte(separator(last));
    }

    // Puts the line of one answer there: its objects in decimal with single spaces. The empty tuple has no line.
    fn push_line(&mut self, list: &[u8], at: usize, terms: usize)
        requires { (at + 2 * terms ≤ length list.now) × (self.old.end + 6 * terms ≤ length self.old.out.now) }
        ensures put { Put self.old.out.now self.old.end (line (objects_at list.now at terms)) self.new.out.now self.new.end }
        ensures short { self.new.end ≤ self.old.end + 6 * terms }
        ensures same_buffer { self.new.out.ghost_name ≡ self.old.out.ghost_name }
    {
        for k in 0..terms {
            self.push_object(list, at + 2 * k, k + 1 == terms);
        }
    }

    // Puts the lines of the list's first `count` answers there.
    fn push_lines(&mut self, list: &[u8], terms: usize, count: u64)
        requires { (2 * terms * count ≤ length list.now) × (self.old.end + 6 * terms * count ≤ length self.old.out.now) }
        ensures put { Put self.old.out.now self.old.end (lines_at list.now 0 terms count) self.new.out.now self.new.end }
        ensures same_buffer { self.new.out.ghost_name ≡ self.old.out.ghost_name }
    {
        let mut from = 0;
        for answer in 0..count {
            self.push_line(list, from, terms);
            from += 2 * terms;
        }
    }

    // Puts a first line there: a word and a number of at most 20 digits.
    fn push_first(&mut self, word: &[u8], n: u64)
        requires { (length word.now ≤ 9) × (self.old.end + 30 ≤ length self.old.out.now) }
        ensures put { Put self.old.out.now self.old.end (first_line word.now n) self.new.out.now self.new.end }
        ensures short { self.new.end ≤ self.old.end + 30 }
        ensures same_buffer { self.new.out.ghost_name ≡ self.old.out.ghost_name }
    {
        self.push(word);
        self.push_decimal(n);
        self.push_byte(b'\n');
    }
}

// Puts the whole text at the start of out and returns its length: the refusal's number; or the count, and a line for each answer. The
// number may be any, one without a `Refusal` too.
pub fn put_report(number: u32, count: u64, terms: usize, list: &[u8], out: &mut [u8]) -> usize
    requires { (number ≡ 0 → 2 * terms * count ≤ length list.now) × (30 + 3 * length list.now ≤ length out.old) }
    ensures text { take result out.new ≡ report_of number count terms list.now }
    ensures within { IsPrefixLen result out.new }
{
    let mut text = Text { out, end: 0 };
    if number != 0 {
        text.push_first(b"refused ", u64::from(number));
        return text.end;
    }
    text.push_first(b"accepted ", count);
    text.push_lines(list, terms, count);
    text.end
}

// The same of what drawing gave: a count, or a refusal.
pub fn put_drawn(drawn: Result<u64, Refusal>, terms: usize, list: &[u8], out: &mut [u8]) -> usize
    requires { (number_in drawn ≡ 0 → 2 * terms * count_in drawn ≤ length list.now) × (30 + 3 * length list.now ≤ length out.old) }
    ensures text { take result out.new ≡ report_of (number_in drawn) (count_in drawn) terms list.now }
    ensures within { IsPrefixLen result out.new }
{
    match drawn {
        Ok(count) => put_report(0, count, terms, list, out),
        Err(refusal) => put_report(u32::from(refusal), 0, terms, list, out),
    }
}
