// The library for C and Rust: one export for each entry, with its promise. Each sheet is handed over as pointer and length, and what an
// entry gives is handed back with the number of its refusal, or 0.
#![tactic(auto)]

ghost use Rattle.std.specs.Prelude.{◌≡◌, length};
ghost use Rattle.words.specs.Refusals.{number_in, count_in};
ghost use Rattle.promises.specs.Checking.{Checked};
ghost use Rattle.promises.specs.Drawing.{Drawn};
ghost use Rattle.promises.specs.Explaining.{Explained};
ghost use Rattle.promises.specs.Renaming.{Renamed};
ghost use Rattle.promises.specs.Showing.{Shown};
ghost use Rattle.promises.specs.Writing.{UnionWritten};
ghost use Rattle.write_stage.specs.Counted.{count_written, size_written};
ghost use Rattle.comparing.specs.HandedBack.{found_in, targets_in};

use answering::{answer, check};
use comparing::rename;
use explaining::explain;
use query_renaming::search::Renaming;
use read_records::partners::default_partners;
use read_shown::member_place;
use words::refusals::Refusal;
use write_stage::Written as Union;
use writing::write;

// `check`.
#[unsafe(no_mangle)]
pub extern "C" fn takwishan_check(rules: &[u8], question: &[u8], union: &[u8]) -> u32
    ensures { Checked rules.now question.now union.now result }
{
    match check(rules, question, union) {
        Ok(()) => 0,
        Err(refusal) => u32::from(refusal),
    }
}

// What a call that draws answers or explains one gives beside the list: how many answers or steps the list has.
#[repr(C)]
#[derive(Clone, Copy)]
pub struct Counted {
    pub number: u32,
    pub count: u64,
}

// What was counted, for C.
impl From<Result<u64, Refusal>> for Counted {
    ghost from_gives = { λ given c. (c.number ≡ number_in given) × (c.count ≡ count_in given) };

    fn from(given: Result<u64, Refusal>) -> Counted {
        match given {
            Ok(count) => Counted { number: 0, count },
            Err(refusal) => Counted {
                number: u32::from(refusal),
                count: 0,
            },
        }
    }
}

// `answer`.
#[unsafe(no_mangle)]
pub extern "C" fn takwishan_answer(
    rules: &[u8],
    question: &[u8],
    union: &[u8],
    facts: &[u8],
    list: &mut [u8],
) -> Counted
    ensures { Drawn rules.now question.now union.now facts.now
        (length list.old) result.number result.count list.new }
{
    Counted::from(answer(rules, question, union, facts, list))
}

// What a call that writes a union gives beside the sheet: how many members there are, and how many bytes.
#[repr(C)]
#[derive(Clone, Copy)]
pub struct Written {
    pub number: u32,
    pub count: u64,
    pub length: u64,
}

// What was written, for C.
impl From<Result<Union, Refusal>> for Written {
    ghost from_gives = { λ given w. (w.number ≡ number_in given) × (w.count ≡ count_written given) × (w.length ≡ size_written given) };

    fn from(given: Result<Union, Refusal>) -> Written {
        match given {
            Ok(union) => Written {
                number: 0,
                count: union.count as u64,
                length: union.length as u64,
            },
            Err(refusal) => Written {
                number: u32::from(refusal),
                count: 0,
                length: 0,
            },
        }
    }
}

// `write`.
#[unsafe(no_mangle)]
pub extern "C" fn takwishan_write(rules: &[u8], question: &[u8], sheet: &mut [u8]) -> Written
    ensures { UnionWritten rules.now question.now (length sheet.old)
        result.number result.count result.length sheet.new }
{
    Written::from(write(rules, question, sheet))
}

// What a call that compares questions hands back: 1 where there is a renaming, and where each variable of the first question goes.
#[repr(C)]
#[derive(Clone, Copy)]
pub struct Handed {
    pub number: u32,
    pub found: u32,
    pub targets: [u8; 32],
}

// A renaming, for C: none for a refusal.
impl From<Result<Renaming, Refusal>> for Handed {
    ghost from_gives = { λ given h. (h.number ≡ number_in given) × (h.found ≡ found_in given) × (h.targets ≡ targets_in given) };

    fn from(given: Result<Renaming, Refusal>) -> Handed {
        match given {
            Ok(renaming) => {
                let targets = renaming.targets;
                Handed {
                    number: 0,
                    found: u32::from(renaming.found),
                    targets,
                }
            }
            Err(refusal) => Handed {
                number: u32::from(refusal),
                found: 0,
                targets: [32; 32],
            },
        }
    }
}

// `rename`.
#[unsafe(no_mangle)]
pub extern "C" fn takwishan_rename(first: &[u8], second: &[u8]) -> Handed
    ensures { Renamed first.now second.now result.number result.found result.targets }
{
    Handed::from(rename(first, second))
}

// `explain`.
#[unsafe(no_mangle)]
pub extern "C" fn takwishan_explain(
    rules: &[u8],
    question: &[u8],
    union: &[u8],
    facts: &[u8],
    tuple: &[u8],
    steps: &mut [u8],
) -> Counted
    ensures { Explained rules.now question.now union.now facts.now
        tuple.now (length steps.old) result.number result.count steps.new }
{
    Counted::from(explain(rules, question, union, facts, tuple, steps))
}

// Where a part of a sheet begins, and how many bytes it has.
#[repr(C)]
#[derive(Clone, Copy)]
pub struct Part {
    pub start: usize,
    pub length: usize,
}

// The place of the part that `member` hands back: where it begins, 0 for an empty part, and its length.
#[unsafe(no_mangle)]
pub extern "C" fn takwishan_member(sheet: &[u8], m: usize) -> Part
    ensures { Shown sheet.now m result.start result.length }
{
    let partners = default_partners();
    let place = member_place(sheet, m, &partners);
    Part {
        start: place.start,
        length: place.length,
    }
}
