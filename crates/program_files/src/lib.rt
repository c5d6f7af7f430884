// The sheets from their files.
#![tactic(auto)]

ghost use Rattle.std.specs.Prelude.{◌≤◌, true, false, length, IfOk, OnErr};
ghost use Rattle.program_files.specs.Files.{Reads, Grown, Taken, Rooms, Filled, TwoRooms, TwoFilled};
ghost use Rattle.program_files.specs.Read.{length_in, lengths_in, two_lengths_in};

mod failure;

pub use failure::fail;
use std::fs::{File, Files};
use std::io;
use std::io::{Eprint, ErrorKind, Read};

// One read behind the first `done` bytes of the buffer, which stay. No contract can say which bytes a read brings.
fn read_more(file: &mut impl Read, sheet: &mut [u8], done: usize) -> io::Result<usize>
    requires { done ≤ length sheet.old }
    ensures ok { IfOk result (λ n. Grown sheet.old done sheet.new true n) }
    ensures err { OnErr result (Grown sheet.old done sheet.new false 0) }
{
    let part = &mut sheet[done..];
    file.read(part)
}

// Reads until the file ends or the buffer is full. A read may hand over fewer bytes than there are, so only a read of none is the end.
fn read_on(file: &mut impl Read, sheet: &mut [u8]) -> io::Result<usize>
    ensures ok { IfOk result (λ n. Taken sheet.old sheet.new n) }
    ensures err { OnErr result (Taken sheet.old sheet.new 0) }
{
    let mut done: usize = 0;
    while done < sheet.len() {
        let n = read_more(file, sheet, done)?;
        if n == 0 {
            break;
        }
        done += n;
    }
    Ok(done)
}

// Reads the file of that name. "An absent file is empty"; one that can't be read is no sheet at all, and standard error says why.
fn read_sheet<R: Files + Eprint>(rt: &R, name: &str, sheet: &mut [u8]) -> Option<usize>
    requires { Reads name.now sheet.old }
    ensures { Taken sheet.old sheet.new (length_in result) }
{
    let mut file = match File::open(rt, name) {
        Ok(file) => file,
        Err(error) => {
            if error.kind() == ErrorKind::NotFound {
                return Some(0);
            }
            fail(rt, name, error);
            return None;
        }
    };
    match read_on(&mut file, sheet) {
        Ok(length) => Some(length),
        Err(error) => {
            fail(rt, name, error);
            None
        }
    }
}

// How many bytes were read of each file.
#[derive(Clone, Copy)]
pub struct Lengths {
    pub rules: usize,
    pub question: usize,
    pub union: usize,
    pub facts: usize,
}

// Reads the four files, as far as the first that can't be read.
pub fn read_files<R: Files + Eprint>(
    rt: &R,
    rules: &mut [u8],
    question: &mut [u8],
    union: &mut [u8],
    facts: &mut [u8],
) -> Option<Lengths>
    requires { Rooms rules.old question.old union.old facts.old }
    ensures { Filled rules.new (lengths_in result).rules question.new (lengths_in result).question
        union.new (lengths_in result).union facts.new (lengths_in result).facts }
{
    Some(Lengths {
        rules: read_sheet(rt, "rules.bin", rules)?,
        question: read_sheet(rt, "question.bin", question)?,
        union: read_sheet(rt, "union.bin", union)?,
        facts: read_sheet(rt, "facts.bin", facts)?,
    })
}

// How many bytes were read of the rules and of the question.
#[derive(Clone, Copy)]
pub struct TwoLengths {
    pub rules: usize,
    pub question: usize,
}

// Reads the first two files, as far as the first that can't be read.
pub fn read_two_files<R: Files + Eprint>(
    rt: &R,
    rules: &mut [u8],
    question: &mut [u8],
) -> Option<TwoLengths>
    requires { TwoRooms rules.old question.old }
    ensures { TwoFilled rules.new (two_lengths_in result).rules question.new (two_lengths_in result).question }
{
    Some(TwoLengths {
        rules: read_sheet(rt, "rules.bin", rules)?,
        question: read_sheet(rt, "question.bin", question)?,
    })
}
