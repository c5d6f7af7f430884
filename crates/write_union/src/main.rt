// The program that writes a union (02, T-02): reads rules and question from the folder that it is run in, and hands the union's bytes to
// standard output. On a refusal nothing goes there, and `refused N` goes to standard error.
#![tactic(auto)]

ghost use Rattle.program_files.specs.Files.{Output, ErrorLine};

use program_files::{fail, read_two_files};
use program_union::put_output;
use std::io::{Eprint, Print};
use words::limits::{MOST_QUESTION_BYTES, MOST_RULE_BYTES, MOST_UNION_BYTES};

// A buffer for each file has one byte more than the file's limit: a longer file fills it, and is refused for its length.
const RULES: usize = MOST_RULE_BYTES + 1;

const QUESTION: usize = MOST_QUESTION_BYTES + 1;

// Room for the longest line for a refusal.
const TEXT: usize = 33;

// Hands the union's bytes to standard output, in one go. No contract can say what is written.
fn hand_out(rt: &(impl Print + Eprint), bytes: &[u8])
    requires { Output bytes.now }
{
    if let Err(error) = rt.write_all(bytes) {
        fail(rt, "standard output", error);
    }
}

// Says on standard error which refusal it was. Where standard error takes nothing, nobody is left to be told.
fn say_refused(rt: &HostRuntime, text: &[u8])
    requires { ErrorLine text.now }
{
    let _ = Print::write_all(&rt.stderr(), text);
}

// Writes the union for the two files; nothing where one of them is there and can't be read.
fn main(rt: HostRuntime) {
    let mut rules = [0u8; RULES];
    let mut question = [0u8; QUESTION];
    if let Some(read) = read_two_files(&rt, &mut rules, &mut question) {
        let mut sheet = [0u8; MOST_UNION_BYTES];
        let mut text = [0u8; TEXT];
        let out = put_output(&rules, &question, read, &mut sheet, &mut text);
        hand_out(&rt, &sheet[..out.output]);
        say_refused(&rt, &text[..out.error]);
    }
}
