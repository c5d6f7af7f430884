// The program: reads the four sheets from the folder that it is run in, and prints the answers (01, "The program and its cards").
#![tactic(auto)]

ghost use Rattle.program_files.specs.Files.{Printable};

use program_files::{fail, read_files};
use program_text::put_files;
use std::io::{Eprint, Print};
use words::limits::{MOST_FACT_BYTES, MOST_QUESTION_BYTES, MOST_RULE_BYTES, MOST_UNION_BYTES};

// A buffer for each file has one byte more than the file's limit: a longer file fills it, and is refused for its length.
const RULES: usize = MOST_RULE_BYTES + 1;

const QUESTION: usize = MOST_QUESTION_BYTES + 1;

const UNION: usize = MOST_UNION_BYTES + 1;

const FACTS: usize = MOST_FACT_BYTES + 1;

// Room for the longest text: a first line of at most 30 bytes, and three bytes for each byte of the answer list.
const TEXT: usize = 49182;

// Prints a text, in one go. Nothing else writes to standard output, and no contract can say what is written.
fn print(rt: &(impl Print + Eprint), text: &[u8])
    requires { Printable text.now }
{
    if let Err(error) = rt.write_all(text) {
        fail(rt, "standard output", error);
    }
}

// Prints the text for the four files; nothing where one of them is there and can't be read.
fn main(rt: HostRuntime) {
    let mut rules = [0u8; RULES];
    let mut question = [0u8; QUESTION];
    let mut union = [0u8; UNION];
    let mut facts = [0u8; FACTS];
    if let Some(read) = read_files(&rt, &mut rules, &mut question, &mut union, &mut facts) {
        let mut text = [0u8; TEXT];
        let n = put_files(&rules, &question, &union, &facts, read, &mut text);
        print(&rt, &text[..n]);
    }
}
