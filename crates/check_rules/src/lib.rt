// The words of a rule table, each once.
#![tactic(auto)]

ghost use Rattle.std.specs.Prelude.{◌≡◌, ◌+◌, ◌≤◌, ◌<◌, length};
ghost use Rattle.check_chains.specs.Chains.{places, index_words};
ghost use Rattle.check_rules.specs.SameWords.{OnlyIfAmong, SameWords};

use check_chains::{INDEX_WORDS, PLACES, number_before, place, put};

// A number that all bits of a rule's word decide. The words so far are chained by it; what is promised needs nothing of these chains: a
// word that they do not lead to counts as new.
fn code(word: u64) -> u64 {
    word % 0x1_0000_0000 * 2654435761 / 0x80_0000
}

// Whether the word is found among the first n by the chains.
fn found(word: u64, words: &[u64], n: usize, chains: &[u16]) -> bool
    requires { (n ≤ length words.now) × (n ≤ places) × (length chains.now ≡ index_words) }
    ensures { OnlyIfAmong word words.now n result }
{
    let mut at = number_before(chains[place(code(word))]);
    while let Some(j) = at {
        if n <= j {
            return false;
        }
        if words[j] == word {
            return true;
        }
        at = number_before(chains[PLACES + j]).filter(|next| *next < j);
    }
    false
}

// Takes rule k into the words, unless it is found among them. The number of words then, beside a table that is lent: there is no heap.
fn take(rules: &[u64], k: usize, words: &mut [u64], m: usize, chains: &mut [u16]) -> usize
    requires { (k < length rules.now) × (k < places) × (places ≤ length words.old) × (length chains.old ≡ index_words)
        × SameWords rules.now k words.old m }
    ensures { SameWords rules.now (k + 1) words.new result }
{
    let word = rules[k];
    if found(word, words, m, chains) {
        return m;
    }
    words[m] = word;
    put(code(word), m, chains);
    m + 1
}

// Puts the words of the rule table into the other, a word that stands there already passed over. Their number.
pub fn distinct(rules: &[u64], words: &mut [u64]) -> usize
    requires { (length rules.now ≤ places) × (places ≤ length words.old) }
    ensures { SameWords rules.now (length rules.now) words.new result }
{
    let mut chains = [0u16; INDEX_WORDS];
    let mut m: usize = 0;
    for k in 0..rules.len() {
        m = take(rules, k, words, m, &mut chains);
    }
    m
}
