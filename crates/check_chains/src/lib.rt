// Words chained by their place, so that those at one place are found without the others.
#![tactic(auto)]

ghost use Rattle.std.specs.Prelude.{◌≡◌, ◌+◌, ◌≤◌, ◌<◌, length, get_or, set, IfSome};
ghost use Rattle.std.proofs.Props.{props};
ghost use Rattle.check_chains.specs.Chains.{places, place_of, index_words, after, Last, Chains, Indexes, Cleared};

// How many places there are; an index has one number for each place, and one for each word.
pub const PLACES: usize = 512;

pub const INDEX_WORDS: usize = 1024;

// Fewer words are gone through: an index is worth making from so many on.
pub const MANY: usize = 16;

// Words, and an index of them where one was worth making.
#[derive(Clone, Copy)]
pub struct Chained<'a> {
    pub words: &'a [u64],
    pub index: Option<&'a [u16]>,
    pub ghost indexed: { IfSome index (λ numbers. Indexes words.now numbers.now) } by { Prim.hlevel props },
}

// The place of a word.
pub fn place(word: u64) -> usize
    ensures { (result ≡ place_of word) × (result < places) }
{
    (word % PLACES as u64) as usize
}

// Puts word j before the others of its place.
pub fn put(word: u64, j: usize, index: &mut [u16])
    requires { (j < places) × (length index.old ≡ index_words) }
    ensures { index.new
        ≡ set (set index.old (places + j) (get_or index.old (place_of word) 0)) (place_of word) (j + 1) }
{
    let at = place(word);
    index[PLACES + j] = index[at];
    index[at] = (j + 1) as u16;
}

// Chains the words.
pub fn chain(words: &[u64], index: &mut [u16])
    requires { (length words.now ≤ places) × Cleared index.old }
    ensures { (length index.new ≡ index_words) × Chains words.now (length words.now) index.new }
{
    for j in 0..words.len() {
        put(words[j], j, index);
    }
}

// The word before which an index's number stands; 0 says that there is none.
pub fn number_before(number: u16) -> Option<usize>
    ensures { after result ≡ number }
{
    usize::from(number).checked_sub(1)
}

// The last of the first `end` words that stands at the place, where there is no index.
fn last_before(words: &[u64], end: usize, at: usize) -> Option<usize>
    requires { end ≤ length words.now }
    ensures { Last words.now end at (after result) }
{
    for j in (0..end).rev() {
        if place(words[j]) == at {
            return Some(j);
        }
    }
    None
}

impl<'a> Chained<'a> {
    // Words with an index of them.
    pub fn indexed(words: &'a [u64], index: &'a [u16]) -> Self
        requires { Chains words.now (length words.now) index.now × (index_words ≤ length index.now) }
        ensures { result.words.now ≡ words.now }
    {
        Chained {
            words,
            index: Some(index),
        }
    }

    // Words without one.
    pub fn plain(words: &'a [u64]) -> Self
        ensures { result.words.now ≡ words.now }
    {
        Chained { words, index: None }
    }

    // The last word at the place of the wanted one.
    pub fn last_with(&self, wanted: u64) -> Option<usize>
        ensures { Last self.now.words.now (length self.now.words.now) (place_of wanted) (after result) }
    {
        let at = place(wanted);
        match self.index {
            Some(index) => number_before(index[at]),
            None => last_before(self.words, self.words.len(), at),
        }
    }

    // The last word before word j that stands at the same place.
    pub fn before(&self, j: usize) -> Option<usize>
        requires { j < length self.now.words.now }
        ensures { Last self.now.words.now j (place_of (get_or self.now.words.now j 0)) (after result) }
    {
        match self.index {
            Some(index) => number_before(index[PLACES + j]),
            None => last_before(self.words, j, place(self.words[j])),
        }
    }
}
