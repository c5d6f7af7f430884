// Members in a table, with their keys.
ghost use Rattle.std.specs.Prelude.{◌≡◌, length};
ghost use Rattle.check_distinct.specs.Facts.{facts};
ghost use Rattle.check_distinct.specs.Keys.{Keys};
ghost use Rattle.words.specs.Rows.{Rows};

use check_chains::Chained;

// Members, as many as there are keys; the keys may be chained.
#[derive(Clone, Copy)]
pub struct Members<'a> {
    pub table: &'a [u64],
    pub keys: Chained<'a>,
    pub ghost rows: { Rows table.now (length keys.words.now) } by { Prim.hlevel facts },
    pub ghost keyed: { Keys table.now (length keys.words.now) keys.words.now } by { Prim.hlevel facts },
}

impl<'a> Members<'a> {
    // The members in the table, whose keys these are.
    pub fn new(table: &'a [u64], keys: Chained<'a>) -> Self
        requires { Rows table.now (length keys.words.now) × Keys table.now (length keys.words.now) keys.words.now }
        ensures { (result.table.now ≡ table.now) × (result.keys.words.now ≡ keys.entry.words.now) }
    {
        Members { table, keys }
    }

    // How many there are.
    pub fn count(&self) -> usize
        ensures { result ≡ length self.now.keys.words.now }
    {
        self.keys.words.len()
    }
}
