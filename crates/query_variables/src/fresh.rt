// The fresh variable of a query: the lowest number that is missing in the set of its variables.
ghost use Rattle.std.specs.Prelude.{◌≡◌, ◌<◌};
ghost use Rattle.theory.specs.Rewriting.{fresh as fresh_in};
ghost use Rattle.words.specs.Words.{query_of, Small};

use crate::used::used;
use query_sets::lowest_missing;
use words::QueryWords;

// The lowest number that stands nowhere in the query.
pub fn fresh(q: QueryWords) -> u64
    requires { Small q }
    ensures { (result ≡ fresh_in (query_of q)) × (result < 32) }
{
    lowest_missing(used(q)) as u64
}
