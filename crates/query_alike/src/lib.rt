// Whether two queries are alike, and by which names: what is known of two queries before the search for a renaming.
#![tactic(auto)]

pub mod guess;

ghost use Rattle.std.specs.Prelude.{◌≡◌};
ghost use Rattle.theory.specs.Lists.{Unrepeated};
ghost use Rattle.theory.specs.Renaming.{alike as alike_in};
ghost use Rattle.theory.specs.Targets.{HandedBack};
ghost use Rattle.words.specs.Words.{query_of, Small};

use guess::{Shapes, guessed};
use query_key::{key_of, shapes_of};
use query_renaming::search::{Renaming, no_renaming, rename};
use words::QueryWords;

// Whether the two queries are alike: whether a one-to-one renaming of variables carries the one to the other. The guess along the atoms is
// made first without shapes and then with them; what it says yes to is a renaming, so the answer is that of the search.
pub fn alike(p: QueryWords, q: QueryWords) -> bool
    requires { Small p × Small q }
    ensures { result ≡ alike_in (query_of p) (query_of q) }
{
    let none = Shapes {
        from: [0; 32],
        to: [0; 32],
    };
    if guessed(p, q, &none) {
        return true;
    }
    let shapes = Shapes {
        from: shapes_of(p),
        to: shapes_of(q),
    };
    if guessed(p, q, &shapes) {
        return true;
    }
    rename(p, q).found
}

// The smallest renaming that carries p to q, or that there is none. Queries with two keys have none, which is seen at once.
pub fn by_which_names(p: QueryWords, q: QueryWords) -> Renaming
    requires { Small p × Small q × Unrepeated (query_of p).atoms × Unrepeated (query_of q).atoms }
    ensures { HandedBack (query_of p) (query_of q) result.found result.targets }
{
    if key_of(p) == key_of(q) {
        rename(p, q)
    } else {
        no_renaming()
    }
}
