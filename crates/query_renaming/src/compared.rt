// Two queries with what is known of both.
ghost use Rattle.std.specs.Prelude.{◌≡◌};
ghost use Rattle.words.specs.Words.{query_of, Small};
ghost use Rattle.query_renaming.specs.Variables.{AreVariables};

use query_variables::used::used;
use words::QueryWords;

// Two queries that were read, with the sets of their variables.
#[derive(Clone, Copy)]
pub struct Compared {
    pub p: QueryWords,
    pub q: QueryWords,
    pub sources: u32,
    pub targets: u32,
    ghost small_p: { Small p },
    ghost small_q: { Small q },
    ghost from: { AreVariables (query_of p) sources },
    ghost onto: { AreVariables (query_of q) targets },
}

// The two queries with the sets of their variables.
pub fn prepared(p: QueryWords, q: QueryWords) -> Compared
    requires { Small p × Small q }
    ensures { (result.p ≡ p) × (result.q ≡ q) }
{
    let sources = used(p);
    let targets = used(q);
    Compared {
        p,
        q,
        sources,
        targets,
    }
}
