// 02, T-06: "fill a lent list of steps": the lent places filled from packed bytes. A slice of structs is what 01 asks for. The work for one
// place is `place_in`.
#![tactic(auto)]

ghost use Rattle.std.specs.Prelude.{◌≡◌, ◌*◌, ◌≤◌, length};
ghost use Rattle.words.specs.Limits.{place_size};
ghost use Rattle.explain_place.specs.Places.{places_in};

use explain_place::{Place, place_in};

// Fills each place: the first n from the packed bytes, 40 a place, and zeros in the places after them.
pub fn fill_places(packed: &[u8], n: u64, steps: &mut [Place])
    requires { place_size * n ≤ length packed.now }
    ensures { steps.new ≡ places_in packed.now n (length steps.old) }
{
    for (i, place) in steps.iter_mut().enumerate() {
        *place = place_in(packed, n, i);
    }
}
