// One place of a list of steps (02, T-06): a struct of member, kind, parent, atom and other, with the renaming; and the same in 40 bytes.
#![tactic(auto)]

ghost use Rattle.std.specs.Prelude.{◌≡◌, ◌++◌, ◌+◌, ◌*◌, ◌≤◌, length, take, drop};
ghost use Rattle.std.proofs.Math.Seq.{paste};
ghost use Rattle.words.specs.Limits.{place_size};
ghost use Rattle.explain_place.specs.Places.{head_bytes, bytes_of_place, place_at, no_place, place_in};

use words::limits::PLACE_BYTES;

// The number of the member, the step written beside it, and where each variable of the step's result goes, or 32. Laid out as in C, since
// others lend such places.
#[repr(C)]
#[derive(Clone, Copy)]
pub struct Place {
    pub member: u16,
    pub kind: u8,
    pub parent: u16,
    pub atom: u8,
    pub other: u16,
    pub targets: [u8; 32],
}

// All but the targets, in eight bytes.
fn head(place: Place) -> [u8; 8]
    ensures { result ≡ head_bytes place }
{
    let member = place.member.to_be_bytes();
    let parent = place.parent.to_be_bytes();
    let other = place.other.to_be_bytes();
    [
        member[0], member[1], place.kind, parent[0], parent[1], place.atom, other[0], other[1],
    ]
}

// Puts the place at the beginning of the part.
pub fn put_place(part: &mut [u8], place: Place)
    requires { place_size ≤ length part.old }
    ensures { part.new ≡ bytes_of_place place ++ drop place_size part.old }
{
    part[..8].copy_from_slice(&head(place));
    part[8..PLACE_BYTES].copy_from_slice(&place.targets);
}

// The place in the 40 bytes from `at` on.
pub fn place_at(bytes: &[u8], at: usize) -> Place
    requires { at + place_size ≤ length bytes.now }
    ensures { result ≡ place_at bytes.now at }
{
    let mut targets = [0u8; 32];
    targets.copy_from_slice(&bytes[at + 8..at + PLACE_BYTES]);
    Place {
        member: u16::from_be_bytes([bytes[at], bytes[at + 1]]),
        kind: bytes[at + 2],
        parent: u16::from_be_bytes([bytes[at + 3], bytes[at + 4]]),
        atom: bytes[at + 5],
        other: u16::from_be_bytes([bytes[at + 6], bytes[at + 7]]),
        targets,
    }
}

// A place that is not used: zeros.
fn no_place() -> Place
    ensures { result ≡ no_place }
{
    Place {
        member: 0,
        kind: 0,
        parent: 0,
        atom: 0,
        other: 0,
        targets: [0; 32],
    }
}

// What place i holds, where the first n are used: the place in the 40 bytes at 40 times i, or zeros from place n on.
pub fn place_in(packed: &[u8], n: u64, i: usize) -> Place
    requires { place_size * n ≤ length packed.now }
    ensures { result ≡ place_in packed.now n i }
{
    if (i as u64) < n {
        place_at(packed, PLACE_BYTES * i)
    } else {
        no_place()
    }
}
