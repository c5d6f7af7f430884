// The fields of a step's word.
ghost use Rattle.std.specs.Prelude.{◌≡◌, ◌<◌};
ghost use Rattle.theory.specs.Union.{zero_step};
ghost use Rattle.words.specs.Records.{step_kind, step_parent, step_atom, step_other, step_of};

// The kind of a step: 1 for a rule, 2 for a merge; a number, as it stands in 01's step record.
pub fn kind_in(step: u64) -> u64
    ensures { result ≡ step_kind step }
{
    step / 0x40000000 % 4
}

// The number of the member that the step starts from.
pub fn parent_in(step: u64) -> usize
    ensures { result ≡ step_parent step }
{
    (step / 0x100000 % 0x400) as usize
}

// The index of the atom that the step changes.
pub fn atom_in(step: u64) -> usize
    ensures { result ≡ step_atom step }
{
    (step / 0x10000 % 0x10) as usize
}

// The index of the step's rule, or of the atom that is merged.
pub fn other_in(step: u64) -> usize
    ensures { result ≡ step_other step }
{
    (step % 0x10000) as usize
}

// Whether a word is no step: all fields are zero, as beside member 0.
pub fn zero_step(step: u64) -> bool
    ensures { result ≡ zero_step (step_of step) }
{
    kind_in(step) == 0 && parent_in(step) == 0 && atom_in(step) == 0 && other_in(step) == 0
}

// The word of a step, from its fields.
pub fn step_word(kind: u64, parent: usize, atom: usize, other: usize) -> u64
    requires { (kind < 4) × (parent < 1024) × (atom < 16) × (other < 65536) }
    ensures { step_of result ≡ record { kind = kind; parent = parent; atom = atom; other = other } }
{
    kind * 0x40000000 + parent as u64 * 0x100000 + atom as u64 * 0x10000 + other as u64
}
