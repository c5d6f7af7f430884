// Reciprocal names: of two partners the higher is read as the lower, with its arguments exchanged.
ghost use Rattle.std.specs.Prelude.{◌≡◌, ◌<◌, get_or};
ghost use Rattle.words.specs.Limits.{name_bound};
ghost use Rattle.sheets.specs.Partners.{partners01, is_higher as is_higher_of, lower as lower_of};

// 01's table. A role from 16 up has no partner.
const PARTNERS: [u16; 16] = [1, 0, 3, 2, 5, 4, 7, 6, 8, 9, 10, 11, 12, 13, 14, 15];

// 01's table as an array that a caller can lend.
pub fn default_partners() -> [u16; 16]
    ensures { result ≡ partners01 }
{
    PARTNERS
}

// The role's partner, which is the role itself where the table has none.
fn partner(partners: &[u16], role: u64) -> u64
    requires { role < name_bound }
    ensures { result ≡ get_or partners.now role role }
{
    match partners.get(role as usize) {
        Some(other) => u64::from(*other),
        None => role,
    }
}

// Whether the role's partner is the lower of the two.
pub fn is_higher(partners: &[u16], role: u64) -> bool
    requires { role < name_bound }
    ensures { result ≡ is_higher_of partners.now role }
{
    partner(partners, role) < role
}

// The lower of the role and its partner.
pub fn lower(partners: &[u16], role: u64) -> u64
    requires { role < name_bound }
    ensures { (result ≡ lower_of partners.now role) × (result < name_bound) }
{
    partner(partners, role).min(role)
}
