// Exported for the benchmark alone.
#![tactic(auto)]

ghost use Rattle.std.specs.Prelude.{◌≡◌, ◌<◌, ◌≤◌, length};
ghost use Rattle.words.specs.Limits.{most_facts};
ghost use Rattle.words.specs.Refusals.{number_in, count_in};
ghost use Rattle.words.specs.Words.{table_words};
ghost use Rattle.read_facts.specs.FactSheets.{FactsRead};
ghost use Rattle.read_union.specs.UnionRows.{UnionRead};
ghost use Rattle.bench_lib.specs.Packed.{packed_number, packed_count};

use read_facts::read_facts;
use read_union::read_union;
use words::refusals::Refusal;

// What reading a sheet gives, in one word.
fn packed(read: Result<usize, Refusal>) -> u64
    requires { count_in read < 65536 }
    ensures { (packed_number result ≡ number_in read) × (packed_count result ≡ count_in read) }
{
    match read {
        Ok(count) => count as u64,
        Err(refusal) => u64::from(u32::from(refusal)) * 0x1_0000,
    }
}

// Reads the fact sheet into the table: 65,536 times the number of the refusal, 0 for none, and the number of facts.
#[unsafe(no_mangle)]
pub extern "C" fn takwishan_bench_facts(sheet: &[u8], partners: &[u16], table: &mut [u64]) -> u64
    requires { most_facts ≤ length table.old }
    ensures { FactsRead partners.now sheet.now table.new (packed_number result) (packed_count result) }
{
    packed(read_facts(sheet, partners, table))
}

// Reads the union sheet into the table, 16 words a member, for a question with so many answer terms: 65,536 times the number of
// the refusal, 0 for none, and the number of members.
#[unsafe(no_mangle)]
pub extern "C" fn takwishan_bench_union(
    sheet: &[u8],
    partners: &[u16],
    arity: usize,
    table: &mut [u64],
) -> u64
    requires { table_words ≤ length table.old }
    ensures { UnionRead partners.now sheet.now arity table.new (packed_number result) (packed_count result) }
{
    packed(read_union(sheet, partners, arity, table))
}
