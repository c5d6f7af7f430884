// A number in decimal, in ASCII.
ghost use Rattle.std.specs.Prelude.{◌≡◌, ◌<◌, ◌≤◌, ◌+◌, length, take, drop};
ghost use Rattle.promises.specs.Counts.{IsPrefixLen};
ghost use Rattle.report.specs.Digits.{last_digits, IsDigitCount};

// How many digits n takes.
fn digit_count(n: u64) -> usize
    ensures { IsDigitCount 10 1 n result }
{
    let mut k = 1;
    let mut rest = n / 10;
    while rest > 0 {
        rest /= 10;
        k += 1;
    }
    k
}

// The code of a digit.
fn digit_code(d: u64) -> u8
    requires { d < 10 }
    ensures { result ≡ 48 + d }
{
    b'0' + d as u8
}

// Puts the last k digits of n at the start of out.
fn write_digits(n: u64, k: usize, out: &mut [u8])
    requires { k ≤ length out.old }
    ensures digits { take k out.new ≡ last_digits 10 k n }
    ensures rest { drop k out.new ≡ drop k out.old }
{
    let mut rest = n;
    for i in (0..k).rev() {
        out[i] = digit_code(rest % 10);
        rest /= 10;
    }
}

// Puts n's digits at the start of out, and returns how many there are.
pub(crate) fn decimal(n: u64, out: &mut [u8; 20]) -> usize
    ensures in_bounds { IsPrefixLen result out.new }
    ensures len { IsDigitCount 10 1 n result }
    ensures digits { take result out.new ≡ last_digits 10 result n }
    ensures rest { drop result out.new ≡ drop result out.old }
{
    let k = digit_count(n);
    write_digits(n, k, out);
    k
}
