// The bit forms of a rooted code: packed bytes, a whole number, the 53 bits of a fraction.
#![tactic(auto)]

ghost use Rattle.std.specs.Prelude.{◌≡◌, [], ◌∷◌, suc, ◌+◌, ◌-◌, ◌*◌, ◌/◌, ◌^◌, ◌<◌, ◌≤◌, length, get_or, drop};
ghost use Rattle.limits.specs.document.Limits.{size, packed_bytes, whole_size};
ghost use Rattle.limits.specs.Width.{width};
ghost use Rattle.bits.specs.document.Bits.{bytes, word, fraction_bits, Fill, Nothing, Zeros, row4_whole, packed_rows, whole_rows};
ghost use Rattle.bits.specs.Words.{lead};
ghost use Rattle.bits.specs.Digit.{Near};
ghost use Rattle.bits.specs.Found.{Stands, Turned, Scanned};
ghost use Rattle.bits.specs.Answered.{Reading};
ghost use Rattle.bits.specs.Written.{Coded};
ghost use Rattle.bits.specs.document.Written.{Packs, Numbers};
ghost use Rattle.bits.specs.Writing.{Room};
ghost use Rattle.bits.specs.Packing.{PutOut};
ghost use Rattle.refusal.specs.document.Table.{Writes};
ghost use Rattle.refusal.specs.Checks.{Answers};
ghost use Rattle.bits.specs.Decided.{Ended, Ordered, Decision};

use limits::{PACKED, WHOLE};
use refusal::Refusal;
use std::ops::ControlFlow;

// The byte i of s, 0 past its end.
fn byte(s: &[u8], i: usize) -> u8
    ensures { result ≡ get_or s.now i 0 }
{
    s.get(i).copied().unwrap_or(0)
}

// The ones from a bit of packed bytes on: the leading zeros of the inverted word that begins there. More bits are looked at than a row is wide.
fn digit_at(s: &[u8], bit: usize) -> usize
    requires { bit < 8 * length s.now }
    ensures { Near (suc width) result (drop bit (bytes s.now)) }
{
    let i = bit / 8;
    let high = byte(s, i) as u32;
    let middle = byte(s, i + 1) as u32;
    let low = byte(s, i + 2) as u32;
    let w = ((high * 256 + middle) * 256 + low) << (8 + bit % 8);
    u32::leading_zeros(!w) as usize
}

// The ones from a bit of the len lowest bits of x on.
fn digit_in(x: u64, len: usize, bit: usize) -> usize
    requires { (bit < len) × (len ≤ 64) }
    ensures { result ≡ lead (drop bit (word len x)) }
{
    u64::leading_zeros(!(x << (64 - len + bit))) as usize
}

// One turn of a reader of m bits: the digit at the bit b has k ones and stands behind n others. The bits read are the digits and their
// sum, so the code has ended as soon as they are fewer than two for each digit. The result is the bit at which the next digit begins,
// or what the reader has found.
fn step(
    limit: u8,
    k: usize,
    m: usize,
    n: usize,
    b: usize,
    out: &mut [u8],
) -> ControlFlow<Result<usize, Refusal>, usize>
    requires le_limit { 1 ≤ limit }
    requires stands { Stands m n b out.old }
    ensures { Turned limit m k n b out.old out.new result }
{
    if (digit_code::top(limit, n + 1) as usize) < k {
        return ControlFlow::Break(Err(Refusal {
            row: 10,
            place: n + 1,
        }));
    }
    if m <= b + k {
        return ControlFlow::Break(Err(Refusal { row: 12, place: n }));
    }
    out[n] = k as u8;
    let e = b + (k + 1);
    if e < 2 * (n + 1) {
        return ControlFlow::Break(Ok(n + 1));
    }
    ControlFlow::Continue(e)
}

// The digits of a packed code, up to its end, with rows 10 and 12. No digit may be more than the bits tell that are looked at.
pub fn digits(limit: u8, s: &[u8], out: &mut [u8]) -> Result<usize, Refusal>
    requires le_limit { (1 ≤ limit) × (limit ≤ width) }
    requires s_len_bound { (length s.now ≤ packed_bytes) × (length out.old ≡ size) }
    ensures { Scanned limit (bytes s.now) out.new result }
{
    let m = 8 * s.len();
    let mut n: usize = 0;
    let mut b: usize = 0;
    while b < m {
        match step(limit, digit_at(s, b), m, n, b, out) {
            ControlFlow::Break(found) => return found,
            ControlFlow::Continue(e) => b = e,
        }
        n += 1;
    }
    Err(Refusal { row: 12, place: n })
}

// The digits of the len lowest bits of x, up to the code's end, with rows 10 and 12.
pub fn word_digits(limit: u8, x: u64, len: usize, out: &mut [u8]) -> Result<usize, Refusal>
    requires le_limit { 1 ≤ limit }
    requires len_bound { (len ≤ 64) × (length out.old ≡ size) }
    ensures { Scanned limit (word len x) out.new result }
{
    let mut n: usize = 0;
    let mut b: usize = 0;
    while b < len {
        match step(limit, digit_in(x, len, b), len, n, b, out) {
            ControlFlow::Break(found) => return found,
            ControlFlow::Continue(e) => b = e,
        }
        n += 1;
    }
    Err(Refusal { row: 12, place: n })
}

// The digits of a packed code, with rows 10 to 12.
pub fn packed(limit: u8, s: &[u8], out: &mut [u8]) -> Result<usize, Refusal>
    requires le_limit { (1 ≤ limit) × (limit ≤ width) }
    requires s_len_bound { (length s.now ≤ packed_bytes) × (length out.old ≡ size) }
    ensures { Reading limit Fill (bytes s.now) out.new result }
{
    let n = digits(limit, s, out)?;
    if 2 * n + 7 <= 8 * s.len() || s[s.len() - 1] << ((2 * n - 1) % 8) != 0 {
        return Err(Refusal {
            row: 11,
            place: n + 1,
        });
    }
    Ok(n)
}

// The digits of a whole number with N = n beside it, with rows 10 to 12.
pub fn number(limit: u8, n: usize, x: u64, out: &mut [u8]) -> Result<usize, Refusal>
    requires le_limit { 1 ≤ limit }
    requires le_n { (1 ≤ n) × ((n ≤ whole_size) × (length out.old ≡ size)) }
    ensures { Reading limit Nothing (word (2 * n - 1) x) out.new result }
{
    let e = word_digits(limit, x, 2 * n - 1, out)?;
    if e < n {
        return Err(Refusal {
            row: 11,
            place: e + 1,
        });
    }
    Ok(e)
}

// The digits of the len lowest bits of x, behind which only zeros may follow, with rows 10 to 12.
fn zeros_behind(limit: u8, x: u64, len: usize, out: &mut [u8]) -> Result<usize, Refusal>
    requires le_limit { 1 ≤ limit }
    requires len_bound { (len ≤ 64) × (length out.old ≡ size) }
    ensures { Reading limit Zeros (word len x) out.new result }
{
    let n = word_digits(limit, x, len, out)?;
    if len < 2 * n || x << (64 - len + (2 * n - 1)) == 0 {
        return Ok(n);
    }
    Err(Refusal {
        row: 11,
        place: n + 1,
    })
}

// The digits of the 53 bits of a fraction, with rows 10 to 12; `rest`: there is a rest other than zero behind them.
pub fn fraction(limit: u8, x: u64, rest: bool, out: &mut [u8]) -> Result<usize, Refusal>
    requires le_limit { 1 ≤ limit }
    requires x_bound { (x < 2 ^ 53) × (length out.old ≡ size) }
    ensures { Reading limit Zeros (fraction_bits x rest) out.new result }
{
    if rest {
        return zeros_behind(limit, 2 * x + 1, 54, out);
    }
    zeros_behind(limit, x, 53, out)
}

// Behind rows 10 to 12: a refusal stays, and of a code that was read 13 is judged.
pub fn siblings(read: Result<usize, Refusal>, digits: &[u8]) -> Result<usize, Refusal>
    requires ended { Ended digits.now read }
    requires digits_len { length digits.now ≡ size }
    ensures { Ordered digits.now read result }
{
    let n = read?;
    digit_code::ordered(&digits[..n])?;
    Ok(n)
}

// The right code in a packed code: rows 3 and 10 to 13.
pub fn packed_code(limit: u8, s: &[u8], out: &mut [u8]) -> Result<usize, Refusal>
    requires le_limit { (1 ≤ limit) × (limit ≤ width) }
    requires out_len { length out.old ≡ size }
    ensures { Decision (packed_rows packed_bytes limit s.now) limit Fill (bytes s.now) out.new result }
{
    refusal::sized(s.len(), PACKED)?;
    siblings(packed(limit, s, out), out)
}

// 4: x is outside the range of whole numbers with N = n.
fn ranged(n: usize, x: u64) -> Result<(), Refusal>
    requires { (1 ≤ n) × (n ≤ whole_size) }
    ensures { Answers (row4_whole n x ∷ []) result }
{
    if (1u64 << (2 * n - 1)) <= x {
        return Err(Refusal { row: 4, place: 0 });
    }
    Ok(())
}

// The right code in a whole number with N = n beside it: rows 3, 4 and 10 to 13.
pub fn number_code(limit: u8, n: usize, x: u64, out: &mut [u8]) -> Result<usize, Refusal>
    requires le_limit { 1 ≤ limit }
    requires out_len { length out.old ≡ size }
    ensures { Decision (whole_rows whole_size limit n x) limit Nothing (word (2 * n - 1) x) out.new result }
{
    refusal::sized(n, WHOLE)?;
    ranged(n, x)?;
    siblings(number(limit, n, x, out), out)
}

// x with the digit k, k ones and a zero, behind its bits.
fn append(x: u64, k: u64) -> u64
    requires { Room k x }
    ensures { result ≡ x * 2 ^ (k + 1) + (2 ^ (k + 1) - 2) }
{
    (x << (k + 1)) + ((1u64 << (k + 1)) - 2)
}

// The whole number of a code.
pub fn number_of(code: &[u8]) -> u64
    requires { Coded width whole_size code.now }
    ensures { Numbers code.now result }
{
    let mut x: u64 = 0;
    for k in code {
        x = append(x, u64::from(*k));
    }
    x
}

// Writes the whole bytes of the c lowest bits of a, highest first, from m on; where they end. Fewer than eight bits are then left.
fn put_out(a: u64, c: u64, m: usize, out: &mut [u8]) -> usize
    requires { (c < 24) × (m + c / 8 ≤ length out.old) }
    ensures { PutOut a c m out.old out.new result }
{
    if c < 8 {
        return m;
    }
    let left = c - 8;
    out[m] = ((a >> left) % 256) as u8;
    if left < 8 {
        return m + 1;
    }
    out[m + 1] = ((a >> (left - 8)) % 256) as u8;
    m + 2
}

// The packed form of a code, at the start of out; how many bytes it has. The c lowest bits of a are still to be written.
pub fn pack(code: &[u8], out: &mut [u8]) -> usize
    requires { Coded width size code.now × ((2 * length code.now + 6) / 8 ≤ length out.old) }
    ensures { Writes (Packs code.now) out.old result out.new }
{
    let mut a: u64 = 0;
    let mut c: u64 = 0;
    let mut m: usize = 0;
    for digit in code {
        let k = u64::from(*digit);
        a = append(a % 256, k);
        c += k + 1;
        m = put_out(a, c, m, out);
        c %= 8;
    }
    out[m] = ((a << (8 - c)) % 256) as u8;
    m + 1
}
