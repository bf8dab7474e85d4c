// The fraction form of a rooted code, as an f64.
#![tactic(auto)]

ghost use Rattle.std.specs.Prelude.{◌≡◌, [], ◌∷◌, ◌≤◌, length};
ghost use Rattle.limits.specs.document.Limits.{size, fraction_size};
ghost use Rattle.limits.specs.Width.{width};
ghost use Rattle.refusal.specs.Checks.{Answers};
ghost use Rattle.bits.specs.document.Bits.{Zeros};
ghost use Rattle.bits.specs.Answered.{Reading};
ghost use Rattle.bits.specs.Decided.{Decision};
ghost use Rattle.bits.specs.Written.{Coded};
ghost use Rattle.fraction.specs.document.Fraction.{IsFraction, NoFraction, row4_fraction, bits_of, fraction_rows};
ghost use Rattle.fraction.specs.Drawing.{Next, Draws};

use refusal::Refusal;

// The first bit behind the binary point, and what is left of the double.
#[derive(Clone, Copy)]
pub struct Digit {
    pub bit: u64,
    pub rest: f64,
}

// The first 53 bits behind the binary point, and whether anything but zero is left.
#[derive(Clone, Copy)]
pub struct Drawn {
    pub bits: u64,
    pub rest: bool,
}

// The fraction of a code.
pub fn fraction_of(code: &[u8]) -> f64
    requires { Coded width fraction_size code.now }
    ensures { IsFraction code.now result }
{
    let x = bits::number_of(code);
    let p = 1u64 << (2 * code.len() - 1);
    (x as f64) / (p as f64)
}

// 4: not a number, with a sign, or 1 and above.
pub fn ranged(x: f64) -> Result<(), Refusal>
    ensures { Answers (row4_fraction x ∷ []) result }
{
    if x != x {
        return Err(Refusal { row: 4, place: 0 });
    }
    if 0x8000_0000_0000_0000 <= f64::to_bits(x) {
        return Err(Refusal { row: 4, place: 0 });
    }
    if x < 1.0 {
        return Ok(());
    }
    Err(Refusal { row: 4, place: 0 })
}

// One bit: the double, compared with one, and one subtracted where it is there.
fn next(x: f64) -> Digit
    ensures { Next x result.bit result.rest }
{
    let t = x + x;
    if t < 1.0 {
        Digit { bit: 0, rest: t }
    } else {
        Digit {
            bit: 1,
            rest: t - 1.0,
        }
    }
}

// The 53 bits of a fraction.
fn draw(x: f64) -> Drawn
    requires { NoFraction x → ⊥ }
    ensures { Draws x result.bits result.rest }
{
    let mut t = x;
    let mut w: u64 = 0;
    for _ in 0..53usize {
        let d = next(t);
        t = d.rest;
        w = 2 * w + d.bit;
    }
    Drawn {
        bits: w,
        rest: t != 0.0,
    }
}

// The digits of a fraction that is in range, with rows 10 to 12.
pub fn read(limit: u8, x: f64, out: &mut [u8]) -> Result<usize, Refusal>
    requires le_limit { 1 ≤ limit }
    requires fact { NoFraction x → ⊥ }
    requires out_len { length out.old ≡ size }
    ensures { Reading limit Zeros (bits_of x) out.new result }
{
    let d = draw(x);
    bits::fraction(limit, d.bits, d.rest, out)
}

// The right code in a fraction: rows 4 and 10 to 13.
pub fn fraction_code(limit: u8, x: f64, out: &mut [u8]) -> Result<usize, Refusal>
    requires le_limit { 1 ≤ limit }
    requires out_len { length out.old ≡ size }
    ensures { Decision (fraction_rows limit x) limit Zeros (bits_of x) out.new result }
{
    ranged(x)?;
    bits::siblings(read(limit, x, out), out)
}
