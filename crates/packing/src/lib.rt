// How a call's answer is one whole number for C: 256 times the refusal number plus the place, or the bytes written. What that number is stands in
// specs/document/Packing.antt, and that it is read back in specs/Unpacked.antt.
#![tactic(auto)]

ghost use Rattle.std.specs.Prelude.{◌≡◌, ◌+◌, ◌*◌, ◌≤◌, ◌<◌};
ghost use Rattle.refusal.specs.document.Outcome.{told, told_of, unwritten};
ghost use Rattle.refusal.specs.document.Reported as reports;
ghost use Rattle.refusal.specs.document.Small.{byte_values, Small, SmallOf, SmallAnswer, SmallRefusal};
ghost use Rattle.packing.specs.document.Packing.{packed, truth, with_list, held};

use refusal::{ListRefusal, Refusal, Reported};

// The values of a byte.
const BYTE: u32 = 256;

// A refusal: 256 times the number plus the place.
fn refused(refusal: Refusal) -> u32
    requires { refusal.place < byte_values }
    ensures { result ≡ byte_values * refusal.row + refusal.place }
{
    BYTE * refusal.row as u32 + refusal.place as u32
}

// The answer of a call that writes.
pub fn answered(answer: Result<usize, Refusal>) -> u32
    requires { SmallAnswer (told answer) }
    ensures { result ≡ packed (λ k. k) (λ n. n) (told answer) }
{
    match answer {
        Ok(n) => n as u32,
        Err(refusal) => refused(refusal),
    }
}

// The answer of a call that only checks.
pub fn passed(check: Result<(), Refusal>) -> u32
    requires { SmallAnswer (told (unwritten check)) }
    ensures { result ≡ packed (λ k. k) (λ n. n) (told (unwritten check)) }
{
    match check {
        Ok(()) => 0, // nothing is written
        Err(refusal) => refused(refusal),
    }
}

// A refusal of one of several, which are called 1, 2 and 3: each adds 256 times 256 to the one before it. 22, which is called 0, adds nothing.
fn refused_of(refusal: ListRefusal) -> u32
    requires { (refusal.list ≤ 3) × (refusal.refusal.place < byte_values) }
    ensures { result ≡ byte_values * with_list (refusal.list, refusal.refusal.row) + refusal.refusal.place }
{
    BYTE * BYTE * (refusal.list as u32).saturating_sub(1) + refused(refusal.refusal)
}

// The verdict.
pub fn found(verdict: Result<bool, ListRefusal>) -> u32
    requires { Small (SmallOf 2) (λ b. Unit {0}) (told_of verdict) }
    ensures { result ≡ packed with_list truth (told_of verdict) }
{
    match verdict {
        Ok(same) => u32::from(same),
        Err(refusal) => refused_of(refusal),
    }
}

// The answer of a call that hands out a map.
pub fn sent(answer: Result<usize, ListRefusal>) -> u32
    requires { Small (SmallOf 3) (λ n. n < byte_values) (told_of answer) }
    ensures { result ≡ packed with_list (λ n. n) (told_of answer) }
{
    match answer {
        Ok(n) => n as u32,
        Err(refusal) => refused_of(refusal),
    }
}

// The answer of a call that only checks a map.
pub fn judged(check: Result<(), ListRefusal>) -> u32
    requires { Small (SmallOf 3) (λ n. n < byte_values) (told_of (unwritten check)) }
    ensures { result ≡ packed with_list (λ n. n) (told_of (unwritten check)) }
{
    match check {
        Ok(()) => 0, // no map is written
        Err(refusal) => refused_of(refusal),
    }
}

// The answer of a call that is asked for a value.
pub fn valued<T: Copy>(answer: Result<T, Refusal>, value: &mut T) -> u32
    requires { SmallRefusal (told answer) }
    ensures { (result ≡ packed (λ k. k) (λ a. 0) (told answer)) × (value.new ≡ held value.old (told answer)) }
{
    match answer {
        Ok(v) => {
            *value = v;
            0
        }
        Err(refusal) => refused(refusal),
    }
}

// The answer of a call that reports how many pairs it looked at; that number is handed over, and 0 with a refusal.
pub fn counted<T, E>(call: Result<Reported<T>, E>, pairs: &mut usize) -> Result<T, E>
    ensures { (result ≡ reports.answer call) × (pairs.new ≡ reports.pairs call) }
{
    match call {
        Ok(reported) => {
            *pairs = reported.pairs;
            Ok(reported.value)
        }
        Err(refusal) => {
            *pairs = 0;
            Err(refusal)
        }
    }
}

// The same without that number.
pub fn uncounted<T, E>(call: Result<Reported<T>, E>) -> Result<T, E>
    ensures { result ≡ reports.answer call }
{
    match call {
        Ok(reported) => Ok(reported.value),
        Err(refusal) => Err(refusal),
    }
}
