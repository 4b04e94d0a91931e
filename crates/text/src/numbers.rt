// Decimal numbers in a range.
ghost use Rattle.std.specs.Prelude.{◌≡◌, ◌≤◌, IfSome};
ghost use Rattle.text.specs.Numbers.{number_in, digits_in};

use crate::classes;

// The number that the bytes write without a needless zero, where it is from `low` to `high`.
pub fn number(bytes: &[u8], low: u32, high: u32) -> Option<u32>
    ensures value { result ≡ number_in low high bytes.now }
    ensures range { IfSome result (λ n. (low ≤ n) × (n ≤ high)) }
{
    match bytes {
        [] | [b'0', _, ..] => None,
        _ => digits(bytes, high).filter(|n| *n >= low),
    }
}

// Stops as soon as the value passes `high`, so that any count of digits fits.
#[tactic(auto, using(crate::proofs::Decimals::digit_here, crate::proofs::Decimals::no_digit_here, crate::proofs::Decimals::too_large_here))]
fn digits(bytes: &[u8], high: u32) -> Option<u32>
    ensures value { result ≡ digits_in high 0 bytes.now }
    ensures most { IfSome result (λ n. n ≤ high) }
{
    let mut n: u32 = 0;
    for &byte in bytes {
        if !classes::is_digit(byte) {
            return None;
        }
        let more = n as u64 * 10 + (byte - b'0') as u64;
        if more > high as u64 {
            return None;
        }
        n = more as u32;
    }
    Some(n)
}
