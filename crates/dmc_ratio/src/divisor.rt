//! The greatest common divisor.
ghost use Rattle.std.specs.Int.{IsGcd};

/// The greatest number that divides both, by Euclid's algorithm.
pub fn gcd(a: u128, b: u128) -> u128
    ensures { IsGcd a b result }
{
    let mut number = a;
    let mut divisor = b;
    while divisor != 0 {
        let rest = number % divisor;
        number = divisor;
        divisor = rest;
    }
    number
}
