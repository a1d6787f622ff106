//! The texts of tags.
ghost use Rattle.std.specs.Prelude.{◌≡◌, ◌<◌, ◌≤◌, ℕ, ℤ, ◌^◌, Option, Some, option_and_then, unsigned_abs};
ghost use Rattle.dmc_tag.specs.Tag.{IsSame};
ghost use Rattle.dmc_text.specs.Tags.{below_zero, signed, over, fraction_of};
ghost use Rattle.dmc_text.specs.Numbers.{number};

use crate::number::{read_u64, read_u128};
use crate::word::first_of;
use dmc_tag::tag::Tag;

/// A tag with a text: its fraction in the form of the type, `N` if the denominator is 1, and otherwise `N/D`.
pub trait TagText: Tag {
    /// The numerator of a tag's text.
    ghost numerator: { Self → ℤ };

    /// The denominator of a tag's text.
    ghost denominator: { Self → ℕ };

    /// The tag whose text has this numerator and this denominator.
    ghost made: { ℤ → ℕ → Option Self };

    /// The numerator, of absolute value at most 2^90, and the denominator, at most 2^32, from which the tag can be made.
    fn parts(self) -> (i128, u64)
        ensures over { result.0 ≡ numerator self }
        ensures under { result.1 ≡ denominator self }
        ensures size { unsigned_abs result.0 ≤ 2 ^ 90 }
        ensures some { 0 < result.1 }
        ensures limit { result.1 ≤ 2 ^ 32 }
        ensures value { IsSame (Self.fraction self) (record { numer = result.0; denom = result.1 }) }
        ensures again { made result.0 result.1 ≡ Some self };

    /// The tag of these parts. `None` if no tag has them.
    fn of_parts(numer: i128, denom: u64) -> Option<Self>
        ensures { result ≡ made numer denom };

    /// A tag that is made of parts has them.
    ghost only: { (n : ℤ) (d : ℕ) (a : Self) → made n d ≡ Some a → (numerator a ≡ n) × (denominator a ≡ d) };
}

/// The number of this absolute value below 0. `None` if it does not fit, and for 0.
fn below_zero(size: u128) -> Option<i128>
    ensures { result ≡ below_zero size }
{
    if size == 0 || size > 1 << 127 {
        return None;
    }
    Some(-1 - (size - 1) as i128)
}

/// A whole number, with `-` before one below 0.
#[tactic(auto, unfolding(crate::specs::Tags::signed))]
fn read_i128(word: &[u8]) -> Option<i128>
    ensures { result ≡ signed word.now }
{
    match word {
        [b'-', digits @ ..] => below_zero(read_u128(digits)?),
        _ => i128::try_from(read_u128(word)?).ok(),
    }
}

/// A numerator, and the denominator of a word.
fn over(numer: i128, word: &[u8]) -> Option<(i128, u64)>
    ensures { result ≡ option_and_then (over numer) (number (2 ^ 64) word.now) }
{
    let denom = read_u64(word)?;
    if denom < 2 {
        return None;
    }
    Some((numer, denom))
}

/// The numerator and the denominator of a word.
#[tactic(auto, unfolding(crate::specs::Tags::fraction_of))]
fn read_fraction(word: &[u8]) -> Option<(i128, u64)>
    ensures { result ≡ fraction_of word.now }
{
    match first_of(word, b'/') {
        None => Some((read_i128(word)?, 1)),
        Some(at) => over(read_i128(&word[..at])?, &word[at + 1..]),
    }
}

/// The tag of a word.
pub fn read_tag<T: TagText>(word: &[u8]) -> Option<T>
    ensures { result ≡ option_and_then (λ x. T.made x.0 x.1) (fraction_of word.now) }
{
    let (numer, denom) = read_fraction(word)?;
    T::of_parts(numer, denom)
}
