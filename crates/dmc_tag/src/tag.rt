//! Tags, the numbers by which requests are ordered.
ghost use Rattle.std.specs.Prelude.{◌≡◌, Bool, true};
ghost use Rattle.dmc_tag.specs.Tag.{Fraction, Tagging, IsExact, IsWhole};

use dmc_types::moment::Moment;

/// A tag: an exact number of ticks, which may be below 0. A sum that is no value of the type is `None`; nothing is rounded.
pub trait Tag: Copy + Ord {
    /// What the operations compute.
    ghost ops: { Tagging Self };

    /// The fraction that a tag represents.
    ghost fraction: { Self → Fraction };

    /// Which fractions are values of the type.
    ghost is_value: { Fraction → Type 0 };

    /// Whether the values are the whole numbers of an interval.
    ghost whole: { Bool };

    /// Whether the values are the whole numbers of an interval, so that a whole number between two values is one too.
    fn is_whole() -> bool
        ensures { result ≡ whole };

    /// The tag of a moment.
    fn of_moment(at: Moment) -> Self
        ensures { result ≡ ops.of_moment at };

    /// The spacing of a rate: hz/rate ticks. `None` if that is no value, as at rate 0.
    fn spacing(hz: u32, rate: u32) -> Option<Self>
        ensures { result ≡ ops.spacing hz rate };

    /// This spacing, k times.
    fn steps(self, k: u32) -> Option<Self>
        ensures { result ≡ ops.steps self k };

    /// The sum. Every tag in a program is a value of the type.
    fn plus(self, other: Self) -> Option<Self>
        ensures sum { result ≡ ops.plus self other }
        ensures value { is_value (fraction self) };

    /// The difference.
    fn minus(self, other: Self) -> Option<Self>
        ensures { result ≡ ops.minus self other };

    /// The least whole number that is not below.
    fn ceil(self) -> i128
        ensures { result ≡ ops.ceil self };

    /// `cmp` is the operations' order.
    ghost compares: { (a b : Self) → Self.cmp a b ≡ ops.compare a b };

    /// The operations are those of fractions.
    ghost exact: { IsExact ops fraction is_value };

    /// The law of a type whose values are the whole numbers of an interval.
    ghost interval: { whole ≡ true → IsWhole fraction is_value };
}
