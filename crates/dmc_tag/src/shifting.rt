//! One tag's change by an adjustment or a reduction.
ghost use Rattle.std.specs.Prelude.{◌≡◌};
ghost use Rattle.dmc_tag.specs.Rules as rules_of;

use crate::tag::Tag;

/// Whether the tag less an amount is a value.
pub fn has_less<T: Tag>(tag: T, amount: T) -> bool
    ensures { result ≡ rules_of.has_less T.ops amount tag }
{
    tag.minus(amount).is_some()
}

/// The tag less an amount, if that is a value; else the tag.
pub fn less<T: Tag>(tag: T, amount: T) -> T
    ensures { result ≡ rules_of.less T.ops amount tag }
{
    tag.minus(amount).unwrap_or(tag)
}
