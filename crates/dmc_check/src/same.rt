//! The comparison of replies.
ghost use Rattle.std.specs.Prelude.{◌≡◌, ◌↔◌, IsTrue};

use dmc_tag::reply::Reply;
use dmc_tag::tag::Tag;

/// Whether two replies are the same, tag by tag.
pub fn is_same_reply<T: Tag>(a: &Reply<T>, b: &Reply<T>) -> bool
    ensures { IsTrue result ↔ (a.now ≡ b.now) }
{
    a == b
}
