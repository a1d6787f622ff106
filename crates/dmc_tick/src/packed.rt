//! Ranks of tick tags, each stored as one number.
ghost use Rattle.std.specs.Prelude.{◌≡◌, ◌≤◌, ◌<◌, ◌*◌, pos};
ghost use Rattle.std.specs.Ordering.{int_cmp};
ghost use Rattle.dmc_tag.specs.Rank.{tag_rank_cmp, tag_rank_total, limit_rank_cmp, limit_rank_total, ready_rank_cmp, ready_rank_total};
ghost use Rattle.std.proofs.Common.{refl};
ghost use Rattle.std.proofs.lemmas.Cmp.{int_cmp_total};
ghost use Rattle.dmc_tick.specs.Packed.{rank_number, limit_rank_in, IsRankNumber};
ghost use Rattle.dmc_tick.specs.Tick.{greatest};

use crate::tick::{TickTag, WORD};
use dmc_tag::rank::{LimitRank, PackedRank, Rank, ReadyRank, TagRank};
use dmc_types::ids::ClientId;
use std::marker::Model;

/// A limit rank in two words: the number (mark * 2^92 + tag + 2^90) * 2^32 + client, in which the mark is 1 if it is ready. So one
/// comparison of numbers orders two of them. Contracts see the rank.
#[derive(Clone, Copy)]
pub struct PackedLimitRank {
    high: u64,
    low: u64,
}

impl Model for PackedLimitRank {
    ghost use Rattle.std.specs.Prelude.{ℤ, ◌/◌, ◌%◌};
    ghost use Rattle.dmc_tag.specs.declared.rank.LimitRank.{LimitRank};
    ghost use Rattle.dmc_tick.specs.Words.{word, raised};
    ghost use Rattle.dmc_tick.specs.Packed.{limit_rank_in, number_of, IsPacked, high_is, low_is};

    ghost Value = { LimitRank ℤ };

    ghost view = { λ p. limit_rank_in (raised p.high p.low) };

    ghost invariant = { λ p. IsPacked p.high p.low };

    ghost inverse = { λ rank. record { high = number_of rank / word; low = number_of rank % word } };

    ghost inverse_ok = { λ p is i. record { high = high_is p.high p.low is.low_fits is.number i; low = low_is p.high p.low is.low_fits is.number i } };
}

/// What the mark adds: a number above every tag plus 2^90.
const MARK: u128 = 1 << 92;

/// How many clients there may be.
const CLIENTS: u128 = 1 << 32;

/// The number of a mark, a tag plus 2^90 and a client.
fn number_of(mark: bool, raised: u128, client: ClientId) -> u128
    requires { raised ≤ 2 * greatest }
    ensures { result ≡ rank_number mark raised client.0 }
{
    let marked = if mark { MARK } else { 0 };
    (marked + raised) * CLIENTS + client.0 as u128
}

impl PackedLimitRank {
    /// The rank that a number stores.
    fn of_number(number: u128) -> PackedLimitRank
        requires { IsRankNumber number }
        ensures { result ≡ limit_rank_in number }
    {
        PackedLimitRank {
            high: (number / WORD) as u64,
            low: (number % WORD) as u64,
        }
    }

    /// The number.
    fn number(self) -> u128
        ensures rank { limit_rank_in result ≡ self }
        ensures bound { IsRankNumber result }
    {
        self.high as u128 * WORD + self.low as u128
    }
}

impl Rank for PackedLimitRank {
    ghost cmp = { limit_rank_cmp int_cmp };

    ghost total = { limit_rank_total int_cmp_total };

    fn is_below(&self, other: &PackedLimitRank) -> bool {
        self.number() < other.number()
    }
}

impl PackedRank<LimitRank<TickTag>> for PackedLimitRank {
    ghost rank_of = { λ p. p };

    ghost packed = { λ rank. rank };

    fn pack(rank: LimitRank<TickTag>) -> PackedLimitRank {
        PackedLimitRank::of_number(number_of(rank.ready, rank.tag.raised(), rank.client))
    }

    fn rank(self) -> LimitRank<TickTag> {
        let number = self.number();
        let upper = number / CLIENTS;
        LimitRank {
            tag: TickTag::of_raised(upper % MARK),
            client: ClientId((number % CLIENTS) as u32),
            ready: upper >= MARK,
        }
    }

    ghost stores = { λ rank. refl };

    ghost same_order = { λ a b. refl };
}

/// A ready rank, stored as the limit rank with the other mark, since ready ones come first.
#[derive(Clone, Copy)]
pub struct PackedReadyRank {
    turned: PackedLimitRank,
}

impl Model for PackedReadyRank {
    ghost use Rattle.std.specs.Prelude.{ℤ};
    ghost use Rattle.dmc_tag.specs.declared.rank.ReadyRank.{ReadyRank};
    ghost use Rattle.dmc_tick.specs.Packed.{to_turned, of_turned, turned_is};

    ghost Value = { ReadyRank ℤ };

    ghost view = { λ p. of_turned p.turned };

    ghost inverse = { λ rank. record { turned = to_turned rank } };

    ghost inverse_ok = { λ p is i. record { turned = turned_is p.turned i } };
}

impl Rank for PackedReadyRank {
    ghost cmp = { ready_rank_cmp int_cmp };

    ghost total = { ready_rank_total int_cmp_total };

    fn is_below(&self, other: &PackedReadyRank) -> bool {
        self.turned.is_below(&other.turned)
    }
}

impl PackedRank<ReadyRank<TickTag>> for PackedReadyRank {
    ghost rank_of = { λ p. p };

    ghost packed = { λ rank. rank };

    fn pack(rank: ReadyRank<TickTag>) -> PackedReadyRank {
        let ReadyRank { tag, client, ready } = rank;
        PackedReadyRank {
            turned: PackedLimitRank::pack(LimitRank {
                tag,
                client,
                ready: !ready,
            }),
        }
    }

    fn rank(self) -> ReadyRank<TickTag> {
        let LimitRank { tag, client, ready } = self.turned.rank();
        ReadyRank {
            tag,
            client,
            ready: !ready,
        }
    }

    ghost stores = { λ rank. refl };

    ghost same_order = { λ a b. refl };
}

/// A tag rank, stored as a limit rank that is marked if the tag is absent, and then has the tag 0.
#[derive(Clone, Copy)]
pub struct PackedTagRank {
    marked: PackedLimitRank,
}

impl Model for PackedTagRank {
    ghost use Rattle.std.specs.Prelude.{ℤ};
    ghost use Rattle.dmc_tag.specs.declared.rank.TagRank.{TagRank};
    ghost use Rattle.dmc_tick.specs.Packed.{marked_if_absent, absent_if_marked, IsTagged, tagged_is};

    ghost Value = { TagRank ℤ };

    ghost view = { λ p. absent_if_marked p.marked };

    ghost invariant = { λ p. IsTagged p.marked };

    ghost inverse = { λ rank. record { marked = marked_if_absent rank } };

    ghost inverse_ok = { λ p is i. record { marked = tagged_is p.marked is i } };
}

impl Rank for PackedTagRank {
    ghost cmp = { tag_rank_cmp int_cmp };

    ghost total = { tag_rank_total int_cmp_total };

    fn is_below(&self, other: &PackedTagRank) -> bool {
        self.marked.is_below(&other.marked)
    }
}

impl PackedRank<TagRank<TickTag>> for PackedTagRank {
    ghost rank_of = { λ p. p };

    ghost packed = { λ rank. rank };

    fn pack(rank: TagRank<TickTag>) -> PackedTagRank {
        let client = rank.client;
        let marked = match rank.tag {
            None => LimitRank {
                tag: TickTag::ZERO,
                client,
                ready: true,
            },
            Some(tag) => LimitRank {
                tag,
                client,
                ready: false,
            },
        };
        PackedTagRank {
            marked: PackedLimitRank::pack(marked),
        }
    }

    fn rank(self) -> TagRank<TickTag> {
        let LimitRank { tag, client, ready } = self.marked.rank();
        TagRank {
            tag: if ready { None } else { Some(tag) },
            client,
        }
    }

    ghost stores = { λ rank. refl };

    ghost same_order = { λ a b. refl };
}
