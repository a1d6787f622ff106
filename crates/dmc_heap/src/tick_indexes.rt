//! The indexes of a queue with tick tags.

use crate::packed_index::PackedIndex;
use dmc_index::index::Indexes;
use dmc_tag::rank::{LimitRank, ReadyRank, TagRank};
use dmc_tick::packed::{PackedLimitRank, PackedReadyRank, PackedTagRank};
use dmc_tick::tick::TickTag;

/// The three indexes of a queue with tick tags: as `HeapIndexes`, with each rank stored as one number.
#[derive(Drop)]
pub struct TickIndexes;

impl Indexes<TickTag> for TickIndexes {
    type ReservationIndex = PackedIndex<TagRank<TickTag>, PackedTagRank>;

    type LimitIndex = PackedIndex<LimitRank<TickTag>, PackedLimitRank>;

    type WeightIndex = PackedIndex<ReadyRank<TickTag>, PackedReadyRank>;
}
