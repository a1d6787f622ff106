//! The queue that scripts run on.
use dmc_heap::adaptive_index::HeapIndexes;
use dmc_pull::queue::PullQueue;
use dmc_tag::tag::Tag;
use dmc_text::script::QueueMaker;
use dmc_types::config::QueueConfig;
use std::alloc::Global;

/// Makes indexed queues over heaps.
#[derive(Drop)]
pub struct HeapMaker {
    pub alloc: Global,
}

impl<T: Tag> QueueMaker<T> for HeapMaker {
    type Queue = PullQueue<T, HeapIndexes>;

    fn make(&mut self, config: QueueConfig) -> PullQueue<T, HeapIndexes> {
        PullQueue::new(self.alloc, config)
    }
}
