//! The other queues that the examples of scripts run on: the reference queue, and the indexed queue over sorted vectors.
use crate::runs::ROOM;
use crate::same::assert_same;
use dmc_index::list_index::ListIndexes;
use dmc_plain::queue::PlainQueue;
use dmc_pull::queue::PullQueue;
use dmc_ratio::ratio::RatioTag;
use dmc_tag::tag::Tag;
use dmc_text::script::{QueueMaker, ScriptFault, run_script};
use dmc_text::tag::TagText;
use dmc_text::watched::Watched;
use dmc_tick::tick::TickTag;
use dmc_types::config::QueueConfig;
use std::alloc::{AllocError, Global};
use std::process::Abort;
use std::sync::Wait;
use std::test::Fail;
use std::thread::Threads;

/// Makes reference queues.
#[derive(Drop)]
struct PlainMaker {
    alloc: Global,
}

impl<T: Tag> QueueMaker<T> for PlainMaker {
    type Queue = PlainQueue<T>;

    fn make(&mut self, config: QueueConfig) -> PlainQueue<T> {
        PlainQueue::new(self.alloc, config)
    }
}

/// Makes indexed queues over sorted vectors.
#[derive(Drop)]
struct ListMaker {
    alloc: Global,
}

impl QueueMaker<TickTag> for ListMaker {
    type Queue = PullQueue<TickTag, ListIndexes>;

    fn make(&mut self, config: QueueConfig) -> PullQueue<TickTag, ListIndexes> {
        PullQueue::new(self.alloc, config)
    }
}

impl QueueMaker<RatioTag> for ListMaker {
    type Queue = PullQueue<RatioTag, ListIndexes>;

    fn make(&mut self, config: QueueConfig) -> PullQueue<RatioTag, ListIndexes> {
        PullQueue::new(self.alloc, config)
    }
}

/// Runs a script over both queues with the tags of this name, and checks what it writes and how it ends. An allocation failure is
/// an error.
pub fn over_queues<A: AllocGlobal + Threads + Wait + Sync + Abort>(
    rt: &A,
    tags: &str,
    input: &[u8],
    output: &[u8],
    end: Result<(), ScriptFault>,
) -> Result<(), Fail> {
    let alloc = rt.alloc();
    if tags == "ratio" {
        over::<RatioTag, PlainMaker, A>(rt, PlainMaker { alloc }, input, output, end)?;
        over::<RatioTag, ListMaker, A>(rt, ListMaker { alloc }, input, output, end)
    } else {
        over::<TickTag, PlainMaker, A>(rt, PlainMaker { alloc }, input, output, end)?;
        over::<TickTag, ListMaker, A>(rt, ListMaker { alloc }, input, output, end)
    }
}

/// Runs a script over the queue that is made.
fn over<T: TagText, M: QueueMaker<T> + Drop, A: AllocGlobal + Threads + Wait + Sync + Abort>(
    rt: &A,
    maker: M,
    input: &[u8],
    output: &[u8],
    end: Result<(), ScriptFault>,
) -> Result<(), Fail> {
    let mut maker = maker;
    let mut reader = Watched::new(input);
    let mut written = Watched::new(Vec::with_capacity(rt.alloc(), ROOM)?);
    let ended = run_script::<T, M, _, _>(rt.alloc(), &mut maker, &mut reader, &mut written);
    if ended == Err(ScriptFault::Memory) {
        return Err(AllocError.into());
    }
    assert_same(rt, &ended, &end);
    assert_same(rt, &written.stream().as_slice(), &output);
    Ok(())
}
