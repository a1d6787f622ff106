//! What holds the threads of an example's server back, so that its memory does not grow: a client waits for its earlier requests,
//! and all clients for the auditor.
use std::sync::{Condvar, Mutex, Wait};

/// How many requests a client makes before it waits for those that it made before them. So twice as many are under way at most.
pub const BATCH: u32 = 256;

/// How many events wait at least before the auditor releases them.
const ENOUGH: u64 = 65_536;

/// How many events may wait before the clients wait for the auditor.
const MOST: u64 = 2 * ENOUGH;

/// How many requests of a client were served.
#[derive(Drop)]
pub struct Served {
    count: Mutex<u64>,
    batch_ended: Condvar,
}

impl Served {
    /// None yet.
    pub fn new() -> Served {
        Served {
            count: Mutex::new(0),
            batch_ended: Condvar::new(),
        }
    }

    /// One more was served. Who waits for its batch wakes at the end of the batch.
    pub fn note<R: Wait>(&self, rt: &R) {
        let mut count = self.count.lock(rt);
        let next = count.saturating_add(1);
        *count = next;
        drop(count);
        if next % u64::from(BATCH) == 0 {
            self.batch_ended.notify_all();
        }
    }

    /// Waits until this many were served, which is a number of whole batches.
    pub fn wait_for<R: Wait>(&self, rt: &R, requests: u32) {
        let count = self.count.lock(rt);
        drop(
            self.batch_ended
                .wait_while(rt, count, |count| *count < u64::from(requests)),
        );
    }

    /// Nobody waits from now on.
    pub fn end<R: Wait>(&self, rt: &R) {
        let mut count = self.count.lock(rt);
        *count = u64::MAX;
        drop(count);
        self.batch_ended.notify_all();
    }
}

/// The events that wait for the auditor.
#[derive(Clone, Copy)]
struct Waiting {
    /// How many events there will be, once all that is announced was served.
    announced: u64,
    released: u64,
    ended: bool,
}

impl Waiting {
    fn count(self) -> u64 {
        self.announced.saturating_sub(self.released)
    }
}

/// What the clients and the auditor note for each other: how many events there will be, and how many were released.
#[derive(Drop)]
pub struct Backlog {
    waiting: Mutex<Waiting>,
    grown: Condvar,
    shrunk: Condvar,
}

impl Backlog {
    /// No event yet.
    pub fn new() -> Backlog {
        Backlog {
            waiting: Mutex::new(Waiting {
                announced: 0,
                released: 0,
                ended: false,
            }),
            grown: Condvar::new(),
            shrunk: Condvar::new(),
        }
    }

    /// Announces requests, each of which will be two events, and waits while too many events wait.
    pub fn announce<R: Wait>(&self, rt: &R, requests: u32) {
        let mut waiting = self.waiting.lock(rt);
        let announced = waiting.announced.saturating_add(2 * u64::from(requests));
        waiting.announced = announced;
        if waiting.count() >= ENOUGH {
            self.grown.notify_one();
        }
        drop(
            self.shrunk.wait_while(
                rt,
                waiting,
                |waiting| !waiting.ended && waiting.count() > MOST,
            ),
        );
    }

    /// Waits until there are enough events to release. False if the server has ended.
    pub fn wait_for_enough<R: Wait>(&self, rt: &R) -> bool {
        let waiting = self.waiting.lock(rt);
        let waiting = self.grown.wait_while(
            rt,
            waiting,
            |waiting| !waiting.ended && waiting.count() < ENOUGH,
        );
        !waiting.ended
    }

    /// Until now this many events were released.
    pub fn note_released<R: Wait>(&self, rt: &R, events: u64) {
        let mut waiting = self.waiting.lock(rt);
        waiting.released = events;
        drop(waiting);
        self.shrunk.notify_all();
    }

    /// Nobody waits from now on.
    pub fn end<R: Wait>(&self, rt: &R) {
        let mut waiting = self.waiting.lock(rt);
        waiting.ended = true;
        drop(waiting);
        self.grown.notify_all();
        self.shrunk.notify_all();
    }
}
