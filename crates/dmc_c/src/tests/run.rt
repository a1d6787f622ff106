//! Runs of a queue through its exports, with their replies as texts.
use crate::handle::Handle;
use crate::outputs::{DmcPulled, DmcTag, DmcTags};
use crate::queue::{
    dmc_queue_add, dmc_queue_cancel, dmc_queue_clean, dmc_queue_free, dmc_queue_new,
    dmc_queue_pull, dmc_queue_register, dmc_queue_remove, dmc_queue_update,
};
use crate::reading::DmcConfig;
use std::alloc::{AllocError, Global};

/// A thousand whole ticks a second.
pub const TICKS: DmcConfig = DmcConfig {
    hz: 1000,
    idle_age: 600_000,
    erase_age: 1_200_000,
    threshold: 0,
    tag_kind: 0,
    at_limit: 0,
    shares: 0,
};

/// A thousand ticks a second, and exact fractions of them.
pub const RATIOS: DmcConfig = DmcConfig {
    tag_kind: 1,
    ..TICKS
};

/// A line of a script; a rate of 0 is none.
#[derive(Clone, Copy)]
pub enum Line {
    /// The client, its reservation, weight and limit, and the moment.
    Client(u32, u32, u32, u32, u64),
    Update(u32, u32, u32, u32, u64),
    /// The client, the token, delta, rho, and the moment, of a request of cost 1.
    Add(u32, u32, u32, u32, u64),
    /// The client, the token, delta, rho, the cost, and the moment.
    AddOfCost(u32, u32, u32, u32, u32, u64),
    Pull(u64),
    Drop(u32),
    /// The client, the token, and the counting.
    Cancel(u32, u32, u32),
    Clean(u64),
}

/// No tags, if nothing is written.
pub fn no_tags() -> DmcTags {
    let none = DmcTag {
        high: 7,
        low: 7,
        denom: 7,
    };
    DmcTags {
        reserved: false,
        r: none,
        l: none,
        p: none,
    }
}

/// What no pull answers.
pub fn no_pull() -> DmcPulled {
    DmcPulled {
        kind: 9,
        client: 9,
        token: 9,
        phase: 9,
        cost: 9,
        beyond: false,
        due_low: 9,
        due_high: 9,
    }
}

/// The texts of the replies to a script at a new queue, which ends after it.
pub fn replies(alloc: Global, config: DmcConfig, lines: &[Line]) -> Result<String, AllocError> {
    let mut queue = Handle::none();
    let written = run_all(&mut queue, &config, lines, alloc);
    dmc_queue_free(&mut queue, alloc);
    queue.end(alloc);
    written
}

/// Makes the queue, and runs the lines.
fn run_all(
    queue: &mut Handle,
    config: &DmcConfig,
    lines: &[Line],
    alloc: Global,
) -> Result<String, AllocError> {
    let code = dmc_queue_new(queue, config, alloc);
    if not_memory(code)? != 0 {
        return format!(in alloc; "code {code}");
    }
    let mut written = String::new(alloc);
    for line in lines {
        let reply = run_line(queue, *line, alloc)?;
        if !written.is_empty() {
            written.push_str("; ")?;
        }
        written.push_str(reply.as_str())?;
    }
    Ok(written)
}

/// The text of one reply.
fn run_line(queue: &mut Handle, line: Line, alloc: Global) -> Result<String, AllocError> {
    match line {
        Line::Client(c, r, w, l, at) => {
            coded(
                dmc_queue_register(queue, c, r, w, l, at, alloc),
                "ok",
                alloc,
            )
        }
        Line::Update(c, r, w, l, at) => {
            coded(
                dmc_queue_update(queue, c, r, w, l, at, alloc),
                "updated",
                alloc,
            )
        }
        Line::Add(c, token, delta, rho, at) => add(queue, (c, token, delta, rho, 1, at), alloc),
        Line::AddOfCost(c, token, delta, rho, cost, at) => {
            add(queue, (c, token, delta, rho, cost, at), alloc)
        }
        Line::Pull(at) => {
            let mut pulled = no_pull();
            match dmc_queue_pull(queue, at, &mut pulled, alloc) {
                0 => pulled_text(pulled, alloc),
                code => coded(code, "", alloc),
            }
        }
        Line::Drop(c) => {
            let mut removed = 9;
            match dmc_queue_remove(queue, c, &mut removed, alloc) {
                0 => format!(in alloc; "dropped {removed}"),
                code => coded(code, "", alloc),
            }
        }
        Line::Cancel(c, token, counting) => cancel(queue, (c, token, counting), alloc),
        Line::Clean(at) => {
            let (mut idled, mut erased) = (9, 9);
            match dmc_queue_clean(queue, at, &mut idled, &mut erased, alloc) {
                0 => format!(in alloc; "cleaned {idled} {erased}"),
                code => coded(code, "", alloc),
            }
        }
    }
}

/// The tags of an add, or its code: of a client, a token, delta, rho, a cost and a moment.
fn add(
    queue: &mut Handle,
    request: (u32, u32, u32, u32, u32, u64),
    alloc: Global,
) -> Result<String, AllocError> {
    let (client, token, delta, rho, cost, at) = request;
    let mut tags = no_tags();
    match dmc_queue_add(queue, client, token, delta, rho, cost, at, &mut tags, alloc) {
        0 => tags_text(tags, alloc),
        code => coded(code, "", alloc),
    }
}

/// How many requests a cancel takes back, or its code: of a client, a token and a counting.
fn cancel(
    queue: &mut Handle,
    request: (u32, u32, u32),
    alloc: Global,
) -> Result<String, AllocError> {
    let (client, token, counting) = request;
    let mut removed = 9;
    match dmc_queue_cancel(queue, client, token, counting, &mut removed, alloc) {
        0 => format!(in alloc; "dropped {removed}"),
        code => coded(code, "", alloc),
    }
}

/// The code, unless it says that an allocation failed.
pub fn not_memory(code: u32) -> Result<u32, AllocError> {
    if code == 1 {
        return Err(AllocError);
    }
    Ok(code)
}

/// The word of an accepted command, or the code.
fn coded(code: u32, word: &str, alloc: Global) -> Result<String, AllocError> {
    match not_memory(code)? {
        0 => format!(in alloc; "{word}"),
        code => format!(in alloc; "code {code}"),
    }
}

/// A tag of these tests, which is not below 0.
fn tag_text(tag: DmcTag, alloc: Global) -> Result<String, AllocError> {
    let numer = ((tag.high as i128) << 64) + tag.low as i128;
    if tag.denom == 1 {
        return format!(in alloc; "{numer}");
    }
    format!(in alloc; "{numer}/{}", tag.denom)
}

fn tags_text(tags: DmcTags, alloc: Global) -> Result<String, AllocError> {
    let l = tag_text(tags.l, alloc)?;
    let p = tag_text(tags.p, alloc)?;
    if tags.reserved {
        let r = tag_text(tags.r, alloc)?;
        return format!(in alloc; "tags {r} {l} {p}");
    }
    if tag_text(tags.r, alloc)?.as_str() != "0" {
        return format!(in alloc; "no zero");
    }
    format!(in alloc; "tags - {l} {p}")
}

fn pulled_text(pulled: DmcPulled, alloc: Global) -> Result<String, AllocError> {
    let phase = if pulled.phase == 0 {
        "reservation"
    } else {
        "priority"
    };
    let beyond = if pulled.beyond { " beyond" } else { "" };
    match pulled.kind {
        0 if pulled.cost == 1 => {
            format!(in alloc; "grant {} {} {phase}{beyond}", pulled.client, pulled.token)
        }
        0 => format!(in alloc;
            "grant {} {} {phase}{beyond} cost {}",
            pulled.client, pulled.token, pulled.cost
        ),
        1 => {
            let due = ((pulled.due_high as u128) << 64) + pulled.due_low as u128;
            format!(in alloc; "future {due}")
        }
        2 => format!(in alloc; "none"),
        kind => format!(in alloc; "kind {kind}"),
    }
}
