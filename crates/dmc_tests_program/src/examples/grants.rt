//! Which request is granted, and when.
use super::{BOTH, gives};
use std::test::Fail;

#[test]
fn granted_at_limit(rt: HostRuntime) -> Result<(), Fail> {
    gives(
        &rt,
        BOTH,
        "hz 1000; client 1 10 1 20 0; add 1 7 1 1 0; pull 0; pull 50; pull 50",
        "ok; tags 100 50 1000; future 50; grant 1 7 priority; none",
    )
}

#[test]
fn granted_by_reservation(rt: HostRuntime) -> Result<(), Fail> {
    gives(
        &rt,
        BOTH,
        "hz 1000; client 1 10 1 - 0; add 1 9 0 0 0; pull 0",
        "ok; tags 0 0 0; grant 1 9 reservation",
    )
}

#[test]
fn tie_by_client(rt: HostRuntime) -> Result<(), Fail> {
    gives(
        &rt,
        BOTH,
        "hz 1000; client 2 10 1 - 0; client 1 10 1 - 0; add 2 1 1 1 0; add 1 1 1 1 0; pull 100; pull 100",
        "ok; ok; tags 100 0 1000; tags 100 0 1000; grant 1 1 reservation; grant 2 1 reservation",
    )
}

#[test]
fn reduced_reservation(rt: HostRuntime) -> Result<(), Fail> {
    gives(
        &rt,
        BOTH,
        "hz 1000; client 1 10 1 - 0; add 1 1 1 1 0; add 1 2 1 1 0; pull 0; pull 100",
        "ok; tags 100 0 1000; tags 200 0 2000; grant 1 1 priority; grant 1 2 reservation",
    )
}

// A stamp counts what its client's requests cost, and a grant returns the cost of its own request.
#[test]
fn cost_returned(rt: HostRuntime) -> Result<(), Fail> {
    gives(
        &rt,
        BOTH,
        "hz 1000; client 1 100 1 - 0; client 2 - 1 - 0; add 1 11 0 0 0 cost 4; add 1 12 4 0 0 cost 4; \
         add 2 21 0 0 0; pull 0; pull 0; pull 0",
        "ok; ok; tags 0 0 0; tags 0 0 4000; tags - 0 0; grant 1 11 reservation cost 4; \
         grant 1 12 reservation cost 4; grant 2 21 priority",
    )
}

/// The last pull of a script and its grant: four spacings of 100 were taken off an R of 1200.
const REDUCED: [(&str, &str); 2] = [
    ("pull 799", "grant 1 13 priority"),
    ("pull 800", "grant 1 13 reservation"),
];

#[test]
fn cost_reduces(rt: HostRuntime) -> Result<(), Fail> {
    for (pull, grant) in REDUCED {
        let input = format!(in rt.alloc();
            "hz 1000; client 1 10 1 - 0; add 1 11 0 0 0; add 1 12 8 8 0 cost 4; add 1 13 4 4 0; \
             pull 0; pull 0; {pull}"
        )?;
        let output = format!(in rt.alloc();
            "ok; tags 0 0 0; tags 800 0 8000; tags 1200 0 12000; grant 1 11 reservation; \
             grant 1 12 priority cost 4; {grant}"
        )?;
        gives(&rt, BOTH, &input, &output)?;
    }
    Ok(())
}

#[test]
fn newcomer_shift(rt: HostRuntime) -> Result<(), Fail> {
    gives(
        &rt,
        BOTH,
        "hz 1000; client 1 - 1 - 0; client 2 - 1 - 0; add 1 11 1 0 0; add 1 12 1 0 0; pull 0; \
         add 2 21 1 0 500; pull 500",
        "ok; ok; tags - 0 1000; tags - 0 2000; grant 1 11 priority; tags - 500 1000; grant 1 12 priority",
    )
}

#[test]
fn moment_goes_back(rt: HostRuntime) -> Result<(), Fail> {
    gives(
        &rt,
        BOTH,
        "hz 1000; client 1 - 1 - 0; pull 50; add 1 1 0 0 30; pull 30",
        "ok; none; tags - 50 50; grant 1 1 priority",
    )
}

#[test]
fn shifted_up(rt: HostRuntime) -> Result<(), Fail> {
    gives(
        &rt,
        BOTH,
        "hz 1000; client 1 - 1 - 0; client 2 - 1 - 0; add 2 21 0 0 0; add 1 11 0 0 500; pull 500; pull 500",
        "ok; ok; tags - 0 0; tags - 500 500; grant 1 11 priority; grant 2 21 priority",
    )
}

#[test]
fn previous_below_zero(rt: HostRuntime) -> Result<(), Fail> {
    gives(
        &rt,
        BOTH,
        "hz 1000; client 1 - 1 - 0; client 2 - 1 - 0; client 3 - 1 - 0; add 1 1 0 0 0; pull 0; \
         add 2 1 1 0 0; add 3 1 1 0 0; add 1 2 1 0 0; pull 0",
        "ok; ok; ok; tags - 0 0; grant 1 1 priority; tags - 0 1000; tags - 0 1000; tags - 0 0; \
         grant 1 2 priority",
    )
}

#[test]
fn allowed_beyond(rt: HostRuntime) -> Result<(), Fail> {
    gives(
        &rt,
        BOTH,
        "hz 1000 allow; client 1 10 1 20 0; add 1 1 1 1 0; add 1 2 1 1 0; pull 0; pull 100; pull 100",
        "ok; tags 100 50 1000; tags 200 100 2000; grant 1 1 priority beyond; grant 1 2 reservation; none",
    )
}

#[test]
fn refused_over_limit(rt: HostRuntime) -> Result<(), Fail> {
    gives(
        &rt,
        BOTH,
        "hz 1000 reject 50; client 1 - 1 10 0; add 1 11 1 0 0; add 1 11 1 0 50; add 1 12 1 0 100; add 1 12 1 0 150; \
         pull 150; pull 199",
        "ok; refused over limit; tags - 100 1000; refused over limit; tags - 200 2000; grant 1 11 priority; future 200",
    )
}

#[test]
fn marks_set_back(rt: HostRuntime) -> Result<(), Fail> {
    gives(
        &rt,
        &["ratio"],
        "hz 1; client 1 65537 1 - 0; client 2 - 1 1 0; add 1 1 131075 131075 0; add 1 2 1 1 0; \
         update 1 65539 1 - 0; add 2 1 1 0 0; pull 1; drop 1; pull 0",
        "ok; ok; tags 131075/65537 0 131075; tags 131076/65537 0 131076; updated; tags - 1 1; refused range; \
         dropped 2; future 1",
    )
}
