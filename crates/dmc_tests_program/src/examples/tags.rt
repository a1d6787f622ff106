//! Exact tags, and sums that are no values.
use super::gives;
use std::test::Fail;

#[test]
fn inexact_weight(rt: HostRuntime) -> Result<(), Fail> {
    gives(
        &rt,
        &["tick"],
        "hz 1000; client 1 - 3 - 0",
        "refused inexact weight",
    )
}

#[test]
fn exact_thirds(rt: HostRuntime) -> Result<(), Fail> {
    gives(
        &rt,
        &["ratio"],
        "hz 1000; client 1 - 3 - 0; add 1 1 1 0 0; add 1 2 1 0 0; add 1 3 1 0 0",
        "ok; tags - 0 1000/3; tags - 0 2000/3; tags - 0 1000",
    )
}

#[test]
fn ratio_future(rt: HostRuntime) -> Result<(), Fail> {
    gives(
        &rt,
        &["ratio"],
        "hz 1000; client 1 - 1 3 0; add 1 1 1 0 0; pull 0; pull 333; pull 334",
        "ok; tags - 1000/3 1000; future 334; future 334; grant 1 1 priority",
    )
}

#[test]
fn sum_out_of_range(rt: HostRuntime) -> Result<(), Fail> {
    gives(
        &rt,
        &["ratio"],
        "hz 1; client 1 - 65521 - 0; client 2 - 65519 - 0; client 3 - 2 - 0; client 4 - 1 - 0; \
         add 1 1 1 0 0; add 2 1 1 0 0; add 1 2 1 0 0; pull 0; add 3 1 1 0 0; pull 0; add 4 1 1 0 0; pull 0; \
         pull 0; pull 0",
        "ok; ok; ok; ok; tags - 0 1/65521; tags - 0 1/65519; tags - 0 1/65521; grant 1 1 priority; \
         tags - 0 1/2; grant 1 2 priority; refused range; grant 2 1 priority; grant 3 1 priority; none",
    )
}

#[test]
fn reduction_out_of_range(rt: HostRuntime) -> Result<(), Fail> {
    gives(
        &rt,
        &["ratio"],
        "hz 1; client 1 65537 1 - 0; add 1 1 1 1 0; add 1 2 1 1 0; update 1 65539 1 - 0; pull 0; pull 1; \
         pull 1",
        "ok; tags 1/65537 0 1; tags 2/65537 0 2; updated; refused range; grant 1 1 reservation; \
         grant 1 2 reservation",
    )
}

// Two units of cost take 2/65539 off 2/65537, which is no value, and 65539 units take off 1.
#[test]
fn reduction_of_cost_out_of_range(rt: HostRuntime) -> Result<(), Fail> {
    gives(
        &rt,
        &["ratio"],
        "hz 1; client 1 65537 1 - 0; add 1 1 1 1 0 cost 2; add 1 2 1 1 0; update 1 65539 1 - 0; pull 0; \
         pull 1; pull 1",
        "ok; tags 1/65537 0 1; tags 2/65537 0 2; updated; refused range; grant 1 1 reservation cost 2; \
         grant 1 2 reservation",
    )?;
    gives(
        &rt,
        &["ratio"],
        "hz 1; client 1 65537 1 - 0; add 1 1 1 1 0 cost 65539; add 1 2 1 1 0; update 1 65539 1 - 0; pull 0; \
         pull 0",
        "ok; tags 1/65537 0 1; tags 2/65537 0 2; updated; grant 1 1 priority cost 65539; \
         grant 1 2 reservation",
    )
}
