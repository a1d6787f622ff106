//! The worked examples of scripts, through the exports.
use crate::reading::DmcConfig;
use crate::tests::run::{Line, RATIOS, TICKS, replies};
use Line::{Add, AddOfCost, Cancel, Clean, Client, Drop, Pull, Update};
use std::test::Fail;

#[test]
fn granted_by_reservation(rt: HostRuntime) -> Result<(), Fail> {
    let written = replies(
        rt.alloc(),
        TICKS,
        &[Client(1, 10, 1, 0, 0), Add(1, 9, 0, 0, 0), Pull(0)],
    )?;
    assert_eq!(rt; written.as_str(), "ok; tags 0 0 0; grant 1 9 reservation");
    Ok(())
}

#[test]
fn granted_at_limit(rt: HostRuntime) -> Result<(), Fail> {
    let lines = [
        Client(1, 10, 1, 20, 0),
        Add(1, 7, 1, 1, 0),
        Pull(0),
        Pull(50),
        Pull(50),
    ];
    let written = replies(rt.alloc(), TICKS, &lines)?;
    assert_eq!(rt;
        written.as_str(),
        "ok; tags 100 50 1000; future 50; grant 1 7 priority; none"
    );
    Ok(())
}

#[test]
fn allowed_beyond(rt: HostRuntime) -> Result<(), Fail> {
    let allow = DmcConfig {
        at_limit: 1,
        ..TICKS
    };
    let lines = [
        Client(1, 10, 1, 20, 0),
        Add(1, 1, 1, 1, 0),
        Add(1, 2, 1, 1, 0),
        Pull(0),
        Pull(100),
        Pull(100),
    ];
    let written = replies(rt.alloc(), allow, &lines)?;
    assert_eq!(rt;
        written.as_str(),
        "ok; tags 100 50 1000; tags 200 100 2000; grant 1 1 priority beyond; grant 1 2 reservation; none"
    );
    Ok(())
}

#[test]
fn refused_over_limit(rt: HostRuntime) -> Result<(), Fail> {
    let reject = DmcConfig {
        at_limit: 2,
        threshold: 50,
        ..TICKS
    };
    let lines = [
        Client(1, 0, 1, 10, 0),
        Add(1, 11, 1, 0, 0),
        Add(1, 11, 1, 0, 50),
        Add(1, 12, 1, 0, 100),
        Add(1, 12, 1, 0, 150),
        Pull(150),
        Pull(199),
    ];
    let written = replies(rt.alloc(), reject, &lines)?;
    assert_eq!(rt;
        written.as_str(),
        "ok; code 29; tags - 100 1000; code 29; tags - 200 2000; grant 1 11 priority; future 200"
    );
    Ok(())
}

#[test]
fn updates(rt: HostRuntime) -> Result<(), Fail> {
    let lines = [
        Client(1, 0, 1, 0, 0),
        Add(1, 1, 1, 0, 0),
        Update(1, 0, 2, 0, 0),
        Add(1, 2, 1, 0, 0),
        Update(1, 10, 2, 0, 0),
        Drop(1),
        Update(1, 10, 2, 0, 0),
        Add(1, 3, 1, 1, 0),
        Update(1, 0, 3, 0, 0),
        Update(2, 0, 1, 0, 0),
    ];
    let written = replies(rt.alloc(), TICKS, &lines)?;
    // Busy; then inexact weight, unknown.
    assert_eq!(rt;
        written.as_str(),
        "ok; tags - 0 1000; updated; tags - 0 1500; code 28; dropped 2; updated; tags 100 0 2000; code 23; code 21"
    );
    Ok(())
}

#[test]
fn cancelled(rt: HostRuntime) -> Result<(), Fail> {
    let lines = [
        Client(1, 0, 1, 10, 0),
        Add(1, 11, 1, 1, 0),
        Add(1, 12, 1, 1, 0),
        Add(1, 13, 1, 1, 0),
        Add(1, 14, 1, 1, 250),
        Cancel(1, 12, 1),
        Pull(100),
        Pull(200),
        Pull(299),
        Cancel(1, 14, 1),
        Add(1, 15, 1, 1, 299),
    ];
    let written = replies(rt.alloc(), TICKS, &lines)?;
    assert_eq!(rt;
        written.as_str(),
        "ok; tags - 100 1000; tags - 200 2000; tags - 300 3000; tags - 400 4000; dropped 1; grant 1 11 priority; grant 1 13 priority; future 300; dropped 1; tags - 350 3000"
    );
    Ok(())
}

/// In the form All nothing is given back.
#[test]
fn cancelled_all(rt: HostRuntime) -> Result<(), Fail> {
    let lines = [
        Client(1, 0, 1, 10, 0),
        Add(1, 11, 1, 1, 0),
        Add(1, 12, 1, 1, 0),
        Add(1, 13, 1, 1, 0),
        Add(1, 14, 1, 1, 250),
        Cancel(1, 12, 0),
        Pull(100),
        Pull(200),
        Pull(299),
        Pull(300),
    ];
    let written = replies(rt.alloc(), TICKS, &lines)?;
    assert_eq!(rt;
        written.as_str(),
        "ok; tags - 100 1000; tags - 200 2000; tags - 300 3000; tags - 400 4000; dropped 1; grant 1 11 priority; future 300; future 300; grant 1 13 priority"
    );
    Ok(())
}

#[test]
fn exact_thirds(rt: HostRuntime) -> Result<(), Fail> {
    let lines = [
        Client(1, 0, 3, 0, 0),
        Add(1, 1, 1, 0, 0),
        Add(1, 2, 1, 0, 0),
        Add(1, 3, 1, 0, 0),
    ];
    let written = replies(rt.alloc(), RATIOS, &lines)?;
    assert_eq!(rt;
        written.as_str(),
        "ok; tags - 0 1000/3; tags - 0 2000/3; tags - 0 1000"
    );
    Ok(())
}

#[test]
fn idle_then_erased(rt: HostRuntime) -> Result<(), Fail> {
    let aged = DmcConfig {
        idle_age: 100,
        erase_age: 1000,
        ..TICKS
    };
    let lines = [
        Client(1, 0, 1, 0, 0),
        Clean(100),
        Add(1, 1, 0, 0, 100),
        Pull(100),
        Clean(199),
        Clean(200),
        Clean(1099),
        Clean(1100),
        Add(1, 2, 0, 0, 1100),
    ];
    let written = replies(rt.alloc(), aged, &lines)?;
    // The last is unknown.
    assert_eq!(rt;
        written.as_str(),
        "ok; cleaned 0 0; tags - 100 100; grant 1 1 priority; cleaned 0 0; cleaned 1 0; cleaned 0 0; cleaned 0 1; code 21"
    );
    Ok(())
}

#[test]
fn reduction_out_of_range(rt: HostRuntime) -> Result<(), Fail> {
    let second = DmcConfig { hz: 1, ..RATIOS };
    let lines = [
        Client(1, 65537, 1, 0, 0),
        Add(1, 1, 1, 1, 0),
        Add(1, 2, 1, 1, 0),
        Update(1, 65539, 1, 0, 0),
        Pull(0),
        Pull(1),
        Pull(1),
    ];
    let written = replies(rt.alloc(), second, &lines)?;
    assert_eq!(rt;
        written.as_str(),
        "ok; tags 1/65537 0 1; tags 2/65537 0 2; updated; code 27; grant 1 1 reservation; grant 1 2 reservation"
    );
    Ok(())
}

/// A client is alone, and another comes.
const NEWCOMER: [Line; 12] = [
    Client(1, 0, 1, 0, 0),
    Client(2, 0, 1, 0, 0),
    Add(1, 11, 1, 1, 0),
    Add(1, 12, 1, 1, 0),
    Pull(0),
    Pull(0),
    Add(2, 21, 1, 1, 0),
    Add(1, 13, 1, 1, 0),
    Add(2, 22, 1, 1, 0),
    Pull(0),
    Pull(0),
    Pull(0),
];

#[test]
fn newcomer_clock(rt: HostRuntime) -> Result<(), Fail> {
    let written = replies(rt.alloc(), TICKS, &NEWCOMER)?;
    assert_eq!(rt;
        written.as_str(),
        "ok; ok; tags - 0 1000; tags - 0 2000; grant 1 11 priority; grant 1 12 priority; tags - 0 1000; tags - 0 3000; tags - 0 2000; grant 2 21 priority; grant 2 22 priority; grant 1 13 priority"
    );
    Ok(())
}

#[test]
fn newcomer_virtual(rt: HostRuntime) -> Result<(), Fail> {
    let served = DmcConfig { shares: 1, ..TICKS };
    let written = replies(rt.alloc(), served, &NEWCOMER)?;
    assert_eq!(rt;
        written.as_str(),
        "ok; ok; tags - 0 1000; tags - 0 2000; grant 1 11 priority; grant 1 12 priority; tags - 0 2000; tags - 0 3000; tags - 0 3000; grant 2 21 priority; grant 1 13 priority; grant 2 22 priority"
    );
    Ok(())
}

#[test]
fn cost_returned(rt: HostRuntime) -> Result<(), Fail> {
    let lines = [
        Client(1, 100, 1, 0, 0),
        Client(2, 0, 1, 0, 0),
        AddOfCost(1, 11, 0, 0, 4, 0),
        AddOfCost(1, 12, 4, 0, 4, 0),
        Add(2, 21, 0, 0, 0),
        Pull(0),
        Pull(0),
        Pull(0),
    ];
    let written = replies(rt.alloc(), TICKS, &lines)?;
    assert_eq!(rt;
        written.as_str(),
        "ok; ok; tags 0 0 0; tags 0 0 4000; tags - 0 0; grant 1 11 reservation cost 4; grant 1 12 reservation cost 4; grant 2 21 priority"
    );
    Ok(())
}

#[test]
fn cost_reduces(rt: HostRuntime) -> Result<(), Fail> {
    for (at, phase) in [(799, "priority"), (800, "reservation")] {
        let lines = [
            Client(1, 10, 1, 0, 0),
            Add(1, 11, 0, 0, 0),
            AddOfCost(1, 12, 8, 8, 4, 0),
            Add(1, 13, 4, 4, 0),
            Pull(0),
            Pull(0),
            Pull(at),
        ];
        let written = replies(rt.alloc(), TICKS, &lines)?;
        let wanted = format!(in rt.alloc();
            "ok; tags 0 0 0; tags 800 0 8000; tags 1200 0 12000; grant 1 11 reservation; grant 1 12 priority cost 4; grant 1 13 {phase}"
        )?;
        assert_eq!(rt; written.as_str(), wanted.as_str());
    }
    Ok(())
}
