//! The keys of a text that are ignored, and which client a fault is of.
use crate::same::assert_same;
use dmc_scene::fault::SceneFault;
use dmc_scene::ignored::ignored_keys;
use dmc_scene::key::Key;
use dmc_scene::scene::read_scene;
use std::process::Abort;
use std::test::Fail;

/// These keys of the text are ignored, and no others.
fn ignores<R: AllocGlobal + Abort>(
    rt: &R,
    text: &str,
    wanted: &[(Option<u64>, &str)],
) -> Result<(), Fail> {
    let keys = ignored_keys(rt.alloc(), text.as_bytes())?;
    assert_same(rt, &keys.len(), &wanted.len());
    for (key, wanted) in keys.iter().zip(wanted) {
        assert_same(rt, &(key.client(), key.name()), wanted);
    }
    Ok(())
}

#[test]
fn misspelt_keys(rt: HostRuntime) -> Result<(), Fail> {
    ignores(
        &rt,
        "hz = 1000\nworker = 1\n[[client]]\nid = 1\n[[client]]\nid = 2\nwieght = 1\n",
        &[(None, "worker"), (Some(2), "wieght")],
    )
}

#[test]
fn misplaced_keys(rt: HostRuntime) -> Result<(), Fail> {
    ignores(
        &rt,
        "hz = 1000\nweight = 1\n[[client]]\nhz = 1000\n[[client]]\n",
        &[(None, "weight"), (Some(1), "hz")],
    )
}

#[test]
fn keys_of_no_scene(rt: HostRuntime) -> Result<(), Fail> {
    ignores(&rt, "", &[])?;
    ignores(&rt, "hz = ", &[])?;
    ignores(
        &rt,
        "\"é\" = 1\nz = { id = 1, y = 2 }\n\"\" = 1\n",
        &[(None, ""), (None, "z"), (None, "é")],
    )?;
    ignores(&rt, "client = { a = 1 }\n", &[])?;
    ignores(
        &rt,
        "client = [{ a = 1 }, 5, { id = 1, b = 2, a = [] }]\n",
        &[(Some(1), "a"), (Some(3), "a"), (Some(3), "b")],
    )
}

#[test]
fn second_client_at_fault(rt: HostRuntime) -> Result<(), Fail> {
    let text =
        "hz = 1000\ntags = \"tick\"\nservers = 1\nworkers = 1\nstep = 50\nseed = 1\nmax_pulls = 100\n\
                [[client]]\nid = 1\nweight = 1\nrequests = 1\nwindow = 1\n[[client]]\nid = 2\n";
    match read_scene(rt.alloc(), text.as_bytes()) {
        Ok(_) => Err("no fault".into()),
        Err(SceneFault::Memory) => Err(SceneFault::Memory.into()),
        Err(fault) => {
            assert_same(&rt, &fault, &SceneFault::Missing(Key::Weight, Some(2)));
            Ok(())
        }
    }
}
