//! Small scenes: two servers with two workers each, and three clients.
use super::words::word_of;
use dmc_scene::scene::{Scene, read_scene};
use std::alloc::{AllocError, Global};
use std::test::Fail;

/// One of four texts, chosen by a word.
fn one_of(texts: [&'static str; 4], word: u64) -> &'static str {
    let [first, second, third, fourth] = texts;
    match word % 4 {
        0 => first,
        1 => second,
        2 => third,
        _ => fourth,
    }
}

/// Adds a client. Its rates, its window of 1 to 4, its 0 to 15 requests and their costs are chosen by a word.
fn put_client(text: &mut String, id: u64, word: u64) -> Result<(), AllocError> {
    let rates = [
        "weight = 1",
        "weight = 2\nreservation = 100",
        "weight = 4\nlimit = 20",
        "weight = 5\nreservation = 10\nlimit = 50",
    ];
    let rates = one_of(rates, word);
    let window = (word >> 8) % 4 + 1;
    let requests = (word >> 16) % 16;
    let costs = ["", "costs = [1]", "costs = [3]", "costs = [2, 1, 7]"];
    let costs = one_of(costs, word >> 24);
    writeln!(
        text,
        "[[client]]\nid = {id}\n{rates}\nwindow = {window}\nrequests = {requests}\n{costs}"
    )
}

/// The text of the scene of a run. A worker takes at most this many turns.
fn scene_text(alloc: Global, run: u64, max_pulls: u32) -> Result<String, AllocError> {
    let word = word_of(run);
    let seed = word >> 1;
    let forms = [
        "counting = \"all\"\nat_limit = \"wait\"",
        "counting = \"others\"\nat_limit = \"wait\"",
        "counting = \"all\"\nat_limit = \"allow\"",
        "counting = \"others\"\nat_limit = \"allow\"",
    ];
    let forms = one_of(forms, word);
    let mut text = format!(in alloc;
        "hz = 1000\ntags = \"tick\"\nservers = 2\nworkers = 2\nstep = 1\nseed = {seed}\n\
         max_pulls = {max_pulls}\n{forms}\n"
    )?;
    for id in 1..4 {
        put_client(&mut text, id, word_of(seed ^ id))?;
    }
    Ok(text)
}

/// The scene of a run, by the run's number. A worker takes at most this many turns.
pub(super) fn scene_of(alloc: Global, run: u64, max_pulls: u32) -> Result<Scene, Fail> {
    let text = scene_text(alloc, run, max_pulls)?;
    Ok(read_scene(alloc, text.as_bytes())?)
}
