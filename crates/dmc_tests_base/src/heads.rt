//! The heads at tick tags, over the sorted vectors and the heaps.
ghost use Rattle.std.specs.Prelude.{◌≡◌, IfOk, pos};
ghost use Rattle.dmc_tests_base.specs.Heads as examples;

use crate::kinds::{Example, over_all};
use crate::same::assert_same;
use dmc_head_index::head::Head;
use dmc_head_index::heads::Heads;
use dmc_index::index::{Indexes, OrderIndex};
use dmc_tag::reply::Tags;
use dmc_tag::tag::Tag;
use dmc_tick::tick::TickTag;
use dmc_types::ids::ClientId;
use dmc_types::moment::Moment;
use std::alloc::Global;
use std::process::Abort;
use std::test::Fail;

fn tick(ticks: u64) -> Result<TickTag, Fail>
    ensures { IfOk result (λ tag. tag ≡ pos ticks) }
{
    let tag = TickTag::new(ticks as i128).ok_or("past the greatest tag")?;
    Ok(tag)
}

fn head_of(client: u32, r: u64, l: u64, p: u64) -> Result<Head<TickTag>, Fail>
    ensures { IfOk result (λ head. head ≡ examples.example client r l p) }
{
    let tags = Tags {
        r: Some(tick(r)?),
        l: tick(l)?,
        p: tick(p)?,
    };
    Ok(Head {
        client: ClientId(client),
        tags,
        ready: false,
    })
}

fn two_heads<I: Indexes<TickTag>>(alloc: Global) -> Result<Heads<TickTag, I>, Fail>
    ensures { IfOk result (λ heads. heads ≡ examples.two_heads) }
{
    let first = head_of(1, 40, 10, 70)?;
    let second = head_of(2, 30, 20, 80)?;
    let mut heads = Heads::new(alloc);
    heads.reserve(4)?;
    heads.insert(3, first);
    heads.insert(0, second);
    Ok(heads)
}

fn moment(ticks: u32) -> Moment {
    Moment::new(u64::from(ticks)).unwrap()
}

/// The least P is of this many ticks.
fn assert_least_share<I: Indexes<TickTag>>(
    rt: &impl Abort,
    heads: &mut Heads<TickTag, I>,
    ticks: i128,
)
    ensures { heads.new ≡ heads.old }
{
    match heads.least_share() {
        Some(least) => assert_same(rt, &least.ticks(), &ticks),
        None => panic!(rt; "two heads are held"),
    }
}

// The least P is known, lost and found as heads change and are removed.
fn changes_of<I: Indexes<TickTag>>(
    rt: &impl Abort,
    heads: &mut Heads<TickTag, I>,
) -> Result<(), Fail>
    requires { heads.old ≡ examples.two_heads }
{
    let next = head_of(1, 50, 25, 90)?;
    let amount = tick(5)?;
    assert_least_share(rt, heads, 70);
    heads.change(3, next);
    assert_least_share(rt, heads, 80);
    heads.shift(amount);
    assert_least_share(rt, heads, 75);
    heads.remove(0);
    assert_least_share(rt, heads, 85);
    assert_same(rt, &heads.len(), &1);
    Ok(())
}

/// Changes of two heads, and the least P among them.
pub fn changes_over<I: Indexes<TickTag>>(rt: &impl Abort, alloc: Global) -> Result<(), Fail> {
    let mut heads: Heads<TickTag, I> = two_heads(alloc)?;
    changes_of(rt, &mut heads)
}

/// The key of the least R, and that R in ticks.
fn first_by_reservation<I: Indexes<TickTag>>(heads: &Heads<TickTag, I>) -> Option<(usize, i128)> {
    let (key, rank) = heads.least_by_reservation()?;
    Some((key, rank.tag?.ticks()))
}

/// The key of the least P, ready ones first, and whether it is ready.
fn first_by_weight<I: Indexes<TickTag>>(heads: &Heads<TickTag, I>) -> Option<(usize, bool)> {
    let (key, rank) = heads.least_by_weight()?;
    Some((key, rank.ready))
}

/// The key of the least L, unready ones first, and whether it is ready.
fn first_by_limit<I: Indexes<TickTag>>(heads: &Heads<TickTag, I>) -> Option<(usize, bool)> {
    let (key, rank) = heads.least_by_limit()?;
    Some((key, rank.ready))
}

/// The ready marks of a key, in the order of L and in that of P.
fn marks_at<I: Indexes<TickTag>>(heads: &Heads<TickTag, I>, key: usize) -> Option<(bool, bool)> {
    let limit = heads.by_limit().get(key)?;
    let weight = heads.by_weight().get(key)?;
    Some((limit.ready, weight.ready))
}

// Marks are set and reset by the moment.
fn marks_of<I: Indexes<TickTag>>(rt: &impl Abort, heads: &mut Heads<TickTag, I>) {
    assert_same(rt, &first_by_reservation(heads), &Some((0, 30)));
    heads.promote(moment(15));
    let first = [first_by_weight(heads), first_by_limit(heads)];
    assert_same(rt, &first, &[Some((3, true)), Some((0, false))]);
    heads.promote(moment(20));
    heads.set_back(moment(19));
    let marks = [marks_at(heads, 0), marks_at(heads, 3)];
    assert_same(rt, &marks, &[Some((false, false)), Some((true, true))]);
}

/// Marks of two heads, as requests become ready.
pub fn marks_over<I: Indexes<TickTag>>(rt: &impl Abort, alloc: Global) -> Result<(), Fail> {
    let mut heads: Heads<TickTag, I> = two_heads(alloc)?;
    marks_of(rt, &mut heads);
    Ok(())
}

#[test]
fn least_share_of_heads(rt: HostRuntime) -> Result<(), Fail> {
    over_all(&rt, rt.alloc(), Example::LeastShare)
}

#[test]
fn ready_marks(rt: HostRuntime) -> Result<(), Fail> {
    over_all(&rt, rt.alloc(), Example::ReadyMarks)
}
