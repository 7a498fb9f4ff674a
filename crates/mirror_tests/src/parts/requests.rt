// Requests in flight: their numbers, their order, and which of them meet a span of sectors.
use crate::checks::{holds, same};
use md_inflight::{Inflight, PushFault, Refused, Span};
use std::cell::Cell;
use std::process::Abort;
use std::test::Fail;

#[derive(Debug, Drop)]
struct Run(u64, u64);

impl Span for Run {
    ghost start = { λ run. run.0 };

    ghost len = { λ run. run.1 };

    fn start(&self) -> u64 {
        self.0
    }

    fn len(&self) -> u64 {
        self.1
    }
}

fn expect_left(rt: &impl Abort, list: &Inflight<char>) {
    let mut entries = list.iter();
    holds(rt, &"first left", entries.next() == Some((1, &'b')));
    holds(rt, &"second left", entries.next() == Some((3, &'d')));
    holds(rt, &"end", entries.next().is_none());
}

fn remove_three(rt: &impl Abort, list: &mut Inflight<char>) -> Result<(), Refused<char>> {
    let a = list.push_back('a')?;
    list.push_back('b')?;
    let c = list.push_back('c')?;
    same(rt, &"from the middle", list.remove(c), 'c');
    let d = list.push_back('d')?;
    let e = list.push_back('e')?;
    same(rt, &"the last", list.remove(e), 'e');
    same(rt, &"the first", list.remove(a), 'a');
    expect_left(rt, list);
    *list.get_mut(&d) = 'x';
    same(rt, &"changed", *list.get(&d), 'x');
    let f = list.push_back('f')?;
    same(rt, &"next number", f.number(), 5);
    Ok(())
}

#[test]
fn removed_in_any_order(rt: HostRuntime) -> Result<(), Fail> {
    let mut list = Inflight::new(rt.alloc());
    let removed = remove_three(&rt, &mut list);
    drop(list);
    removed?;
    Ok(())
}

fn expect_meeting(rt: &impl Abort, list: &mut Inflight<Run>) -> Result<(), Refused<Run>> {
    let first = list.push_back(Run(0, 8))?;
    list.push_back(Run(8, 8))?;
    list.push_back(Run(4, 2))?;
    same(rt, &"two meet", list.any_meeting(5, 4), Some(0));
    list.remove(first);
    same(rt, &"one meets", list.any_meeting(5, 4), Some(1));
    same(rt, &"none meets", list.any_meeting(16, u64::MAX), None);
    Ok(())
}

#[test]
fn first_that_meets(rt: HostRuntime) -> Result<(), Fail> {
    let mut list = Inflight::new(rt.alloc());
    let met = expect_meeting(&rt, &mut list);
    drop(list);
    met?;
    Ok(())
}

#[test]
fn numbers_spent(rt: HostRuntime) -> Result<(), Fail> {
    let mut list = Inflight::from_number(rt.alloc(), u64::MAX);
    let last = list.push_back('a')?;
    same(&rt, &"the last number", last.number(), u64::MAX);
    let refused = list.push_back('b').err().expect(&rt, "it is refused");
    same(&rt, &"why", refused.why, PushFault::NumbersSpent);
    same(&rt, &"the item comes back", refused.item, 'b');
    same(&rt, &"none is entered", list.len(), 1);
    Ok(())
}

// Counts how often an item of it is dropped.
#[derive(Debug)]
struct Counted<'a>(&'a Cell<u32>);

impl<'a> Drop for Counted<'a> {
    fn drop(self) {
        let Counted(dropped) = self;
        dropped.set(dropped.get().saturating_add(1));
    }
}

#[test]
fn each_item_is_dropped_once(rt: HostRuntime) -> Result<(), Fail> {
    let dropped = Cell::new(0);
    let mut list = Inflight::new(rt.alloc());
    list.push_back(Counted(&dropped))?;
    let second = list.push_back(Counted(&dropped))?;
    list.push_back(Counted(&dropped))?;
    drop(list.remove(second));
    same(&rt, &"with the one removed", dropped.get(), 1);
    drop(list);
    same(&rt, &"with the list", dropped.get(), 3);
    Ok(())
}
