//! Work on numbered items, in halves of halves, by a thread for each part.

ghost use Rattle.std.specs.Prelude.{◌≡◌, ◌≤◌, ◌<◌, ◌+◌, ◌^◌, ◌++◌, ℕ, List, length, min};
ghost use Rattle.std.specs.Thread.{IsSync, IsSend};

use std::alloc::Global;
use std::marker::{Send, Sync};
use std::thread::{Threads, available_parallelism, join_mut};

/// The fewest items that are done by two threads.
const FEWEST_FOR_TWO: usize = 16;

/// Work on items that have numbers in a row. A part of it is the items from one number on, and gives one result. Each
/// item may be lent something of its own, a `T`, that the work changes; if nothing is lent, the list of it is empty.
pub trait Parts<T, X> {
    /// The items from a number on, so many, can be done with what is lent to them.
    ghost can: { Self → ℕ → ℕ → List T → Type 0 };

    /// What the items from a number on, so many, make of what is lent to them, and what they give.
    ghost does: { Self → ℕ → ℕ → List T → List T → X → Type 0 };

    /// Does the items of a part one after another.
    fn in_order(&self, alloc: Global, from: usize, count: usize, own: &mut [T]) -> X
        requires { can self.now from count own.old }
        ensures { does self.now from count own.old own.new result };

    /// What a part gives, put together with what the part after it gives.
    fn join(&self, few: X, rest: X) -> X
        requires { (from count more : ℕ) × (front front_left back back_left : List T) ×
            does self.now from count front front_left few × does self.now (from + count) more back back_left rest }
        ensures { (from count more : ℕ) (front front_left back back_left : List T) →
            can self.now from count front → can self.now (from + count) more back →
            does self.now from count front front_left few → does self.now (from + count) more back back_left rest →
            does self.now from (count + more) (front ++ back) (front_left ++ back_left) result };

    /// What can be done, can be done in two parts, of which the first has what is lent to its items.
    ghost splits: { (s : Self) (from few rest : ℕ) (front back : List T) →
        length front ≡ min few (length (front ++ back)) → can s from (few + rest) (front ++ back) →
        can s from few front × can s (from + few) rest back };
}

/// How many threads can work at the same time: one for each processor, or one if that cannot be told.
fn workers(rt: &impl Threads) -> usize
    ensures { 1 ≤ result }
{
    match available_parallelism(rt) {
        Ok(count) => count.get(),
        Err(_) => 1,
    }
}

/// Two parts, one after the other: the first has `few` items, from the number `from` on, and the second has the `rest`.
#[derive(Clone, Copy)]
struct TwoParts {
    from: usize,
    few: usize,
    rest: usize,
}

/// How many of the items that are lent something are in the first of two parts.
fn lent_to_few<T, X, W: Parts<T, X>>(work: &W, parts: TwoParts, own: &[T]) -> usize
    requires { W.can work.now parts.from (parts.few + parts.rest) own.now }
    ensures within { result ≤ length own.now }
    ensures splits { (front back : List T) → own.now ≡ front ++ back → length front ≡ result →
        W.can work.now parts.from parts.few front × W.can work.now (parts.from + parts.few) parts.rest back }
{
    parts.few.min(own.len())
}

/// Does a part by so many threads, or in order if it has few items.
#[cycle(halves)]
fn part_by<R: Threads + Sync, T: Send, X: Send + Drop, W: Parts<T, X> + Sync>(
    rt: &R,
    alloc: Global,
    threads: usize,
    work: &W,
    from: usize,
    count: usize,
    own: &mut [T],
) -> X
    requires room { from + count < 2 ^ 64 }
    requires can { W.can work.now from count own.old }
    ensures { W.does work.now from count own.old own.new result }
{
    if threads < 2 || count < FEWEST_FOR_TWO {
        return work.in_order(alloc, from, count, own);
    }
    let few = count / 2;
    let rest = count - few;
    let parts = TwoParts { from, few, rest };
    let lent = lent_to_few(work, parts, own);
    let (front, back) = own.split_at_mut(lent);
    let (few_done, rest_done) = both_parts(rt, alloc, threads, work, parts, front, back);
    work.join(few_done, rest_done)
}

/// Does two parts at the same time, each by half of the threads. The first is done by the thread that calls, and the
/// second by another, if one can be started.
#[cycle(halves)]
fn both_parts<R: Threads + Sync, T: Send, X: Send + Drop, W: Parts<T, X> + Sync>(
    rt: &R,
    alloc: Global,
    threads: usize,
    work: &W,
    parts: TwoParts,
    front: &mut [T],
    back: &mut [T],
) -> (X, X)
    requires threads { 2 ≤ threads }
    requires room { parts.from + parts.few + parts.rest < 2 ^ 64 }
    requires front { W.can work.now parts.from parts.few front.old }
    requires back { W.can work.now (parts.from + parts.few) parts.rest back.old }
    ensures front { W.does work.now parts.from parts.few front.old front.new result.0 }
    ensures back { W.does work.now (parts.from + parts.few) parts.rest back.old back.new result.1 }
{
    let TwoParts { from, few, rest } = parts;
    let half = threads.div_ceil(2);
    let middle = from + few;
    let mut first = || -> X
        requires { IsSync R.row × IsSync W.row × IsSend T.row × IsSend X.row × (from + few < 2 ^ 64) ×
            W.can work.now from few front.now }
        ensures { W.does work.entry.now from few front.entry.now front.exit.now result }
    { part_by(rt, alloc, half, work, from, few, front) };
    let mut second = || -> X
        requires { IsSync R.row × IsSync W.row × IsSend T.row × IsSend X.row × (middle + rest < 2 ^ 64) ×
            W.can work.now middle rest back.now }
        ensures { W.does work.entry.now middle rest back.entry.now back.exit.now result }
    { part_by(rt, alloc, half, work, middle, rest, back) };
    // Of two that are joined the first is the one that may run in another thread.
    let (rest_done, few_done) = join_mut(rt, &mut second, &mut first);
    (few_done, rest_done)
}

/// Does so many items, from number 0 on, in parts by a thread for each processor, and puts together what the parts
/// give, as if one thread had done all.
pub fn in_parts<R: Threads + Sync, T: Send, X: Send + Drop, W: Parts<T, X> + Sync>(
    rt: &R,
    alloc: Global,
    work: &W,
    count: usize,
    own: &mut [T],
) -> X
    requires { W.can work.now 0 count own.old }
    ensures { W.does work.now 0 count own.old own.new result }
{
    part_by(rt, alloc, workers(rt), work, 0, count, own)
}
