use crate::cores::Core;
use crate::share::Share;
use dav_machine::Turn;
use std::sync::Wait;
use std::thread;
use std::thread::Threads;

/// What a thread does with a turn.
pub trait Work<T: Turn> {
    /// Makes any calls.
    fn work(&self, turn: &mut T);
}

/// Gives each turn to a thread, which works with it, and waits for all of them.
fn work_all<T: Turn + Send, F: Work<T> + Sync, W: Threads + Sync>(
    rt: &W,
    turns: &mut [T],
    work: &F,
) {
    let threads = turns.len().max(1);
    thread::for_each_mut(rt, turns, threads, &|_, turn: &mut T| { work.work(turn) });
}

/// The same of shares in any machine: they may cross threads where the machine may.
pub fn work_shares<H, R, F, W>(rt: &W, shares: &mut [Share<H, R>], work: &F)
where
    H: Core + Drop + Send,
    R: Wait + Send,
    F: Work<Share<H, R>> + Sync,
    W: Threads + Sync,
{
    work_all(rt, shares, work);
}
