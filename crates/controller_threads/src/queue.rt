//! The queue by which threads hand over to the caller of `serve`.

use crate::handed::Handed;
use crate::naming::Naming;
use crate::port::Port;
use std::alloc::Global;
use std::collections::VecDeque;
use std::sync::{Condvar, Mutex, Wait};

/// What was handed over and isn't taken yet.
#[derive(Drop)]
struct Waiting<P: Port, T, N: Naming> {
    items: VecDeque<Handed<P, T, N>>,
    /// There was no memory to keep one more.
    lost: bool,
}

impl<P: Port + Drop, T, N: Naming> Waiting<P, T, N> {
    fn add(&mut self, item: Handed<P, T, N>) {
        if self.items.push_back(item).is_err() {
            self.lost = true;
        }
    }
}

/// What threads hand over, in its order.
#[derive(Drop)]
pub struct Queue<P: Port, T, N: Naming> {
    waiting: Mutex<Waiting<P, T, N>>,
    added: Condvar,
}

impl<P: Port + Drop, T, N: Naming> Queue<P, T, N> {
    /// Nothing was handed over yet. Takes no memory.
    pub fn new(alloc: Global) -> Queue<P, T, N> {
        Queue {
            waiting: Mutex::new(Waiting {
                items: VecDeque::new(alloc),
                lost: false,
            }),
            added: Condvar::new(),
        }
    }

    /// Hands over. Where there is no memory it is lost, and `take` says so.
    pub fn put<R: Wait>(&self, rt: &R, handed: Handed<P, T, N>) {
        self.waiting.lock(rt).add(handed);
        self.added.notify_one();
    }

    /// Waits for what is handed over. `None` where one was lost.
    pub fn take<R: Wait>(&self, rt: &R) -> Option<Handed<P, T, N>> {
        let waiting = self.waiting.lock(rt);
        let mut waiting = self.added.wait_while(rt, waiting, |waiting| {
            waiting.items.is_empty() && !waiting.lost
        });
        waiting.items.pop_front()
    }
}
