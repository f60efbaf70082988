//! The machine that a command runs on.

use std::alloc::Global;

/// What a command over a link has of its machine: what waits, memory, a clock, and random words.
#[derive(Drop)]
pub struct Host<R, C, W> {
    pub rt: R,
    pub alloc: Global,
    pub clock: C,
    pub words: W,
}
