//! Runs by worked values.

use crate::choosing::new_chooser;
use disk_model::memory::MemDisk;
use quick_commands::fault::WorkError;
use quick_commands::summary::Summary;
use quick_commands::work::work;
use std::alloc::Global;
use std::process::Abort;

/// The lines of the summary of a seed and so many tasks, over an empty disk.
fn lines<R: Abort>(rt: &R, alloc: Global, seed: u32, tasks: u32) -> String {
    let chooser = new_chooser(rt, alloc);
    let disk = MemDisk::new(alloc, b"").expect(rt, "memory is ample");
    assert!(rt; seed < 2_147_483_648 && tasks <= 500_000);
    let (answer, _disk) = work(alloc, disk, &chooser, seed, tasks);
    let summary = answer.expect(rt, "a summary");
    summary.lines(alloc).expect(rt, "memory is ample")
}

#[test]
fn summaries(rt: HostRuntime) {
    for (seed, tasks, text) in [
        (
            1,
            0,
            "tasks 0\ncompleted 0\nfailed 0\nhands 0\nentries 10\nsum 0\n",
        ),
        (
            1,
            2,
            "tasks 2\ncompleted 2\nfailed 0\nhands 2\nentries 18\nsum 2093\n",
        ),
        (
            7,
            1,
            "tasks 1\ncompleted 1\nfailed 0\nhands 1\nentries 14\nsum 284\n",
        ),
    ] {
        assert_eq!(rt; lines(&rt, rt.alloc(), seed, tasks).as_str(), text);
    }
}

#[test]
fn a_disk_that_is_not_empty(rt: HostRuntime) {
    let alloc = rt.alloc();
    let chooser = new_chooser(&rt, alloc);
    let disk = MemDisk::new(alloc, b"x").expect(&rt, "memory is ample");
    let (answer, disk) = work(alloc, disk, &chooser, 1, 2);
    assert!(rt; matches!(answer, Err(WorkError::NotEmpty(0))));
    assert_eq!(rt; disk.content(), b"x".as_slice());
}
