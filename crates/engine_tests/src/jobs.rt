//! Jobs: what their lines say, and the first fault of a text that is none.

use job_graph::error::JobError;
use job_graph::laws::job_is_held;
use job_graph::read::{JobGraph, read_job};
use job_graph::task::{JobTask, Names};
use std::alloc::Global;
use std::process::Abort;

/// The name of what reading comes to, and the line of the fault, 0 where it has none.
fn outcome(read: &Result<JobGraph, JobError>) -> (&'static str, usize) {
    match read {
        Ok(_) => ("Job", 0),
        Err(JobError::BadLine(line)) => ("BadLine", *line),
        Err(JobError::DuplicateName(line)) => ("DuplicateName", *line),
        Err(JobError::UnknownName(line)) => ("UnknownName", *line),
        Err(JobError::Empty) => ("Empty", 0),
        Err(JobError::TooMany) => ("TooMany", 0),
        Err(JobError::OutOfMemory) => ("OutOfMemory", 0),
    }
}

/// Whether a text reads so.
fn reads(alloc: Global, text: &str, name: &str, line: usize) -> bool {
    let read = read_job(alloc, text);
    let (found, at) = outcome(&read);
    found == name && at == line
}

/// Whether these are the names of a list.
fn are(names: &Names, wanted: &[&str]) -> bool {
    names.len() == wanted.len()
        && names
            .as_slice()
            .iter()
            .zip(wanted)
            .all(|(name, text)| name.as_str() == *text)
}

/// Whether a task has this name and this code, and is tried again so often.
fn says(task: &JobTask, name: &str, retries: u32, code: &str) -> bool {
    task.name.as_str() == name && task.retries == retries && task.code.as_str() == code
}

/// A text with a task on each of so many lines.
fn many<R: Abort>(rt: &R, alloc: Global, count: u32) -> String {
    let mut text = String::new(alloc);
    for number in 0..count {
        let name = number.to_string(alloc).expect(rt, "memory is ample");
        text.push_str("t").expect(rt, "memory is ample");
        text.push_str(name.as_str()).expect(rt, "memory is ample");
        text.push_str(" : 1\n").expect(rt, "memory is ample");
    }
    text
}

/// This text, and so many digits behind it.
fn with_digits<R: Abort>(rt: &R, alloc: Global, front: &str, count: u32) -> String {
    let mut text = String::from_str(alloc, front).expect(rt, "memory is ample");
    for _ in 0..count {
        text.push_str("1").expect(rt, "memory is ample");
    }
    text
}

#[test]
fn a_job_reads(rt: HostRuntime) {
    let alloc = rt.alloc();
    let text = "a : 6*7\nb after a : 1+1\n\nc after a,b follow b retries 3 : 1/0\nd : x : y\ne : ";
    let job = read_job(alloc, text).expect(&rt, "the text is a job");
    let [a, b, c, d, e] = job.tasks().as_slice() else {
        assert!(rt; false);
        return;
    };
    assert!(rt; says(a, "a", 0, "6*7") && are(&a.after, &[]) && are(&a.follow, &[]));
    assert!(rt; says(b, "b", 0, "1+1") && are(&b.after, &["a"]) && are(&b.follow, &[]));
    assert!(rt; says(c, "c", 3, "1/0") && are(&c.after, &["a", "b"]) && are(&c.follow, &["b"]));
    assert!(rt; says(d, "d", 0, "x : y") && are(&d.after, &[]) && are(&d.follow, &[]));
    assert!(rt; says(e, "e", 0, "") && are(&e.after, &[]) && are(&e.follow, &[]));
    job_is_held();
}

#[test]
fn words_of_the_form_are_names(rt: HostRuntime) {
    let alloc = rt.alloc();
    let text = "after : 1\nfollow after after : 2\nretries follow follow retries 7 : 3";
    let job = read_job(alloc, text).expect(&rt, "the text is a job");
    let [first, second, third] = job.tasks().as_slice() else {
        assert!(rt; false);
        return;
    };
    assert!(rt; says(first, "after", 0, "1"));
    assert!(rt; says(second, "follow", 0, "2") && are(&second.after, &["after"]));
    assert!(rt; says(third, "retries", 7, "3") && are(&third.follow, &["follow"]));
}

#[test]
fn lines_that_are_not_formed_so(rt: HostRuntime) {
    let alloc = rt.alloc();
    for line in [
        " ",
        "a",
        "a :",
        "a: 1",
        "a  : 1",
        " a : 1",
        ": 1",
        " : 1",
        "1a : 1",
        "a-b : 1",
        "a after : 1",
        "a after  : 1",
        "a after a,a : 1",
        "a after b, : 1",
        "a after b, c : 1",
        "a follow b after b : 1",
        "a retries 1 after b : 1",
        "a retries 1001 : 1",
        "a retries 01 : 1",
        "a retries -1 : 1",
        "a retries +1 : 1",
        "a retries 4294967296 : 1",
        "a retries : 1",
        "a before b : 1",
    ] {
        assert!(rt; reads(alloc, line, "BadLine", 1));
    }
}

#[test]
fn faults_and_their_lines(rt: HostRuntime) {
    let alloc = rt.alloc();
    for (text, name, line) in [
        ("", "Empty", 0),
        ("\n\n\n", "Empty", 0),
        ("b after z : 1", "UnknownName", 1),
        ("a : 1\n\nb follow z : 1", "UnknownName", 3),
        ("a after a : 1", "UnknownName", 1),
        ("a after b : 1\nb : 1", "UnknownName", 1),
        ("after after after : 1", "UnknownName", 1),
        ("a : 1\na : 2", "DuplicateName", 2),
        ("a : 1\na after z : 2", "DuplicateName", 2),
        ("a : 1\na after z,z : 2", "BadLine", 2),
        ("a after z : 1\n ", "UnknownName", 1),
        ("a : 1\r\nb after a : 2\r", "Job", 0),
        ("a retries 0 : 1", "Job", 0),
        ("a retries 1000 : 1", "Job", 0),
    ] {
        assert!(rt; reads(alloc, text, name, line));
    }
}

#[test]
fn at_most_4096_tasks(rt: HostRuntime) {
    let alloc = rt.alloc();
    let mut text = many(&rt, alloc, 4_096);
    assert!(rt; reads(alloc, text.as_str(), "Job", 0));
    text.push_str("last after t0,t4095 : 1\n")
        .expect(&rt, "memory is ample");
    assert!(rt; reads(alloc, text.as_str(), "TooMany", 0));
    text.push_str("t7 : 1").expect(&rt, "memory is ample");
    assert!(rt; reads(alloc, text.as_str(), "DuplicateName", 4_098));
}

#[test]
fn codes_and_names_have_a_greatest_length(rt: HostRuntime) {
    let alloc = rt.alloc();
    let longest = with_digits(&rt, alloc, "a : ", 65_536);
    assert!(rt; reads(alloc, longest.as_str(), "Job", 0));
    let longer = with_digits(&rt, alloc, "a : ", 65_537);
    assert!(rt; reads(alloc, longer.as_str(), "BadLine", 1));
    let mut name = with_digits(&rt, alloc, "a", 254);
    name.push_str(" : 1").expect(&rt, "memory is ample");
    assert!(rt; reads(alloc, name.as_str(), "Job", 0));
    let mut name = with_digits(&rt, alloc, "a", 255);
    name.push_str(" : 1").expect(&rt, "memory is ample");
    assert!(rt; reads(alloc, name.as_str(), "BadLine", 1));
}
