//! The values and faults of programs, and the names that they leave.

use arith_eval::error::ArithError;
use arith_eval::namespace::Namespace;
use arith_eval::run::run;
use arith_syntax::parser::parse;
use cluster_types::text::Text;
use std::alloc::Global;
use std::process::Abort;

/// What a text gives in a namespace: the name of a fault, and the value, or the count of ShiftRange.
fn outcome<R: Abort>(
    rt: &R,
    alloc: Global,
    names: &mut Namespace,
    text: &str,
) -> (&'static str, i64) {
    let program = parse(alloc, text).expect(rt, "a program");
    match run(alloc, &program, names) {
        Ok(value) => ("Ok", value),
        Err(ArithError::NameError(_)) => ("NameError", 0),
        Err(ArithError::ZeroDivision) => ("ZeroDivision", 0),
        Err(ArithError::ShiftRange(count)) => ("ShiftRange", count),
        Err(ArithError::OutOfMemory) => ("OutOfMemory", 0),
    }
}

/// What a text gives where no name has a value.
fn alone<R: Abort>(rt: &R, alloc: Global, text: &str) -> (&'static str, i64) {
    outcome(rt, alloc, &mut Namespace::new(alloc), text)
}

/// The value of a name.
fn named<R: Abort>(rt: &R, alloc: Global, names: &Namespace, name: &str) -> Option<i64> {
    names.get(&Text::new(alloc, name).expect(rt, "memory is ample"))
}

/// Texts, and what they give where no name has a value. What isn't needed isn't evaluated.
const ROWS: &[(&str, &str, i64)] = &[
    (
        "(-9223372036854775807-1)/-1",
        "Ok",
        -9_223_372_036_854_775_808,
    ),
    ("(-9223372036854775807-1)%-1", "Ok", 0),
    ("x=3;x*x", "Ok", 9),
    ("", "Ok", 0),
    ("2+3*4", "Ok", 14),
    ("10-4-3", "Ok", 3),
    ("-7/2*10+-7%2", "Ok", -31),
    ("-1>>1", "Ok", -1),
    ("1<<63", "Ok", -9_223_372_036_854_775_808),
    ("9223372036854775807+1", "Ok", -9_223_372_036_854_775_808),
    ("1?2?3:4:5", "Ok", 3),
    ("0x10|010^3&6", "Ok", 26),
    ("~5+!0*8", "Ok", 2),
    ("x=y=4;x+y", "Ok", 8),
    ("0&&1/0", "Ok", 0),
    ("5||1/0", "Ok", 1),
    ("1?2:1/0", "Ok", 2),
    ("0?1/0:3", "Ok", 3),
    ("0&&(1?x:y)||7", "Ok", 1),
    ("2&&3", "Ok", 1),
    ("0||0", "Ok", 0),
    ("1<<64", "ShiftRange", 64),
    ("1>>-1", "ShiftRange", -1),
    ("x", "NameError", 0),
    ("x+=1", "NameError", 0),
    ("1/0", "ZeroDivision", 0),
    ("1%0", "ZeroDivision", 0),
    ("1/0+x", "ZeroDivision", 0),
];

#[test]
fn single_programs(rt: HostRuntime) {
    for (text, name, value) in ROWS {
        assert_eq!(rt; alone(&rt, rt.alloc(), text), (*name, *value), "at {text}");
    }
}

#[test]
fn assignments_before_a_fault_stand(rt: HostRuntime) {
    let alloc = rt.alloc();
    let mut names = Namespace::new(alloc);
    assert_eq!(rt;
        outcome(&rt, alloc, &mut names, "a=2;b=(a=7)+1/0"),
        ("ZeroDivision", 0)
    );
    assert_eq!(rt; named(&rt, alloc, &names, "a"), Some(7));
    assert_eq!(rt; named(&rt, alloc, &names, "b"), None);
    assert_eq!(rt; outcome(&rt, alloc, &mut names, "a+=(a=1)"), ("Ok", 8));
}

#[test]
fn a_long_chain(rt: HostRuntime) {
    let alloc = rt.alloc();
    let mut text = String::from_str(alloc, "1").expect(&rt, "memory is ample");
    for _ in 0..30_000 {
        text.push_str("+1").expect(&rt, "memory is ample");
    }
    assert_eq!(rt; alone(&rt, alloc, text.as_str()), ("Ok", 30_001));
}
