//! Blocks, the codes that map, scatter and gather, and what they do when they are run.

use arith_eval::namespace::Namespace;
use arith_eval::run::run;
use arith_syntax::parser::parse;
use array_maps::blocks::block;
use array_maps::codes::{Codes, gather_codes, map_codes, scatter_codes};
use array_maps::error::MapError;
use cluster_types::text::Text;
use std::alloc::Global;
use std::process::Abort;

/// The code at a place.
fn code_at<'a, R: Abort>(rt: &R, codes: &'a Codes, place: usize) -> &'a str {
    codes.get(place).expect(rt, "a code").as_str()
}

/// What a code gives in a namespace.
fn value_of<R: Abort>(rt: &R, alloc: Global, names: &mut Namespace, code: &str) -> Option<i64> {
    let program = parse(alloc, code).expect(rt, "a program");
    run(alloc, &program, names).ok()
}

/// The name of a refusal, and the place of a code that is too long.
fn refusal(made: Result<Codes, MapError>) -> (&'static str, usize) {
    match made {
        Ok(_) => ("Ok", 0),
        Err(MapError::BadName) => ("BadName", 0),
        Err(MapError::TooLong(place)) => ("TooLong", place),
        Err(MapError::OutOfMemory) => ("OutOfMemory", 0),
    }
}

/// A text of so many spaces.
fn spaces<R: Abort>(rt: &R, alloc: Global, count: usize) -> String {
    let mut text = String::new(alloc);
    for _ in 0..count {
        text.push_str(" ").expect(rt, "memory is ample");
    }
    text
}

#[test]
fn ten_in_four_blocks(rt: HostRuntime) {
    assert_eq!(rt; block(10, 4, 0), (0, 3));
    assert_eq!(rt; block(10, 4, 1), (3, 3));
    assert_eq!(rt; block(10, 4, 2), (6, 2));
    assert_eq!(rt; block(10, 4, 3), (8, 2));
}

#[test]
fn mapped(rt: HostRuntime) {
    let codes = map_codes(rt.alloc(), "x*x", &[3, -4, i64::MIN]).expect(&rt, "codes");
    assert_eq!(rt; codes.len(), 3);
    assert_eq!(rt; code_at(&rt, &codes, 0), "x=3;x*x");
    assert_eq!(rt; code_at(&rt, &codes, 1), "x=-4;x*x");
    assert_eq!(rt; code_at(&rt, &codes, 2), "x=-9223372036854775807-1;x*x");
    let mut names = Namespace::new(rt.alloc());
    assert_eq!(rt;
        value_of(&rt, rt.alloc(), &mut names, code_at(&rt, &codes, 0)),
        Some(9)
    );
    assert_eq!(rt;
        value_of(&rt, rt.alloc(), &mut names, code_at(&rt, &codes, 1)),
        Some(16)
    );
}

#[test]
fn scattered_and_gathered(rt: HostRuntime) {
    let values = [5, -6, i64::MIN];
    let codes = scatter_codes(rt.alloc(), "a", &values, 2).expect(&rt, "codes");
    assert_eq!(rt; codes.len(), 2);
    assert_eq!(rt; code_at(&rt, &codes, 0), "a_0=5;a_1=-6");
    assert_eq!(rt; code_at(&rt, &codes, 1), "a_2=-9223372036854775807-1");
    let mut names = Namespace::new(rt.alloc());
    let other = Text::new(rt.alloc(), "b").expect(&rt, "memory is ample");
    names.set(&other, 7).expect(&rt, "memory is ample");
    value_of(&rt, rt.alloc(), &mut names, code_at(&rt, &codes, 0));
    value_of(&rt, rt.alloc(), &mut names, code_at(&rt, &codes, 1));
    let elements = gather_codes(rt.alloc(), "a", 3).expect(&rt, "codes");
    assert_eq!(rt; elements.len(), 3);
    assert_eq!(rt; code_at(&rt, &elements, 2), "a_2");
    for (place, value) in values.iter().enumerate() {
        let code = code_at(&rt, &elements, place);
        assert_eq!(rt;
            value_of(&rt, rt.alloc(), &mut names, code),
            Some(*value),
            "at {place}"
        );
    }
    assert_eq!(rt; names.get(&other), Some(7));
}

#[test]
fn refused_names(rt: HostRuntime) {
    assert_eq!(rt;
        refusal(scatter_codes(rt.alloc(), "1a", &[1], 1)),
        ("BadName", 0)
    );
    assert_eq!(rt;
        refusal(scatter_codes(rt.alloc(), "1a", &[], 1)),
        ("BadName", 0)
    );
    assert_eq!(rt; refusal(gather_codes(rt.alloc(), "", 1)), ("BadName", 0));
    assert_eq!(rt; refusal(gather_codes(rt.alloc(), "a-b", 0)), ("BadName", 0));
    assert_eq!(rt; refusal(scatter_codes(rt.alloc(), "_9", &[], 1)), ("Ok", 0));
}

#[test]
fn refused_lengths(rt: HostRuntime) {
    let longest = spaces(&rt, rt.alloc(), 65_532);
    assert_eq!(rt;
        refusal(map_codes(rt.alloc(), longest.as_str(), &[1])),
        ("Ok", 0)
    );
    assert_eq!(rt;
        refusal(map_codes(rt.alloc(), longest.as_str(), &[1, 2, 10])),
        ("TooLong", 2)
    );
}
