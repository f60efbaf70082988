//! Texts that are programs, and the first faults of texts that are none.

use arith_syntax::error::SyntaxError;
use arith_syntax::parser::parse;
use arith_syntax::printing::print;
use std::alloc::Global;
use std::process::Abort;

/// The name of a parse's outcome, and the place of its fault, or 0.
fn outcome(alloc: Global, text: &str) -> (&'static str, usize) {
    match parse(alloc, text) {
        Ok(_) => ("Ok", 0),
        Err(SyntaxError::BadToken(at)) => ("BadToken", at),
        Err(SyntaxError::BadSyntax(at)) => ("BadSyntax", at),
        Err(SyntaxError::TooDeep(at)) => ("TooDeep", at),
        Err(SyntaxError::ConstantTooLarge(at)) => ("ConstantTooLarge", at),
        Err(SyntaxError::TooLong) => ("TooLong", 0),
        Err(SyntaxError::OutOfMemory) => ("OutOfMemory", 0),
    }
}

/// A text with a number of equal pieces in its middle.
fn repeated<R: Abort>(
    rt: &R,
    alloc: Global,
    front: &str,
    piece: &str,
    times: usize,
    back: &str,
) -> String {
    let mut text = String::from_str(alloc, front).expect(rt, "memory is ample");
    for _ in 0..times {
        text.push_str(piece).expect(rt, "memory is ample");
    }
    text.push_str(back).expect(rt, "memory is ample");
    text
}

/// The text of the program of a text.
fn printed<R: Abort>(rt: &R, alloc: Global, text: &str) -> String {
    let program = parse(alloc, text).expect(rt, "a program");
    print(alloc, &program).expect(rt, "memory is ample")
}

/// Texts, what comes of them, and the places of their faults. Then constants at their limits.
const ROWS: &[(&str, &str, usize)] = &[
    ("08", "BadToken", 0),
    ("1+", "BadSyntax", 2),
    ("9223372036854775808", "ConstantTooLarge", 0),
    ("1 9223372036854775808", "BadSyntax", 2),
    ("x+1=3", "BadSyntax", 3),
    ("(x)=1", "BadSyntax", 3),
    ("a?b:c=1", "BadSyntax", 5),
    ("@", "BadToken", 0),
    ("1+1@", "BadToken", 3),
    (")", "BadSyntax", 0),
    ("(1", "BadSyntax", 2),
    ("1 2 @", "BadSyntax", 2),
    ("1;2)", "BadSyntax", 3),
    ("1+9223372036854775808", "ConstantTooLarge", 2),
    ("x===1", "BadSyntax", 3),
    ("1 ? 2", "BadSyntax", 5),
    ("(1;2)", "BadSyntax", 2),
    ("1+\u{e9}", "BadToken", 2),
    ("9223372036854775807", "Ok", 0),
    ("0777777777777777777777", "Ok", 0),
    ("01000000000000000000000", "ConstantTooLarge", 0),
    ("0x7fffFFFFffffFFFF", "Ok", 0),
    ("0X8000000000000000", "ConstantTooLarge", 0),
    ("0x", "BadToken", 0),
    ("0xg", "BadToken", 0),
    ("1a", "BadToken", 0),
    ("0", "Ok", 0),
];

/// Texts of a front, so many equal pieces, a middle and as many ends, with what comes of them.
const LONG_ROWS: &[(&str, &str, usize, &str, &str, &str, usize)] = &[
    ("", "(", 64, "1", ")", "Ok", 0),
    ("", "(", 65, "1", ")", "TooDeep", 64),
    ("", "- ", 64, "1", "", "Ok", 0),
    ("", "- ", 65, "1", "", "TooDeep", 128),
    ("", "a=", 65, "1", "", "TooDeep", 129),
    ("", "a?1:", 65, "1", "", "TooDeep", 257),
    ("", " ", 65_536, "", "", "Ok", 0),
    ("", "@", 65_537, "", "", "TooLong", 0),
    ("1", "+1", 30_000, "", "", "Ok", 0),
    ("", "x", 255, "", "", "Ok", 0),
    ("", "x", 256, "", "", "BadToken", 0),
];

#[test]
fn single_texts(rt: HostRuntime) {
    for (text, name, at) in ROWS {
        assert_eq!(rt; outcome(rt.alloc(), text), (*name, *at), "at {text}");
    }
}

#[test]
fn nesting_and_lengths(rt: HostRuntime) {
    let alloc = rt.alloc();
    for (front, piece, times, middle, end, name, at) in LONG_ROWS {
        let front = repeated(&rt, alloc, front, piece, *times, middle);
        let text = repeated(&rt, alloc, front.as_str(), end, *times, "");
        assert_eq!(rt; outcome(alloc, text.as_str()), (*name, *at), "at {piece}");
    }
}

#[test]
fn prints_programs(rt: HostRuntime) {
    for (text, want) in [
        ("x=3;x*x", "x = 3 \nx * x \n"),
        (
            "a>>=0x10\n\n-(b?~1:!c)--010",
            "a >>= 16 \n- ( b ? ~ 1 : ! c ) - - 8 \n",
        ),
        ("", ""),
    ] {
        let first = printed(&rt, rt.alloc(), text);
        assert_eq!(rt; first.as_str(), want);
        let again = printed(&rt, rt.alloc(), first.as_str());
        assert_eq!(rt; again.as_str(), want);
    }
}
