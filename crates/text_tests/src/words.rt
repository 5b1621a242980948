//! Worked rows of words: those that are taken, and those that are not.

use std::alloc::{AllocError, Global};
use std::process::Abort;
use symk_words::{Asked, WordsFault, read_words};

/// The program's name and the words of a line, cut at each space.
fn words(alloc: Global, line: &str) -> Result<Vec<String>, AllocError> {
    let mut words = Vec::new(alloc);
    words.push(String::from_str(alloc, "symk")?)?;
    for word in line.split(' ').filter(|word| !word.is_empty()) {
        words.push(String::from_str(alloc, word)?)?;
    }
    Ok(words)
}

/// The words of the line are taken so.
fn check(rt: &impl Abort, alloc: Global, line: &str, want: Result<Asked<'static>, WordsFault>) {
    let words = words(alloc, line).expect(rt, "memory");
    assert!(rt; read_words(alloc, &words) == want, "{line}");
}

/// A plan of the file A is asked for, three of the first.
fn plan(mode: Option<&'static str>, search: Option<&'static str>) -> Asked<'static> {
    Asked::Plan {
        file: "A",
        k: "3",
        mode,
        search,
        more: false,
        bound: None,
        quality: None,
        after: None,
        mutex: false,
    }
}

const FURTHER: Asked<'static> = Asked::Plan {
    file: "A",
    k: "3",
    mode: None,
    search: Some("auto"),
    more: true,
    bound: Some("7"),
    quality: Some(""),
    after: Some("B"),
    mutex: true,
};

fn takes_plans(rt: &impl Abort, alloc: Global) {
    for (line, want) in [
        ("plan A --k 3", plan(None, None)),
        ("plan A --k=3", plan(None, None)),
        ("plan --k 3 A", plan(None, None)),
        ("plan A --k 3 --mode loopless", plan(Some("loopless"), None)),
        ("plan A --k 3 --search no", plan(None, Some("no"))),
        (
            "plan A --k 3 --search auto --more --bound 7 --quality= --after B --mutex",
            FURTHER,
        ),
        (
            "plan --mutex --quality= --after=B --more --k 3 A --bound 7 --search auto",
            FURTHER,
        ),
        (
            "plan --search auto --mode m --k 3 A",
            plan(Some("m"), Some("auto")),
        ),
    ] {
        check(rt, alloc, line, Ok(want));
    }
}

fn checked(mode: Option<&'static str>) -> Asked<'static> {
    Asked::Check {
        file: "A",
        plans: "B",
        mode,
    }
}

fn takes_others(rt: &impl Abort, alloc: Global) {
    for (line, want) in [
        ("check A B", checked(None)),
        ("check A B --mode topk", checked(Some("topk"))),
        ("check --mode=topk A B", checked(Some("topk"))),
        ("demo 12", Asked::Demo { n: "12" }),
        ("prove A", Asked::Prove { file: "A" }),
        (
            "refute A B",
            Asked::Refute {
                file: "A",
                cert: "B",
            },
        ),
    ] {
        check(rt, alloc, line, Ok(want));
    }
}

#[test]
fn takes_each_form(rt: HostRuntime) {
    takes_plans(&rt, rt.alloc());
    takes_others(&rt, rt.alloc());
}

const REFUSED: [&str; 42] = [
    "",
    "plan",
    "plan A",
    "plan A --k",
    "plan A --k 3 --k 3",
    "plan A A --k 3",
    "plan A --k 3 --mode",
    "plan A --k 3 --bound",
    "plan A --k 3 --bound 7 --bound 7",
    "plan A --k 3 --after",
    "plan A --k 3 --more 1",
    "plan A --k 3 --more=true",
    "plan A --k 3 --more --more",
    "plan A --k 3 --mutex 1",
    "plan A --k 3 --mutex --mutex",
    "plan A --k 3 --depth 2",
    "check",
    "check A",
    "check A A A",
    "check A A --k 3",
    "check A A --search auto",
    "check A A --more",
    "demo",
    "demo 1 2",
    "demo 1 --k 3",
    "prove",
    "prove A B",
    "prove A --mutex",
    "refute A",
    "refute A B C",
    "refute A B --mode topk",
    "foo",
    "help",
    "help plan",
    "--help",
    "-h",
    "plan --help",
    "plan A --k 3 -h",
    "--version",
    "-V",
    "--k 3 plan A",
    "plan A --k -3",
];

#[test]
fn refuses_all_else(rt: HostRuntime) {
    for line in REFUSED {
        check(&rt, rt.alloc(), line, Err(WordsFault::Usage));
    }
    assert!(rt; read_words(rt.alloc(), &[]) == Err(WordsFault::Usage));
}
