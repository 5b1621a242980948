//! Worked files.

use sas_reader::{ReadFault, read_task};
use std::alloc::Global;
use std::process::Abort;
use std::test::Fail;
use symk_task::{Memory, TaskParts, Variable};

/// One variable and one operator.
fn file_a() -> &'static [u8] {
    b"begin_version\n3\nend_version\nbegin_metric\n0\nend_metric\n1\nbegin_variable\nvar0\n-1\n2\noff\non\nend_variable\n0\nbegin_state\n0\nend_state\nbegin_goal\n1\n0 1\nend_goal\n1\nbegin_operator\nswitch-on\n0\n1\n0 0 0 1\n1\nend_operator\n0\n"
}

/// A derived variable that two values of another lead to.
fn file_d() -> &'static [u8] {
    b"begin_version\n3\nend_version\nbegin_metric\n0\nend_metric\n2\nbegin_variable\npos\n-1\n3\np0\np1\np2\nend_variable\nbegin_variable\ndone\n0\n2\nno\nyes\nend_variable\n0\nbegin_state\n0\n0\nend_state\nbegin_goal\n1\n1 1\nend_goal\n2\nbegin_operator\nm1\n0\n1\n0 0 0 1\n1\nend_operator\nbegin_operator\nm2\n0\n1\n0 0 1 2\n1\nend_operator\n2\nbegin_rule\n1\n0 1\n1 0 1\nend_rule\nbegin_rule\n1\n0 2\n1 0 1\nend_rule\n"
}

/// A derived variable that rules lead to.
fn file_j() -> &'static [u8] {
    b"begin_version\n3\nend_version\nbegin_metric\n0\nend_metric\n4\nbegin_variable\nx\n-1\n2\nx0\nx1\nend_variable\nbegin_variable\nd1\n0\n2\nno\nyes\nend_variable\nbegin_variable\nd2\n0\n2\nno\nyes\nend_variable\nbegin_variable\nd3\n1\n2\nno\nyes\nend_variable\n0\nbegin_state\n0\n0\n0\n0\nend_state\nbegin_goal\n1\n2 1\nend_goal\n1\nbegin_operator\ngo\n0\n1\n0 0 0 1\n1\nend_operator\n3\nbegin_rule\n1\n1 1\n2 0 1\nend_rule\nbegin_rule\n1\n0 1\n1 0 1\nend_rule\nbegin_rule\n1\n2 0\n3 0 1\nend_rule\n"
}

/// Where the next line begins.
fn next_line(text: &[u8], from: usize) -> usize {
    for at in from..text.len() {
        if text[at] == b'\n' {
            return at + 1;
        }
    }
    text.len()
}

/// What is wanted at each line of the first file.
fn wanted_words() -> [&'static str; 31] {
    [
        "begin_version",
        "3",
        "end_version",
        "begin_metric",
        "metric",
        "end_metric",
        "count",
        "begin_variable",
        "name",
        "layer",
        "range",
        "name",
        "name",
        "end_variable",
        "count",
        "begin_state",
        "value",
        "end_state",
        "begin_goal",
        "count",
        "fact",
        "end_goal",
        "count",
        "begin_operator",
        "name",
        "count",
        "count",
        "effect",
        "cost",
        "end_operator",
        "count",
    ]
}

/// Where the text offends, and the word for what is wanted there.
fn offence_of(alloc: Global, text: &[u8]) -> Result<Option<(u64, &'static str)>, Fail> {
    match read_task(alloc, text) {
        Ok(_) => Ok(None),
        Err(ReadFault::Offence { line, wanted }) => Ok(Some((line, wanted.text()))),
        Err(fault) => Err(fault.into()),
    }
}

/// The text offends where it is wanted, if anywhere.
fn check_offence(
    rt: &impl Abort,
    alloc: Global,
    text: &[u8],
    wanted: Option<(u64, &'static str)>,
) -> Result<(), Fail> {
    assert_eq!(rt; offence_of(alloc, text)?, wanted);
    Ok(())
}

/// The text with the line of this number, counted from 1, made into others.
fn with_line(alloc: Global, text: &[u8], number: u64, line: &[u8]) -> Result<Vec<u8>, Memory> {
    let mut made = Vec::new(alloc);
    let mut at: u64 = 1;
    for byte in text {
        if at != number {
            made.push(*byte)?;
        } else if *byte == b'\n' {
            made.extend_from_slice(line)?;
            made.push(*byte)?;
        }
        if *byte == b'\n' {
            at = at.saturating_add(1);
        }
    }
    Ok(made)
}

fn check_parts(rt: &impl Abort, parts: &TaskParts) {
    assert_eq!(rt; parts.metric, 0);
    assert_eq!(rt; parts.variables.as_slice().len(), 1);
    assert_eq!(rt; parts.operators.as_slice().len(), 1);
    assert_eq!(rt; parts.initial.as_slice(), [0].as_slice());
}

#[test]
fn reads_whole_files(rt: HostRuntime) -> Result<(), Fail> {
    let task = read_task(rt.alloc(), file_a())?;
    check_parts(&rt, task.parts());
    check_offence(&rt, rt.alloc(), file_j(), None)
}

#[test]
fn cut_texts_offend_at_the_next_line(rt: HostRuntime) -> Result<(), Fail> {
    let alloc = rt.alloc();
    let mut lines: u64 = 0;
    let mut from = 0;
    let text = file_a();
    for word in wanted_words() {
        lines = lines.saturating_add(1);
        assert!(rt; from <= text.len());
        check_offence(&rt, alloc, &text[..from], Some((lines, word)))?;
        from = next_line(text, from);
    }
    Ok(())
}

/// The text with another line offends where it is wanted, if anywhere.
fn check_line(
    rt: &impl Abort,
    alloc: Global,
    text: &[u8],
    (number, line, wanted): Row<'_>,
) -> Result<(), Fail> {
    let text = with_line(alloc, text, number, line)?;
    check_offence(rt, alloc, &text, wanted)
}

/// The number of a line, what is put there, and where the text offends then, if anywhere.
type Row<'a> = (u64, &'a [u8], Option<(u64, &'static str)>);

const ROWS: [Row<'static>; 15] = [
    (23, b"1000000", Some((31, "begin_operator"))),
    (23, b"1000001", Some((23, "count"))),
    (7, b"65537", Some((7, "count"))),
    (7, b"18446744073709551616", Some((7, "count"))),
    (11, b"0", Some((11, "range"))),
    (11, b"65537", Some((11, "range"))),
    (31, b"1", Some((31, "count"))),
    (29, b"7", None),
    (31, b"0\n \t\n", None),
    (31, b"0\nx", Some((32, "blank line"))),
    (28, b" 0\t0 -1  1 ", None),
    (28, b"0 0 0 1 1", Some((28, "effect"))),
    (21, b"-1 1", Some((21, "fact"))),
    (15, b"1", Some((16, "begin_mutex_group"))),
    (
        15,
        b"1\nbegin_mutex_group\n0\nx",
        Some((18, "end_mutex_group")),
    ),
];

fn check_rows(rt: &impl Abort, alloc: Global) -> Result<(), Fail> {
    for row in ROWS {
        check_line(rt, alloc, file_a(), row)?;
    }
    Ok(())
}

/// A condition of the head's own layer at its default value may stand in a rule to the default value alone.
fn check_head(rt: &impl Abort, alloc: Global) -> Result<(), Fail> {
    let text = with_line(alloc, file_j(), 58, b"1 0")?;
    check_offence(rt, alloc, &text, Some((59, "head")))?;
    check_line(rt, alloc, &text, (59, b"2 1 0", None))
}

#[test]
fn names_the_first_line_that_offends(rt: HostRuntime) -> Result<(), Fail> {
    let alloc = rt.alloc();
    check_rows(&rt, alloc)?;
    check_offence(&rt, alloc, b"", Some((1, "begin_version")))?;
    check_head(&rt, alloc)
}

#[test]
fn names_the_first_line_of_a_rule_that_offends(rt: HostRuntime) -> Result<(), Fail> {
    for (number, word) in [(56, "begin_rule"), (60, "end_rule")] {
        let row: Row = (number, b"x", Some((number, word)));
        check_line(&rt, rt.alloc(), file_j(), row)?;
    }
    Ok(())
}

#[test]
fn an_effect_on_a_derived_variable_offends(rt: HostRuntime) -> Result<(), Fail> {
    let alloc = rt.alloc();
    check_offence(&rt, alloc, file_d(), None)?;
    let row: Row = (37, b"0 1 0 1", Some((37, "effect")));
    check_line(&rt, alloc, file_d(), row)
}

fn check_names(rt: &impl Abort, variables: &[Variable]) {
    for variable in variables {
        assert_eq!(rt; variable.name.as_slice(), b"v\r".as_slice());
    }
}

fn check_return(rt: &impl Abort, alloc: Global, text: &[u8]) -> Result<(), Fail> {
    let task = read_task(alloc, text)?;
    check_names(rt, task.parts().variables.as_slice());
    Ok(())
}

#[test]
fn a_name_keeps_all_but_one_return(rt: HostRuntime) -> Result<(), Fail> {
    let text = with_line(rt.alloc(), file_a(), 9, b"v\r\r")?;
    check_return(&rt, rt.alloc(), &text)
}

/// Variables with two values, as many as there are bits less one, and the begin of one more.
fn push_bits(text: &mut Vec<u8>) -> Result<(), Memory> {
    text.extend_from_slice(b"begin_version\n3\nend_version\nbegin_metric\n0\nend_metric\n65536\n")?;
    for _ in 0..65535 {
        text.extend_from_slice(b"begin_variable\nv\n-1\n2\na\nb\nend_variable\n")?;
    }
    text.extend_from_slice(b"begin_variable\nv\n-1\n")
}

/// The text with so many values of the last variable offends there.
fn check_last(
    rt: &impl Abort,
    alloc: Global,
    text: &[u8],
    count: &[u8],
    wanted: (u64, &'static str),
) -> Result<(), Fail> {
    let mut text = Vec::from_slice(alloc, text)?;
    text.extend_from_slice(count)?;
    check_offence(rt, alloc, &text, Some(wanted))
}

#[test]
fn too_many_bits_offend_at_the_range(rt: HostRuntime) -> Result<(), Fail> {
    let alloc = rt.alloc();
    let mut text = Vec::new(alloc);
    push_bits(&mut text)?;
    check_last(&rt, alloc, &text, b"3\n", (458756, "range"))?;
    check_last(&rt, alloc, &text, b"2\n", (458757, "name"))
}
