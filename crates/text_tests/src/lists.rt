//! Worked rows.

use plan_out::{Blocks, Checked, End, PlansFault, Why, block, check_list, end_line, read_plans};
use small_tasks::{
    BASE, Draft, EffectDraft, FIRST_0_TO_1, OperatorDraft, SECOND_0_TO_1, drafted, one_switch,
    past_64_bits, switch_and_back,
};
use std::alloc::Global;
use std::process::Abort;
use std::test::Fail;
use symk_task::{Memory, Mode, Plan, Task};

/// The text of one block.
const ONE: &str = "; plan 1\n; ops 0\n(switch-on)\n; cost = 1 (unit cost)\n";

/// Three plans of the switch that goes on and off, cheapest first.
const THREE: &str =
    "; plan 1\n; ops 0\n(switch-on)\n; cost = 1 (unit cost)\n; plan 2\n; ops 0 1 0\n(switch-on)\n(switch-off)\n(switch-on)\n; cost = 3 (unit cost)\n; plan 3\n; ops 0 1 0 1 0\n(switch-on)\n(switch-off)\n(switch-on)\n(switch-off)\n(switch-on)\n; cost = 5 (unit cost)\n; reached 3\n";

/// The same, the first two exchanged.
const EXCHANGED: &str =
    "; plan 1\n; ops 0 1 0\n(switch-on)\n(switch-off)\n(switch-on)\n; cost = 3 (unit cost)\n; plan 2\n; ops 0\n(switch-on)\n; cost = 1 (unit cost)\n; plan 3\n; ops 0 1 0 1 0\n(switch-on)\n(switch-off)\n(switch-on)\n(switch-off)\n(switch-on)\n; cost = 5 (unit cost)\n; reached 3\n";

/// The block of the plan that switches on.
fn check_block(rt: &impl Abort, alloc: Global, task: &Task) -> Result<(), Memory> {
    let plan = Plan::of(vec![in alloc; 0]?);
    assert!(rt; task.operators() == 1);
    assert!(rt; task.plan_cost(&plan) == 1);
    assert_eq!(rt; block(alloc, task, 1, &plan)?.as_slice(), ONE.as_bytes());
    Ok(())
}

fn check_ends(rt: &impl Abort, alloc: Global) -> Result<(), Memory> {
    for (end, want) in [
        (End::Reached { n: 20 }, "; reached 20\n"),
        (End::Exhausted { n: 1 }, "; exhausted 1\n"),
        (End::More { n: 3 }, "; more 3\n"),
        (End::Bounded { n: 0 }, "; bounded 0\n"),
        (End::CostRange, "; cost range\n"),
    ] {
        assert_eq!(rt; end_line(alloc, end)?.as_slice(), want.as_bytes());
    }
    Ok(())
}

#[test]
fn prints_a_block_and_each_end(rt: HostRuntime) -> Result<(), Fail> {
    let task = one_switch(rt.alloc())?;
    check_block(&rt, rt.alloc(), &task)?;
    check_ends(&rt, rt.alloc())?;
    Ok(())
}

/// The first lines of a text.
fn first_lines(text: &[u8], count: usize) -> &[u8] {
    let mut left = count;
    for at in 0..text.len() {
        if left == 0 {
            return &text[..at];
        }
        if text[at] == b'\n' {
            left -= 1;
        }
    }
    text
}

/// How many blocks are read, or the offending line.
fn read(alloc: Global, text: &[u8]) -> Result<Result<usize, u64>, Memory> {
    match read_plans(alloc, text) {
        Ok(blocks) => Ok(Ok(blocks.list.len())),
        Err(PlansFault::Offence { line }) => Ok(Err(line)),
        Err(PlansFault::Memory) => Err(std::alloc::AllocError),
    }
}

/// What is read of the first lines of the three plans: whole blocks, or that the line after the last offends.
fn wanted(lines: usize) -> Result<usize, u64> {
    match lines {
        0 => Ok(0),
        4 => Ok(1),
        10 => Ok(2),
        18 | 19 => Ok(3),
        _ => Err((lines as u64).saturating_add(1)),
    }
}

#[test]
fn names_the_line_after_the_last_of_a_text_that_is_cut_within_a_block(
    rt: HostRuntime,
) -> Result<(), Fail> {
    let alloc = rt.alloc();
    for n in 0..20 {
        assert_eq!(rt;
            read(alloc, first_lines(THREE.as_bytes(), n))?,
            wanted(n),
            "{n} lines"
        );
    }
    Ok(())
}

#[test]
fn names_the_first_line_at_which_no_plan_text_goes_on_so(rt: HostRuntime) -> Result<(), Fail> {
    let alloc = rt.alloc();
    for (text, want) in [
        (
            "; plan 01\r\n; ops\r\n; cost = 00 (general cost)\r\n; exhausted 001",
            Ok(1),
        ),
        ("; cost range\n", Ok(0)),
        ("; plan 2\n", Err(1)),
        ("; plan 1 \n", Err(1)),
        ("; reached 1\n", Err(1)),
        ("; more 0", Ok(0)),
        ("; more 1\n", Err(1)),
        ("; bounded 00\n", Ok(0)),
        ("; exhausted 0\n\n", Err(2)),
        ("; plan 1\n; ops  0\n", Err(2)),
        ("; plan 1\n; ops 4294967296\n", Err(2)),
        ("; plan 1\n; ops 4294967295\n", Err(3)),
        ("; plan 1\n; ops 0\n(\n", Err(3)),
        ("; plan 1\n; ops 0\n()\n; cost = 1 (some cost)\n", Err(4)),
        (
            "; plan 1\n; ops 0\n()\n; cost = 18446744073709551616 (unit cost)\n",
            Err(4),
        ),
    ] {
        assert_eq!(rt; read(alloc, text.as_bytes())?, want, "{text}");
    }
    Ok(())
}

/// What a check of a text says, where it is read.
fn check(alloc: Global, task: &Task, mode: Mode, text: &str) -> Result<Checked, PlansFault> {
    let blocks: Blocks = read_plans(alloc, text.as_bytes())?;
    Ok(check_list(alloc, task, mode, &blocks)?)
}

/// A mode, a text of plans, and what a check of it says.
type Row<'a> = (Mode, &'a str, Checked);

fn check_rows(
    rt: &impl Abort,
    alloc: Global,
    task: &Task,
    rows: &[Row<'_>],
) -> Result<(), PlansFault> {
    for (mode, text, want) in rows {
        assert_eq!(rt; check(alloc, task, *mode, text)?, *want, "{text}");
    }
    Ok(())
}

/// What is said of texts for the switch that goes on and off.
const OF_A_SWITCH: [Row<'static>; 12] = [
    (Mode::TopK, "", Checked::Good { n: 0 }),
    (Mode::TopK, ONE, Checked::Good { n: 1 }),
    (Mode::TopK, THREE, Checked::Good { n: 3 }),
    (
        Mode::TopK,
        "; plan 1\n; ops 0 2\n(x)\n(x)\n; cost = 2 (unit cost)\n",
        Checked::Bad {
            plan: 1,
            why: Why::NoSuchOperator { step: 2 },
        },
    ),
    (
        Mode::TopK,
        "; plan 1\n; ops 1\n(switch-on)\n; cost = 1 (unit cost)\n",
        Checked::Bad {
            plan: 1,
            why: Why::WrongName { step: 1 },
        },
    ),
    (
        Mode::TopK,
        "; plan 1\n; ops 0 0\n(switch-on)\n(switch-on)\n; cost = 2 (unit cost)\n",
        Checked::Bad {
            plan: 1,
            why: Why::StopsAt { step: 2 },
        },
    ),
    (
        Mode::TopK,
        "; plan 1\n; ops\n; cost = 0 (unit cost)\n",
        Checked::Bad {
            plan: 1,
            why: Why::MissesGoal,
        },
    ),
    (
        Mode::TopK,
        "; plan 1\n; ops 0\n(switch-on)\n; cost = 2 (unit cost)\n",
        Checked::Bad {
            plan: 1,
            why: Why::WrongCost { cost: 1 },
        },
    ),
    (
        Mode::TopK,
        "; plan 1\n; ops 0\n(switch-on)\n; cost = 1 (general cost)\n",
        Checked::Bad {
            plan: 1,
            why: Why::WrongCost { cost: 1 },
        },
    ),
    (
        Mode::TopK,
        "; plan 1\n; ops 0\n(switch-on)\n; cost = 1 (unit cost)\n; plan 2\n; ops 0\n(switch-on)\n; cost = 1 (unit cost)\n",
        Checked::Bad {
            plan: 2,
            why: Why::Repeats { earlier: 1 },
        },
    ),
    (
        Mode::TopK,
        EXCHANGED,
        Checked::Bad {
            plan: 2,
            why: Why::Cheaper,
        },
    ),
    (
        Mode::Loopless,
        THREE,
        Checked::Bad {
            plan: 2,
            why: Why::Loops { step: 2 },
        },
    ),
];

/// What is said of the list of all plans of one switch.
const OF_ONE_SWITCH: [Row<'static>; 1] = [(
    Mode::TopK,
    "; plan 1\n; ops 0\n(switch-on)\n; cost = 1 (unit cost)\n; exhausted 1\n",
    Checked::Good { n: 1 },
)];

#[test]
fn calls_the_list_of_one_switch_good(rt: HostRuntime) -> Result<(), Fail> {
    let task = one_switch(rt.alloc())?;
    check_rows(&rt, rt.alloc(), &task, &OF_ONE_SWITCH)?;
    Ok(())
}

#[test]
fn gives_each_reason_on_a_switch(rt: HostRuntime) -> Result<(), Fail> {
    let task = switch_and_back(rt.alloc())?;
    check_rows(&rt, rt.alloc(), &task, &OF_A_SWITCH)?;
    Ok(())
}

/// Two switches, an operator for each that turns it on, and one that leaves the second as it is.
const TWO_SWITCHES: Draft = Draft {
    metric: 0,
    variables: &[BASE, BASE],
    initial: &[0, 0],
    goal: &[(0, 1), (1, 1)],
    operators: &[
        OperatorDraft {
            name: b"a-on",
            effects: &[FIRST_0_TO_1],
            cost: 1,
        },
        OperatorDraft {
            name: b"b-on",
            effects: &[SECOND_0_TO_1],
            cost: 1,
        },
        OperatorDraft {
            name: b"b-stays",
            effects: &[EffectDraft {
                conds: &[],
                var: 1,
                pre: Some(1),
                post: 1,
            }],
            cost: 1,
        },
    ],
    rules: &[],
};

/// Two plans of two switches, in both orders.
const BOTH_ORDERS: &str =
    "; plan 1\n; ops 0 1\n(a-on)\n(b-on)\n; cost = 2 (unit cost)\n; plan 2\n; ops 1 0\n(b-on)\n(a-on)\n; cost = 2 (unit cost)\n";

/// What is said of texts for the two switches.
const OF_TWO_SWITCHES: [Row<'static>; 4] = [
    (Mode::TopK, BOTH_ORDERS, Checked::Good { n: 2 }),
    (Mode::Loopless, BOTH_ORDERS, Checked::Good { n: 2 }),
    (
        Mode::Unordered,
        BOTH_ORDERS,
        Checked::Bad {
            plan: 2,
            why: Why::Repeats { earlier: 1 },
        },
    ),
    (
        Mode::Loopless,
        "; plan 1\n; ops 0 1 2 2\n(a-on)\n(b-on)\n(b-stays)\n(b-stays)\n; cost = 4 (unit cost)\n",
        Checked::Bad {
            plan: 1,
            why: Why::Loops { step: 3 },
        },
    ),
];

#[test]
fn tells_modes_apart_on_two_switches(rt: HostRuntime) -> Result<(), Fail> {
    let task = drafted(rt.alloc(), &TWO_SWITCHES)?.expect(&rt, "the draft fits");
    check_rows(&rt, rt.alloc(), &task, &OF_TWO_SWITCHES)?;
    Ok(())
}

/// A cost that no block can state.
const PAST_64_BITS: [Row<'static>; 1] = [(
    Mode::TopK,
    "; plan 1\n; ops 0 1\n(big)\n(one)\n; cost = 18446744073709551615 (general cost)\n",
    Checked::Bad {
        plan: 1,
        why: Why::WrongCost {
            cost: u64::MAX as u128 + 1,
        },
    },
)];

#[test]
fn counts_costs_past_64_bits(rt: HostRuntime) -> Result<(), Fail> {
    let task = past_64_bits(rt.alloc())?;
    check_rows(&rt, rt.alloc(), &task, &PAST_64_BITS)?;
    Ok(())
}
