//! Worked certificates, and those of tasks that seeds draw.

ghost use Rattle.var_order.specs.Layout.{IsOrderOf};

use crate::brute_force::{first_fault, verdict_by_states};
use crate::drafts::{Draft, drawn, tree};
use crate::reached::reached;
use crate::spelling::text_of;
use crate::states::{all_bits, ranges, states};
use cert_check::{CertFault, CertPart, CertVerdict, check_cert};
use small_tasks::{no_operator, no_plan};
use std::alloc::Global;
use std::test::Fail;
use symk_task::{Memory, State, Task};
use task_draws::random_task;
use var_order::Order;

type Answer = Result<CertVerdict, CertFault>;

/// Certificates of the task whose variable is to change and can't.
const ONE_BIT: [(&[u8], Answer); 9] = [
    (
        b"symk-cert 1\nbits 1\nnodes 1\n0 1 0\nroot 2\nend\n",
        Ok(CertVerdict::Yes),
    ),
    (
        b"symk-cert 1\nbits 01\nnodes 1\n00 1 000\nroot 2\nend",
        Ok(CertVerdict::Yes),
    ),
    (
        b"symk-cert 1\nbits 1\nnodes 0\nroot 1\nend\n",
        Ok(CertVerdict::No {
            part: CertPart::Goal,
        }),
    ),
    (
        b"symk-cert 1\nbits 1\nnodes 0\nroot 0\nend\n",
        Ok(CertVerdict::No {
            part: CertPart::Initial,
        }),
    ),
    (
        b"symk-cert 1\nbits 1\nnodes 1\n0 1 5\nroot 2\nend\n",
        Err(CertFault::Offence { line: 4 }),
    ),
    (
        b"symk-cert 1\nbits 2\nnodes 1\n0 1 0\nroot 2\nend\n",
        Err(CertFault::Offence { line: 2 }),
    ),
    (
        b"symk-cert 1\nbits 1\nnodes 1\n0 1  0\nroot 2\nend\n",
        Err(CertFault::Offence { line: 4 }),
    ),
    (
        b"symk-cert 1\nbits 1\nnodes 1\n0 1 0\nroot 2\n",
        Err(CertFault::Offence { line: 6 }),
    ),
    (
        b"symk-cert 1\nbits 1\nnodes 1\n0 1 0\nroot 2\nend\n\n",
        Err(CertFault::Offence { line: 7 }),
    ),
];

/// Certificates of the task whose lamp can be switched and whose aim can't.
const TWO_BITS: [(&[u8], Answer); 4] = [
    (
        b"symk-cert 1\nbits 2\nnodes 2\n1 1 0\n0 2 0\nroot 3\nend\n",
        Ok(CertVerdict::No {
            part: CertPart::Step { op: 0 },
        }),
    ),
    (
        b"symk-cert 1\nbits 2\nnodes 1\n0 1 0\nroot 2\nend\n",
        Ok(CertVerdict::Yes),
    ),
    (
        b"symk-cert 1\nbits 2\nnodes 2\n0 1 0\n1 2 0\nroot 3\nend\n",
        Err(CertFault::Offence { line: 5 }),
    ),
    (
        b"symk-cert 1\nbits 2\nnodes 1\n0 1 0\nroot 3\nend\n",
        Err(CertFault::Offence { line: 5 }),
    ),
];

#[test]
fn worked_certificates(rt: HostRuntime) -> Result<(), Fail> {
    let alloc = rt.alloc();
    let task = no_operator(alloc)?;
    for (text, answer) in &ONE_BIT {
        assert_eq!(rt; check_cert(alloc, &task, text), *answer);
    }
    let task = no_plan(alloc)?;
    for (text, answer) in &TWO_BITS {
        assert_eq!(rt; check_cert(alloc, &task, text), *answer);
    }
    Ok(())
}

/// How many answers of each kind came.
#[derive(Clone, Copy)]
struct Tally {
    all: u32,
    yes: u32,
    initial: u32,
    step: u32,
    goal: u32,
    offence: u32,
}

impl Tally {
    /// Counts the answer.
    fn count(&mut self, answer: Answer) {
        self.all = self.all.saturating_add(1);
        let kind = match answer {
            Ok(CertVerdict::Yes) => &mut self.yes,
            Ok(
                CertVerdict::No {
                    part: CertPart::Initial,
                },
            ) => &mut self.initial,
            Ok(
                CertVerdict::No {
                    part: CertPart::Step { .. },
                },
            ) => &mut self.step,
            Ok(
                CertVerdict::No {
                    part: CertPart::Goal,
                },
            ) => &mut self.goal,
            Err(_) => &mut self.offence,
        };
        *kind = kind.saturating_add(1);
    }
}

/// What is to be answered to the draft.
fn answer_to(
    alloc: Global,
    task: &Task,
    order: &Order,
    ranges: &[usize],
    states: &[State],
    draft: &Draft,
) -> Result<Answer, Memory>
    requires { IsOrderOf task.now order.now }
{
    match first_fault(draft, all_bits(ranges)) {
        Some(line) => Ok(Err(CertFault::Offence { line })),
        None => Ok(Ok(verdict_by_states(alloc, task, order, ranges, states, draft)?)),
    }
}

/// A draft of the states that are reached, maybe with one more or less, and then maybe changed.
fn draft_of(alloc: Global, width: u32, reached: &[bool], seed: u64) -> Result<Draft, Memory> {
    let mut named = Vec::from_slice(alloc, reached)?;
    if drawn(seed, 3) == 0 {
        let code = drawn(seed.wrapping_add(1), named.len() as u64) as usize;
        if let Some(named) = named.get_mut(code) {
            *named = !*named;
        }
    }
    let mut draft = tree(alloc, width, &named)?;
    draft.change(seed.wrapping_add(2));
    Ok(draft)
}

/// Whether 12 drafts of the task are answered as they are to be.
fn are_answered(alloc: Global, task: &Task, seed: u64, tally: &mut Tally) -> Result<bool, Memory> {
    let order = Order::of(alloc, task)?;
    let ranges = ranges(alloc, task)?;
    let states = states(alloc, &ranges)?;
    let width = all_bits(&ranges);
    let codes = 1usize.wrapping_shl(width.min(10));
    let reached = reached(alloc, task, &order, &ranges, &states, codes)?;
    for i in 0..12 {
        let draft = draft_of(
            alloc,
            width,
            &reached,
            seed.wrapping_mul(100).wrapping_add(i),
        )?;
        let wanted = answer_to(alloc, task, &order, &ranges, &states, &draft)?;
        let text = text_of(alloc, width, &draft)?;
        let answer = check_cert(alloc, task, text.as_slice());
        if answer != wanted {
            return Ok(false);
        }
        tally.count(answer);
    }
    Ok(true)
}

#[test]
fn changed_certificates(rt: HostRuntime) -> Result<(), Fail> {
    let alloc = rt.alloc();
    let mut tally = Tally {
        all: 0,
        yes: 0,
        initial: 0,
        step: 0,
        goal: 0,
        offence: 0,
    };
    for seed in 0..60 {
        if let Some(task) = random_task(alloc, seed)? {
            assert!(rt;
                are_answered(alloc, &task, seed, &mut tally)?,
                "seed {seed}"
            );
        }
    }
    assert!(rt; tally.all >= 500);
    assert!(rt; tally.yes >= 20 && tally.initial >= 20 && tally.step >= 20);
    assert!(rt; tally.goal >= 20 && tally.offence >= 20);
    Ok(())
}
