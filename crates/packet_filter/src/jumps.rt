//! Where an expression goes on after each of its tests, so that no test is made whose answer is not
//! needed.

ghost use Rattle.std.specs.Prelude.{◌≡◌, ◌+◌, ◌<◌, ◌≤◌, if◌then◌else◌, length};
ghost use Rattle.arrayvec.specs.ArrayVec.{array_vec_len};
ghost use Rattle.packet_filter.specs.Private.Jumps.{Operands, but_last, decisions_of, in_order, jump_by};
ghost use Rattle.packet_filter.specs.Private.Jumps.{with_operands};

use crate::expression::Operator;
use crate::filter::Step;
use crate::quick::{Quick, quick_of_step};
use arrayvec::ArrayVec;

/// The places where an expression goes on after a test. A place is one more than the number of steps
/// from there to the end; 0 is none, and the answer is no.
#[derive(Clone, Copy, Default)]
pub(crate) struct Jump {
    /// After a test that holds.
    pub yes: u8,
    /// After one that does not.
    pub no: u8,
}

impl Jump {
    /// The place after a test that holds or not.
    #[inline(always)]
    pub(crate) fn place(self, holds: bool) -> usize
        ensures value { result ≡ (if holds then self.yes else self.no) }
    {
        usize::from(if holds { self.yes } else { self.no })
    }
}

/// Where the answer of an operand leads; `None` is the place that comes next.
#[derive(Clone, Copy, Default)]
struct Operand {
    yes: Option<u8>,
    no: Option<u8>,
}

/// What is asked at a step, and where it goes on.
#[derive(Clone, Copy, Default)]
pub(crate) struct Decision {
    /// What is asked.
    pub quick: Quick,
    /// Where it goes on.
    pub jump: Jump,
}

/// What is asked at each step, and its jump, those of the last step first.
pub(crate) fn decisions_of(steps: &[Step]) -> ArrayVec<Decision, 64>
    requires few { length steps.now ≤ 64 }
    ensures value { result.items ≡ decisions_of steps.now }
{
    let mut decisions = ArrayVec::new();
    let mut operands = ArrayVec::new();
    operands.push(Operand {
        yes: None,
        no: Some(0),
    });
    let mut rest = steps;
    'steps: while let Some((step, before)) = rest.split_last() {
        let jump = jump_by(&mut operands, decisions.len() as u8 + 1);
        push_operands(step, jump, &mut operands);
        decisions.push(Decision {
            quick: quick_of_step(step),
            jump,
        });
        rest = before;
    }
    decisions
}

// Takes the last operand, and says where its answer leads before the place that comes next.
fn jump_by(operands: &mut ArrayVec<Operand, 65>, next: u8) -> Jump
    ensures value { (all : Operands) → operands.old.items ≡ in_order all →
        result ≡ jump_by all next }
    ensures taken { (all : Operands) → operands.old.items ≡ in_order all →
        operands.new.items ≡ in_order (but_last all) }
    ensures len { array_vec_len operands.old ≤ array_vec_len operands.new + 1 }
    ensures fewer { 0 < array_vec_len operands.old →
        array_vec_len operands.new < array_vec_len operands.old }
{
    match operands.pop() {
        Some(last) => Jump {
            yes: last.yes.unwrap_or(next),
            no: last.no.unwrap_or(next),
        },
        None => Jump {
            yes: next,
            no: next,
        },
    }
}

// Adds the operands of a step, whose own answer leads on by this jump.
fn push_operands(step: &Step, jump: Jump, operands: &mut ArrayVec<Operand, 65>)
    requires room { array_vec_len operands.old < 64 }
    ensures added { (others : Operands) → operands.old.items ≡ in_order others →
        operands.new.items ≡ in_order (with_operands step.now jump others) }
    ensures len { array_vec_len operands.new ≤ array_vec_len operands.old + 2 }
{
    let last = Operand {
        yes: Some(jump.yes),
        no: Some(jump.no),
    };
    match step {
        Step::Test(_) => {}
        Step::Not => operands.push(Operand {
            yes: last.no,
            no: last.yes,
        }),
        Step::Operator(Operator::And) => {
            operands.push(Operand { yes: None, ..last });
            operands.push(last);
        }
        Step::Operator(Operator::Or) => {
            operands.push(Operand { no: None, ..last });
            operands.push(last);
        }
    }
}
