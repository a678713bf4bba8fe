//! Filters: expressions in postfix form, and their evaluation.

ghost use Rattle.std.specs.Prelude.{ℕ, ◌≡◌, ◌↔◌, IfSome, IsTrue};
ghost use Rattle.packet.specs.declared.lax_sliced_packet.LaxSlicedPacket.{LaxSlicedPacket as Lax};
ghost use Rattle.packet_filter.specs.Private.Jumps.{decisions_of};
ghost use Rattle.packet_filter.specs.Meaning.{Matches};
ghost use Rattle.packet_filter.specs.Program.{Computes, expression_of};

use crate::expression::{Operator, Primitive, Quantity, Relation};
use crate::jumps::{Decision, decisions_of};
use arrayvec::ArrayVec;
use packet::lax_sliced_packet::LaxSlicedPacket;
use std::fmt;
use std::fmt::Formatter;
use std::marker::Model;

/// A step of an expression in postfix form, on a stack of answers.
#[derive(Clone, Copy, Debug, Default)]
pub(crate) enum Step {
    /// Puts whether a primitive holds.
    Test(Primitive),
    /// Takes one, and puts whether it does not hold.
    #[default]
    Not,
    /// Takes two, and puts what it makes of them.
    Operator(Operator),
}

/// An expression that packets are chosen by. Contracts see its steps, and `expression_of` makes the
/// expression of them.
#[derive(Clone, Drop)]
pub struct Filter {
    steps: ArrayVec<Step, 64>,
    decisions: ArrayVec<Decision, 64>,
}

impl Model for Filter {
    ghost use Rattle.std.specs.Prelude.{◌≡◌, List};
    ghost use Rattle.packet_filter.specs.Private.Jumps.{decisions_of};
    ghost use Rattle.packet_filter.specs.Program.{Computes, expression_of};
    ghost use Rattle.packet_filter.specs.declared.filter.Step.{Step};

    ghost Value = { List Step };

    ghost view = { λ f. f.steps.items };

    ghost invariant = { λ f. Computes f.steps.items (expression_of f.steps.items)
        × (f.decisions.items ≡ decisions_of f.steps.items) };
}

/// Its steps.
impl fmt::Debug for Filter {
    fn fmt<W: fmt::Write>(&self, f: &mut Formatter<W>) -> fmt::Result {
        f.debug_struct("Filter")
            .field("steps", &self.steps)
            .finish_non_exhaustive()
    }
}

impl Filter {
    /// The filter of steps that compute an expression.
    pub(crate) fn of_steps(steps: ArrayVec<Step, 64>) -> Filter
        requires computes { Computes steps.items (expression_of steps.items) }
        ensures value { result ≡ steps.items }
    {
        let decisions = decisions_of(steps.as_slice());
        Filter { steps, decisions }
    }

    /// The filter that chooses no packet: `len < 0`.
    pub fn nothing() -> Filter
        ensures none { (lax : Lax) (len : ℕ) → ¬ Matches (expression_of result) lax len }
    {
        let mut steps = ArrayVec::new();
        steps.push(Step::Test(Primitive::Compare(Quantity::Length, None, Relation::Less, 0)));
        Filter::of_steps(steps)
    }

    /// Whether the expression says something true of a packet. `len` is the length of its frame on
    /// the wire, in bytes; a capture can have fewer.
    ///
    /// What is not there is not found: a primitive about a header or bytes that the packet does not
    /// have is false, and `not` of it true.
    ///
    /// # Example
    ///
    /// ```
    /// // Ethernet, a tag of VLAN 5, IPv4 from 10.0.0.1, and a datagram to port 53.
    /// let frame = [
    ///     2, 0, 0, 0, 0, 2, 2, 0, 0, 0, 0, 1, 0x81, 0, 0, 5, 8, 0, 0x45, 0, 0, 30, 0, 0, 0, 0, 64,
    ///     0x11, 0, 0, 10, 0, 0, 1, 10, 0, 0, 2, 4, 0, 0, 53, 0, 10, 0, 0, b'h', b'i',
    /// ];
    /// let lax = LaxSlicedPacket::from_ethernet(&frame)?;
    /// let filter = Filter::from_text(b"udp port 53 and src net 10.0.0.0/8 and not vlan 6")?;
    /// assert!(rt; filter.matches(&lax, frame.len()));
    /// ```
    pub fn matches(&self, packet: &LaxSlicedPacket, len: usize) -> bool
        ensures value { IsTrue result ↔ Matches (expression_of self.now) packet.now len }
    {
        value_of(
            self.steps.as_slice(),
            self.decisions.as_slice(),
            packet,
            len,
        )
    }
}

impl Filter {
    /// Whether the expression says something true of a packet, if all tests that are made are
    /// prepared.
    #[inline(always)]
    pub(crate) fn matches_by_prepared(&self, packet: &LaxSlicedPacket, len: usize) -> Option<bool>
        ensures value { IfSome result (λ value.
            IsTrue value ↔ Matches (expression_of self.now) packet.now len) }
    {
        prepared_value_of(
            self.steps.as_slice(),
            self.decisions.as_slice(),
            packet,
            len,
        )
    }
}

// Whether the expression of these steps matches.
fn value_of(steps: &[Step], decisions: &[Decision], packet: &LaxSlicedPacket, len: usize) -> bool
    requires computes { Computes steps.now (expression_of steps.now) }
    requires decisions { decisions.now ≡ decisions_of steps.now }
    ensures value { IsTrue result ↔ Matches (expression_of steps.now) packet.now len }
{
    let mut place = steps.len() + 1;
    'steps: while place > 1 {
        let decision = &decisions[place - 2];
        let holds = decision
            .quick
            .holds(&steps[steps.len() + 1 - place], packet, len);
        place = decision.jump.place(holds);
    }
    place == 1
}

// The same, if all tests that are made are prepared.
#[inline(always)]
fn prepared_value_of(
    steps: &[Step],
    decisions: &[Decision],
    packet: &LaxSlicedPacket,
    len: usize,
) -> Option<bool>
    requires computes { Computes steps.now (expression_of steps.now) }
    requires decisions { decisions.now ≡ decisions_of steps.now }
    ensures value { IfSome result (λ value.
        IsTrue value ↔ Matches (expression_of steps.now) packet.now len) }
{
    let mut place = steps.len() + 1;
    'steps: while place > 1 {
        let decision = &decisions[place - 2];
        let holds = match decision.quick.holds_by_itself(packet, len) {
            Some(holds) => holds,
            None => return None,
        };
        place = decision.jump.place(holds);
    }
    Some(place == 1)
}
