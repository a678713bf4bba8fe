//! Reading an expression, a word at a time.

ghost use Rattle.std.specs.Prelude.{◌≡◌, ◌+◌, ◌<◌, ◌≤◌, ◌↔◌, [], ◌∷◌, ◌++◌, IfNone, IfSome};
ghost use Rattle.std.specs.Prelude.{IsFalse, IsTrue, length};
ghost use Rattle.packet_filter.specs.Private.Machine.{after, chosen, close, closes_term, complete};
ghost use Rattle.packet_filter.specs.Private.Machine.{expected_of, finish, finish_state, is_only};
ghost use Rattle.packet_filter.specs.Private.Machine.{is_open, kept, level_of, on_progress};
ghost use Rattle.packet_filter.specs.Private.Machine.{or_value, put, qualifiers_doing, settled};
ghost use Rattle.packet_filter.specs.Private.Machine.{size_of, start, state_of, step_net, step_of};
ghost use Rattle.packet_filter.specs.Private.Machine.{step_operand, step_operator, step_within};
ghost use Rattle.packet_filter.specs.Private.Machine.{values_after, waiting_of, waits};

use crate::expected::{Expected, expected_value, expected_within, qualifiers_of};
use crate::expression::{Operator, Primitive};
use crate::filter::Step;
use crate::head::Head;
use crate::partial::{
    FIRST_HEAD, NetAddress, Partial, Progress, begin, head_of, net_address_of, next, valued, whole,
};
use crate::token::Token;
use arrayvec::ArrayVec;
use std::marker::Model;

/// What waits for an operand to be complete.
#[derive(Clone, Copy, Default)]
pub(crate) enum Waiting {
    /// `not`.
    #[default]
    Not,
    /// `and` or `or`, after its left side.
    Operator(Operator),
    /// `(`: the head of a value alone in its place, and whether all within are values.
    Open(Head, bool),
    /// A head: `not` or `(` follows it, and values alone.
    Head,
}

/// What may come next.
#[derive(Clone, Copy)]
pub(crate) enum Doing {
    /// An operand: a value alone, which has this head, or if that is false any other.
    Operand(Head, bool),
    /// The rest of a primitive.
    Within(Partial),
    /// `mask` after the address of a network, or an operator, or a closing parenthesis.
    Net(NetAddress),
    /// The mask of a network, after its address and `mask`.
    Mask(NetAddress),
    /// An operator, or a closing parenthesis. Before it this operator stands on the same level, or
    /// none; a value alone after it would have this head.
    Operator(Option<Operator>, Head),
}

/// What waits, the last first.
#[derive(Drop)]
pub(crate) struct Stack {
    items: ArrayVec<Waiting, 64>,
}

impl Model for Stack {
    ghost use Rattle.std.specs.Prelude.{List, reverse};
    ghost use Rattle.packet_filter.specs.declared.machine.Waiting.{Waiting};

    ghost Value = { List Waiting };

    ghost view = { λ s. reverse s.items.items };
}

impl Stack {
    fn new() -> Self
        ensures empty { result ≡ [] }
    {
        Stack {
            items: ArrayVec::new(),
        }
    }

    fn push(&mut self, waiting: Waiting)
        requires room { length self.old < 64 }
        ensures pushed { self.new ≡ waiting ∷ self.old }
    {
        self.items.push(waiting);
    }

    fn pop(&mut self) -> Option<Waiting>
        ensures some { IfSome result (λ w. self.old ≡ w ∷ self.new) }
        ensures none { IfNone result ((self.old ≡ []) × (self.new ≡ [])) }
    {
        self.items.pop()
    }

    fn is_open(&self) -> bool
        ensures value { result ≡ is_open self.now }
    {
        matches!(self.items.as_slice().last(), Some(Waiting::Open(_, _)))
    }

    fn is_only(&self) -> bool
        ensures value { result ≡ is_only self.now }
    {
        matches!(self.items.as_slice().last(), Some(Waiting::Open(_, true)))
    }

    fn is_empty(&self) -> bool
        ensures value { IsTrue result ↔ (self.now ≡ []) }
    {
        self.items.is_empty()
    }
}

/// The words that were read, as far as they matter.
#[derive(Drop)]
pub(crate) struct Machine {
    doing: Doing,
    waiting: Stack,
    steps: ArrayVec<Step, 64>,
}

impl Machine {
    /// Before the first word.
    pub(crate) fn new() -> Self
        ensures first { state_of result ≡ start }
    {
        Machine {
            doing: Doing::Operand(FIRST_HEAD, false),
            waiting: Stack::new(),
            steps: ArrayVec::new(),
        }
    }

    /// Takes a word. `false`: it cannot stand there, and a primitive that can be complete is.
    pub(crate) fn step(&mut self, token: Token) -> bool
        requires room { size_of (state_of self.old) < 64 }
        ensures yes { IsTrue result → step_of (state_of self.old) token ≡ Some (state_of self.new) }
        ensures no { IsFalse result → step_of (state_of self.old) token ≡ None }
        ensures left { IsFalse result → state_of self.new ≡ settled (state_of self.old) }
        ensures size { IsTrue result →
            size_of (state_of self.new) ≤ size_of (state_of self.old) + 1 }
    {
        match self.doing {
            Doing::Operand(head, only) => self.step_operand(head, only, token),
            Doing::Within(partial) => self.step_within(partial, token),
            Doing::Net(address) => self.step_net(address, token),
            Doing::Mask(address) => self.go_on(address.with_mask(token)),
            Doing::Operator(before, head) => self.step_operator(before, head, token),
        }
    }

    /// Whether the words that were read are an expression. If so, the steps are its; if not, a
    /// primitive that can be complete is.
    pub(crate) fn finish(&mut self) -> bool
        requires room { size_of (state_of self.old) ≤ 64 }
        ensures yes { IsTrue result → finish (state_of self.old) ≡ Some self.new.steps.items }
        ensures no { IsFalse result → finish (state_of self.old) ≡ None }
        ensures left { IsFalse result → state_of self.new ≡ settled (state_of self.old) }
    {
        match self.doing {
            Doing::Operand(_, _) => false,
            Doing::Within(partial) => match whole(partial) {
                Some(primitive) => {
                    self.put(primitive, FIRST_HEAD);
                    self.is_whole()
                }
                None => false,
            },
            Doing::Net(address) => {
                self.put(address.primitive(), address.head());
                self.is_whole()
            }
            Doing::Mask(_) => false,
            Doing::Operator(_, _) => self.waiting.is_empty(),
        }
    }

    // Whether an expression is complete.
    fn is_whole(&self) -> bool
        ensures yes { IsTrue result → finish_state (state_of self.now) ≡ Some self.now.steps.items }
        ensures no { IsFalse result → finish_state (state_of self.now) ≡ None }
    {
        match self.doing {
            Doing::Operator(_, _) => self.waiting.is_empty(),
            Doing::Operand(_, _) | Doing::Within(_) | Doing::Net(_) | Doing::Mask(_) => false,
        }
    }

    /// What can stand next, where no primitive is complete that could go on.
    pub(crate) fn expected(&self) -> Expected
        ensures value { result ≡ expected_of (state_of self.now) }
    {
        match self.doing {
            Doing::Operand(head, true) => expected_value(head),
            Doing::Operand(_, false) => Expected::Operand,
            Doing::Within(partial) => expected_within(partial),
            // Without a mask it is complete.
            Doing::Net(_) => Expected::AfterAddress,
            Doing::Mask(_) => Expected::Mask,
            Doing::Operator(before, _) => {
                let open = self.waiting.is_open();
                Expected::Operator { before, open }
            }
        }
    }

    /// What can follow a word that is a primitive by itself, if more than an operator can.
    pub(crate) fn qualifiers(&self) -> Option<Expected>
        ensures value { result ≡ qualifiers_doing self.now.doing }
    {
        match self.doing {
            Doing::Within(partial) => qualifiers_of(partial),
            Doing::Net(_) => Some(Expected::AfterAddress),
            Doing::Operand(_, _) | Doing::Mask(_) | Doing::Operator(_, _) => None,
        }
    }

    /// The operator that stands before on the same level, where one can stand.
    pub(crate) fn operator(&self) -> Option<Operator>
        ensures value { result ≡ level_of self.now.doing }
    {
        match self.doing {
            Doing::Operator(before, _) => before,
            Doing::Operand(_, _) | Doing::Within(_) | Doing::Net(_) | Doing::Mask(_) => None,
        }
    }

    /// The steps so far.
    pub(crate) fn into_steps(self) -> ArrayVec<Step, 64>
        ensures value { result.items ≡ self.steps.items }
    {
        self.steps
    }

    // Where an operand may come.
    fn step_operand(&mut self, head: Head, only: bool, token: Token) -> bool
        requires room { kept (state_of self.old) < 64 }
        ensures yes { IsTrue result →
            step_operand head only token self.old.waiting self.old.steps.items
            ≡ Some (state_of self.new) }
        ensures no { IsFalse result →
            step_operand head only token self.old.waiting self.old.steps.items ≡ None }
        ensures left { IsFalse result → state_of self.new ≡ state_of self.old }
        ensures size { IsTrue result → size_of (state_of self.new) ≤ kept (state_of self.old) + 1 }
    {
        match waiting_of(head, only, token) {
            Some(waiting) => self.wait(waiting, head, only),
            None => match net_address_of(token, Some(head)) {
                Some(address) => {
                    self.doing = Doing::Net(address);
                    true
                }
                None => self.go_on(chosen(only, head, token)),
            },
        }
    }

    // What a word makes of a primitive that it begins, or that has begun.
    fn go_on(&mut self, progress: Progress) -> bool
        requires room { kept (state_of self.old) < 64 }
        ensures yes { IsTrue result →
            on_progress progress self.old.waiting self.old.steps.items
            ≡ Some (state_of self.new) }
        ensures no { IsFalse result →
            on_progress progress self.old.waiting self.old.steps.items ≡ None }
        ensures left { IsFalse result → state_of self.new ≡ state_of self.old }
        ensures size { IsTrue result → size_of (state_of self.new) ≤ kept (state_of self.old) + 1 }
    {
        match progress {
            Progress::More(partial) => {
                self.doing = Doing::Within(partial);
                true
            }
            Progress::Done(primitive, head) => {
                self.put(primitive, head);
                true
            }
            Progress::Foreign => false,
        }
    }

    // Within a primitive.
    fn step_within(&mut self, partial: Partial, token: Token) -> bool
        requires at { self.old.doing ≡ Doing.Within partial }
        requires room { kept (state_of self.old) < 63 }
        ensures yes { IsTrue result →
            step_within partial token self.old.waiting self.old.steps.items
            ≡ Some (state_of self.new) }
        ensures no { IsFalse result →
            step_within partial token self.old.waiting self.old.steps.items ≡ None }
        ensures left { IsFalse result → state_of self.new ≡ settled (state_of self.old) }
        ensures size { IsTrue result → size_of (state_of self.new) ≤ kept (state_of self.old) + 2 }
    {
        if self.closes_term(partial, token) {
            self.waiting.pop();
            return true;
        }
        if let Some((head, waiting)) = values_after(token, head_of(partial)) {
            self.waiting.push(Waiting::Head);
            return self.wait(waiting, head, true);
        }
        if let Some(address) = net_address_of(token, head_of(partial)) {
            self.waiting.push(Waiting::Head);
            self.doing = Doing::Net(address);
            return true;
        }
        match next(partial, token) {
            Progress::Foreign => match whole(partial) {
                Some(primitive) => {
                    self.put(primitive, FIRST_HEAD);
                    self.step_after(token)
                }
                None => false,
            },
            progress => self.go_on(progress),
        }
    }

    // After the address of a network.
    fn step_net(&mut self, address: NetAddress, token: Token) -> bool
        requires at { self.old.doing ≡ Doing.Net address }
        requires room { kept (state_of self.old) < 63 }
        ensures yes { IsTrue result →
            step_net address token self.old.waiting self.old.steps.items
            ≡ Some (state_of self.new) }
        ensures no { IsFalse result →
            step_net address token self.old.waiting self.old.steps.items ≡ None }
        ensures left { IsFalse result → state_of self.new ≡ settled (state_of self.old) }
        ensures size { IsTrue result → size_of (state_of self.new) ≤ kept (state_of self.old) + 2 }
    {
        match token {
            Token::Mask => {
                self.doing = Doing::Mask(address);
                true
            }
            _ => {
                self.put(address.primitive(), address.head());
                self.step_after(token)
            }
        }
    }

    // Whether a word closes a parenthesis round a term.
    fn closes_term(&self, partial: Partial, token: Token) -> bool
        ensures value { result ≡ closes_term partial token self.now.waiting }
    {
        matches!((partial, token), (Partial::Term(_, _), Token::Close)) && self.waiting.is_open()
    }

    // An operator, where one may come.
    fn step_after(&mut self, token: Token) -> bool
        requires room { kept (state_of self.old) < 64 }
        ensures yes { IsTrue result → after token (state_of self.old) ≡ Some (state_of self.new) }
        ensures no { IsFalse result → after token (state_of self.old) ≡ None }
        ensures left { IsFalse result → state_of self.new ≡ state_of self.old }
        ensures size { IsTrue result → size_of (state_of self.new) ≤ kept (state_of self.old) + 1 }
    {
        match self.doing {
            Doing::Operator(before, head) => self.step_operator(before, head, token),
            Doing::Operand(_, _) | Doing::Within(_) | Doing::Net(_) | Doing::Mask(_) => false,
        }
    }

    // Where an operator may come.
    fn step_operator(&mut self, before: Option<Operator>, head: Head, token: Token) -> bool
        requires room { kept (state_of self.old) < 64 }
        ensures yes { IsTrue result →
            step_operator before head token self.old.waiting self.old.steps.items
            ≡ Some (state_of self.new) }
        ensures no { IsFalse result →
            step_operator before head token self.old.waiting self.old.steps.items ≡ None }
        ensures left { IsFalse result → state_of self.new ≡ state_of self.old }
        ensures size { IsTrue result → size_of (state_of self.new) ≤ kept (state_of self.old) + 1 }
    {
        let only = self.waiting.is_only();
        match (before, token) {
            (None, Token::Operator(operator)) => {
                self.wait(Waiting::Operator(operator), head, only)
            }
            (Some(Operator::And), Token::Operator(Operator::And)) => {
                self.wait(Waiting::Operator(Operator::And), head, only)
            }
            (Some(Operator::Or), Token::Operator(Operator::Or)) => {
                self.wait(Waiting::Operator(Operator::Or), head, only)
            }
            (_, Token::Close) => self.close(),
            _ => false,
        }
    }

    // A closing parenthesis.
    fn close(&mut self) -> bool
        requires room { kept (state_of self.old) ≤ 64 }
        ensures yes { IsTrue result →
            close self.old.waiting self.old.steps.items ≡ Some (state_of self.new) }
        ensures no { IsFalse result → close self.old.waiting self.old.steps.items ≡ None }
        ensures left { IsFalse result → state_of self.new ≡ state_of self.old }
        ensures size { IsTrue result → size_of (state_of self.new) ≤ kept (state_of self.old) }
    {
        if !self.waiting.is_open() {
            return false;
        }
        match self.waiting.pop() {
            Some(Waiting::Open(head, _)) => {
                self.complete(head);
                true
            }
            _ => false,
        }
    }

    // Waits for an operand.
    fn wait(&mut self, waiting: Waiting, head: Head, only: bool) -> bool
        requires room { length self.old.waiting < 64 }
        ensures yes { IsTrue result }
        ensures state { waits waiting head only self.old.waiting self.old.steps.items
            ≡ Some (state_of self.new) }
        ensures size { size_of (state_of self.new) ≡ kept (state_of self.old) + 1 }
    {
        self.waiting.push(waiting);
        self.doing = Doing::Operand(head, only);
        true
    }

    // Takes a primitive.
    fn put(&mut self, primitive: Primitive, head: Head)
        requires room { kept (state_of self.old) < 64 }
        ensures state { state_of self.new ≡
            put primitive head self.old.waiting self.old.steps.items }
        ensures size { kept (state_of self.new) ≤ kept (state_of self.old) + 1 }
        ensures none { size_of (state_of self.new) ≡ kept (state_of self.new) }
    {
        self.steps.push(Step::Test(primitive));
        self.complete(head);
    }

    // An operand is complete.
    fn complete(&mut self, head: Head)
        requires room { kept (state_of self.old) ≤ 64 }
        ensures state { state_of self.new ≡ complete head self.old.waiting self.old.steps.items }
        ensures size { kept (state_of self.new) ≤ kept (state_of self.old) }
        ensures none { size_of (state_of self.new) ≡ kept (state_of self.new) }
    {
        'nots: loop {
            if self.waiting.is_open() {
                self.doing = Doing::Operator(None, head);
                return;
            }
            match self.waiting.pop() {
                Some(Waiting::Not) => self.steps.push(Step::Not),
                Some(Waiting::Head) => {}
                Some(Waiting::Operator(operator)) => {
                    self.steps.push(Step::Operator(operator));
                    self.doing = Doing::Operator(Some(operator), head);
                    return;
                }
                Some(Waiting::Open(_, _)) | None => {
                    self.doing = Doing::Operator(None, head);
                    return;
                }
            }
        }
    }
}

// What waits after a word, if an operand is still to come.
fn waiting_of(head: Head, only: bool, token: Token) -> Option<Waiting>
    ensures value { result ≡ waiting_of head only token }
{
    match token {
        Token::Not => Some(Waiting::Not),
        Token::Open => Some(Waiting::Open(head, only)),
        _ => None,
    }
}

// What waits after a head, if values alone are still to come.
fn values_after(token: Token, head: Option<Head>) -> Option<(Head, Waiting)>
    ensures value { result ≡ values_after token head }
{
    match (token, head) {
        (Token::Not, Some(head)) => Some((head, Waiting::Not)),
        (Token::Open, Some(head)) => Some((head, Waiting::Open(head, true))),
        _ => None,
    }
}

// What a word makes of a primitive that it is the first of.
fn chosen(only: bool, head: Head, token: Token) -> Progress
    ensures value { result ≡ chosen only head token }
{
    if only {
        valued(head, token)
    } else {
        or_value(head, token, begin(token))
    }
}

// A word that begins no primitive can be a value alone.
fn or_value(head: Head, token: Token, progress: Progress) -> Progress
    ensures value { result ≡ or_value head token progress }
{
    match progress {
        Progress::Foreign => valued(head, token),
        _ => progress,
    }
}
