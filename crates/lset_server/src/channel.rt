//! The channel that passes connections to the worker threads, and the invariant that no connection is lost.
ghost use Rattle.std.specs.Prelude.{◌≡◌, ◌<◌, ◌++◌, [], ℕ, List, MatchResult, ⊤, ◌-◌, ◌+◌};
ghost use Rattle.crossbeam_channel.specs.Claims.{view, IsSeatAt};
ghost use Rattle.crossbeam_channel.specs.Ends.{sends_on, receives_on};
ghost use Rattle.lset_server.specs.Tallies.{tally, weigh, numbers, number_of, IsBalanced};

use crossbeam_channel::protocol::{Join, Lesson, Outcome, Protocol, Split};
use crossbeam_channel::{Pass, RecvError, RuledReceiver, RuledSender, SendError};
use lset_words::MOST_THREADS;
use std::alloc::Global;
use std::collections::LinkedList;
use std::sync::Wait;

/// The number of parts into which the right to use the channel can be split: one for each of up to `MOST_THREADS`
/// workers, and one for the sender. The owner of all parts knows all connections that were sent and received.
pub(crate) const PARTS: u64 = MOST_THREADS as u64 + 1;

/// An accepted connection with its number. Connections are numbered from 0, in order of acceptance.
#[derive(Drop)]
pub(crate) struct Connection<S> {
    pub number: u64,
    pub stream: S,
}

/// A message to a worker: a connection, or the notice that no more connections will arrive.
#[derive(Drop)]
pub(crate) enum Message<S> {
    Connection(Connection<S>),
    Close,
}

/// The tally of a pass (permission to use the channel): how many parts the pass has, and which connections were sent
/// and received with it. The tally of a pass with all parts lists all connections that were sent and received. A
/// `Tally` exists only in contracts.
pub(crate) struct Tally {
    pub parts: u64,
    pub sent: LinkedList<u64>,
    pub received: LinkedList<u64>,
}

/// The invariant of the channel: each connection that was sent has been received or is in the queue.
pub(crate) struct NothingLost;

impl<S> Protocol<Message<S>, Tally> for NothingLost {
    ghost use Rattle.std.specs.Prelude.{[]};
    ghost use Rattle.lset_server.specs.Tallies.{tally, numbers, IsBalanced};
    ghost use Rattle.lset_server.specs.declared.channel.TheConstants.{PARTS};

    ghost holds = { λ items views. IsBalanced (numbers items) views };

    ghost first = { tally PARTS [] [] };
}

/// Defines the tallies after a new pass (permission to use the channel) is split off another pass, and after two passes
/// are joined.
pub(crate) struct Parting;

impl Split<Tally> for Parting {
    ghost use Rattle.std.specs.Prelude.{◌-◌, []};
    ghost use Rattle.lset_server.specs.Tallies.{tally};

    ghost left = { λ v. tally (v.parts - 1) v.sent v.received };

    ghost right = { λ v. tally 1 [] [] };
}

impl Join<Tally> for Parting {
    ghost use Rattle.std.specs.Prelude.{◌+◌, ◌++◌, []};
    ghost use Rattle.lset_server.specs.Tallies.{tally};

    ghost both = { λ v w. tally (v.parts + w.parts) (v.sent ++ w.sent) (v.received ++ w.received) };

    ghost spent = { tally 0 [] [] };
}

/// How the tally of a pass (permission to use the channel) changes when a message is sent with the pass: if the message
/// is a connection, its number is appended to the numbers sent.
pub(crate) struct Sending;

impl<S> Outcome<Message<S>, Tally> for Sending {
    ghost then = { λ v x w. w ≡ tally v.parts (v.sent ++ number_of x) v.received };
}

impl<S> Lesson<Message<S>, Tally> for Sending {
    ghost fact = { λ v items. ⊤ };
}

/// How the tally of a pass (permission to use the channel) changes when a message is received with the pass: if the
/// message is a connection, its number is appended to the numbers received.
pub(crate) struct Receiving;

impl<S> Outcome<Message<S>, Tally> for Receiving {
    ghost then = { λ v x w. w ≡ tally v.parts v.sent (v.received ++ number_of x) };
}

impl<S> Lesson<Message<S>, Tally> for Receiving {
    ghost fact = { λ v items. ⊤ };
}

/// Lemma: if a pass (permission to use the channel) has all parts, the connections sent are exactly the connections
/// received and the connections in the queue.
pub(crate) struct Balanced;

impl<S> Lesson<Message<S>, Tally> for Balanced {
    ghost use Rattle.std.specs.Prelude.{◌≡◌, ◌+◌, ℕ};
    ghost use Rattle.lset_server.specs.Tallies.{weigh, numbers};

    ghost fact = { λ v items. (h : ℕ → ℕ) → weigh h v.sent ≡ weigh h v.received + weigh h (numbers items) };
}

pub(crate) type Sender<S> = RuledSender<Message<S>, Tally, NothingLost>;

pub(crate) type Receiver<S> = RuledReceiver<Message<S>, Tally, NothingLost>;

/// A pass: the permission to send and receive on the channel. A pass is zero-sized, and its tally exists only in
/// contracts.
pub(crate) type Token<S> = Pass<Message<S>, Tally>;

/// Sends a message with `pass`, a permission to use the channel of `to`. Blocks while the channel is full. If the
/// message cannot be sent, returns it in the error.
pub fn send<S: Drop, R: Wait>(
    rt: &R,
    to: &Sender<S>,
    pass: &mut Token<S>,
    message: Message<S>,
) -> Result<(), SendError<Message<S>>>
    requires channel { IsSeatAt (sends_on to.now) pass.old }
    requires part { 0 < (view pass.old).parts }
    ensures channel { IsSeatAt (sends_on to.now) pass.new }
    ensures told { MatchResult result
        (λ _. view pass.new ≡ tally (view pass.old).parts ((view pass.old).sent ++ number_of message) (view pass.old).received)
        (λ _. view pass.new ≡ view pass.old) }
{
    to.send_as::<Sending, R>(rt, pass, message)
}

/// Receives a message with `pass`, a permission to use the channel of `from`. Blocks until a message arrives.
pub fn receive<S: Drop, R: Wait>(
    rt: &R,
    from: &Receiver<S>,
    pass: &mut Token<S>,
) -> Result<Message<S>, RecvError>
    requires channel { IsSeatAt (receives_on from.now) pass.old }
    requires part { 0 < (view pass.old).parts }
    ensures channel { IsSeatAt (receives_on from.now) pass.new }
    ensures told { MatchResult result
        (λ x. view pass.new ≡ tally (view pass.old).parts (view pass.old).sent ((view pass.old).received ++ number_of x))
        (λ _. view pass.new ≡ view pass.old) }
{
    from.recv_as::<Receiving, R>(rt, pass)
}

/// Splits a new pass (permission to use the channel), for a receiver, off the sender's `pass`.
pub(crate) fn cut_part<S: Drop>(to: &Sender<S>, pass: &mut Token<S>) -> Token<S>
    requires channel { IsSeatAt (sends_on to.now) pass.old }
    requires parts { 1 < (view pass.old).parts }
    ensures channel { IsSeatAt (sends_on to.now) pass.new × IsSeatAt (sends_on to.now) result }
    ensures told { (view pass.new ≡ tally ((view pass.old).parts - 1) (view pass.old).sent (view pass.old).received)
        × (view result ≡ tally 1 [] []) }
{
    to.another::<Parting>(pass)
}

/// Joins `other`, a receiver's pass (permission to use the channel), to the sender's `pass`.
pub(crate) fn take_back<S: Drop>(to: &Sender<S>, pass: &mut Token<S>, other: Token<S>)
    requires channel { IsSeatAt (sends_on to.now) pass.old × IsSeatAt (sends_on to.now) other }
    requires part { 0 < (view pass.old).parts }
    ensures channel { IsSeatAt (sends_on to.now) pass.new }
    ensures told { view pass.new ≡ tally ((view pass.old).parts + (view other).parts)
        ((view pass.old).sent ++ (view other).sent) ((view pass.old).received ++ (view other).received) }
{
    to.absorb::<Parting>(pass, other)
}

/// Lemma: if `pass` (permission to use the channel) has all parts, the connections sent are exactly the connections
/// received and the connections in the queue. The function does nothing at run time.
pub(crate) fn balance<S: Drop>(to: &Sender<S>, pass: &mut Token<S>)
    requires channel { IsSeatAt (sends_on to.now) pass.old }
    requires all { (view pass.old).parts ≡ PARTS }
    ensures channel { IsSeatAt (sends_on to.now) pass.new × (view pass.new ≡ view pass.old) }
    ensures told { (queue : List ℕ) × ((h : ℕ → ℕ) →
        weigh h (view pass.old).sent ≡ weigh h (view pass.old).received + weigh h queue) }
{
    to.learn_as::<Balanced>(pass)
}
