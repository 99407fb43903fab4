//! Laws of every run of every machine (a list algorithm as a table of steps), for any number of events: laws about the
//! chain of nodes, locks, marks, changes of keys, and replies. Each law is the contract of an empty function.

ghost use Rattle.lset_steps.specs.BoundedReads.{BoundedReads, WalkWasInChain};
ghost use Rattle.lset_steps.specs.Promises.{
  FrozenNodes,
  HasAccount,
  InRange,
  ListedContent,
  LockUses,
  LockWords,
  NamedChange,
  NoLinkIsMarked,
  RepliesFit,
  SeenInThePast,
  SortedChain,
  TrueMeansChange,
  UnlinkedNodesStay,
  UnmarkedNodesInChain,
};

use crate::{Machine, OpenReads};

/// Lemma: at each moment of a run, the registers of each thread (the nodes and key words in its private state) are in
/// range, and the next step of each pending call accesses one of the list's words.
pub fn in_range<M: Machine>()
    ensures { InRange M.table }
{}

/// Lemma: at each moment of a run, the chain leads from the head to the tail, and its keys increase strictly (Herlihy
/// and Shavit's representation invariant).
pub fn sorted_chain<M: Machine>()
    ensures { SortedChain M.table }
{}

/// Lemma: a lock word is `t + 1` while thread `t` holds the lock, and 0 while the lock is free. A thread holds a lock
/// from the step that takes the lock until the store of 0 that releases it.
pub fn lock_words<M: Machine>()
    ensures { LockWords M.table }
{}

/// Lemma: any thread can attempt to take a lock, but only the thread that holds the lock can release it. No action of
/// any other kind changes a lock word.
pub fn lock_uses<M: Machine>()
    ensures { LockUses M.table }
{}

/// Lemma: a published node (one that has been in the chain) keeps its key. An unlinked node keeps its link and stays
/// out of the chain. In a list that marks nodes, a marked node keeps its link. (Heller and others, for their lazy
/// list; Harris, for marks.)
pub fn unlinked_nodes_stay<M: Machine>()
    ensures { UnlinkedNodesStay M.table }
{}

/// Lemma: once a node is unlinked, its link never changes again. In a list that marks nodes, the link never changes
/// once the node is marked. (Harris; O'Hearn and others.)
pub fn frozen_nodes<M: Machine>()
    ensures { FrozenNodes M.table }
{}

/// Lemma: if a node is in the chain at some moment j, and has a certain link at a later moment k, then at some moment
/// from j to k, the node is in the chain with that link. (O'Hearn and others' hindsight.)
pub fn seen_in_the_past<M: Machine>()
    ensures { SeenInThePast M.table }
{}

/// Lemma: in a list that marks nodes before it unlinks them, every published node (one that has been in the chain)
/// stays in the chain until it is marked. In a list that does not mark nodes, no published node is marked. (Heller and
/// others, for their lazy list.)
pub fn unmarked_nodes_in_chain<M: Machine>()
    ensures { UnmarkedNodesInChain M.table }
{}

/// Lemma: in a list that does not mark nodes, no node has a mark, not even before its first use.
pub fn no_link_is_marked<M: Machine>()
    ensures { NoLinkIsMarked M.table }
{}

/// Lemma: only a step for which the step table names a key changes the keys of the set, and the step changes only the
/// named key. Only an `Add` of the key can add it, and only while its thread is below its quota of adds. Only a
/// `Remove` of the key can remove it. A call changes the set at most once. (Herlihy and Shavit's linearization points
/// of calls that change the set.)
pub fn named_change<M: Machine>()
    ensures { NamedChange M.table }
{}

/// Lemma: the reply of a call that ends is correct. It is `True` if the call has changed the set, and otherwise it is
/// correct for the keys that the set has at some moment of the call. (Herlihy and Wing's linearizability; the moments
/// are those of O'Hearn and others' hindsight.)
pub fn replies_fit<M: Machine>()
    ensures { RepliesFit M.table }
{}

/// Lemma: an `Add` or a `Remove` that ends without having changed the set does not reply `True`. (Herlihy and Shavit's
/// interface.)
pub fn true_means_change<M: Machine>()
    ensures { TrueMeansChange M.table }
{}

/// Lemma: every run has an account. An account states how each event changes the keys of the set, and states that each
/// reply is correct. It mentions no nodes and no locks. (A form of Herlihy and Wing's linearizability.)
pub fn has_account<M: Machine>()
    ensures { HasAccount M.table }
{}

/// Lemma: at each moment of a run, some strictly increasing list has exactly the keys of the set. (Herlihy and Shavit's
/// abstraction map.)
pub fn listed_content<M: Machine>()
    ensures { ListedContent M.table }
{}

/// Lemma: in a list with reads that take no locks (`OpenReads`), each step of a `contains` is a load. A `contains`
/// takes at most `bound` steps, whatever the other threads do. (Herlihy and Shavit's wait-free `contains`.)
pub fn bounded_reads<M: OpenReads>()
    ensures { BoundedReads M.table }
{}

/// Lemma: in a list with reads that take no locks (`OpenReads`), each node that a `contains` or a `ceiling` visits was
/// in the chain at some moment of the call, with the link that the call saw. The node can have left the chain before
/// the call read the link. (O'Hearn and others' hindsight.)
pub fn walk_was_in_chain<M: OpenReads>()
    ensures { WalkWasInChain M.table }
{}
