//! The changes of a key that have started. A change is an `add` or `remove` that either returned true or is still
//! pending.

ghost use Rattle.std.specs.Prelude.{◌≡◌, ◌==◌, ◌≤◌, ◌∷◌, [], suc, length, max, true, false, IsTrue, MatchOption, OnOk};
ghost use Rattle.lset_judge.specs.Code.{puts_in, takes_in, is_many, AreSame};
ghost use Rattle.lset_judge.specs.Rule.{nearest, not_before, put_in};

use crate::ends::Ends;
use crate::overlaps::Changes;
use crate::stream::BEHIND_ALL;
use lset_words::Presence;
use std::alloc::{AllocError, Global};

/// The pending changes of a key that have not taken effect: a heap of the moments when the `add`s end, a heap of the
/// moments when the `remove`s end, and the number of pending changes.
#[derive(Drop)]
pub(crate) struct ManyChanges {
    puts: Ends,
    takes: Ends,
    counts: Changes,
}

/// The pending changes of a key that have not taken effect.
///
/// Heaps, and an allocation for them, are necessary only if the key's changes overlap, if its `add`s and `remove`s do
/// not alternate, or if a change never ends.
#[derive(Drop)]
pub(crate) enum Held {
    /// Every pending change has taken effect.
    Nothing,
    /// Only one pending change has not taken effect: an `add` that ends at `puts_until`.
    Put,
    /// Only one pending change has not taken effect: a `remove` that ends at `takes_until`.
    Take,
    /// Any number of pending changes have not taken effect. The moments when they end are in heaps.
    Many(Box<ManyChanges>),
}

/// The changes of a key that have started: the last moments when an `add` and a `remove` end, and the moment when each
/// change that has not taken effect ends. A change that never ends counts as ending after all moments.
#[derive(Drop)]
pub(crate) struct KeyChanges {
    /// The last moment when a started `add` of the key ends. Only `add`s that returned true or are pending count. 0 if
    /// the key has no such `add`.
    pub(crate) puts_until: u64,
    /// The last moment when a started `remove` of the key ends. Only `remove`s that returned true or are pending count.
    /// 0 if the key has no such `remove`.
    pub(crate) takes_until: u64,
    held: Held,
}

impl KeyChanges {
    /// Returns the `KeyChanges` of a key without changes. Does not allocate.
    pub(crate) fn none() -> KeyChanges
        ensures puts { puts_in result ≡ [] }
        ensures takes { takes_in result ≡ [] }
        ensures puts_until { result.puts_until ≡ 0 }
        ensures takes_until { result.takes_until ≡ 0 }
    {
        KeyChanges {
            puts_until: 0,
            takes_until: 0,
            held: Held::Nothing,
        }
    }

    /// Returns whether all pending `add`s of the key have taken effect.
    pub(crate) fn has_no_put(&self) -> bool
        ensures { result ≡ (length (puts_in self.now) == 0) }
    {
        match &self.held {
            Held::Nothing | Held::Take => true,
            Held::Put => false,
            Held::Many(many) => many.puts.is_empty(),
        }
    }

    /// Returns whether all pending `remove`s of the key have taken effect.
    pub(crate) fn has_no_take(&self) -> bool
        ensures { result ≡ (length (takes_in self.now) == 0) }
    {
        match &self.held {
            Held::Nothing | Held::Put => true,
            Held::Take => false,
            Held::Many(many) => many.takes.is_empty(),
        }
    }

    /// Returns whether all pending `add`s of the key that have not taken effect end after the moment `before` + 1.
    pub(crate) fn no_put_is_due(&self, before: u64) -> bool
        ensures { result ≡ (not_before (suc (suc before)) (puts_in self.now) == length (puts_in self.now)) }
    {
        match &self.held {
            Held::Nothing | Held::Take => true,
            Held::Put => before < self.puts_until.saturating_sub(1),
            Held::Many(many) => many.puts.none_due(before),
        }
    }

    /// Returns whether all pending `remove`s of the key that have not taken effect end after the moment `before` + 1.
    pub(crate) fn no_take_is_due(&self, before: u64) -> bool
        ensures { result ≡ (not_before (suc (suc before)) (takes_in self.now) == length (takes_in self.now)) }
    {
        match &self.held {
            Held::Nothing | Held::Put => true,
            Held::Take => before < self.takes_until.saturating_sub(1),
            Held::Many(many) => many.takes.none_due(before),
        }
    }

    /// Of the pending `add`s that have not taken effect, removes the `add` that ends first. Returns the moment when it
    /// ends, or `None` if there is no such `add`.
    pub(crate) fn pop_put(&mut self) -> Option<u64>
        ensures popped { MatchOption result (puts_in self.old ≡ [])
            (λ end. (puts_in self.old ≡ end ∷ puts_in self.new) × (nearest end (puts_in self.new) ≡ end)) }
        ensures takes { takes_in self.new ≡ takes_in self.old }
        ensures puts_until { self.new.puts_until ≡ self.old.puts_until }
        ensures takes_until { self.new.takes_until ≡ self.old.takes_until }
    {
        match &mut self.held {
            Held::Nothing | Held::Take => None,
            Held::Put => {
                self.held = Held::Nothing;
                Some(self.puts_until)
            }
            Held::Many(many) => many.puts.pop(),
        }
    }

    /// Of the pending `remove`s that have not taken effect, removes the `remove` that ends first. Returns the moment
    /// when it ends, or `None` if there is no such `remove`.
    pub(crate) fn pop_take(&mut self) -> Option<u64>
        ensures popped { MatchOption result (takes_in self.old ≡ [])
            (λ end. (takes_in self.old ≡ end ∷ takes_in self.new) × (nearest end (takes_in self.new) ≡ end)) }
        ensures puts { puts_in self.new ≡ puts_in self.old }
        ensures puts_until { self.new.puts_until ≡ self.old.puts_until }
        ensures takes_until { self.new.takes_until ≡ self.old.takes_until }
    {
        match &mut self.held {
            Held::Nothing | Held::Put => None,
            Held::Take => {
                self.held = Held::Nothing;
                Some(self.takes_until)
            }
            Held::Many(many) => many.takes.pop(),
        }
    }

    /// Returns how many changes are pending after the moment `before` (changes that never end are not counted), and the
    /// moment when the last completed change ended.
    pub(crate) fn counts(&self, before: u64) -> Changes {
        if let Held::Many(many) = &self.held {
            return many.counts;
        }
        // If the key has no heaps, its changes do not overlap. Only the change that ends last can be pending.
        let last = self.puts_until.max(self.takes_until);
        if before < last {
            Changes::one(self.puts_until.min(self.takes_until))
        } else {
            Changes::ended(last)
        }
    }

    /// Records that a change of the key ends at `moment`.
    pub(crate) fn end(&mut self, moment: u64)
        ensures { AreSame self.old self.new }
    {
        if let Held::Many(many) = &mut self.held {
            many.counts.end(moment);
        }
    }

    /// Returns whether a change of the key to the state `to` can be stored without a heap. The change starts at the
    /// moment `before` + 1 and ends at `end`. It needs no heap if it ends at all, each earlier change has ended by
    /// `before`, and the last earlier change, if any, was to the opposite state.
    fn is_alone(&self, to: Presence, before: u64, end: u64) -> bool
        ensures alone { IsTrue result → is_many self.now.held ≡ false }
        ensures puts { IsTrue result → (puts_in self.now ≡ []) × (takes_in self.now ≡ []) }
        ensures until { IsTrue result → (self.now.puts_until ≤ end) × (self.now.takes_until ≤ end) }
    {
        let (own, other) = match to {
            Presence::Present => (self.puts_until, self.takes_until),
            Presence::Absent => (self.takes_until, self.puts_until),
        };
        matches!(self.held, Held::Nothing)
            && own <= other
            && other <= before
            && before < end
            && end < BEHIND_ALL
    }

    /// Moves the moments when the pending changes end from fields into heaps.
    fn spread(&mut self, alloc: Global, before: u64) -> Result<(), AllocError>
        requires { is_many self.old.held ≡ false }
        ensures same { OnOk result (AreSame self.old self.new) }
        ensures many { OnOk result (is_many self.new.held ≡ true) }
    {
        let mut many = Box::new(
            alloc,
            ManyChanges {
                puts: Ends::new(alloc),
                takes: Ends::new(alloc),
                counts: self.counts(before),
            },
        )?;
        match self.held {
            Held::Put => many.puts.push(self.puts_until)?,
            Held::Take => many.takes.push(self.takes_until)?,
            Held::Nothing | Held::Many(_) => {}
        }
        self.held = Held::Many(many);
        Ok(())
    }

    /// Inserts the moment when an `add` ends into the heap of `add`s.
    fn push_put(&mut self, end: u64) -> Result<(), AllocError>
        requires { is_many self.old.held ≡ true }
        ensures puts { OnOk result (puts_in self.new ≡ put_in end (puts_in self.old)) }
        ensures takes { OnOk result (takes_in self.new ≡ takes_in self.old) }
        ensures puts_until { self.new.puts_until ≡ self.old.puts_until }
        ensures takes_until { self.new.takes_until ≡ self.old.takes_until }
        ensures many { OnOk result (is_many self.new.held ≡ true) }
    {
        match &mut self.held {
            Held::Many(many) => {
                many.counts.begin(end);
                many.puts.push(end)
            }
            Held::Nothing | Held::Put | Held::Take => unreachable!(),
        }
    }

    /// Inserts the moment when a `remove` ends into the heap of `remove`s.
    fn push_take(&mut self, end: u64) -> Result<(), AllocError>
        requires { is_many self.old.held ≡ true }
        ensures puts { OnOk result (puts_in self.new ≡ puts_in self.old) }
        ensures takes { OnOk result (takes_in self.new ≡ put_in end (takes_in self.old)) }
        ensures puts_until { self.new.puts_until ≡ self.old.puts_until }
        ensures takes_until { self.new.takes_until ≡ self.old.takes_until }
        ensures many { OnOk result (is_many self.new.held ≡ true) }
    {
        match &mut self.held {
            Held::Many(many) => {
                many.counts.begin(end);
                many.takes.push(end)
            }
            Held::Nothing | Held::Put | Held::Take => unreachable!(),
        }
    }

    /// Raises `puts_until` to `end` if `puts_until` is smaller. If the changes are not in heaps, a pending `add` then
    /// ends at `end` too, because `puts_until` stores the moment when it ends. Must be called only if the changes are
    /// in heaps, or after the judge has found that no order explains the calls.
    pub(crate) fn raise_puts(&mut self, end: u64)
        ensures puts { is_many self.old.held ≡ true → puts_in self.new ≡ puts_in self.old }
        ensures takes { takes_in self.new ≡ takes_in self.old }
        ensures puts_until { self.new.puts_until ≡ max self.old.puts_until end }
        ensures takes_until { self.new.takes_until ≡ self.old.takes_until }
    {
        self.puts_until = self.puts_until.max(end);
    }

    /// Raises `takes_until` to `end` if `takes_until` is smaller. If the changes are not in heaps, a pending `remove`
    /// then ends at `end` too, because `takes_until` stores the moment when it ends. Must be called only if the changes
    /// are in heaps, or after the judge has found that no order explains the calls.
    pub(crate) fn raise_takes(&mut self, end: u64)
        ensures puts { puts_in self.new ≡ puts_in self.old }
        ensures takes { is_many self.old.held ≡ true → takes_in self.new ≡ takes_in self.old }
        ensures puts_until { self.new.puts_until ≡ self.old.puts_until }
        ensures takes_until { self.new.takes_until ≡ max self.old.takes_until end }
    {
        self.takes_until = self.takes_until.max(end);
    }

    /// Records an `add` that starts at the moment `before` + 1 and ends at `end`. If the `add` never ends, `end` is
    /// after all moments.
    pub(crate) fn begin_put(
        &mut self,
        alloc: Global,
        before: u64,
        end: u64,
    ) -> Result<(), AllocError>
        ensures puts { OnOk result (puts_in self.new ≡ put_in end (puts_in self.old)) }
        ensures takes { OnOk result (takes_in self.new ≡ takes_in self.old) }
        ensures puts_until { OnOk result (self.new.puts_until ≡ max self.old.puts_until end) }
        ensures takes_until { OnOk result (self.new.takes_until ≡ self.old.takes_until) }
    {
        if !matches!(self.held, Held::Many(_)) {
            if self.is_alone(Presence::Present, before, end) {
                self.held = Held::Put;
                self.puts_until = end;
                return Ok(());
            }
            self.spread(alloc, before)?;
        }
        self.push_put(end)?;
        self.raise_puts(end);
        Ok(())
    }

    /// Records a `remove` that starts at the moment `before` + 1 and ends at `end`. If the `remove` never ends, `end`
    /// is after all moments.
    pub(crate) fn begin_take(
        &mut self,
        alloc: Global,
        before: u64,
        end: u64,
    ) -> Result<(), AllocError>
        ensures puts { OnOk result (puts_in self.new ≡ puts_in self.old) }
        ensures takes { OnOk result (takes_in self.new ≡ put_in end (takes_in self.old)) }
        ensures puts_until { OnOk result (self.new.puts_until ≡ self.old.puts_until) }
        ensures takes_until { OnOk result (self.new.takes_until ≡ max self.old.takes_until end) }
    {
        if !matches!(self.held, Held::Many(_)) {
            if self.is_alone(Presence::Absent, before, end) {
                self.held = Held::Take;
                self.takes_until = end;
                return Ok(());
            }
            self.spread(alloc, before)?;
        }
        self.push_take(end)?;
        self.raise_takes(end);
        Ok(())
    }
}
