//! The texts of the examples. `tests/examples.py` checks that the texts equal the files in `examples/`.

pub(crate) const FAILED_TRIES: &str = "\
listset-schedule 1
list coarse
threads 2
quota 4
begin 0 add 5
begin 1 add 5
go 0 1
go 1 3
go 0 6
go 1 4
";

pub const FULL: &str = "\
listset-schedule 1
list coarse
threads 1
quota 1
begin 0 add 5
go 0 7
begin 0 remove 5
go 0 6
begin 0 add 7
go 0 4
";

pub(crate) const HAND_OVER_HAND: &str = "\
listset-schedule 1
list fine
threads 2
quota 4
begin 1 add 9
go 1 9
begin 0 add 5
begin 1 remove 9
go 0 4
go 1 2
go 0 5
go 1 12
";

pub(crate) const SAME_GAP: &str = "\
listset-schedule 1
list optimistic
threads 2
quota 4
begin 0 add 5
begin 1 add 7
go 0 2
go 1 2
go 1 8
go 0 15
";

pub(crate) const STALE_PRED: &str = "\
listset-schedule 1
list optimistic
threads 2
quota 4
begin 1 add 3
go 1 10
begin 0 add 5
go 0 4
begin 1 remove 3
go 1 9
go 0 16
";

pub(crate) const MARKED_IN_CHAIN: &str = "\
listset-schedule 1
list lazy
threads 2
quota 4
begin 1 add 5
go 1 11
begin 1 remove 5
go 1 7
begin 0 contains 5
go 0 3
go 1 3
";

pub(crate) const MARKED_PRED: &str = "\
listset-schedule 1
list lazy
threads 2
quota 4
begin 1 add 3
go 1 11
begin 0 add 5
go 0 4
begin 1 remove 3
go 1 10
go 0 16
";

pub(crate) const READ_IN_ANOTHERS_STEP: &str = "\
listset-schedule 1
list lazy
threads 2
quota 4
begin 1 add 5
go 1 11
begin 0 contains 5
go 0 2
begin 1 remove 5
go 1 10
begin 1 add 5
go 1 11
go 0 1
";

pub(crate) const CEILING_IN_ANOTHERS_STEP: &str = "\
listset-schedule 2
list lazy
threads 2
quota 2
opening 5
begin 0 ceiling 6
go 0 2
begin 1 add 9
go 1 13
begin 1 remove 5
go 1 10
begin 1 add 7
go 1 11
go 0 3
";

pub(crate) const OPENS_WITH_KEYS: &str = "\
listset-schedule 2
list lazy
threads 1
quota 1
opening 5
opening 9
begin 0 remove 5
go 0 10
begin 0 ceiling 0
go 0 3
begin 0 add 7
go 0 11
begin 0 add 8
go 0 10
";

pub(crate) const TWO_REMOVERS: &str = "\
listset-schedule 1
list lock-free
threads 2
quota 4
begin 0 add 5
go 0 6
begin 0 remove 5
begin 1 remove 5
go 0 4
go 1 4
go 1 2
go 0 4
";

pub(crate) const SNIP: &str = "\
listset-schedule 1
list lock-free
threads 2
quota 4
begin 0 add 5
go 0 6
begin 0 remove 5
go 0 5
begin 1 add 7
go 1 8
go 0 1
";

pub(crate) const TRIES_AGAIN: &str = "\
listset-schedule 1
list lock-free
threads 2
quota 4
begin 0 add 5
begin 1 add 7
go 0 5
go 1 6
go 0 7
";

pub(crate) const LEFT_IN_CHAIN: &str = "\
listset-schedule 1
list lock-free
threads 2
quota 4
begin 0 add 5
go 0 6
begin 0 add 3
go 0 5
begin 1 remove 5
go 1 5
go 0 1
go 1 1
begin 0 contains 5
go 0 5
";

pub(crate) const CEILING_MEETS_MARK: &str = "\
listset-schedule 2
list lock-free
threads 2
quota 4
begin 1 add 5
go 1 6
begin 0 ceiling 3
go 0 2
begin 1 remove 5
go 1 6
go 0 3
";

pub(crate) const CEILING_LEFT_IN_CHAIN: &str = "\
listset-schedule 2
list lock-free
threads 2
quota 4
begin 0 add 5
go 0 6
begin 0 add 3
go 0 5
begin 1 remove 5
go 1 5
go 0 1
go 1 1
begin 0 ceiling 4
go 0 5
begin 1 add 7
go 1 10
go 0 5
";

pub(crate) const BEHIND_THE_WALK: &str = "\
listset-schedule 2
list lock-free
threads 2
quota 4
begin 1 add 9
go 1 6
begin 0 ceiling 3
go 0 1
begin 1 add 5
go 1 6
go 0 2
";

pub(crate) const NOTHING_IN_ANOTHERS_STEP: &str = "\
listset-schedule 2
list lock-free
threads 2
quota 1
opening 5
opening 7
begin 0 ceiling 6
go 0 2
begin 1 remove 7
go 1 8
begin 1 remove 5
go 1 6
begin 1 add 7
go 1 6
go 0 2
";

pub(crate) const SAME_GAP_BROKEN: &str = "\
listset-report 1
list optimistic
threads 2
quota 4
call 0 0 add 5 1 22 true
call 1 1 add 7 2 14 true
place 1 true
place 0 true
key 5
end
";

pub(crate) const STALE_PRED_BROKEN: &str = "\
listset-report 1
list optimistic
threads 2
quota 4
call 0 1 add 3 1 11 true
call 1 0 add 5 12 34 true
call 2 1 remove 3 17 26 true
place 0 true
place 2 true
place 1 true
end
";

pub(crate) const TWO_REMOVERS_BROKEN: &str = "\
listset-report 1
list lock-free
threads 2
quota 4
call 0 0 add 5 1 7 true
call 1 0 remove 5 8 21 true
call 2 1 remove 5 9 19 true
place 0 true
place 2 true
place 1 true
end
";

pub(crate) const SNIP_BROKEN: &str = "\
listset-report 1
list lock-free
threads 2
quota 4
call 0 0 add 5 1 7 true
call 1 0 remove 5 8 23 true
call 2 1 add 7 14 22 true
place 0 true
place 1 true
place 2 true
end
";

pub(crate) const LEFT_IN_CHAIN_BROKEN: &str = "\
listset-report 1
list lock-free
threads 2
quota 4
call 0 0 add 5 1 7 true
call 1 0 add 3 8 20 true
call 2 1 remove 5 14 21 true
call 3 0 contains 5 22 27 true
place 0 true
place 2 true
place 1 true
place 3 true
key 3
end
";

pub(crate) const CEILING_LEFT_IN_CHAIN_BROKEN: &str = "\
listset-report 2
list lock-free
threads 2
quota 4
call 0 0 add 5 1 7 true
call 1 0 add 3 8 20 true
call 2 1 remove 5 14 21 true
call 3 0 ceiling 4 22 27 at-5
call 4 1 add 7 28 38 true
place 0 true
place 2 true
place 1 true
place 3 at-5
place 4 true
key 3
key 7
end
";
