//! Facts about a recording that is not linearizable. A recording lists calls of a concurrent set (`add`, `remove`,
//! `contains`), each with its key, thread, begin, end and reply. The facts are the contradictions between calls on a
//! key, the operation that alone is wrong, and the calls that ran at the same time. All facts are computed from the
//! calls; none affects the verdict. The crate `tool_guess` chooses a likely cause from the facts.
#![tactic(auto)]

mod causes;
mod evidence;
mod further;
mod key_recordings;
mod meets;
mod odd;
mod odd_facts;
mod patterns;
mod run_reader;
mod stream_calls;
mod tally;
mod verdicts;

pub use causes::Cause;
pub use evidence::{Evidence, Found, evidence_of, find_all};
pub use further::{Further, Growth, Share, further_of, is_refusal_during};
pub use key_recordings::recording_of_key;
pub use meets::Meets;
pub use odd::is_answer;
pub use odd_facts::Odd;
pub use patterns::Patterns;
pub use run_reader::RunReader;
pub use stream_calls::stream_call;
pub use tally::Tally;
pub use verdicts::verdict_clash;
