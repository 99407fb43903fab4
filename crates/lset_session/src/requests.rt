//! Parses the request in a line that a client sent.
ghost use Rattle.std.specs.Prelude.{◌≡◌};
ghost use Rattle.lset_session.specs.SessionText.{request_of};

use lset_text::{cut, number};
use lset_words::{Call, Key};

/// A request of a client: one line of a session.
#[derive(Clone, Copy, Debug, PartialEq, Eq)]
pub enum Request {
    /// `ADD k`, `REMOVE k`, `CONTAINS k` or `CEILING k`.
    Call(Call),
    /// `QUIT`, which ends the session.
    Quit,
    /// Any line that is not a valid request. The answer is `BAD`.
    Bad,
}

/// Parses the request in a line, passed without its newline: `ADD`, `REMOVE`, `CONTAINS` or `CEILING`, one space, and a
/// key from 0 to 4,294,967,295 in decimal without leading zeros; or `QUIT`. Any other line is `Bad`.
#[tactic(auto, unfolding(crate::specs::SessionText::request_of))]
pub fn read_request(line: &[u8]) -> Request
    ensures { result ≡ request_of line.now }
{
    let Some((word, key)) = cut(line, b' ') else {
        return match line {
            b"QUIT" => Request::Quit,
            _ => Request::Bad,
        };
    };
    if let Some((_, _more)) = cut(key, b' ') {
        return Request::Bad;
    }
    let Some(key) = number(key, 0, u32::MAX) else {
        return Request::Bad;
    };
    let key = Key(key);
    match word {
        b"ADD" => Request::Call(Call::Add(key)),
        b"REMOVE" => Request::Call(Call::Remove(key)),
        b"CONTAINS" => Request::Call(Call::Contains(key)),
        b"CEILING" => Request::Call(Call::Ceiling(key)),
        _ => Request::Bad,
    }
}
