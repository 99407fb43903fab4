ghost use Rattle.std.specs.Prelude.{◌≡◌, Some};
ghost use Rattle.std.specs.Str.{bytes_eq};
ghost use Rattle.lset_text.specs.Spellings.{
  kind_text,
  kind_of,
  call_text,
  call_word_in,
  with_key,
  reply_text,
  plain_in,
  reply_of,
  reply_in,
  at_number,
  is_reply_in,
  KindsReadBack,
  CallsReadBack,
  RepliesReadBack,
};

use crate::numbers::number;
use lset_words::{Call, Key, Kind, Reply};
use std::fmt;

/// The version of a file format. Only version 2 has opening keys (keys that the set contains at the start), the call
/// `ceiling` (which returns the smallest key not less than its argument), and the replies of `ceiling`.
#[derive(Clone, Copy, Debug, PartialEq, Eq)]
pub enum Version {
    One,
    Two,
}

/// The name of a call in a file, such as `add`, without the call's key.
#[derive(Clone, Copy)]
pub enum CallWord {
    Add,
    Remove,
    Contains,
    Ceiling,
}

impl CallWord {
    /// Returns the call with the name `self` and the key `key`.
    pub fn with_key(self, key: Key) -> Call
        ensures { result ≡ with_key self key }
    {
        match self {
            CallWord::Add => Call::Add(key),
            CallWord::Remove => Call::Remove(key),
            CallWord::Contains => Call::Contains(key),
            CallWord::Ceiling => Call::Ceiling(key),
        }
    }
}

/// Returns the name that files use for a kind of list, such as `lock-free`.
pub fn kind_word(kind: Kind) -> &'static str
    ensures { result.now ≡ kind_text kind }
{
    match kind {
        Kind::Coarse => "coarse",
        Kind::Fine => "fine",
        Kind::Optimistic => "optimistic",
        Kind::Lazy => "lazy",
        Kind::LockFree => "lock-free",
    }
}

/// Returns whether the field `piece` is the name that files use for the given kind of list.
fn is_word_of(piece: &[u8], kind: Kind) -> bool
    ensures { result ≡ bytes_eq piece.now (kind_text kind) }
{
    piece == kind_word(kind).as_bytes()
}

/// Returns the kind of list that a field names, or `None` if the field names no kind.
#[tactic(auto, unfolding(crate::specs::Spellings::kind_of))]
pub fn read_kind(piece: &[u8]) -> Option<Kind>
    ensures { result ≡ kind_of piece.now }
{
    match piece {
        _ if is_word_of(piece, Kind::Coarse) => Some(Kind::Coarse),
        _ if is_word_of(piece, Kind::Fine) => Some(Kind::Fine),
        _ if is_word_of(piece, Kind::Optimistic) => Some(Kind::Optimistic),
        _ if is_word_of(piece, Kind::Lazy) => Some(Kind::Lazy),
        _ if is_word_of(piece, Kind::LockFree) => Some(Kind::LockFree),
        _ => None,
    }
}

/// Returns the name that files use for a call, such as `add`.
pub fn call_word(call: Call) -> &'static str
    ensures { result.now ≡ call_text call }
{
    match call {
        Call::Add(_) => "add",
        Call::Remove(_) => "remove",
        Call::Contains(_) => "contains",
        Call::Ceiling(_) => "ceiling",
    }
}

/// Returns the call name that a field spells in the given version of a file format, or `None` if the field spells no
/// call name.
#[tactic(auto, unfolding(crate::specs::Spellings::call_word_of))]
pub fn read_call(version: Version, piece: &[u8]) -> Option<CallWord>
    ensures { result ≡ call_word_in version piece.now }
{
    match (version, piece) {
        (_, b"add") => Some(CallWord::Add),
        (_, b"remove") => Some(CallWord::Remove),
        (_, b"contains") => Some(CallWord::Contains),
        (Version::Two, b"ceiling") => Some(CallWord::Ceiling),
        _ => None,
    }
}

/// A reply that is displayed in the spelling of files, such as `true` or `at-5`.
#[derive(Clone, Copy)]
pub struct ReplyWord(pub Reply);

impl fmt::Display for ReplyWord {
    ghost output = { λ w. Some (reply_text w.0) };

    fn fmt<W: fmt::Write>(&self, f: &mut fmt::Formatter<W>) -> fmt::Result {
        match self.0 {
            Reply::True => write!(f, "true"),
            Reply::False => write!(f, "false"),
            Reply::Full => write!(f, "full"),
            Reply::At(key) => {
                let key = key.0;
                write!(f, "at-{key}")
            }
            Reply::Nothing => write!(f, "nothing"),
        }
    }
}

/// Wraps a reply, so that it is displayed in the spelling of files.
pub fn reply_word(reply: Reply) -> ReplyWord
    ensures { result ≡ record { 0 = reply } }
{
    ReplyWord(reply)
}

/// Returns the reply that a field spells in the given version, if the reply contains no number. (Only `at-K` contains a
/// number.) Returns `None` for any other field.
#[tactic(auto, unfolding(crate::specs::Spellings::reply_of))]
fn read_plain_reply(version: Version, piece: &[u8]) -> Option<Reply>
    ensures { result ≡ reply_of (plain_in version) piece.now }
{
    match (version, piece) {
        (_, b"true") => Some(Reply::True),
        (_, b"false") => Some(Reply::False),
        (_, b"full") => Some(Reply::Full),
        (Version::Two, b"nothing") => Some(Reply::Nothing),
        _ => None,
    }
}

/// Returns the reply `At(K)` if the field is `at-K` for a key K. Returns `None` for any other field.
fn read_at(piece: &[u8]) -> Option<Reply>
    ensures { result ≡ at_number piece.now }
{
    let key = piece.strip_prefix(b"at-")?;
    Some(Reply::At(Key(number(key, 0, u32::MAX)?)))
}

/// Returns the reply that a field spells in the given version of a file format, or `None` if the field spells no reply.
pub fn read_reply(version: Version, piece: &[u8]) -> Option<Reply>
    ensures { result ≡ reply_in version piece.now }
{
    match (version, read_plain_reply(version, piece)) {
        (_, Some(reply)) => Some(reply),
        (Version::One, None) => None,
        (Version::Two, None) => read_at(piece),
    }
}

/// Returns whether a field is a reply of the given version or, in version 2, begins with `at-`, even if no key follows.
pub fn is_reply(version: Version, piece: &[u8]) -> bool
    ensures { result ≡ is_reply_in version piece.now }
{
    let plain = read_plain_reply(version, piece).is_some();
    match version {
        Version::One => plain,
        Version::Two => plain || piece.starts_with(b"at-"),
    }
}

/// Lemma: reading inverts writing for the names of list kinds and calls, and for replies. Each name or reply is read
/// from its own text and from no other text.
pub fn words_read_back()
    ensures kinds { KindsReadBack }
    ensures calls { CallsReadBack }
    ensures replies { RepliesReadBack }
{}
