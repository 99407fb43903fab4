ghost use Rattle.std.specs.Prelude.{◌≡◌, length};
ghost use Rattle.tool_base.specs.Tools.{view};
ghost use Rattle.ffi_page.specs.Page.{Handed, IsHanded};

use tool_base::{Answer, Trouble, line_of};

/// Copies `text` to the start of the buffer `room` if the text fits. Returns the length of the text.
fn put(text: &[u8], room: &mut [u8]) -> usize
    ensures count { result ≡ length text.now }
    ensures handed { Handed text.now room.old room.new }
{
    let count = text.len();
    if count <= room.len() {
        room[..count].copy_from_slice(text);
    }
    count
}

/// Copies the result of a command into the caller's buffer `room`: the text of an answer, or the error message. Sets
/// `status` to the exit status. Returns the length of the text.
pub fn hand(made: Result<Answer, Trouble>, room: &mut [u8], status: &mut u8) -> usize
    ensures { IsHanded (view made) room.old room.new status.new result }
{
    match made {
        Ok(answer) => {
            *status = answer.status;
            put(&answer.text, room)
        }
        Err(trouble) => {
            *status = trouble.status();
            put(line_of(trouble).as_bytes(), room)
        }
    }
}
