ghost use Rattle.std.specs.Prelude.{◌≡◌, ◌++◌, OnOk, string_bytes};
ghost use Rattle.lset_text.specs.Parts.{ended, text_of};
ghost use Rattle.lset_text.specs.Openings.{is_above, opening_line, opening_lines};

use std::alloc::AllocError;

/// Returns whether `key` is above the last key in `keys`. Returns true if `keys` is empty. If `keys` increase strictly
/// and the result is true, `keys` still increase strictly after `key` is appended.
pub fn is_above(keys: &[u32], key: u32) -> bool
    ensures { result ≡ is_above keys.now key }
{
    match keys.last() {
        Some(last) => *last < key,
        None => true,
    }
}

fn put_opening(out: &mut String, key: u32) -> Result<(), AllocError>
    ensures { OnOk result (string_bytes out.new ≡ string_bytes out.old ++ ended (opening_line key)) }
{
    writeln!(out, "opening {key}")?;
    Ok(())
}

/// Appends a line `opening K` to `out` for each key K in `keys`. Returns `AllocError` if an allocation fails; `out` can
/// then end with some of the lines.
pub fn put_openings(out: &mut String, keys: &[u32]) -> Result<(), AllocError>
    ensures { OnOk result (string_bytes out.new ≡ string_bytes out.old ++ text_of (opening_lines keys.now)) }
{
    for key in keys {
        put_opening(out, *key)?;
    }
    Ok(())
}
