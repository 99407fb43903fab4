ghost use Rattle.std.specs.Prelude.{◌≡◌, ◌≤◌, IfSome};
ghost use Rattle.lset_text.specs.Numbers.{number_in, NumbersReadBack};

/// Returns the number from `low` to `high` that the field `piece` spells in decimal digits, without leading zeros.
/// Returns `None` if the field spells no such number. Stops reading when the value exceeds `high`.
#[tactic(auto, unfolding(crate::specs::Numbers::number_in))]
pub fn number(piece: &[u8], low: u32, high: u32) -> Option<u32>
    ensures { result ≡ number_in low high piece.now }
{
    if piece.is_empty() || (piece.len() > 1 && piece[0] == b'0') {
        return None;
    }
    let mut value: u64 = 0;
    for b in piece {
        if !b.is_ascii_digit() {
            return None;
        }
        value = value * 10 + u64::from(*b - b'0');
        if value > u64::from(high) {
            return None;
        }
    }
    if value < u64::from(low) {
        return None;
    }
    Some(value as u32)
}

/// Returns the number from `low` to `high` that the field `piece` spells in decimal digits, without leading zeros.
/// Returns `None` if the field spells no such number. Unlike `number`, accepts ranges beyond 32 bits, but performs an
/// additional test for each digit.
#[tactic(auto, unfolding(crate::specs::Numbers::number_in))]
pub fn long_number(piece: &[u8], low: u64, high: u64) -> Option<u64>
    ensures value { result ≡ number_in low high piece.now }
    ensures within { IfSome result (λ n. n ≤ high) }
{
    if piece.is_empty() || (piece.len() > 1 && piece[0] == b'0') {
        return None;
    }
    let last = high / 10;
    let mut value: u64 = 0;
    for b in piece {
        if !b.is_ascii_digit() {
            return None;
        }
        if value > last {
            return None;
        }
        let digit = u64::from(*b - b'0');
        if digit > high - value * 10 {
            return None;
        }
        value = value * 10 + digit;
    }
    if value < low {
        return None;
    }
    Some(value)
}

/// Lemma: a field is read as a number if and only if the field is the number's decimal numeral.
pub fn numbers_read_back()
    ensures { NumbersReadBack }
{}
