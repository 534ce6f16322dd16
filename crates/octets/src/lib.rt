// Numbers of two bytes, the high one first, read from bytes and written to them.
#![tactic(auto)]

ghost use Rattle.std.specs.Prelude.{◌≡◌, ◌+◌, ◌*◌, ◌<◌, ◌≤◌, ◌++◌, length, MatchOption, OnOk};
ghost use Rattle.std.specs.List.{flat_map};
ghost use Rattle.octets.specs.Words.{word_bytes, word_at};

use std::alloc::AllocError;

pub fn word(high: u8, low: u8) -> u16
    ensures { result ≡ 256 * high + low }
{
    u16::from_be_bytes([high, low])
}

// The number in the two bytes from `at` on, if they are there.
pub fn word_at(bytes: &[u8], at: usize) -> Option<u16>
    ensures { MatchOption result (length bytes.now < at + 2) (λ x. (at + 2 ≤ length bytes.now) × (x ≡ word_at bytes.now at)) }
{
    let [high, low, ..] = bytes.get(at..)? else {
        return None;
    };
    Some(word(*high, *low))
}

// The number in the two bytes from `at` on, which are there.
pub fn read_word(bytes: &[u8], at: usize) -> u16
    requires { at + 2 ≤ length bytes.now }
    ensures { result ≡ word_at bytes.now at }
{
    word(bytes[at], bytes[at + 1])
}

pub fn put_word(out: &mut Vec<u8>, x: u16) -> Result<(), AllocError>
    ensures { OnOk result (out.new.items ≡ out.old.items ++ word_bytes x) }
{
    out.extend_from_slice(&x.to_be_bytes())
}

pub fn put_words(out: &mut Vec<u8>, words: &[u16]) -> Result<(), AllocError>
    ensures { OnOk result (out.new.items ≡ out.old.items ++ flat_map word_bytes words.now) }
{
    for word in words {
        put_word(out, *word)?;
    }
    Ok(())
}
