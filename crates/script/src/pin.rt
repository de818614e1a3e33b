ghost use Rattle.std.specs.Prelude.{◌≡◌, ◌<◌, length, ◌==◌, IfSome};
ghost use Rattle.std.specs.List.{position};
ghost use Rattle.script.specs.Numbers.{pin_of};

use crate::numbers::{read_immediate, read_value};
use ir::Value;

/// Where the first `=` stands.
fn equals_sign(word: &[u8]) -> Option<usize>
    ensures first { result ≡ position (λ b. b == 61) word.now }
    ensures inside { IfSome result (λ at. at < length word.now) }
{
    word.iter().position(|byte| *byte == b'=')
}

/// A value and the immediate that it is to be shown as: `VALUE=NUMBER`, as `v3=-1`. None where the word is no such pin.
#[tactic(auto, using(std::proofs::lemmas::List::take_rest))]
pub fn read_pin(word: &[u8]) -> Option<(Value, i64)>
    ensures { result ≡ pin_of word.now }
{
    let at = equals_sign(word)?;
    let value = read_value(&word[..at])?;
    let imm = read_immediate(&word[at + 1..])?;
    Some((value, imm))
}
