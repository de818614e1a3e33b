ghost use Rattle.std.specs.Prelude.{◌≡◌, ◌^◌, None, [], ◌∷◌, MatchOption};
ghost use Rattle.std.specs.Option.{option_map};
ghost use Rattle.std.specs.Result.{result_ok};
ghost use Rattle.script.specs.Numbers.{below, decimal_after, number, behind, numbered, block_of, inst_of, value_of, immediate_of};

use ir::{Block, Inst, Value};

// By hand, since `parse` takes a `+` in front, which the format has not.

/// The number that a digit writes behind those that write `n`, if it is below 2^64.
fn with_digit(n: u64, byte: u8) -> Option<u64>
    ensures { result ≡ below (2 ^ 64) (decimal_after n (byte ∷ [])) }
{
    let digit = char::from(byte).to_digit(10)?;
    n.checked_mul(10)?.checked_add(u64::from(digit))
}

/// The decimal number that the word writes, if it is below 2^64.
fn read_decimal(word: &[u8]) -> Option<u64>
    ensures { result ≡ number (2 ^ 64) word.now }
{
    if word.is_empty() {
        return None;
    }
    word.iter().try_fold(0, |n, byte| with_digit(n, *byte))
}

/// The decimal number that the word writes, if it fits its type.
pub(crate) fn read_number<T: TryFrom<u64>>(word: &[u8]) -> Option<T>
where
    T::Error: Drop,
    ensures { MatchOption (number (2 ^ 64) word.now) (result ≡ None) (λ n. (r : _) × T.try_from_gives n r × (result ≡ result_ok r)) }
{
    let n = read_decimal(word)?;
    T::try_from(n).ok()
}

/// What stands behind the prefix.
pub(crate) fn strip<'a>(word: &'a [u8], prefix: &str) -> Option<&'a [u8]>
    ensures { option_map (λ x. x.now) result ≡ behind prefix.now word.now }
{
    word.strip_prefix(prefix.as_bytes())
}

/// The number behind the prefix.
fn read_entity(word: &[u8], prefix: &str) -> Option<u32>
    ensures { result ≡ numbered prefix.now word.now }
{
    read_number(strip(word, prefix)?)
}

/// The block that the word names.
pub(crate) fn read_block(word: &[u8]) -> Option<Block>
    ensures { result ≡ block_of word.now }
{
    read_entity(word, "block").map(Block)
}

/// The instruction that the word names.
pub(crate) fn read_inst(word: &[u8]) -> Option<Inst>
    ensures { result ≡ inst_of word.now }
{
    read_entity(word, "inst").map(Inst)
}

/// The value that the word names.
pub fn read_value(word: &[u8]) -> Option<Value>
    ensures { result ≡ value_of word.now }
{
    read_entity(word, "v").map(Value)
}

/// The immediate that the word writes.
pub(crate) fn read_immediate(word: &[u8]) -> Option<i64>
    ensures { result ≡ immediate_of word.now }
{
    match strip(word, "-") {
        None => read_number(word),
        Some(digits) => 0i64.checked_sub_unsigned(read_decimal(digits)?),
    }
}
