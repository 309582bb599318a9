ghost use Rattle.std.specs.Prelude.{◌≡◌, ◌+◌, ◌*◌, ◌%◌, ◌^◌, ◌<◌, ◌≤◌, ◌++◌, ◌∷◌, [], length};
ghost use Rattle.cast_seal.specs.Poly1305.{block_count, multiplier, number_of, prime, sum_number};
ghost use Rattle.cast_seal.specs.Words.{IsAfter, factor_of, value_of};

use byteorder::{ByteOrder, LittleEndian};

// How many bytes a block has.
const BLOCK: usize = 16;

// What a word of 64 bits does not reach.
const WORD: u128 = 0x1_0000_0000_0000_0000;

// The number of a message so far, in words of 64 bits.
#[derive(Clone, Copy)]
struct Number {
    low: u64,
    middle: u64,
    high: u64,
}

// What is multiplied by: its first word, and a quarter of its second.
#[derive(Clone, Copy)]
struct Multiplier {
    low: u64,
    quarter: u64,
}

// The sum of a number and a block, with so many ones above the block.
fn add(number: Number, block: u128, above: u64) -> Number
    requires high { number.high ≤ 4 }
    requires above { above ≤ 1 }
    ensures value { value_of result ≡ value_of number + block + above * 2 ^ 128 }
    ensures high { result.high ≤ 6 }
{
    let first = number.low as u128 + block % WORD;
    let second = number.middle as u128 + block / WORD + first / WORD;
    Number {
        low: (first % WORD) as u64,
        middle: (second % WORD) as u64,
        high: number.high + (second / WORD) as u64 + above,
    }
}

// The product but for a multiple of the prime.
fn multiply(number: Number, by: Multiplier) -> Number
    requires high { number.high ≤ 6 }
    requires low { by.low < 2 ^ 60 }
    requires quarter { by.quarter < 2 ^ 58 }
    ensures value { value_of result % prime
        ≡ (value_of number * factor_of by) % prime }
    ensures high { result.high < 2 ^ 63 + 2 ^ 62 }
{
    let five = (5 * by.quarter) as u128;
    let low = by.low as u128;
    let first = number.low as u128 * low + number.middle as u128 * five;
    let second = number.low as u128 * (4 * by.quarter) as u128
        + number.middle as u128 * low
        + number.high as u128 * five
        + first / WORD;
    Number {
        low: (first % WORD) as u64,
        middle: (second % WORD) as u64,
        high: number.high * by.low + (second / WORD) as u64,
    }
}

// The same number but for a multiple of the prime, with little above the two words.
fn fold(number: Number) -> Number
    requires { number.high < 2 ^ 63 + 2 ^ 62 }
    ensures value { value_of result % prime ≡ value_of number % prime }
    ensures high { result.high ≤ 4 }
{
    let first = number.low as u128 + (number.high / 4 * 5) as u128;
    let second = number.middle as u128 + first / WORD;
    Number {
        low: (first % WORD) as u64,
        middle: (second % WORD) as u64,
        high: number.high % 4 + (second / WORD) as u64,
    }
}

// What comes of a number at a block.
fn take_in(number: Number, by: Multiplier, block: u128, above: u64) -> Number
    requires high { number.high ≤ 4 }
    requires above { above ≤ 1 }
    requires low { by.low < 2 ^ 60 }
    requires quarter { by.quarter < 2 ^ 58 }
    ensures value { value_of result % prime
        ≡ ((value_of number + block + above * 2 ^ 128) * factor_of by)
        % prime }
    ensures high { result.high ≤ 4 }
{
    fold(multiply(add(number, block, above), by))
}

// The sum, once all blocks were taken in.
fn end(number: Number, added: u128) -> u128
    requires { number.high ≤ 4 }
    ensures { result ≡ (value_of number % prime + added) % 2 ^ 128 }
{
    let low = number.low as u128 + number.middle as u128 * WORD;
    let (more, is_over) = low.overflowing_add(5);
    let rest = if number.high + is_over as u64 >= 4 {
        more
    } else {
        low
    };
    rest.wrapping_add(added)
}

// The block at a place of a message that has it whole.
fn take_block(number: Number, by: Multiplier, message: &[u8], place: usize) -> Number
    requires whole { 16 * place + 16 ≤ length message.now }
    requires low { by.low < 2 ^ 60 }
    requires quarter { by.quarter < 2 ^ 58 }
    requires before { IsAfter by message.now place number }
    ensures { IsAfter by message.now (place + 1) result }
{
    take_in(
        number,
        by,
        LittleEndian::read_u128(&message[BLOCK * place..]),
        1,
    )
}

// The number of fewer bytes than a block has, with a one behind them.
fn cut_number(rest: &[u8]) -> u128
    requires { length rest.now < 16 }
    ensures { result ≡ number_of (rest.now ++ 1 ∷ []) }
{
    let mut number = 1;
    let mut place = rest.len();
    while place > 0 {
        place -= 1;
        number = number * 256 + rest[place] as u128;
    }
    number
}

// The last block, which has fewer bytes than the others.
fn take_last(number: Number, by: Multiplier, message: &[u8], place: usize) -> Number
    requires some { 16 * place < length message.now }
    requires cut { length message.now < 16 * place + 16 }
    requires low { by.low < 2 ^ 60 }
    requires quarter { by.quarter < 2 ^ 58 }
    requires before { IsAfter by message.now place number }
    ensures { IsAfter by message.now (place + 1) result }
{
    take_in(number, by, cut_number(&message[BLOCK * place..]), 0)
}

// What is multiplied by, under a key.
fn multiplier_of(key: &[u8; 32]) -> Multiplier
    ensures factor { factor_of result ≡ multiplier key.now }
    ensures low { result.low < 2 ^ 60 }
    ensures quarter { result.quarter < 2 ^ 58 }
{
    Multiplier {
        low: LittleEndian::read_u64(key) & 0x0FFF_FFFC_0FFF_FFFF,
        quarter: (LittleEndian::read_u64(&key[8..]) / 4) & 0x03FF_FFFF_03FF_FFFF,
    }
}

// The number of a message, all of it.
fn take_all(by: Multiplier, message: &[u8]) -> Number
    requires low { by.low < 2 ^ 60 }
    requires quarter { by.quarter < 2 ^ 58 }
    ensures { IsAfter by message.now (block_count message.now) result }
{
    let whole = message.len() / BLOCK;
    let mut number = Number {
        low: 0,
        middle: 0,
        high: 0,
    };
    for place in 0..whole {
        number = take_block(number, by, message, place);
    }
    if BLOCK * whole == message.len() {
        return number;
    }
    take_last(number, by, message, whole)
}

/// The sum of a message under a key that is used for no other: Poly1305 (RFC 8439).
pub fn one_time_sum(key: &[u8; 32], message: &[u8]) -> u128
    ensures { result ≡ sum_number key.now message.now }
{
    let number = take_all(multiplier_of(key), message);
    end(number, LittleEndian::read_u128(&key[16..]))
}
