ghost use Rattle.std.specs.Prelude.{◌≡◌, ◌<◌, ◌^◌, min};
ghost use Rattle.stream_text.specs.LineFaults.{rank, first_of, both as both_of};
ghost use Rattle.stream_text.specs.LineWords.{number_of, least_number, within};

use crate::refusal::LineFault;

// More than every number that a word may write.
const ABOVE: u64 = 1 << 32;

/// The number that one or more digits write; one above 4,294,967,295 is told as 4,294,967,296.
fn number(word: &[u8]) -> Option<u64>
    ensures { result ≡ least_number 4294967296 (number_of word.now) }
{
    if word.is_empty() {
        return None;
    }
    let mut value: u64 = 0;
    for byte in word {
        if !byte.is_ascii_digit() {
            return None;
        }
        value = (value * 10 + u64::from(*byte - b'0')).min(ABOVE);
    }
    Some(value)
}

/// The number of a word, if it is one of these two or between them.
pub(crate) fn number_within(
    word: &[u8],
    least: u32,
    most: u32,
    fault: LineFault,
) -> Result<u32, LineFault>
    ensures { result ≡ within least most fault (number_of word.now) }
{
    let Some(value) = number(word) else {
        return Err(LineFault::Number);
    };
    if value < u64::from(least) || value > u64::from(most) {
        return Err(fault);
    }
    Ok(value as u32)
}

// The place of a fault in the order in which a line is judged.
fn rank_of(fault: LineFault) -> u8
    ensures { result ≡ rank fault }
{
    match fault {
        LineFault::TooLong => 0,
        LineFault::Word => 1,
        LineFault::Number => 2,
        LineFault::Stream => 3,
        LineFault::Range => 4,
        LineFault::BlockLength => 5,
        LineFault::TooMany => 6,
    }
}

/// Of two faults of a line the one that is judged first.
pub(crate) fn first_fault(one: LineFault, other: LineFault) -> LineFault
    ensures { result ≡ first_of one other }
{
    if rank_of(one) <= rank_of(other) {
        one
    } else {
        other
    }
}

/// Two values, or that fault of theirs which is judged first.
pub(crate) fn both<A: Drop, B: Drop>(
    one: Result<A, LineFault>,
    other: Result<B, LineFault>,
) -> Result<(A, B), LineFault>
    ensures { result ≡ both_of one other }
{
    match (one, other) {
        (Ok(one), Ok(other)) => Ok((one, other)),
        (Ok(_), Err(fault)) | (Err(fault), Ok(_)) => Err(fault),
        (Err(one), Err(other)) => Err(first_fault(one, other)),
    }
}
