ghost use Rattle.std.specs.Prelude.{ℕ, ◌≡◌, ◌<◌, ◌≤◌, ◌+◌, ◌==◌, ◌++◌, ◌∷◌, [], List, Result, IfOk, IfSome, MatchOption, length, take, replicate, min};
ghost use Rattle.std.specs.Bool.{OnFalse, OnTrue};
ghost use Rattle.std.specs.List.{slice_split};
ghost use Rattle.blk_base.specs.Sectors.{filled_block};
ghost use Rattle.stream_text.specs.declared.refusal.LineFault.{LineFault as Fault};
ghost use Rattle.hex.specs.Hex.{decode_sized};
ghost use Rattle.stream_text.specs.LineWords.{first_byte, run_of_pieces, run_of_part, block_of_bytes, bytes_of_parts, block_of_word};
ghost use Rattle.stream_text.specs.PlainRuns.{BeginsPlainly, BeginsWith, EndsPlainly, IsNoSign};
ghost use Rattle.stream_text.specs.RunParts.{run_said, behind, bytes_of_run, HoldsBytes, IsOfByte};

use crate::cuts::cut_near;
use crate::numbers::{both, number_within};
use crate::refusal::LineFault;
use blk_base::{Block, BoxedBlock};
use std::alloc::{AllocError, Global};

/// So many times the same byte.
#[derive(Clone, Copy, PartialEq, Eq)]
pub struct PlainRun {
    count: u32,
    byte: u8,
}

// The byte that two hexadecimal digits write.
fn digits_byte(digits: &[u8]) -> Option<u8>
    ensures { result ≡ first_byte (decode_sized digits.now 1) }
{
    let mut byte = [0];
    match hex::decode_to_slice(digits, &mut byte) {
        Ok(()) => Some(byte[0]),
        Err(_) => None,
    }
}

// The run of what stands around the asterisk.
fn run_around(count: &[u8], digits: &[u8]) -> Result<PlainRun, LineFault>
    ensures { run_said result ≡ run_of_pieces (count.now ∷ digits.now ∷ []) }
{
    let Some(byte) = digits_byte(digits) else {
        return Err(LineFault::Word);
    };
    let count = number_within(count, 1, 4096, LineFault::Range)?;
    Ok(PlainRun { count, byte })
}

/// The run that a part writes.
fn run(part: &[u8]) -> Result<PlainRun, LineFault>
    ensures { run_said result ≡ run_of_part part.now }
{
    let (count, rest) = cut_near(b'*', part);
    let Some(rest) = rest else {
        return Err(LineFault::Word);
    };
    let (digits, more) = cut_near(b'*', rest);
    match more {
        Some(_) => Err(LineFault::Word),
        None => run_around(count, digits),
    }
}

// Whether a byte parts runs, or the two sides of one.
fn is_sign(byte: u8) -> bool
    ensures no { OnFalse result (IsNoSign byte) }
{
    byte == b'*' || byte == b'+'
}

// Whether an asterisk stands there, behind it two bytes, and then a plus sign or nothing.
fn is_plain_end(word: &[u8], at: usize) -> bool
    requires { at < length word.now }
    ensures { OnTrue result (EndsPlainly word.now at) }
{
    word.len() - at >= 3
        && word[at] == b'*'
        && !is_sign(word[at + 1])
        && !is_sign(word[at + 2])
        && (word.len() - at == 3 || word[at + 3] == b'+')
}

// Where the asterisk of the first run stands, if digits stand before it, and two bytes behind it.
fn asterisk(word: &[u8]) -> Option<usize>
    ensures { IfSome result (BeginsPlainly word.now) }
{
    for (at, byte) in word.iter().enumerate() {
        if !byte.is_ascii_digit() {
            return if is_plain_end(word, at) {
                Some(at)
            } else {
                None
            };
        }
    }
    None
}

// Most runs are plain, and are cut in one pass. A call for each run is dear, so it stands where it is called.
/// The first run of a word, and what stands behind it.
#[inline(always)]
fn next_run(word: &[u8]) -> (Result<PlainRun, LineFault>, Option<&[u8]>)
    ensures parts { MatchOption result.1
        (BeginsWith (run_said result.0) word.now [])
        (λ more. BeginsWith (run_said result.0) word.now
        (slice_split (λ byte. byte == 43) more.now)) }
    ensures shorter { IfSome result.1 (λ more. length more.now < length word.now) }
{
    let Some(at) = asterisk(word) else {
        let (part, more) = cut_near(b'+', word);
        return (run(part), more);
    };
    let plain = run_around(&word[..at], &word[at + 1..at + 3]);
    if word.len() - at == 3 {
        (plain, None)
    } else {
        (plain, Some(&word[at + 4..]))
    }
}

// Adds a run behind the first bytes of a block. More bytes than it has room for are told as 4097.
fn add_run(block: &mut [u8], filled: usize, run: PlainRun) -> usize
    requires length { length block.old ≡ 4096 }
    requires filled { filled ≤ 4097 }
    ensures length { length block.new ≡ 4096 }
    ensures filled { result ≡ min (filled + run.count) 4097 }
    ensures bytes { filled + run.count ≤ 4096
        → take (filled + run.count) block.new
        ≡ take filled block.old ++ replicate run.count run.byte }
{
    let end = (filled + run.count as usize).min(4097);
    if end <= 4096 {
        block[filled..end].fill(run.byte);
    }
    end
}

// Adds the next run, or notes its fault.
fn with_run(
    block: &mut [u8],
    so_far: Result<usize, LineFault>,
    run: Result<PlainRun, LineFault>,
) -> Result<usize, LineFault>
    requires length { length block.old ≡ 4096 }
    requires filled { IfOk so_far (λ filled. filled ≤ 4097) }
    ensures length { length block.new ≡ 4096 }
    ensures filled { IfOk result (λ filled. filled ≤ 4097) }
    ensures bytes { (before : Result (List ℕ) Fault) → HoldsBytes before so_far block.old
        → HoldsBytes (behind before (bytes_of_run (run_said run))) result block.new }
{
    let (filled, run) = both(so_far, run)?;
    Ok(add_run(block, filled, run))
}

// Fills a block with the runs of a word, behind what it holds. How many bytes they are then is told up to 4097.
fn fill(block: &mut [u8], filled: Result<usize, LineFault>, word: &[u8]) -> Result<usize, LineFault>
    requires length { length block.old ≡ 4096 }
    requires filled { IfOk filled (λ filled. filled ≤ 4097) }
    ensures length { length block.new ≡ 4096 }
    ensures bytes { (before : Result (List ℕ) Fault) → HoldsBytes before filled block.old
        → HoldsBytes
        (behind before (bytes_of_parts (slice_split (λ byte. byte == 43) word.now)))
        result block.new }
{
    let mut so_far = filled;
    let mut rest = word;
    'parts: loop {
        let (run, more) = next_run(rest);
        so_far = with_run(block, so_far, run);
        match more {
            Some(more) => rest = more,
            None => return so_far,
        }
    }
}

// A block of this byte alone.
#[tactic(auto, unfolding(blk_base::specs::Sectors::filled_block))]
fn of_byte(byte: u8) -> Block
    ensures { result ≡ filled_block byte }
{
    Block {
        bytes: [byte; 4096],
    }
}

// A block of the byte of a run, or of zeros where that has a fault.
fn block_for(run: &Result<PlainRun, LineFault>) -> Block
    ensures { IsOfByte run.now result }
{
    let byte = match run {
        Ok(run) => run.byte,
        Err(_) => 0,
    };
    of_byte(byte)
}

// How many bytes the first run is, told up to 4097. In a block of its byte it stands already.
fn held(run: Result<PlainRun, LineFault>) -> Result<usize, LineFault>
    ensures filled { IfOk result (λ filled. filled ≤ 4097) }
    ensures bytes { (block : List ℕ) → IsOfByte run block
        → HoldsBytes (bytes_of_run (run_said run)) result block }
{
    match run {
        Ok(plain) => Ok((plain.count as usize).min(4097)),
        Err(fault) => Err(fault),
    }
}

// Fills a block of the byte of the first run with the runs of a word: only those behind the first are written.
fn fill_all(
    block: &mut Block,
    first: Result<PlainRun, LineFault>,
    more: Option<&[u8]>,
) -> Result<usize, LineFault>
    requires { IsOfByte first block.old }
    ensures length { length block.new ≡ 4096 }
    ensures bytes { MatchOption more.entry
        (HoldsBytes (bytes_of_run (run_said first)) result block.new)
        (λ more. HoldsBytes
        (behind (bytes_of_run (run_said first))
        (bytes_of_parts (slice_split (λ byte. byte == 43) more.now)))
        result block.new) }
{
    let first = held(first);
    match more {
        Some(more) => fill(&mut block.bytes, first, more),
        None => first,
    }
}

// The block, if it is filled as a whole.
fn whole(block: Box<Block>, filled: Result<usize, LineFault>) -> Result<BoxedBlock, LineFault>
    requires { length block.value ≡ 4096 }
    ensures { (bytes : Result (List ℕ) Fault) → HoldsBytes bytes filled block.value
        → result ≡ block_of_bytes bytes }
{
    if filled? != 4096 {
        return Err(LineFault::BlockLength);
    }
    Ok(BoxedBlock::of_box(block))
}

// The block is made of the byte of its first run, which isn't written again then.
/// The block whose bytes a word writes as runs. It fails where memory runs out.
pub(crate) fn block_of(
    alloc: Global,
    word: &[u8],
) -> Result<Result<BoxedBlock, LineFault>, AllocError>
    ensures { IfOk result (λ block. block ≡ block_of_word word.now) }
{
    let (first, more) = next_run(word);
    let mut block = Box::new(alloc, block_for(&first))?;
    let filled = fill_all(&mut block, first, more);
    Ok(whole(block, filled))
}
