ghost use Rattle.std.specs.Prelude.{◌≡◌, ◌≢◌, ◌≤◌, ◌<◌, ◌+◌, ◌-◌, ◌∷◌, ◌^◌, ◌%◌, ◌==◌, if◌then◌else◌, ℕ, suc, true, List, IfOk, length, reverse, take, drop};
ghost use Rattle.blk_base.specs.Sectors.{sector};
ghost use Rattle.disk_model.specs.Numbers.{state_after};
ghost use Rattle.disk_model.specs.declared.call.Call.{Call};
ghost use Rattle.disk_model.specs.Images.{IsImage};
ghost use Rattle.disk_model.specs.Log.{Blocks, IsWritten};
ghost use Rattle.disk_model.specs.Picks.{IsPicked, choice, content_of, counted_log, pending};
ghost use Rattle.disk_model.specs.PickParts.{AreMarked, AreWritten, IsPickedUpTo, Reached, copied, lasting, recent};

use crate::memory::copy_all;
use crate::{Call, Fuse, next_state, number_in};
use blk_base::Block;
use std::alloc::{AllocError, Global};

// The calls that a stop leaves something of.
pub(crate) fn counted(calls: &[Call], fuse: Fuse) -> &[Call]
    ensures { reverse result.now ≡ counted_log fuse (reverse calls.now) }
{
    match fuse {
        Fuse::Spent(count) if count < calls.len() as u64 => &calls[..count as usize],
        _ => calls,
    }
}

// The content of a block with a number, and how many writes to it are pending. `before` is what it had before the calls.
fn content(calls: &[Call], before: &Block, at: u32, k: u64) -> (Block, u64)
    ensures content { result.0 ≡ content_of before.now (reverse calls.now) at k }
    ensures count { result.1 ≡ pending (reverse calls.now) at }
    ensures size { length result.0 ≡ 4096 }
{
    let mut content = Block::zero();
    content.copy_from(before);
    let mut given = Block::zero();
    given.copy_from(before);
    let mut count = 0;
    for call in calls {
        count = make(call, at, k, count, &mut content, &mut given);
    }
    (content, count)
}

// Makes one call more.
fn make(call: &Call, at: u32, k: u64, count: u64, content: &mut Block, given: &mut Block) -> u64
    requires room { count < 2 ^ 64 - 1 }
    requires size { length content.old ≡ 4096 }
    ensures size { length content.new ≡ 4096 }
    ensures reached { (before : List ℕ) (log : List Call) →
        Reached before log at k content.old given.old count
        → Reached before (call.now ∷ log) at k content.new given.new result }
    ensures few { result ≤ count + 1 }
{
    match call {
        Call::Write {
            at: there,
            bytes,
            ok,
        } if there.0 == at => {
            if count + 1 == k {
                content.copy_from(bytes);
            }
            if *ok {
                given.copy_from(bytes);
            }
            count + 1
        }
        Call::Flush { ok: true } => {
            content.copy_from(given);
            0
        }
        _ => count,
    }
}

// Puts one sector of another block in place.
fn copy_sector(into: &mut Block, from: &Block, i: usize)
    requires { i < 8 }
    ensures size { length into.new ≡ 4096 }
    ensures here { sector i into.new ≡ sector i from.now }
    ensures others { (j : ℕ) → j < 8 → j ≢ i → sector j into.new ≡ sector j into.old }
{
    copy_bytes(&mut into.bytes, &from.bytes, 512 * i);
}

// Puts 512 bytes of another buffer in place.
fn copy_bytes(into: &mut [u8], from: &[u8], start: usize)
    requires into { length into.old ≡ 4096 }
    requires from { length from.now ≡ 4096 }
    requires inside { start + 512 ≤ 4096 }
    ensures { into.new ≡ copied start into.old from.now }
{
    into[start..start + 512].copy_from_slice(&from[start..start + 512]);
}

// The content that a number chooses for a sector of a block with so many writes.
fn choose(number: u64, writes: u64, state: u64) -> u64
    ensures { result ≡ choice number writes state }
{
    match number {
        0 => 0,
        1 => writes,
        _ => remainder(u64::from(number_in(state)), writes),
    }
}

// What is left of a number by one more than another one.
fn remainder(x: u64, writes: u64) -> u64
    ensures { result ≡ x % (writes + 1) }
{
    if x <= writes { x } else { x % (writes + 1) }
}

// How many calls there are up to the last successful flush.
fn count_lasting(calls: &[Call]) -> usize
    ensures lasting { reverse (take result calls.now) ≡ lasting (reverse calls.now) }
    ensures recent { reverse (drop result calls.now) ≡ recent (reverse calls.now) }
    ensures inside { result ≤ length calls.now }
{
    let mut made = 0;
    let mut count = 0;
    for call in calls {
        made += 1;
        count = count_with(call, made, count);
    }
    count
}

// How many of so many calls there are up to the last successful flush. `count` is the number without the last call.
fn count_with(call: &Call, made: usize, count: usize) -> usize
    ensures { (older : List Call) → made ≡ length (call.now ∷ older)
        → count ≡ length (lasting older) → result ≡ length (lasting (call.now ∷ older)) }
{
    match call {
        Call::Flush { ok: true } => made,
        _ => count,
    }
}

// The blocks as the successful writes left them.
fn write_blocks(alloc: Global, calls: &[Call], opening: &[Block]) -> Result<Vec<Block>, AllocError>
    ensures { IfOk result (λ blocks. AreWritten opening.now (reverse calls.now) blocks.items) }
{
    let mut blocks = copy_all(alloc, opening)?;
    for call in calls {
        write(call, &mut blocks);
    }
    Ok(blocks)
}

// Makes one call more.
fn write(call: &Call, blocks: &mut Vec<Block>)
    ensures { (opening : Blocks) (log : List Call) → AreWritten opening log blocks.old.items
        → AreWritten opening (call.now ∷ log) blocks.new.items }
{
    if let Call::Write {
        at,
        bytes,
        ok: true,
    } = call
        && (at.0 as usize) < blocks.len()
    {
        blocks[at.0 as usize].copy_from(bytes);
    }
}

// Marks for so many blocks: those that one of these calls writes.
// Long to prove: a mark is shown to be set for each call.
fn mark_written(alloc: Global, calls: &[Call], count: usize) -> Result<Vec<bool>, AllocError>
    ensures size { IfOk result (λ marks. length marks.items ≡ count) }
    ensures marked { IfOk result (λ marks. AreMarked (reverse calls.now) marks.items) }
{
    let mut marks = Vec::with_capacity(alloc, count)?;
    for made in 0..count {
        marks.push_reserved(false);
    }
    for call in calls {
        mark(call, &mut marks);
    }
    Ok(marks)
}

// Marks the block that one call more writes.
fn mark(call: &Call, marks: &mut Vec<bool>)
    ensures size { length marks.new.items ≡ length marks.old.items }
    ensures marked { (log : List Call) → AreMarked log marks.old.items
        → AreMarked (call.now ∷ log) marks.new.items }
{
    if let Call::Write { at, .. } = call
        && (at.0 as usize) < marks.len()
    {
        marks[at.0 as usize] = true;
    }
}

// One block of a picked image. `before` is what it had before the calls, and `state` that of the row of numbers.
fn pick_block(calls: &[Call], before: &Block, at: u32, number: u64, state: &mut u64) -> Block
    ensures size { length result ≡ 4096 }
    ensures sectors { (i : ℕ) → i < 8 → sector i result
        ≡ sector i
        (content_of before.now (reverse calls.now) at
        (choice number (pending (reverse calls.now) at) (state_after state.old (suc i)))) }
    ensures state { state.new
        ≡ (if pending (reverse calls.now) at == 0 then state.old else state_after state.old 8) }
{
    let (mut block, writes) = content(calls, before, at, 0);
    if writes > 0 {
        for i in 0..8 {
            *state = next_state(*state);
            let (from, _) = content(calls, before, at, choose(number, writes, *state));
            copy_sector(&mut block, &from, i);
        }
    }
    block
}

// It does nothing: a block has 4,096 bytes.
fn is_whole(block: &Block)
    ensures { length block.now ≡ 4096 }
{
    let _bytes = &block.bytes;
}

// Makes a block of a picked image of what it had before the calls, where one of them may have written it.
fn pick_written(
    calls: &[Call],
    is_marked: bool,
    block: &mut Block,
    at: u32,
    number: u64,
    state: &mut u64,
)
    requires { IsWritten (reverse calls.now) at → is_marked ≡ true }
    ensures size { length block.new ≡ 4096 }
    ensures sectors { (i : ℕ) → i < 8 → sector i block.new
        ≡ sector i
        (content_of block.old (reverse calls.now) at
        (choice number (pending (reverse calls.now) at) (state_after state.old (suc i)))) }
    ensures state { state.new
        ≡ (if pending (reverse calls.now) at == 0 then state.old else state_after state.old 8) }
{
    if is_marked {
        let picked = pick_block(calls, block, at, number, state);
        block.copy_from(&picked);
    } else {
        is_whole(block);
    }
}

// Makes the blocks of a picked image of what they had before the calls.
fn pick_each(calls: &[Call], marks: &[bool], number: u64, image: &mut Vec<Block>)
    requires few { length image.old.items < 2 ^ 32 }
    requires size { length marks.now ≡ length image.old.items }
    requires marked { AreMarked (reverse calls.now) marks.now }
    ensures { (state : ℕ) × IsPickedUpTo image.old.items (reverse calls.now) number
        (length image.old.items) image.new.items state }
{
    let mut state = number;
    for b in 0..image.len() {
        pick_written(calls, marks[b], &mut image[b], b as u32, number, &mut state);
    }
}

// The blocks of the image that a number picks. The calls are gone through twice, and those behind the last successful flush
// nine times more for each block that they write: once for how many writes there are, and once for each sector.
pub(crate) fn pick_blocks(
    alloc: Global,
    calls: &[Call],
    opening: &[Block],
    number: u64,
) -> Result<Vec<Block>, AllocError>
    requires { length opening.now < 2 ^ 32 }
    ensures { IfOk result (λ image. IsPicked opening.now (reverse calls.now) number image.items) }
{
    let count = count_lasting(calls);
    let recent = &calls[count..];
    let marks = mark_written(alloc, recent, opening.len())?;
    let mut image = write_blocks(alloc, &calls[..count], opening)?;
    pick_each(recent, &marks, number, &mut image);
    Ok(image)
}

/// The image that a number picks is one that a stop may leave. It does nothing.
pub fn a_picked_image_may_stand()
    ensures { (opening : Blocks) (log : List Call) (number : ℕ) (image : Blocks) →
        IsPicked opening log number image → IsImage opening log image }
{}
