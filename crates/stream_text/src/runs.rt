ghost use Rattle.std.specs.Prelude.{◌≡◌, ◌<◌, ◌≤◌, ◌+◌, ◌∷◌, ◌++◌, ℕ, OnOk, codes, length, drop, slice_index};
ghost use Rattle.std.specs.Bool.{OnTrue};
ghost use Rattle.disk_model.specs.Streams.{Puts};
ghost use Rattle.stream_text.specs.Collected.{PutsFront};
ghost use Rattle.stream_text.specs.Runs.{run_text, runs_of, runs_text, later_text};

use crate::puts::put_all;
use arrayvec::ArrayVec;
use disk_model::{Failed, Sink};

/// How many bytes of text are collected before they are put.
const COLLECTED: usize = 1024;

/// How many bytes a run has at most, with the plus sign before it.
const LONGEST_RUN: usize = 44;

/// How often the first byte stands at the front.
fn first_run(bytes: &[u8]) -> usize
    requires { 0 < length bytes.now }
    ensures some { 0 < result }
    ensures within { result ≤ length bytes.now }
    ensures run { runs_of bytes.now
        ≡ record { count = result; byte = slice_index bytes.now 0 }
        ∷ runs_of (drop result bytes.now) }
{
    let first = bytes[0];
    // Most that are no run aren't compared at all.
    if bytes[bytes.len() - 1] == first && is_one_run(bytes) {
        return bytes.len();
    }
    for (at, byte) in bytes.iter().enumerate() {
        if *byte != first {
            return at;
        }
    }
    bytes.len()
}

// Whether all bytes are the same. Each is compared with the one before it, many at once.
fn is_one_run(bytes: &[u8]) -> bool
    requires { 0 < length bytes.now }
    ensures { OnTrue result ((k : ℕ) → k < length bytes.now →
        slice_index bytes.now k ≡ slice_index bytes.now 0) }
{
    bytes[1..] == bytes[..bytes.len() - 1]
}

// Puts a run, and what stands before it.
fn put_run<K: Sink>(before: &[u8], count: usize, byte: u8, out: &mut K) -> Result<(), Failed>
    ensures { Puts K.tells
        (before.now ++ run_text (record { count = count; byte = byte }))
        (K.seen out.old) (K.seen out.new) result }
{
    let mut digits = [0; 2];
    let Ok(()) = hex::encode_to_slice([byte], &mut digits) else {
        unreachable!()
    };
    let mut times = itoa::Buffer::new();
    let pieces = [before, times.format(count).as_bytes(), b"*", &digits];
    put_all(&pieces, out)
}

// Adds a run to a text, behind a plus sign.
fn push_run(count: usize, byte: u8, text: &mut ArrayVec<u8, COLLECTED>)
    requires { length text.old.items + LONGEST_RUN ≤ COLLECTED }
    ensures { text.new.items ≡ text.old.items
        ++ (codes "+" ++ run_text (record { count = count; byte = byte })) }
{
    let mut digits = [0; 2];
    let Ok(()) = hex::encode_to_slice([byte], &mut digits) else {
        unreachable!()
    };
    let mut times = itoa::Buffer::new();
    let times = times.format(count).as_bytes();
    text.push(b'+');
    let Ok(()) = text.try_extend_from_slice(times) else {
        unreachable!()
    };
    text.push(b'*');
    let Ok(()) = text.try_extend_from_slice(&digits) else {
        unreachable!()
    };
}

// Puts the text, where a run may have no room in it.
fn make_room<K: Sink>(text: &mut ArrayVec<u8, COLLECTED>, out: &mut K) -> Result<(), Failed>
    ensures room { OnOk result (length text.new.items + LONGEST_RUN ≤ COLLECTED) }
    ensures front { PutsFront K.tells text.old.items text.new.items
        (K.seen out.old) (K.seen out.new) result }
{
    if text.len() + LONGEST_RUN <= COLLECTED {
        return Ok(());
    }
    out.put(text)?;
    text.clear();
    Ok(())
}

// Runs are collected, so that a sink is called once for many of them.
fn put_later_runs<K: Sink>(bytes: &[u8], out: &mut K) -> Result<(), Failed>
    ensures { Puts K.tells
        (later_text (runs_of bytes.now))
        (K.seen out.old) (K.seen out.new) result }
{
    let mut text = ArrayVec::new();
    let mut at = 0;
    while at < bytes.len() {
        let count = first_run(&bytes[at..]);
        make_room(&mut text, out)?;
        push_run(count, bytes[at], &mut text);
        at += count;
    }
    out.put(&text)
}

/// Puts bytes as their longest runs.
pub fn put_runs<K: Sink>(bytes: &[u8], out: &mut K) -> Result<(), Failed>
    ensures { Puts K.tells
        (runs_text (runs_of bytes.now))
        (K.seen out.old) (K.seen out.new) result }
{
    if bytes.is_empty() {
        return Ok(());
    }
    let count = first_run(bytes);
    put_run(b"", count, bytes[0], out)?;
    put_later_runs(&bytes[count..], out)
}
