ghost use Rattle.std.specs.Prelude.{◌≡◌, ◌≢◌, ◌≤◌, ◌<◌, ◌+◌, ◌++◌, ◌∷◌, [], ℕ, List, length, Ok, IsTrue, IfOk, IfErr, OnOk, IsErrOf};
ghost use Rattle.std.specs.Bool.{OnTrue};
ghost use Rattle.disk_model.specs.Causes.{Rose};
ghost use Rattle.stream_text.specs.WholeScript.{whole_script};
ghost use Rattle.stream_text.specs.ReadingBytes.{refusal_said, IsWholeScript, RefusesScript};
ghost use Rattle.stream_text.specs.ReadingState.{bytes_read, comes_to, IsReading, OneLine};

use crate::added_lines::add_line;
use crate::refusal::{AddFault, LineFault, ReadScript, ScriptFault};
use crate::streams::Streams;
use arrayvec::ArrayVec;
use disk_model::Source;
use memchr::memchr;
use std::alloc::Global;
use vdo_model::Requests;

/// How many bytes a line may have, without its newline.
const LONGEST_LINE: usize = 32768;

/// How many bytes a script may have.
const LONGEST_SCRIPT: u64 = 134_217_728;

/// A script that is read in part: the streams so far with the number of their requests, the number of the line that is being
/// read, the bytes before it, and its bytes so far.
#[derive(Drop)]
struct ReadingBytes {
    streams: Streams,
    count: u64,
    number: u64,
    before: u64,
    line: ArrayVec<u8, LONGEST_LINE>,
}

// What is said of a line that adds nothing.
fn stopped(number: u64, stop: AddFault) -> ReadScript
    ensures { result ≡ refusal_said number stop }
{
    match stop {
        AddFault::Memory => ReadScript::Memory,
        AddFault::Fault(fault) => {
            ReadScript::Script(ScriptFault {
                line: number,
                fault,
            })
        }
    }
}

impl ReadingBytes {
    // The line that was read is whole, and its newline was taken.
    fn end_line(&mut self) -> Result<(), ReadScript>
        requires sound { IsReading self.old }
        requires room { bytes_read self.old < 134217728 }
        ensures sound { OnOk result (IsReading self.new) }
        ensures ok { OnOk result (
            (rest : List ℕ) → comes_to self.old (10 ∷ rest) ≡ comes_to self.new rest) }
        ensures taken { OnOk result (bytes_read self.new ≡ bytes_read self.old + 1) }
        ensures refused { IfErr result (λ fault. (rest : List ℕ) →
            RefusesScript fault (comes_to self.old (10 ∷ rest))) }
        ensures no_fault { IfErr result (λ fault. fault ≢ ReadScript.Read) }
    {
        match add_line(&mut self.streams, self.count, &self.line) {
            Err(stop) => Err(stopped(self.number, stop)),
            Ok(count) => {
                self.count = count;
                self.before += self.line.len() as u64 + 1;
                self.number += 1;
                self.line.clear();
                Ok(())
            }
        }
    }

    // The next byte of the script.
    fn add(&mut self, byte: u8) -> Result<(), ReadScript>
        requires { IsReading self.old }
        ensures sound { OnOk result (IsReading self.new) }
        ensures ok { OnOk result (
            (rest : List ℕ) → comes_to self.old (byte ∷ rest) ≡ comes_to self.new rest) }
        ensures taken { OnOk result (bytes_read self.new ≡ bytes_read self.old + 1) }
        ensures refused { IfErr result (λ fault. (rest : List ℕ) →
            RefusesScript fault (comes_to self.old (byte ∷ rest))) }
        ensures no_fault { IfErr result (λ fault. fault ≢ ReadScript.Read) }
    {
        if self.before + self.line.len() as u64 >= LONGEST_SCRIPT {
            return Err(stopped(self.number, AddFault::Fault(LineFault::TooLong)));
        }
        if byte == b'\n' {
            return self.end_line();
        }
        if self.line.is_full() {
            return Err(stopped(self.number, AddFault::Fault(LineFault::TooLong)));
        }
        self.line.push(byte);
        Ok(())
    }

    // Whether so many bytes more make neither the line nor the script too long.
    // Long to prove: the numbers are shown to fit for each index.
    fn has_room(&self, count: usize) -> bool
        requires { IsReading self.now }
        ensures { OnTrue result
            ((bytes_read self.now + count ≤ 134217728)
            × (length self.now.line.items + count ≤ 32768)) }
    {
        let length = self.line.len();
        count <= LONGEST_LINE - length
            && self.before + length as u64 + count as u64 <= LONGEST_SCRIPT
    }

    // The next bytes of the script, one by one: the first that is too many is found so.
    fn add_each(&mut self, bytes: &[u8]) -> Result<(), ReadScript>
        requires { IsReading self.old }
        ensures sound { OnOk result (IsReading self.new) }
        ensures ok { OnOk result (
            (rest : List ℕ) → comes_to self.old (bytes.now ++ rest) ≡ comes_to self.new rest) }
        ensures taken { OnOk result (bytes_read self.new ≡ bytes_read self.old + length bytes.now) }
        ensures refused { IfErr result (λ fault. (rest : List ℕ) →
            RefusesScript fault (comes_to self.old (bytes.now ++ rest))) }
        ensures no_fault { IfErr result (λ fault. fault ≢ ReadScript.Read) }
    {
        for byte in bytes {
            self.add(*byte)?;
        }
        Ok(())
    }

    // The next bytes of the line. They are added at once where they have room.
    fn add_part(&mut self, part: &[u8]) -> Result<(), ReadScript>
        requires sound { IsReading self.old }
        requires one_line { OneLine part.now }
        ensures sound { OnOk result (IsReading self.new) }
        ensures ok { OnOk result (
            (rest : List ℕ) → comes_to self.old (part.now ++ rest) ≡ comes_to self.new rest) }
        ensures taken { OnOk result (bytes_read self.new ≡ bytes_read self.old + length part.now) }
        ensures refused { IfErr result (λ fault. (rest : List ℕ) →
            RefusesScript fault (comes_to self.old (part.now ++ rest))) }
        ensures no_fault { IfErr result (λ fault. fault ≢ ReadScript.Read) }
    {
        if !self.has_room(part.len()) {
            return self.add_each(part);
        }
        let Ok(()) = self.line.try_extend_from_slice(part) else {
            unreachable!()
        };
        Ok(())
    }

    // The next bytes of the script, line by line.
    fn feed(&mut self, bytes: &[u8]) -> Result<(), ReadScript>
        requires { IsReading self.old }
        ensures sound { OnOk result (IsReading self.new) }
        ensures ok { OnOk result (
            (rest : List ℕ) → comes_to self.old (bytes.now ++ rest) ≡ comes_to self.new rest) }
        ensures taken { OnOk result (bytes_read self.new ≡ bytes_read self.old + length bytes.now) }
        ensures refused { IfErr result (λ fault. (rest : List ℕ) →
            RefusesScript fault (comes_to self.old (bytes.now ++ rest))) }
        ensures no_fault { IfErr result (λ fault. fault ≢ ReadScript.Read) }
    {
        let mut rest = bytes;
        'lines: loop {
            match memchr(b'\n', rest) {
                None => return self.add_part(rest),
                Some(at) => {
                    self.add_part(&rest[..at])?;
                    self.add(b'\n')?;
                    rest = &rest[at + 1..];
                }
            }
        }
    }

    // The bytes of the source until its end.
    fn feed_all<S: Source>(&mut self, source: &mut S) -> Result<(), ReadScript>
        requires { IsReading self.old }
        ensures sound { OnOk result (IsReading self.new) }
        ensures ok { IsTrue S.tells
            → OnOk result (comes_to self.old (S.seen source.old).left ≡ comes_to self.new []) }
        ensures whole { IsTrue S.tells → OnOk result ((S.seen source.new).left ≡ []) }
        ensures refused { IsTrue S.tells → IfErr result (λ fault.
            RefusesScript fault (comes_to self.old (S.seen source.old).left)) }
        ensures read { IsErrOf result ReadScript.Read
            → Rose (S.seen source.old).faults (S.seen source.new).faults }
        ensures later { (S.seen source.old).faults ≤ (S.seen source.new).faults }
    {
        let mut buffer = [0; 4096];
        'pieces: loop {
            let Ok(count) = source.take(&mut buffer) else {
                return Err(ReadScript::Read);
            };
            if count == 0 {
                return Ok(());
            }
            self.feed(&buffer[..count])?;
        }
    }

    // The script has no more bytes.
    fn end(mut self) -> Result<Requests, ReadScript>
        requires { IsReading self }
        ensures ok { IfOk result (λ script. comes_to self [] ≡ Ok script) }
        ensures shape { IfOk result IsWholeScript }
        ensures refused { IfErr result (λ fault. RefusesScript fault (comes_to self [])) }
        ensures no_fault { IfErr result (λ fault. fault ≢ ReadScript.Read) }
    {
        if self.line.is_empty() {
            return Ok(self.streams.into_requests());
        }
        match add_line(&mut self.streams, self.count, &self.line) {
            Err(stop) => Err(stopped(self.number, stop)),
            Ok(_) => Ok(self.streams.into_requests()),
        }
    }
}

// A script is judged by all its bytes. The first refused line is named though the source isn't read on behind it, since
// no later byte can change that.
/// Reads the requests of a script, in pieces of any size, until the source's end or the first line with a fault. They come
/// as 16 streams, of which each may have none.
///
/// It fails with `Script` where a line has a fault, with `Read` where the source failed, and with `Memory` where memory
/// runs out. The memory that it takes is the requests' alone.
pub fn read_script<S: Source>(alloc: Global, source: &mut S) -> Result<Requests, ReadScript>
    // The script is what all the bytes say, and the source was read to its end.
    ensures script { IsTrue S.tells → IfOk result (λ script.
        (whole_script (S.seen source.old).left ≡ Ok script) × ((S.seen source.new).left ≡ [])) }
    // Whatever the source tells, no other requests come, and each write has a whole block.
    ensures shape { IfOk result IsWholeScript }
    // The line that is named is the first with a fault, and its fault the first that it has.
    ensures refused { IsTrue S.tells
        → IfErr result (λ fault. RefusesScript fault (whole_script (S.seen source.old).left)) }
    ensures read { IsErrOf result ReadScript.Read
        → Rose (S.seen source.old).faults (S.seen source.new).faults }
    ensures later { (S.seen source.old).faults ≤ (S.seen source.new).faults }
{
    let Ok(streams) = Streams::new(alloc) else {
        return Err(ReadScript::Memory);
    };
    let mut reading = ReadingBytes {
        streams,
        count: 0,
        number: 1,
        before: 0,
        line: ArrayVec::new(),
    };
    reading.feed_all(source)?;
    reading.end()
}
