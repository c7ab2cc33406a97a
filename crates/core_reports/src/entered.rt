ghost use Rattle.std.specs.Prelude.{◌≡◌, ℕ, List, [], ◌∷◌, IfOk, false, true, get_or, length, map, replicate, reverse, slice_set};
ghost use Rattle.core_reports.specs.Found.{AreEntered, entered_in};
ghost use Rattle.data_vio.specs.declared.logged.Logged.{Logged as Entered};

use crate::notes::StreamNotes;
use blk_base::{Writer, repeated};
use data_vio::Logged;
use std::alloc::{AllocError, Global};
use std::marker::Model;

/// Of which of one stream's requests the entry that maps an address anew was handed in: for each number, from 0.
#[derive(Drop)]
pub(crate) struct StreamEntries {
    entered: Vec<bool>,
}

impl Model for StreamEntries {
    ghost use Rattle.std.specs.Prelude.{Bool, List};

    ghost Value = { List Bool };

    ghost view = { λ e. e.entered.items };
}

impl StreamEntries {
    /// Room for so many requests, none of whose entries was handed in. It fails where memory runs out.
    pub(crate) fn with_room_for(alloc: Global, count: usize) -> Result<StreamEntries, AllocError>
        ensures { IfOk result (λ entries. entries ≡ replicate count false) }
    {
        let entered = repeated(alloc, false, count)?;
        Ok(StreamEntries { entered })
    }

    // Notes the entry of the request of this number, if there is room for it.
    fn note(&mut self, number: u32)
        ensures { self.new ≡ slice_set self.old number true }
    {
        let at = number as usize;
        if at < self.entered.len() {
            self.entered[at] = true;
        }
    }

    // Whether the entry of the request of this number is noted.
    fn has(&self, number: u32) -> bool
        ensures { result ≡ get_or self.now number false }
    {
        match self.entered.get(number as usize) {
            Some(entered) => *entered,
            None => false,
        }
    }
}

/// Room to note the entries of as many requests of each stream as there is room to note answers of. It fails where memory
/// runs out.
pub(crate) fn room_for_entries(
    alloc: Global,
    notes: &[StreamNotes],
) -> Result<Vec<StreamEntries>, AllocError>
    ensures { IfOk result (λ entered. AreEntered [] (map length notes.now) entered.items) }
{
    let mut entered = Vec::with_capacity(alloc, notes.len())?;
    for noted in notes {
        entered.push_reserved(StreamEntries::with_room_for(alloc, noted.len())?);
    }
    Ok(entered)
}

// Notes the entry of a request, if there is room for it.
fn note_writer(entered: &mut [StreamEntries], request: Writer)
    ensures { entered.new
        ≡ slice_set entered.old request.stream
        (slice_set (get_or entered.old request.stream []) request.number true) }
{
    let at = usize::from(request.stream);
    if at < entered.len() {
        entered[at].note(request.number);
    }
}

// Notes an entry that was handed in: that of an address.
fn note_entry(entered: &mut [StreamEntries], logged: &Logged)
    ensures { (older : List Entered) (room : List ℕ) → AreEntered older room entered.old →
        AreEntered (logged.now ∷ older) room entered.new }
{
    match logged {
        Logged::Remaps(remapping) => note_writer(entered, remapping.request),
        Logged::Makes(_) => {}
    }
}

/// Notes the entries that were handed in, the oldest first, where none was noted. It goes over them once.
pub(crate) fn note_entries(entered: &mut [StreamEntries], entries: &[Logged])
    ensures { (room : List ℕ) → AreEntered [] room entered.old →
        AreEntered (reverse entries.now) room entered.new }
{
    for logged in entries {
        note_entry(entered, logged);
    }
}

/// Whether the entry of a request is noted.
pub(crate) fn is_entered(entered: &[StreamEntries], request: Writer) -> bool
    ensures { result ≡ entered_in entered.now request }
{
    match entered.get(usize::from(request.stream)) {
        Some(stream) => stream.has(request.number),
        None => false,
    }
}
