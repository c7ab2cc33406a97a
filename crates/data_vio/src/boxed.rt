ghost use Rattle.std.specs.Prelude.{◌≡◌, ◌≤◌, ◌<◌, ◌+◌, ◌∷◌, [], None, Some, IfOk, IfSome, IfNone, IsSome, IsTrue, length};
ghost use Rattle.blk_base.specs.declared.request.Answer.TheVariants as reply;
ghost use Rattle.data_vio.specs.declared.items.Phase.TheVariants as phase;
ghost use Rattle.blk_base.specs.Sectors.{zero_block};
ghost use Rattle.vdo_model.specs.Scripts.{value_written};
ghost use Rattle.data_vio.specs.AnswerRooms.{HasRoom, blocks_of};
ghost use Rattle.data_vio.specs.Beginnings.{under_way};
ghost use Rattle.data_vio.specs.Vios.{claiming, ended, entry_of, gives_up, has_leaf, holding, logged, made, makes, reads_leaf, refused, remapping, turned, withdrawing};

use crate::{AnswerBoxes, Begun, HeldTickets, Logged, NewPage, Phase, Remapping, Vio};
use blk_base::{Answer, Block, BoxedBlock, Entry, Mapping, PageId, Pbn, Request};
use slab_counts::{Claim, Receipt, Ticket};
use std::alloc::{AllocError, Global};
use std::marker::Model;

/// A request under way in its box, by which the zones pass it on. It has room for the bytes of its answer, so that no zone
/// takes memory for them. A contract sees the request.
#[derive(Drop)]
pub struct BoxedVio {
    vio: Box<Vio>,
    // A box for the bytes of its answer, while that has none.
    room: Option<BoxedBlock>,
    // Whether its bytes are known to be zeros, so that they need not be cleared.
    is_clear: bool,
}

impl Model for BoxedVio {
    ghost use Rattle.std.specs.Prelude.{◌≡◌, IsTrue};
    ghost use Rattle.blk_base.specs.Sectors.{zero_block};
    ghost use Rattle.data_vio.specs.AnswerRooms.{HasRoom};
    ghost use Rattle.data_vio.specs.declared.items.Vio.{Vio};

    ghost Value = { Vio };

    ghost view = { λ b. b.vio.value };

    ghost invariant = { λ b. record {
      room : HasRoom b.room b.vio.value.answer;
      clear : IsTrue b.is_clear → b.vio.value.bytes ≡ zero_block;
    } };
}

// The box of an answer that is given up is the room again.
fn free(answer: Option<Answer>, room: &mut Option<BoxedBlock>)
    requires { HasRoom room.old answer }
    ensures { IsSome room.new }
{
    if let Some(Answer::Bytes(bytes)) = answer {
        *room = Some(bytes);
    }
}

impl BoxedVio {
    /// A box with this request.
    pub fn new(alloc: Global, vio: Vio) -> Result<BoxedVio, AllocError>
        ensures { IfOk result (λ boxed. boxed ≡ vio) }
    {
        let room = BoxedBlock::new(alloc, Block::zero())?;
        Ok(BoxedVio {
            vio: Box::new(alloc, vio)?,
            room: Some(room),
            is_clear: false,
        })
    }

    /// The request.
    pub fn get(&self) -> &Vio
        ensures { result.now ≡ self.now }
    {
        &self.vio
    }

    // Its bytes become zeros.
    fn clear(&mut self)
        ensures { self.new ≡ record self.old { bytes = zero_block } }
    {
        if !self.is_clear {
            self.vio.bytes.clear();
            self.is_clear = true;
        }
    }

    // It gets the bytes that a request begins with: those of a write, and zeros for the others.
    fn fill(&mut self, asked: &Request)
        ensures { self.new ≡ record self.old { bytes = value_written (Some asked.now) } }
    {
        match asked {
            Request::Write { block, .. } => {
                self.vio.bytes.copy_from(block.get());
                self.is_clear = false;
            }
            Request::Read(_) | Request::Discard(_) | Request::Flush => self.clear(),
        }
    }

    /// Another request begins in the same box, with the bytes that it asks to write.
    pub fn begin(&mut self, begun: Begun, asked: &Request)
        ensures { self.new ≡ under_way begun (value_written (Some asked.now)) }
    {
        free(self.vio.answer.take(), &mut self.room);
        self.fill(asked);
        let vio = &mut *self.vio;
        vio.request = begun.request;
        vio.asks = begun.asks;
        vio.at = begun.at;
        vio.home = begun.home;
        vio.phase = begun.phase;
        vio.page = None;
        vio.leaf = None;
        vio.place = 0;
        vio.old = Mapping::Unmapped;
        vio.latest = None;
        vio.new = Mapping::Unmapped;
        vio.claim = None;
        vio.tickets = HeldTickets::new();
        vio.receipt = None;
        vio.calls = 0;
    }

    /// It goes on to another phase.
    pub fn turn(mut self, phase: Phase) -> BoxedVio
        ensures { result ≡ turned phase self }
    {
        self.vio.phase = phase;
        self
    }

    /// It is to be answered so, and goes on to another phase.
    pub fn end(mut self, phase: Phase, answer: Answer) -> BoxedVio
        ensures { result ≡ ended phase answer self }
    {
        free(self.vio.answer.take(), &mut self.room);
        self.vio.phase = phase;
        self.vio.answer = Some(answer);
        self
    }

    /// A read is to be answered with the bytes that it got.
    pub fn give(mut self) -> BoxedVio
        ensures { result ≡ ended phase.Reply (reply.Bytes self.bytes) self }
    {
        free(self.vio.answer.take(), &mut self.room);
        let Some(mut room) = self.room.take() else {
            unreachable!();
        };
        room.copy_from(&self.vio.bytes);
        self.vio.phase = Phase::Reply;
        self.vio.answer = Some(Answer::Bytes(room));
        self
    }

    /// It has drawn its place.
    pub fn draw(mut self, place: u64) -> BoxedVio
        ensures { result ≡ record self { place = place } }
    {
        self.vio.place = place;
        self
    }

    /// It knows what its address is mapped to, and the last write of it that was done in the session.
    pub fn look(mut self, old: Mapping, latest: Option<Remapping>) -> BoxedVio
        ensures { result ≡ record self { old = old; latest = latest } }
    {
        self.vio.old = old;
        self.vio.latest = latest;
        self
    }

    /// The leaf of its address, which stands at this block, is read first: no write of that address was done in the session.
    pub fn read_leaf(mut self, leaf: Pbn) -> BoxedVio
        ensures { result ≡ reads_leaf leaf self }
    {
        self.vio.phase = Phase::LoadLeaf;
        self.vio.leaf = Some(leaf);
        self.vio.latest = None;
        self
    }

    /// Its leaf says what its address is mapped to.
    pub fn has_leaf(mut self, old: Mapping) -> BoxedVio
        ensures { result ≡ has_leaf old self }
    {
        self.vio.phase = Phase::LoadedLeaf;
        self.vio.leaf = None;
        self.vio.old = old;
        self
    }

    /// It is known what it maps its address to, and it goes on to another phase.
    pub fn map_to(mut self, phase: Phase, new: Mapping) -> BoxedVio
        ensures { result ≡ record self { phase = phase; new = new } }
    {
        self.vio.phase = phase;
        self.vio.new = new;
        self
    }

    /// A write has this claim, for its data or for the page that it makes.
    pub fn claim(mut self, claim: Claim) -> BoxedVio
        ensures { result ≡ claiming claim self }
    {
        self.vio.phase = Phase::Store;
        self.vio.new = Mapping::At(claim.block());
        self.vio.claim = Some(claim);
        self
    }

    /// No block is free for it in a zone, and it has the ticket of that, of fewer than four.
    pub fn hold(mut self, ticket: Ticket) -> BoxedVio
        requires { length self.tickets < 4 }
        ensures { result ≡ holding ticket self }
    {
        self.vio.tickets.push(ticket);
        self
    }

    /// It asked each zone, and withdraws its tickets.
    pub fn withdraw(mut self) -> BoxedVio
        ensures { result ≡ withdrawing self }
    {
        self.vio.phase = Phase::Withdraw;
        self.vio.new = Mapping::Unmapped;
        self
    }

    /// Its oldest ticket, which leaves it.
    pub fn take_ticket(&mut self) -> Option<Ticket>
        ensures some { IfSome result (λ ticket.
            (self.old.tickets ≡ ticket ∷ self.new.tickets)
            × (self.new ≡ record self.old { tickets = self.new.tickets })) }
        ensures none { IfNone result (self.old.tickets ≡ []) }
    {
        self.vio.tickets.pop()
    }

    /// No block went to the ticket that was withdrawn last.
    pub fn refuse(mut self, receipt: Receipt) -> BoxedVio
        ensures { result ≡ refused receipt self }
    {
        self.vio.receipt = Some(receipt);
        self
    }

    /// Its claim, which leaves it.
    pub fn take_claim(&mut self) -> Option<Claim>
        ensures claim { result ≡ self.old.claim }
        ensures left { self.new ≡ record self.old { claim = None } }
    {
        self.vio.claim.take()
    }

    /// A write makes a page, for which it claims a block.
    pub fn make(mut self, page: PageId) -> BoxedVio
        ensures { result ≡ makes page self }
    {
        self.vio.phase = Phase::Claim;
        self.vio.page = Some(page);
        self
    }

    /// Its page is made: it looks up what is mapped at its own address.
    pub fn made(mut self) -> BoxedVio
        ensures { result ≡ made self }
    {
        self.vio.phase = Phase::Look;
        self.vio.page = None;
        self.vio.new = Mapping::Unmapped;
        self
    }

    /// It doesn't make its page any more, and is answered.
    pub fn give_up(mut self) -> BoxedVio
        ensures { result ≡ gives_up self }
    {
        self.vio.phase = Phase::Reply;
        self.vio.page = None;
        self
    }

    /// A read has got these bytes.
    pub fn load(mut self, bytes: Block) -> BoxedVio
        ensures { result ≡ record self { phase = phase.Loaded; bytes = bytes } }
    {
        self.vio.phase = Phase::Loaded;
        self.vio.bytes = bytes;
        self.is_clear = false;
        self
    }

    /// A read is given zeros.
    pub fn load_zeros(mut self) -> BoxedVio
        ensures { result ≡ record self { phase = phase.Loaded; bytes = zero_block } }
    {
        self.clear();
        self.vio.phase = Phase::Loaded;
        self
    }

    /// A flush returned when so many calls of the device had succeeded.
    pub fn mark(mut self, calls: u64) -> BoxedVio
        ensures { result
            ≡ record self { phase = phase.Reply; answer = Some reply.Ok; calls = calls } }
    {
        free(self.vio.answer.take(), &mut self.room);
        self.vio.phase = Phase::Reply;
        self.vio.answer = Some(Answer::Ok);
        self.vio.calls = calls;
        self
    }

    /// What it is to be answered with, which leaves it. For the box of its bytes it gets one of these.
    pub fn take_answer(&mut self, boxes: &mut AnswerBoxes) -> Option<Answer>
        requires { blocks_of self.old.answer ≤ boxes.old }
        ensures answer { result ≡ self.old.answer }
        ensures left { self.new ≡ record self.old { answer = None } }
        ensures boxes { boxes.old ≡ boxes.new + blocks_of self.old.answer }
    {
        let answer = self.vio.answer.take();
        if let Some(Answer::Bytes(_)) = &answer {
            self.room = Some(boxes.take());
        }
        answer
    }

    /// The entry that it hands in, as the journal has it.
    pub fn entry(&self) -> Entry
        ensures { result ≡ entry_of (logged self.now) }
    {
        match self.logged() {
            Logged::Remaps(remapping) => Entry::Remap {
                at: remapping.at,
                old: remapping.old,
                new: remapping.new,
            },
            Logged::Makes(made) => Entry::NewPage {
                page: made.page,
                at: made.at,
            },
        }
    }

    /// The entry that it hands in, with its request.
    pub fn logged(&self) -> Logged
        ensures { result ≡ logged self.now }
    {
        match (self.vio.page, self.vio.new) {
            (Some(page), Mapping::At(at)) => Logged::Makes(NewPage {
                request: self.vio.request,
                page,
                at,
            }),
            _ => Logged::Remaps(self.remapping()),
        }
    }

    /// How it maps its address anew, with its request and place.
    pub fn remapping(&self) -> Remapping
        ensures { result ≡ remapping self.now }
    {
        Remapping {
            request: self.vio.request,
            at: self.vio.at,
            place: self.vio.place,
            old: self.vio.old,
            new: self.vio.new,
        }
    }
}
