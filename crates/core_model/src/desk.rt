ghost use Rattle.std.specs.Prelude.{◌≡◌, ◌+◌, ◌*◌, ◌-◌, ◌^◌, ◌<◌, ◌≤◌, [], ◌∷◌, ◌++◌, Some, ℕ, IfOk, IfSome, IfNone, IsSome, length, reverse, slice_index_or, vec_len, vec_capacity};
ghost use Rattle.blk_base.specs.declared.request.Answer.{Answer as Given};
ghost use Rattle.blk_base.specs.declared.request.Answer.TheVariants.{NoSpace as Lacking, Ok as Done};
ghost use Rattle.vdo_model.specs.DeskLog.{answered, begun};
ghost use Rattle.vdo_model.specs.declared.report.DeskLine.TheVariants.{Answer as Answered, Begin};
ghost use Rattle.vdo_model.specs.Scripts.{request_at, stream_of, value_written};
ghost use Rattle.data_vio.specs.Beginnings.{under_way};
ghost use Rattle.core_model.specs.DeskCounts.{AreBegunFrom};
ghost use Rattle.core_model.specs.DeskRules.{mark_of_vio, receipt_of_vio, receipt_step};
ghost use Rattle.core_model.specs.DeskLimits.{HasRoomToBegin};
ghost use Rattle.core_model.specs.SessionLimits.{most_requests, most_streams, reads_in, requests_in};
ghost use Rattle.core_model.specs.DeskLines.{is_bytes};
ghost use Rattle.plain_laws.specs.Sums.{total};

use crate::counts::StreamCounts;
use crate::scripts::{count_reads, count_requests, count_under_way};
use blk_base::{Answer, Block, Lba, Mapping, Writer, ZoneId};
use data_vio::{AnswerBoxes, Asks, Begun, BoxedVio, Fifo, HeldTickets, LANE_ROOM, Phase, Vio};
use slab_counts::Receipt;
use std::alloc::{AllocError, Global};
use std::marker::Model;
use vdo_model::{DeskLine, FlushMark, NoSpaceReceipt, ReportList, Requests};

/// Where requests begin and are answered. It has the boxes of all requests that aren't under way.
#[derive(Drop)]
pub struct Desk {
    requests: Requests,
    // How many requests there are.
    count: usize,
    lines: Vec<DeskLine>,
    // A box for each read whose bytes go into the log, in place of the one that they leave in.
    boxes: AnswerBoxes,
    // How many requests of each stream are begun, and how many are answered.
    begun: StreamCounts,
    answered: StreamCounts,
    // Each stream from this one on has begun all its requests.
    streams_left: u8,
    marks: Vec<FlushMark>,
    receipts: Vec<NoSpaceReceipt>,
    notices: u32,
    parked: Fifo<BoxedVio, LANE_ROOM>,
    // How many requests may be under way, and the boxes of those that aren't.
    most: usize,
    spare: Vec<BoxedVio>,
}

impl Model for Desk {
    ghost use Rattle.std.specs.Prelude.{◌≡◌, ◌+◌, ◌*◌, ◌≤◌, length, reverse, vec_capacity, vec_len};
    ghost use Rattle.core_model.specs.DeskData.{Desk as DeskData};
    ghost use Rattle.core_model.specs.SessionLimits.{most_requests, most_streams, most_under_way_in, reads_in, requests_in};
    ghost use Rattle.core_model.specs.DeskCounts.{AreBegunFrom, CountAnswered, CountBegun};
    ghost use Rattle.core_model.specs.DeskLines.{AreBegunFirst, is_answer, is_begin, is_bytes};
    ghost use Rattle.plain_laws.specs.Sums.{total};

    ghost Value = { DeskData };

    ghost view = { λ d. record {
      requests = d.requests;
      log = reverse d.lines.items;
      marks = reverse d.marks.items;
      receipts = reverse d.receipts.items;
      notices = d.notices;
      parked = d.parked;
    } };

    ghost invariant = { λ d. record {
      counted : d.count ≡ requests_in d.requests;
      few : d.count ≤ most_requests;
      lines_room : 2 * requests_in d.requests + 2 ≤ vec_capacity d.lines;
      boxes : reads_in d.requests + 1 ≤ d.boxes + total is_bytes (reverse d.lines.items);
      begun : CountBegun d.begun (reverse d.lines.items);
      answered : CountAnswered d.answered (reverse d.lines.items);
      few_left : d.streams_left ≤ most_streams;
      known_left : d.streams_left ≤ length d.requests;
      left : AreBegunFrom d.streams_left d.requests (reverse d.lines.items);
      marks_room : requests_in d.requests + 1 ≤ vec_capacity d.marks;
      receipts_room : requests_in d.requests + 1 ≤ vec_capacity d.receipts;
      most : d.most ≡ most_under_way_in d.requests;
      spare_room : d.most ≤ vec_capacity d.spare;
      spare : AreBegunFirst (reverse d.lines.items)
          → d.most + total is_answer (reverse d.lines.items) ≤ vec_len d.spare + total is_begin (reverse d.lines.items);
    } };
}

/// What a report has of the desk: the requests, the desk log, the marks and the receipts.
#[derive(Drop)]
pub struct DeskReport {
    pub requests: Requests,
    pub log: ReportList<DeskLine>,
    pub marks: ReportList<FlushMark>,
    pub receipts: ReportList<NoSpaceReceipt>,
}

// A request in a box that isn't under way.
fn blank() -> Vio {
    Vio {
        request: Writer {
            stream: 0,
            number: 0,
        },
        asks: Asks::Flush,
        at: Lba(0),
        home: ZoneId::Desk,
        phase: Phase::Reply,
        page: None,
        leaf: None,
        bytes: Block::zero(),
        place: 0,
        old: Mapping::Unmapped,
        latest: None,
        new: Mapping::Unmapped,
        claim: None,
        tickets: HeldTickets::new(),
        receipt: None,
        answer: None,
        calls: 0,
    }
}

// Boxes for so many requests.
fn spare_boxes(alloc: Global, count: usize) -> Result<Vec<BoxedVio>, AllocError>
    ensures count { IfOk result (λ boxes. vec_len boxes ≡ count) }
    ensures room { IfOk result (λ boxes. count ≤ vec_capacity boxes) }
{
    let mut boxes = Vec::with_capacity(alloc, count)?;
    for made in 0..count {
        boxes.push_reserved(BoxedVio::new(alloc, blank())?);
    }
    Ok(boxes)
}

// The step of a receipt, and 0 where there is none.
fn step_in(receipt: &Option<Receipt>) -> u64
    ensures { result ≡ receipt_step receipt.now }
{
    match receipt {
        Some(receipt) => receipt.asked,
        None => 0,
    }
}

// The last of the streams that had a request left to begin is passed over where it has none now.
fn left_after(left: u8, requests: &Requests, begun: &StreamCounts) -> u8
    requires streams { left ≤ most_streams }
    requires counts { length begun.now ≡ most_streams }
    ensures fewer { result ≤ left }
    ensures passed { (stream : ℕ) → result ≤ stream → stream < left →
        length (stream_of requests.now stream) ≤ slice_index_or begun.now stream 0 }
{
    if left == 0 {
        return 0;
    }
    let last = left - 1;
    if (begun.of(last) as usize) < requests.stream(last).len() {
        left
    } else {
        last
    }
}

impl Desk {
    // Long to prove: each way out while what was taken is alive has searches of its own.
    /// The desk at the start of a session: it has the requests, and began none of them. It takes all its room.
    pub fn new(alloc: Global, requests: Requests) -> Result<Desk, AllocError>
        requires streams { length requests ≤ most_streams }
        requires few { requests_in requests ≤ most_requests }
        ensures { IfOk result (λ desk.
            desk
            ≡ record {
              requests = requests;
              log = [];
              marks = [];
              receipts = [];
              notices = 0;
              parked = [];
            }) }
    {
        let count = count_requests(&requests);
        let streams_left = requests.count() as u8;
        let lines = Vec::with_capacity(alloc, 2 * count + 2)?;
        let boxes = AnswerBoxes::new(alloc, count_reads(&requests) + 1)?;
        let marks = Vec::with_capacity(alloc, count + 1)?;
        let receipts = Vec::with_capacity(alloc, count + 1)?;
        let parked = Fifo::new(alloc)?;
        let most = count_under_way(&requests);
        let spare = spare_boxes(alloc, most)?;
        Ok(Desk {
            requests,
            count,
            lines,
            boxes,
            begun: StreamCounts::new(),
            answered: StreamCounts::new(),
            streams_left,
            marks,
            receipts,
            notices: 0,
            parked,
            most,
            spare,
        })
    }

    /// The requests of the script.
    pub fn requests(&self) -> &Requests
        ensures { result.now ≡ self.now.requests }
    {
        &self.requests
    }

    /// How many requests there are.
    pub fn count(&self) -> usize
        ensures { result ≡ requests_in self.now.requests }
    {
        self.count
    }

    /// The lines of the desk log, the oldest first.
    pub fn lines(&self) -> &[DeskLine]
        ensures { self.now.log ≡ reverse result.now }
    {
        &self.lines
    }

    /// How many requests of a stream are begun.
    pub fn begun(&self, stream: u8) -> u32
        requires { stream < most_streams }
        ensures { result ≡ begun stream self.now.log }
    {
        self.begun.of(stream)
    }

    /// How many requests of a stream are answered.
    pub fn answered(&self, stream: u8) -> u32
        requires { stream < most_streams }
        ensures { result ≡ answered stream self.now.log }
    {
        self.answered.of(stream)
    }

    /// How many streams may have a request left to begin: each stream from this one on has begun all its requests.
    pub fn streams_left(&self) -> u8
        ensures known { result ≤ length self.now.requests }
        ensures begun { AreBegunFrom result self.now.requests self.now.log }
    {
        self.streams_left
    }

    /// How many zones have passed on the stop notice.
    pub fn notices(&self) -> u32
        ensures { result ≡ self.now.notices }
    {
        self.notices
    }

    // Long to prove: what it promises is put together of the views of its parts.
    /// A request of the script is begun, as it is under way: it has the bytes that it asks to write.
    pub fn begin(&mut self, begun: Begun) -> BoxedVio
        requires room { HasRoomToBegin self.old }
        requires known { IsSome (request_at self.old.requests begun.request) }
        ensures desk { self.new ≡ record self.old { log = Begin begun.request ∷ self.old.log } }
        ensures vio { result
            ≡ under_way begun (value_written (request_at self.old.requests begun.request)) }
    {
        let Some(mut boxed) = self.spare.pop() else {
            unreachable!();
        };
        let request = begun.request;
        self.begun.raise(request.stream);
        let requests = self.requests.stream(request.stream);
        boxed.begin(begun, &requests[request.number as usize]);
        self.lines.push_reserved(DeskLine::Begin { request });
        self.streams_left = left_after(self.streams_left, &self.requests, &self.begun);
        boxed
    }

    /// A request is begun, and answered at once.
    pub fn answer_at_once(&mut self, request: Writer, answer: Answer)
        requires { length self.old.log ≤ 2 * requests_in self.old.requests }
        ensures { self.new
            ≡ record self.old { log = Answered request answer ∷ Begin request ∷ self.old.log } }
    {
        self.begun.raise(request.stream);
        self.answered.raise(request.stream);
        self.lines.push_reserved(DeskLine::Begin { request });
        self.lines
            .push_reserved(DeskLine::Answer { request, answer });
        self.streams_left = left_after(self.streams_left, &self.requests, &self.begun);
    }

    // Long to prove: what it promises is put together of the views of its parts.
    /// A request is answered with what it has, and its box is spare again.
    pub fn answer(&mut self, mut vio: BoxedVio)
        requires answered { IsSome vio.answer }
        requires lines { length self.old.log ≤ 2 * requests_in self.old.requests + 1 }
        requires bytes { total is_bytes self.old.log ≤ reads_in self.old.requests }
        ensures { (given : Given) →
            vio.answer ≡ Some given →
            self.new ≡ record self.old { log = Answered vio.request given ∷ self.old.log } }
    {
        let request = vio.get().request;
        let Some(answer) = vio.take_answer(&mut self.boxes) else {
            unreachable!();
        };
        self.answered.raise(request.stream);
        self.lines
            .push_reserved(DeskLine::Answer { request, answer });
        if self.spare.len() < self.most {
            self.spare.push_reserved(vio);
        }
    }

    /// A flush is answered, with its mark.
    pub fn mark(&mut self, vio: BoxedVio)
        requires lines { length self.old.log ≤ 2 * requests_in self.old.requests }
        requires bytes { total is_bytes self.old.log ≤ reads_in self.old.requests }
        requires marks { length self.old.marks ≤ requests_in self.old.requests }
        ensures { self.new
            ≡ record self.old {
              log = Answered vio.request Done ∷ self.old.log;
              marks = mark_of_vio vio
                  ∷ self.old.marks;
            } }
    {
        let request = vio.get().request;
        let calls = vio.get().calls;
        self.marks.push_reserved(FlushMark { request, calls });
        self.answer(vio.end(Phase::Reply, Answer::Ok));
    }

    /// A request that found no block is answered so, with its receipt.
    pub fn lack(&mut self, vio: BoxedVio)
        requires lines { length self.old.log ≤ 2 * requests_in self.old.requests }
        requires bytes { total is_bytes self.old.log ≤ reads_in self.old.requests }
        requires receipts { length self.old.receipts ≤ requests_in self.old.requests }
        ensures { self.new
            ≡ record self.old {
              log = Answered vio.request Lacking ∷ self.old.log;
              receipts = receipt_of_vio vio
                  ∷ self.old.receipts;
            } }
    {
        let request = vio.get().request;
        let step = step_in(&vio.get().receipt);
        self.receipts
            .push_reserved(NoSpaceReceipt { request, step });
        self.answer(vio.end(Phase::Reply, Answer::NoSpace));
    }

    /// A request waits until the stop notice of every zone has come.
    pub fn park(&mut self, vio: BoxedVio)
        requires { length self.old.parked < LANE_ROOM }
        ensures { self.new ≡ record self.old { parked = self.old.parked ++ vio ∷ [] } }
    {
        self.parked.push(vio);
    }

    /// The first of those that wait for it.
    pub fn unpark(&mut self) -> Option<BoxedVio>
        ensures some { IfSome result (λ vio.
            self.old ≡ record self.new { parked = vio ∷ self.new.parked }) }
        ensures none { IfNone result ((self.old.parked ≡ []) × (self.new ≡ self.old)) }
    {
        self.parked.pop()
    }

    /// One more zone has passed on the stop notice.
    pub fn hear(&mut self)
        requires { self.old.notices < 2 ^ 32 - 1 }
        ensures { self.new ≡ record self.old { notices = self.old.notices + 1 } }
    {
        self.notices += 1;
    }

    /// What a report has of it.
    pub fn into_list(self) -> DeskReport
        ensures { result
            ≡ record {
              requests = self.requests;
              log = self.log;
              marks = self.marks;
              receipts = self.receipts;
            } }
    {
        DeskReport {
            requests: self.requests,
            log: ReportList::from_vec(self.lines),
            marks: ReportList::from_vec(self.marks),
            receipts: ReportList::from_vec(self.receipts),
        }
    }
}
