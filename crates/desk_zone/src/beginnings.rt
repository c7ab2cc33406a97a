ghost use Rattle.std.specs.Prelude.{◌≡◌, ◌<◌, ◌+◌, ◌∷◌, [], ℕ, None, Some, IsTrue, IfSome, IfNone, IsSome, false, length};
ghost use Rattle.vdo_model.specs.DeskLog.{IsNextLine};
ghost use Rattle.vdo_model.specs.declared.report.DeskLine.TheVariants as line;
ghost use Rattle.data_vio.specs.declared.items.Item.TheVariants as item;
ghost use Rattle.core_model.specs.declared.zones.ZoneData.TheVariants as at;
ghost use Rattle.core_model.specs.DeskRules as rules;
ghost use Rattle.core_model.specs.DeskLimits.{HasRoomToBegin};
ghost use Rattle.core_model.specs.Steps.{MayBegin};
ghost use Rattle.core_model.specs.Trace.{Trace};
ghost use Rattle.data_vio.specs.Beginnings.{under_way};
ghost use Rattle.blk_base.specs.declared.place.ZoneId.TheVariants as id;
ghost use Rattle.data_vio.specs.declared.items.Phase.TheVariants as phase;
ghost use Rattle.data_vio.specs.declared.items.Vio.{Vio};
ghost use Rattle.vdo_model.specs.Places.{zone_of};
ghost use Rattle.vdo_model.specs.Scripts.{request_at, value_written};
ghost use Rattle.step_parts.specs.Acts.{ActsAlone};
ghost use Rattle.desk_zone.specs.Begins.{CanBegin};

use crate::replies::is_notified;
use blk_base::{Answer, Lba, Request, Writer, ZoneId};
use core_model::Desk;
use data_vio::{Asks, Begun, Item, Phase, Sizes, Vio};
use step_parts::{Posts, home_of};

// A request for an address when it is begun.
fn arriving(sizes: &Sizes, request: Writer, asks: Asks, at: Lba) -> Begun
    requires { 0 < sizes.now.zones }
    ensures { result
        ≡ record {
          request = request;
          asks = asks;
          at = at;
          home = id.Logical (zone_of sizes.now.zones at.0);
          phase = phase.Arrive;
        } }
{
    Begun {
        request,
        asks,
        at,
        home: home_of(sizes, at),
        phase: Phase::Arrive,
    }
}

// The request when it is begun, where it is served; its bytes aren't copied yet.
// A write that forces its block out isn't served by the core yet.
fn begun_of(sizes: &Sizes, request: Writer, asked: &Request) -> Option<Begun>
    requires { 0 < sizes.now.zones }
    ensures some { IfSome result (λ begun.
        rules.vio_of sizes.now request asked.now
        ≡ Some (under_way begun (value_written (Some asked.now)))) }
    ensures none { IfNone result (rules.vio_of sizes.now request asked.now ≡ None) }
{
    match asked {
        Request::Read(at) => Some(arriving(sizes, request, Asks::Read, *at)),
        Request::Write { at, fua: false, .. } => {
            Some(arriving(sizes, request, Asks::Write, *at))
        }
        Request::Discard(at) => Some(arriving(sizes, request, Asks::Discard, *at)),
        Request::Flush => {
            let mut begun = arriving(sizes, request, Asks::Flush, Lba(0));
            begun.phase = Phase::Flush;
            Some(begun)
        }
        Request::Write { fua: true, .. } => None,
    }
}

// What a request is answered with at once.
// A write after a stop draws no place, so none is printed; the request that met the failure has its place.
fn at_once(sizes: &Sizes, notified: bool, asks: Asks, at: Lba) -> Option<Answer>
    ensures { result ≡ rules.at_once sizes.now notified asks at.0 }
{
    let logical = sizes.geometry.logical;
    match asks {
        Asks::Read => {
            if at.0 < logical {
                None
            } else {
                Some(Answer::Range)
            }
        }
        Asks::Write | Asks::Discard => {
            if at.0 >= logical {
                Some(Answer::Range)
            } else if notified {
                Some(Answer::Stopped)
            } else {
                None
            }
        }
        Asks::Flush => {
            if notified {
                Some(Answer::Stopped)
            } else {
                None
            }
        }
    }
}

// A block request goes to the logical zone of its address, a flush to the device.
fn first_zone(vio: &Vio) -> ZoneId
    ensures { result ≡ rules.first_zone vio.now }
{
    match vio.asks {
        Asks::Read | Asks::Write | Asks::Discard => vio.home,
        Asks::Flush => ZoneId::Device,
    }
}

// The number of the next request of a stream, where it may be begun.
fn next_of(sizes: &Sizes, desk: &Desk, stream: u8) -> Option<u32>
    requires can { CanBegin sizes.now desk.now }
    requires stream { stream < length desk.now.requests }
    ensures may { IfSome result (λ number.
        IsNextLine sizes.now.depth desk.now.requests
        (line.Begin (record { stream = stream; number = number })) desk.now.log) }
    ensures none { IfNone result (
        (number : ℕ) →
        IsNextLine sizes.now.depth desk.now.requests
        (line.Begin (record { stream = stream; number = number })) desk.now.log → ⊥) }
{
    let next = desk.begun(stream);
    let done = desk.answered(stream);
    let requests = desk.requests().stream(stream);
    if next as usize >= requests.len()
        || u64::from(next) >= u64::from(done) + u64::from(sizes.depth)
    {
        return None;
    }
    Some(next)
}

// The next request of the lowest stream that may begin one.
fn lowest(sizes: &Sizes, desk: &Desk) -> Option<Writer>
    requires { CanBegin sizes.now desk.now }
    ensures next { IfSome result (rules.BeginsNext sizes.now.depth desk.now) }
    ensures none { IfNone result (MayBegin sizes.now (at.Desk desk.now) → ⊥) }
{
    for stream in 0..desk.streams_left() {
        if let Some(number) = next_of(sizes, desk, stream) {
            return Some(Writer { stream, number });
        }
    }
    None
}

/// Whether a stream may begin a request.
pub fn may_begin(sizes: &Sizes, desk: &Desk) -> bool
    requires { CanBegin sizes.now desk.now }
    ensures yes { IsTrue result → MayBegin sizes.now (at.Desk desk.now) }
    ensures no { (result ≡ false) → MayBegin sizes.now (at.Desk desk.now) → ⊥ }
{
    match lowest(sizes, desk) {
        Some(_) => true,
        None => false,
    }
}

// A request is begun, and sent on.
fn send(desk: &mut Desk, begun: Begun, posts: &mut Posts)
    requires room { HasRoomToBegin desk.old }
    requires known { IsSome (request_at desk.old.requests begun.request) }
    requires none { posts.old ≡ [] }
    ensures desk { desk.new ≡ record desk.old { log = line.Begin begun.request ∷ desk.old.log } }
    ensures posts { (vio : Vio) →
        vio ≡ under_way begun (value_written (request_at desk.old.requests begun.request)) →
        posts.new ≡ (rules.first_zone vio, item.Request vio) ∷ [] }
{
    let vio = desk.begin(begun);
    let to = first_zone(vio.get());
    posts.first(to, Item::Request(vio));
}

// A request is begun, and answered at once or sent on.
fn begin_one(sizes: &Sizes, desk: &mut Desk, request: Writer, posts: &mut Posts)
    requires can { CanBegin sizes.now desk.old }
    requires next { rules.BeginsNext sizes.now.depth desk.old request }
    requires none { posts.old ≡ [] }
    ensures { (made : Trace) × rules.DeskBegins sizes.now desk.old desk.new made posts.new }
{
    let notified = is_notified(sizes, desk);
    let requests = desk.requests().stream(request.stream);
    let Some(begun) = begun_of(sizes, request, &requests[request.number as usize]) else {
        unreachable!();
    };
    match at_once(sizes, notified, begun.asks, begun.at) {
        Some(given) => desk.answer_at_once(request, given),
        None => send(desk, begun, posts),
    }
}

/// What the desk does with no item in its inbox: the next request of the lowest stream that may begin one is begun, and it
/// posts this; it says whether a stream may.
pub fn begin_next(sizes: &Sizes, desk: &mut Desk, posts: &mut Posts) -> bool
    requires can { CanBegin sizes.now desk.old }
    requires none { posts.old ≡ [] }
    ensures begun { IsTrue result →
        ActsAlone sizes.now (at.Desk desk.old) [] (at.Desk desk.new) posts.new }
    ensures might { IsTrue result → MayBegin sizes.now (at.Desk desk.old) }
    ensures same { (result ≡ false) → (desk.new ≡ desk.old) × (posts.new ≡ []) }
    ensures none { (result ≡ false) → MayBegin sizes.now (at.Desk desk.old) → ⊥ }
{
    match lowest(sizes, desk) {
        Some(request) => {
            begin_one(sizes, desk, request, posts);
            true
        }
        None => false,
    }
}
