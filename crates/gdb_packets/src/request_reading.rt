//! Reading what a packet asks for.

ghost use Rattle.std.specs.Prelude.{◌≡◌, ◌∷◌, ℕ, drop, option_map};
ghost use Rattle.std.specs.Str.{bytes_eq};
ghost use Rattle.gdb_packets.specs.declared.requests.MarkKind.{MarkKind};
ghost use Rattle.gdb_packets.specs.declared.requests.Request.{Request};
ghost use Rattle.gdb_packets.specs.declared.requests.Request.TheVariants as requests;
ghost use Rattle.gdb_packets.specs.Requests as spec;

use crate::request_actions::action_in;
use crate::request_parts::{mark_at, number_in, pair_in, thread_in};
use crate::requests::{Action, MarkKind, Request};

/// What a payload asks for.
#[tactic(auto, unfolding(crate::specs::Requests::request_of))]
pub fn read_request(payload: &[u8]) -> Request
    ensures { result ≡ spec.request_of payload.now }
{
    match payload {
        [] => Request::Unknown,
        [letter, rest @ ..] => by_letter(*letter, rest, payload),
    }
}

/// The digits that spell the line of a `qRcmd` packet.
pub fn monitor_digits(payload: &[u8]) -> &[u8]
    ensures { result.now ≡ drop 6 payload.now }
{
    match payload {
        [_, _, _, _, _, _, digits @ ..] => digits,
        _ => &[],
    }
}

/// What a payload asks for that begins with this letter, after which these bytes stand.
#[tactic(auto, unfolding(crate::specs::Requests::by_letter))]
fn by_letter(letter: u8, bytes: &[u8], payload: &[u8]) -> Request
    requires { payload.now ≡ letter ∷ bytes.now }
    ensures { result ≡ spec.by_letter letter bytes.now }
{
    match letter {
        b'?' => if_alone(Request::WhyStopped, bytes),
        b'g' => if_alone(Request::Registers, bytes),
        b'p' => or_refused(register_in(bytes)),
        b'm' => or_refused(memory_in(bytes)),
        b'H' => or_refused(focus_in(bytes)),
        b'T' => or_refused(alive_in(bytes)),
        b'b' => back_in(bytes),
        b'Z' => or_refused(set_mark_in(bytes)),
        b'z' => or_refused(clear_mark_in(bytes)),
        b'D' => Request::Detach,
        b'k' => Request::Kill,
        b'G' | b'M' | b'P' | b'X' => Request::Refused,
        _ => by_word(payload),
    }
}

/// A request whose name has nothing after it.
fn if_alone(request: Request, bytes: &[u8]) -> Request
    ensures { result ≡ spec.if_alone request bytes.now }
{
    if bytes.is_empty() {
        request
    } else {
        Request::Refused
    }
}

/// A request, or that it is refused.
fn or_refused(request: Option<Request>) -> Request
    ensures { result ≡ spec.or_refused request }
{
    match request {
        Some(request) => request,
        None => Request::Refused,
    }
}

/// `p`
#[tactic(auto, unfolding(crate::specs::Requests::register_in))]
fn register_in(bytes: &[u8]) -> Option<Request>
    ensures { result ≡ spec.register_in bytes.now }
{
    let number = number_in(bytes)?;
    Some(Request::Register(number))
}

/// `m`
#[tactic(auto, unfolding(crate::specs::Requests::memory_in))]
fn memory_in(bytes: &[u8]) -> Option<Request>
    ensures { result ≡ spec.memory_in bytes.now }
{
    let (address, count) = pair_in(bytes)?;
    Some(Request::Memory(address, count))
}

/// `T`
#[tactic(auto, unfolding(crate::specs::Requests::alive_in))]
fn alive_in(bytes: &[u8]) -> Option<Request>
    ensures { result ≡ spec.alive_in bytes.now }
{
    let thread = thread_in(bytes)?;
    Some(Request::IsAlive(thread))
}

/// `H`
#[tactic(auto, unfolding(crate::specs::Requests::focus_in))]
fn focus_in(bytes: &[u8]) -> Option<Request>
    ensures { result ≡ spec.focus_in bytes.now }
{
    let (operation, rest) = bytes.split_first()?;
    match *operation {
        b'g' => {
            let thread = thread_in(rest)?;
            Some(Request::FocusForState(thread))
        }
        b'c' => {
            let thread = thread_in(rest)?;
            Some(Request::FocusForSteps(thread))
        }
        _ => None,
    }
}

/// `bs` and `bc`
#[tactic(auto, unfolding(crate::specs::Requests::back_in))]
fn back_in(bytes: &[u8]) -> Request
    ensures { result ≡ spec.back_in bytes.now }
{
    if is(bytes, "s") {
        Request::Go(Action::StepBack)
    } else if is(bytes, "c") {
        Request::Go(Action::ContinueBack)
    } else {
        Request::Refused
    }
}

/// `Z`
fn set_mark_in(bytes: &[u8]) -> Option<Request>
    ensures { result ≡ spec.mark_in requests.SetMark bytes.now }
{
    let (kind, address, length) = mark_in(bytes)?;
    Some(Request::SetMark(kind, address, length))
}

/// `z`
fn clear_mark_in(bytes: &[u8]) -> Option<Request>
    ensures { result ≡ spec.mark_in requests.ClearMark bytes.now }
{
    let (kind, address, length) = mark_in(bytes)?;
    Some(Request::ClearMark(kind, address, length))
}

/// A kind, a comma, an address and a length.
#[tactic(auto, unfolding(crate::specs::Requests::mark_in))]
fn mark_in(bytes: &[u8]) -> Option<(MarkKind, u32, u32)>
    ensures { (makes : MarkKind → ℕ → ℕ → Request)
        → option_map (λ found. makes found.0 found.1 found.2) result ≡ spec.mark_in makes bytes.now }
{
    let (digit, rest) = bytes.split_first()?;
    let kind = kind_of(*digit)?;
    let rest = mark_at(b',', rest)?;
    let (address, length) = pair_in(rest)?;
    Some((kind, address, length))
}

/// The kind of a mark.
#[tactic(auto, unfolding(crate::specs::Requests::kind_of))]
fn kind_of(digit: u8) -> Option<MarkKind>
    ensures { result ≡ spec.kind_of digit }
{
    match digit {
        b'0' => Some(MarkKind::SoftwareBreak),
        b'1' => Some(MarkKind::HardwareBreak),
        b'2' => Some(MarkKind::Write),
        b'3' => Some(MarkKind::Read),
        b'4' => Some(MarkKind::Access),
        _ => None,
    }
}

/// Whether a payload is this word.
fn is(payload: &[u8], name: &str) -> bool
    ensures { result ≡ bytes_eq payload.now name.now }
{
    payload == name.as_bytes()
}

/// What follows a name at the front.
#[tactic(auto, unfolding(crate::specs::Requests::behind))]
fn behind<'a>(name: &str, bytes: &'a [u8]) -> Option<&'a [u8]>
    ensures { option_map (λ rest. rest.now) result ≡ spec.behind name.now bytes.now }
{
    if !bytes.starts_with(name.as_bytes()) {
        return None;
    }
    let (_, rest) = bytes.split_at(name.len());
    Some(rest)
}

/// What a payload asks for that begins with a word.
#[tactic(auto, unfolding(crate::specs::Requests::by_word))]
fn by_word(payload: &[u8]) -> Request
    ensures { result ≡ spec.by_word payload.now }
{
    if let Some(rest) = behind("vCont;", payload) {
        return or_refused(action_in(rest));
    }
    if let Some(_) = behind("vKill;", payload) {
        return Request::KillProcess;
    }
    by_name(payload)
}

/// What a payload asks for that is a word.
fn by_name(payload: &[u8]) -> Request
    ensures { result ≡ spec.by_name payload.now }
{
    if is(payload, "vCont?") {
        Request::Actions
    } else if is(payload, "qfThreadInfo") {
        Request::FirstThreads
    } else if is(payload, "qsThreadInfo") {
        Request::MoreThreads
    } else if is(payload, "qC") {
        Request::CurrentThread
    } else if is(payload, "QStartNoAckMode") {
        Request::NoAcknowledgments
    } else {
        by_query(payload)
    }
}

/// What a question asks for.
#[tactic(auto, unfolding(crate::specs::Requests::by_query))]
fn by_query(payload: &[u8]) -> Request
    ensures { result ≡ spec.by_query payload.now }
{
    if let Some(_) = behind("qSupported", payload) {
        return Request::Supported;
    }
    if let Some(rest) = behind("qXfer:features:read:", payload) {
        return feature_in(rest);
    }
    if let Some(rest) = behind("qXfer:memory-map:read::", payload) {
        return or_refused(memory_map_in(rest));
    }
    if let Some(rest) = behind("qThreadExtraInfo,", payload) {
        return or_refused(thread_info_in(rest));
    }
    if let Some(_) = behind("qAttached", payload) {
        return Request::IsAttached;
    }
    if let Some(_) = behind("qRcmd,", payload) {
        return Request::Monitor;
    }
    Request::Unknown
}

/// `qXfer:features:read:`
#[tactic(auto, unfolding(crate::specs::Requests::feature_in))]
fn feature_in(bytes: &[u8]) -> Request
    ensures { result ≡ spec.feature_in bytes.now }
{
    match behind("target.xml:", bytes) {
        Some(rest) => or_refused(description_in(rest)),
        None => Request::OtherAnnex,
    }
}

/// `qXfer:features:read:target.xml:`
#[tactic(auto, unfolding(crate::specs::Requests::description_in))]
fn description_in(bytes: &[u8]) -> Option<Request>
    ensures { result ≡ spec.description_in bytes.now }
{
    let (offset, count) = pair_in(bytes)?;
    Some(Request::TargetDescription(offset, count))
}

/// `qXfer:memory-map:read::`
#[tactic(auto, unfolding(crate::specs::Requests::memory_map_in))]
fn memory_map_in(bytes: &[u8]) -> Option<Request>
    ensures { result ≡ spec.memory_map_in bytes.now }
{
    let (offset, count) = pair_in(bytes)?;
    Some(Request::MemoryMap(offset, count))
}

/// `qThreadExtraInfo,`
#[tactic(auto, unfolding(crate::specs::Requests::thread_info_in))]
fn thread_info_in(bytes: &[u8]) -> Option<Request>
    ensures { result ≡ spec.thread_info_in bytes.now }
{
    let thread = thread_in(bytes)?;
    Some(Request::ThreadInfo(thread))
}
