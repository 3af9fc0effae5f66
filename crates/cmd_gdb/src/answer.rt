//! The answer to one packet.

ghost use Rattle.std.specs.Prelude.{◌≡◌, ◌++◌, IfOk, OnErr, OnOk};
ghost use Rattle.gdb_monitor.specs.Monitoring.{monitored};
ghost use Rattle.gdb_requests.specs.Asked.{asked};
ghost use Rattle.gdb_session.specs.Moves.{move_asked};
ghost use Rattle.gdb_session.specs.Resumes.{resume_asked};
ghost use Rattle.gdb_session.specs.Talk.{talk_of};
ghost use Rattle.gdb_session.specs.declared.answer.Next.TheVariants.{Answered};
ghost use Rattle.gdb_replies.specs.Fixed.{fixed_text};
ghost use Rattle.cmd_gdb.specs.Answers.{AnswersMonitor, AnswersMove, AnswersPacket, AnswersPlain, AnswersRequest, AnswersResume};

use gdb_monitor::{Motion, monitor};
use gdb_replies::{FixedReply, push_bytes};
use gdb_requests::{Plain, Request, RequestFault, ThreadAction, read_request};
use gdb_session::{Move, Next, Talk, answer_move, answer_plain, home};
use std::alloc::{AllocError, Allocator};

/// An answer, and what comes after it.
#[derive(Drop)]
pub struct Answer<A: Allocator> {
    /// Its text; empty for a request that isn't known.
    pub text: Vec<u8, A>,
    /// What comes after it. A move is done.
    pub next: Next,
}

// An answer without a value.
fn fixed_answer<A: Allocator>(alloc: A, reply: FixedReply) -> Result<Answer<A>, AllocError>
    ensures text { IfOk result (λ answer. answer.text.items ≡ fixed_text reply) }
    ensures next { IfOk result (λ answer. answer.next ≡ Answered) }
{
    let mut text = Vec::new(alloc);
    text.extend_from_slice(reply.text().as_bytes())?;
    Ok(Answer {
        text,
        next: Next::Answered,
    })
}

// Does a move, and answers it by its stop.
fn moved<A: Allocator + Copy>(
    alloc: A,
    talk: &mut Talk<A>,
    movement: Move,
) -> Result<Answer<A>, AllocError>
    ensures answers { IfOk result (λ answer. AnswersMove (talk_of talk.old) movement
        answer.text.items answer.next (talk_of talk.new)) }
    ensures err { OnErr result (talk_of talk.new ≡ talk_of talk.old) }
{
    let mut text = Vec::new(alloc);
    answer_move(alloc, talk, movement, &mut text)?;
    Ok(Answer {
        text,
        next: Next::Answered,
    })
}

// Answers a request without a list.
fn answer_simple<A: Allocator + Copy>(
    alloc: A,
    talk: &mut Talk<A>,
    simple: Plain,
) -> Result<Answer<A>, AllocError>
    ensures answers { IfOk result (λ answer. AnswersPlain (talk_of talk.old) simple
        (move_asked (talk_of talk.old) simple) answer.text.items answer.next (talk_of talk.new)) }
    ensures err { OnErr result (talk_of talk.new ≡ talk_of talk.old) }
{
    if let Some(movement) = talk.move_asked(simple) {
        return moved(alloc, talk, movement);
    }
    let mut text = Vec::new(alloc);
    let next = answer_plain(alloc, talk, simple, &mut text)?;
    Ok(Answer { text, next })
}

// Answers actions of threads.
fn resume<A: Allocator + Copy>(
    alloc: A,
    talk: &mut Talk<A>,
    actions: &[ThreadAction],
) -> Result<Answer<A>, AllocError>
    ensures answers { IfOk result (λ answer. AnswersResume (talk_of talk.old)
        (resume_asked (talk_of talk.old) actions.now) answer.text.items answer.next
        (talk_of talk.new)) }
    ensures err { OnErr result (talk_of talk.new ≡ talk_of talk.old) }
{
    match talk.resume_asked(actions) {
        Some(movement) => moved(alloc, talk, movement),
        None => fixed_answer(alloc, FixedReply::BadOperand),
    }
}

// Does a command of `monitor`, and answers with its text. A move forgets steps alone.
fn obey<A: Allocator + Copy>(
    alloc: A,
    talk: &mut Talk<A>,
    command: &[u8],
) -> Result<Answer<A>, AllocError>
    ensures answers { IfOk result (λ answer. AnswersMonitor (talk_of talk.old)
        (monitored (talk_of talk.old).session command.now) answer.text.items answer.next
        (talk_of talk.new)) }
    ensures err { OnErr result (talk_of talk.new ≡ talk_of talk.old) }
{
    let home = home(alloc, &talk.debugger)?;
    let told = monitor(alloc, &mut talk.debugger, command)?;
    let mut text = Vec::new(alloc);
    if push_bytes(&mut text, told.text.as_bytes()).is_err() {
        talk.debugger.settle(home);
        return Err(AllocError);
    }
    match told.motion {
        Motion::Moved => talk.forget_alone(),
        Motion::Stayed => {}
    }
    Ok(Answer {
        text,
        next: Next::Answered,
    })
}

/// Answers a request, and does what it asks for. Actions that ask for no move are refused with
/// E01. If the host refuses memory, nothing has changed.
#[tactic(auto, unfolding(crate::specs::Answers::AnswersRequest))]
pub fn answer_request<A: Allocator + Copy>(
    alloc: A,
    talk: &mut Talk<A>,
    request: Request<A>,
) -> Result<Answer<A>, AllocError>
    ensures answers { IfOk result (λ answer. AnswersRequest (talk_of talk.old) (asked request)
        answer.text.items answer.next (talk_of talk.new)) }
    ensures err { OnErr result (talk_of talk.new ≡ talk_of talk.old) }
{
    match request {
        Request::Plain(simple) => answer_simple(alloc, talk, simple),
        Request::Resume(actions) => resume(alloc, talk, &actions),
        Request::Monitor(command) => obey(alloc, talk, &command),
    }
}

/// Answers a packet with this data. One that is refused changes nothing: bad operands are answered
/// by E01, a packet that isn't known by an empty one. If the host refuses memory, nothing has
/// changed.
#[tactic(auto, unfolding(crate::specs::Answers::AnswersPacket))]
pub fn answer_packet<A: Allocator + Copy>(
    alloc: A,
    talk: &mut Talk<A>,
    body: &[u8],
) -> Result<Answer<A>, AllocError>
    ensures answers { IfOk result (λ answer. AnswersPacket (talk_of talk.old) body.now
        answer.text.items answer.next (talk_of talk.new)) }
    ensures err { OnErr result (talk_of talk.new ≡ talk_of talk.old) }
{
    match read_request(alloc, body) {
        Ok(request) => answer_request(alloc, talk, request),
        Err(RequestFault::BadOperand) => fixed_answer(alloc, FixedReply::BadOperand),
        Err(RequestFault::Unknown) => fixed_answer(alloc, FixedReply::Unsupported),
        Err(RequestFault::Memory) => Err(AllocError),
    }
}
