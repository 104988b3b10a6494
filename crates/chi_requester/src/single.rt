//! The work on one request.

ghost use Rattle.std.specs.Prelude.{◌≡◌, ◌+◌, ◌≤◌, ◌++◌, List, [], ◌∷◌, true, IsTrue, MatchResult, vec_len, vec_capacity};
ghost use Rattle.chi_fields.specs.Extent.{lies_in};
ghost use Rattle.chi_history.specs.declared.line.Line.{Line};
ghost use Rattle.chi_requester.specs.Stretches.{IsFollowed};
ghost use Rattle.chi_requester.specs.Work.{IsExecuted};

use crate::fault::WorkFault;
use crate::policy::Policy;
use chi_fields::{Access, Request, decode};
use chi_history::{Credit, Gate, Home, Line, Served};
use std::alloc::Allocator;
use std::sync::Wait;

// Follows the policy after RetryAck: sends the request again on the credit, or gives the credit back.
fn follow<H: Home, R: Wait, A: Allocator>(
    home: &H,
    rt: &R,
    seat: &mut H::Seat,
    request: &Request,
    access: &Access,
    policy: Policy,
    credit: Credit,
    lines: &mut Vec<Line, A>,
)
    requires own { H.belongs home.now seat.old }
    requires holds { H.held seat.old credit ≡ true }
    requires fits { IsTrue (lies_in access.now.addr access.now.len (H.opening home.now).region) }
    requires room { vec_len lines.old + 1 ≤ vec_capacity lines.old }
    ensures own { H.belongs home.now seat.new }
    ensures held { H.held seat.new ≡ H.held seat.old }
    ensures followed { IsFollowed policy (H.opening home.now) (H.held seat.old) credit (H.seen seat.old) (H.seen seat.new)
        request.now access.now lines.old.items lines.new.items }
{
    match policy {
        Policy::Resend => {
            let reply = home.serve_credited(rt, seat, credit, access);
            lines.push_reserved(Line::Completed(*request, reply));
        }
        Policy::Return => home.return_credit(credit),
    }
}

// Refuses the request or serves it, and appends what became of it. After RetryAck the policy is followed.
fn serve_request<H: Home, R: Wait, G: Gate, A: Allocator>(
    home: &H,
    rt: &R,
    seat: &mut H::Seat,
    request: &Request,
    policy: Policy,
    gate: &mut G,
    lines: &mut Vec<Line, A>,
)
    requires own { H.belongs home.now seat.old }
    requires holds { H.held seat.old request.now.src ≡ true }
    requires room { vec_len lines.old + 2 ≤ vec_capacity lines.old }
    ensures own { H.belongs home.now seat.new }
    ensures held { H.held seat.new ≡ H.held seat.old }
    ensures executed { (piece : List Line) × (lines.new.items ≡ lines.old.items ++ piece)
        × IsExecuted (H.opening home.now) policy (H.limit home.now) (H.held seat.old) request.now.src
        (H.seen seat.old) (H.seen seat.new) (request.now ∷ []) piece }
{
    match decode(request, &home.region()) {
        Err(refusal) => lines.push_reserved(Line::Refused(*request, refusal)),
        Ok(access) => match home.serve(rt, seat, request.src, &access, gate) {
            Served::Done { reply, lost: _ } => {
                lines.push_reserved(Line::Completed(*request, reply));
            }
            Served::Retry { credit, lost: _ } => {
                lines.push_reserved(Line::Retried(*request));
                follow(home, rt, seat, request, &access, policy, credit, lines);
            }
        },
    }
}

// Executes one request: takes room for its lines, and then serves it. Without that room nothing is done.
pub(crate) fn work_request<H: Home, R: Wait, G: Gate, A: Allocator>(
    home: &H,
    rt: &R,
    seat: &mut H::Seat,
    request: &Request,
    policy: Policy,
    gate: &mut G,
    lines: &mut Vec<Line, A>,
) -> Result<(), WorkFault>
    requires own { H.belongs home.now seat.old }
    requires holds { H.held seat.old request.now.src ≡ true }
    ensures own { H.belongs home.now seat.new }
    ensures held { H.held seat.new ≡ H.held seat.old }
    ensures executed { MatchResult result
        (λ _. (piece : List Line) × (lines.new.items ≡ lines.old.items ++ piece)
        × IsExecuted (H.opening home.now) policy (H.limit home.now) (H.held seat.old) request.now.src
        (H.seen seat.old) (H.seen seat.new) (request.now ∷ []) piece)
        (λ _. (lines.new.items ≡ lines.old.items) × (H.seen seat.new ≡ H.seen seat.old)) }
{
    lines.reserve(2)?;
    serve_request(home, rt, seat, request, policy, gate, lines);
    Ok(())
}
