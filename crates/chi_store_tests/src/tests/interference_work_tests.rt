//! Requester 0's work where requester 1 adds between its tries.

use crate::tests::comparison::assert_same;
use crate::tests::interferer::{
    Interferer, accepted, add_of_one, fetch_add, first_granule, kept, one_byte, opened,
};
use chi_fields::Request;
use chi_history::{Home, Line};
use chi_lanes::Reply;
use chi_requester::{Policy, work};
use chi_script::write_lines;
use std::process::Abort;
use std::sync::Wait;
use std::test::Fail;

// Executes these requests with so many tries, where requester 1 adds 1 at each pause, and pushes their lines: the
// first granule after them, how many pauses there were, and the numbers of their tries.
fn executed<T: AllocGlobal + Abort + Wait>(
    rt: &T,
    attempts: u8,
    policy: Policy,
    requests: &[Request],
    lines: &mut Vec<Line>,
) -> Result<(Reply, usize, [u8; 16]), Fail> {
    let add = accepted(rt, &add_of_one());
    let (home, mut seat, other, _fetch) = opened(rt, attempts)?;
    let mut gate = Interferer::new(&home, other, u8::MAX, add, None);
    assert!(rt; home.holds(&seat, 0));
    work(&home, rt, &mut seat, 0, requests, policy, &mut gate, lines)?;
    let after = first_granule(rt, &home, &mut seat);
    Ok((after, gate.pauses, gate.tries))
}

// Executes these requests: their lines, the first granule after them, and the tries that were paused before.
fn assert_executed<T: AllocGlobal + Abort + Wait>(
    rt: &T,
    attempts: u8,
    policy: Policy,
    requests: &[Request],
    want: &[Line],
    after: u8,
    tries: &[u8],
) -> Result<(), Fail> {
    let mut lines = Vec::new(rt.alloc());
    let found = executed(rt, attempts, policy, requests, &mut lines)?;
    assert_same(
        &rt,
        (lines.as_slice(), found),
        (want, (one_byte(after), tries.len(), kept(tries))),
    );
    Ok(())
}

#[test]
fn interfering_gate(rt: HostRuntime) -> Result<(), Fail> {
    let fetch = fetch_add();
    let want = [Line::Retried(fetch), Line::Completed(fetch, one_byte(2))];
    assert_executed(&rt, 2, Policy::Resend, &[fetch], &want, 7, &[1, 2])?;
    let want = [Line::Retried(fetch)];
    assert_executed(&rt, 2, Policy::Return, &[fetch], &want, 2, &[1, 2])
}

#[test]
fn interfering_gate_as_text(rt: HostRuntime) -> Result<(), Fail> {
    let mut lines = Vec::new(rt.alloc());
    let _found = executed(&rt, 2, Policy::Resend, &[fetch_add()], &mut lines)?;
    let mut to: Vec<u8> = Vec::new(rt.alloc());
    write_lines(&mut to, lines.as_slice())?;
    let want =
        "0 1 30 AtomicLoad.ADD 3 0000000000001000 retry\n0 1 30 AtomicLoad.ADD 3 0000000000001000 data 02000000000000000000000000000000\n";
    assert_same(&rt, to.as_slice(), want.as_bytes());
    Ok(())
}

#[test]
fn work_under_interference(rt: HostRuntime) -> Result<(), Fail> {
    let fetch = fetch_add();
    let requests = [fetch; 3];
    let want = [Line::Retried(fetch); 3];
    assert_executed(&rt, 1, Policy::Return, &requests, &want, 0x03, &[1, 1, 1])?;
    let want = [
        Line::Retried(fetch),
        Line::Completed(fetch, one_byte(0x01)),
        Line::Retried(fetch),
        Line::Completed(fetch, one_byte(0x07)),
        Line::Retried(fetch),
        Line::Completed(fetch, one_byte(0x0d)),
    ];
    assert_executed(&rt, 1, Policy::Resend, &requests, &want, 0x12, &[1, 1, 1])
}
