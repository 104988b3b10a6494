//! What a monitor at the home tells of requests and of words.

use crate::requests::BASE;
use crate::times::Times;
use chi_events::{Completion, Event, EventKind, Requested, WordTold};
use chi_fields::Request;
use chi_history::Line;
use chi_lanes::Reply;
use chi_trace::RequestFields;
use std::alloc::AllocError;

/// The events that are told, and the number of the next request.
#[derive(Drop)]
pub(crate) struct Told {
    pub(crate) events: Vec<Event>,
    next_id: u64,
}

/// The request with this number as a monitor sees it, with its data.
fn fields(number: u64, request: &Request) -> RequestFields {
    RequestFields {
        number,
        src: u16::from(request.src),
        txn: u16::from(request.txn),
        opcode: request.opcode,
        size: request.size,
        addr: request.addr,
        endian: request.endian,
        be: request.be,
        lanes: request.lanes,
    }
}

impl Told {
    /// Nothing is told.
    pub(crate) fn new(events: Vec<Event>) -> Told {
        Told { events, next_id: 0 }
    }

    /// A request that was begun and ended at these times: it was completed with this reply, or it took no effect.
    pub(crate) fn tell(
        &mut self,
        request: &Request,
        begun: u64,
        ended: u64,
        reply: Option<Reply>,
    ) -> Result<(), AllocError> {
        let id = self.next_id;
        self.next_id = id.wrapping_add(1);
        let requested = Requested {
            id,
            fields: fields(id, request),
            has_data: true,
        };
        self.events.push(Event {
            time: begun,
            kind: EventKind::Request(requested),
        })?;
        let kind = match reply {
            Some(_) => EventKind::Reply(Completion { id, reply }),
            None => EventKind::Dropped { id },
        };
        self.events.push(Event { time: ended, kind })?;
        Ok(())
    }

    /// What became of the requests of a worker in a round: each was completed, or it was answered by RetryAck and dropped.
    pub(crate) fn tell_lines(&mut self, lines: &[Line], times: &Times) -> Result<(), AllocError> {
        for (place, line) in lines.iter().enumerate() {
            let (begun, answered) = (times.begun(place), times.answered(place));
            match line {
                Line::Completed(request, reply) => {
                    self.tell(request, begun, answered, Some(*reply))?;
                }
                Line::Retried(request) => self.tell(request, begun, answered, None)?,
                Line::Refused(_, _) => {}
            }
        }
        Ok(())
    }

    /// The words of all granules, as they are before the first request or after the last one.
    pub(crate) fn tell_words(
        &mut self,
        words: &[u64],
        time: u64,
        is_final: bool,
    ) -> Result<(), AllocError> {
        let mut granule = BASE / 8;
        for word in words {
            let told = WordTold {
                number: 0,
                granule,
                word: *word,
            };
            let kind = if is_final {
                EventKind::Final(told)
            } else {
                EventKind::Word(told)
            };
            self.events.push(Event { time, kind })?;
            granule = granule.wrapping_add(1);
        }
        Ok(())
    }

    /// Puts what is told in the order of the times.
    pub(crate) fn sort(&mut self) -> Result<(), AllocError> {
        self.events.sort_by_key(|event| event.time)?;
        Ok(())
    }
}
