//! The text of a transcript to a writer.

ghost use Rattle.std.specs.Prelude.{◌≡◌, ◌+◌, ◌*◌, ◌^◌, ◌≤◌, ◌++◌, codes, length};
ghost use Rattle.chi_script.specs.Transcript.{request_of_line, request_text, outcome_text, line_text, text, granule_text, granules_text};
ghost use Rattle.chi_script.specs.WriterBytes.{Puts, Writes};

use crate::device::{WriteFault, put_page};
use crate::page::Page;
use crate::parts::put_parts;
use chi_fields::{Region, Request, op_name, refusal_name};
use chi_history::Line;
use chi_lanes::Reply;
use chi_text::Part::{Address, Number, Opcode, Packet, Text, Word};
use std::io::Write;

// The request that a line reports.
fn request_of_line(line: &Line) -> Request
    ensures { result ≡ request_of_line line.now }
{
    match line {
        Line::Completed(request, _) => *request,
        Line::Refused(request, _) => *request,
        Line::Retried(request) => *request,
    }
}

// A request's fields, each with the space after it.
fn put_request<W: Write>(to: &mut W, page: &mut Page, request: &Request) -> Result<(), WriteFault>
    ensures { Writes (W.contents to.old) page.old (W.contents to.new) page.new result (request_text request.now) }
{
    put_parts(
        to,
        page,
        &[
            Number(u64::from(request.src)),
            Text(" "),
            Number(u64::from(request.txn)),
            Text(" "),
            Opcode(request.opcode),
            Text(" "),
            Text(op_name(request.opcode)),
            Text(" "),
            Number(u64::from(request.size)),
            Text(" "),
            Address(request.addr),
            Text(" "),
        ],
    )
}

// What became of a request, and the line's end.
fn put_outcome<W: Write>(to: &mut W, page: &mut Page, line: &Line) -> Result<(), WriteFault>
    ensures { Writes (W.contents to.old) page.old (W.contents to.new) page.new result (outcome_text line.now ++ codes "\n") }
{
    match line {
        Line::Completed(_, Reply::Comp) => put_parts(to, page, &[Text("comp\n")]),
        Line::Completed(_, Reply::CompData(lanes)) => {
            put_parts(to, page, &[Text("data "), Packet(*lanes), Text("\n")])
        }
        Line::Refused(_, refusal) => {
            put_parts(
                to,
                page,
                &[Text("refused "), Text(refusal_name(*refusal)), Text("\n")],
            )
        }
        Line::Retried(_) => put_parts(to, page, &[Text("retry\n")]),
    }
}

// The line of a request.
fn put_line<W: Write>(to: &mut W, page: &mut Page, line: &Line) -> Result<(), WriteFault>
    ensures { Writes (W.contents to.old) page.old (W.contents to.new) page.new result (line_text line.now) }
{
    put_request(to, page, &request_of_line(line))?;
    put_outcome(to, page, line)
}

// The lines of requests.
fn put_lines<W: Write>(to: &mut W, page: &mut Page, lines: &[Line]) -> Result<(), WriteFault>
    ensures { Writes (W.contents to.old) page.old (W.contents to.new) page.new result (text lines.now) }
{
    'lines: for line in lines {
        put_line(to, page, line)?;
    }
    Ok(())
}

// The memory line of a granule.
fn put_granule<W: Write>(
    to: &mut W,
    page: &mut Page,
    addr: u64,
    word: u64,
) -> Result<(), WriteFault>
    ensures { Writes (W.contents to.old) page.old (W.contents to.new) page.new result (granule_text addr word) }
{
    put_parts(
        to,
        page,
        &[Text("m "), Address(addr), Text(" "), Word(word), Text("\n")],
    )
}

// The memory lines of granules from an address on.
fn put_memory<W: Write>(
    to: &mut W,
    page: &mut Page,
    base: u64,
    words: &[u64],
) -> Result<(), WriteFault>
    requires { base + 8 * length words.now ≤ 2 ^ 52 }
    ensures { Writes (W.contents to.old) page.old (W.contents to.new) page.new result (granules_text base words.now) }
{
    let mut addr = base;
    'words: for word in words {
        put_granule(to, page, addr, *word)?;
        addr += 8;
    }
    Ok(())
}

/// Writes the lines of requests, each with its end, through a buffer of the call's own. It takes no memory.
///
/// After a fault exactly a prefix of the text has been written.
///
/// ```
/// write_lines(&mut out, &[Line::Retried(request)])?; // 0 1 30 AtomicLoad.ADD 3 0000000000001000 retry
/// ```
pub fn write_lines<W: Write>(to: &mut W, lines: &[Line]) -> Result<(), WriteFault>
    ensures { Puts (W.contents to.old) (W.contents to.new) result (text lines.now) }
{
    let mut page = Page::new();
    put_lines(to, &mut page, lines)?;
    put_page(to, &mut page)
}

/// Writes the lines of requests, and then a memory line for each granule of the region, in rising order of
/// address. `words` has a word for each granule: byte `k` of a word, which is its bits `8k` to `8k+7`, stands at
/// the granule's address plus `k`. It takes no memory.
///
/// After a fault exactly a prefix of the text has been written.
///
/// ```
/// write_transcript(&mut out, &[], &Region::new(0x1000, 1)?, &[1])?; // m 0000000000001000 0100000000000000
/// ```
pub fn write_transcript<W: Write>(
    to: &mut W,
    lines: &[Line],
    region: &Region,
    words: &[u64],
) -> Result<(), WriteFault>
    requires { length words.now ≡ region.now.granules }
    ensures { Puts (W.contents to.old) (W.contents to.new) result (text lines.now ++ granules_text region.now.base words.now) }
{
    let mut page = Page::new();
    put_lines(to, &mut page, lines)?;
    put_memory(to, &mut page, region.base(), words)?;
    put_page(to, &mut page)
}
