//! The script's part that says where things stand: page/layout.js, made by `.ci/page write`.

/// The script's part that says where things stand.
pub const LAYOUT: &str = r#"
// Where the parts of a page stand: functions of the trace's data alone, which touch no document.
"use strict";

// An operation that was never seen to end is open from its start on.
const OPEN = 2n ** 64n - 1n;

const FINDINGS = ["not explained", "undecided", "explained"];

// An operation and a step of an order, which stand in the data as arrays.
function operationOf([request, src, txn, op, name, size, addr, endian, be, lanes, len, start, end, reply]) {
  return { request, src, txn, op, name, size, addr, endian, be, lanes, len, start, end, reply };
}

function stepOf([place, before, after]) {
  return { place, before, after };
}

// What is blamed, by the places of its operations: in the data each stands with the number of its request.
function blameOf(blame, operations) {
  if (blame === null) return null;
  const places = new Map(operations.map((op, place) => [op.request, place]));
  return { ...blame, place: places.get(blame.blamed.request), open: blame.open.map((op) => places.get(op.request)) };
}

// The trace that the data are.
function traceOf(data) {
  const granules = data.granules.map((granule) => ({ ...granule, steps: granule.steps.map(stepOf) }));
  const operations = data.operations.map(operationOf);
  return { blame: blameOf(data.blame, operations), granules, operations };
}

// The address of the granule of an address: 16 hex digits, of which the last is 0 or 8.
function granuleOf(addr) {
  return addr.slice(0, 15) + (parseInt(addr[15], 16) < 8 ? "0" : "8");
}

// The places of each granule's operations, in the order of their starts.
function placesByGranule(operations) {
  const places = new Map();
  operations.forEach((op, place) => {
    const granule = granuleOf(op.addr);
    if (!places.has(granule)) places.set(granule, []);
    places.get(granule).push(place);
  });
  return places;
}

// When an operation started and ended. Times can be greater than a number holds exactly.
function startOf(op) {
  return BigInt(op.start);
}

function endOf(op) {
  return op.end === null ? OPEN : BigInt(op.end);
}

// The range of time that some operations take: from the first start to the last start or end that is known.
function rangeOf(spans) {
  let from = OPEN;
  let to = 0n;
  for (const span of spans) {
    if (span.start < from) from = span.start;
    if (span.start > to) to = span.start;
    if (span.end !== OPEN && span.end > to) to = span.end;
  }
  if (from > to) return { from: 0n, to: 1n };
  return { from, to: to === from ? to + 1n : to };
}

// The place of each operation with its times.
function spansOf(operations, places) {
  return places.map((place) => {
    const op = operations[place];
    return { place, src: op.src, start: startOf(op), end: endOf(op) };
  });
}

// A line of a requester that is free from some time on; of these the one that is free first stands at the front of a heap.
function sink(heap, at) {
  for (;;) {
    let least = at;
    for (const child of [2 * at + 1, 2 * at + 2]) {
      if (child < heap.length && heap[child].end < heap[least].end) least = child;
    }
    if (least === at) return;
    [heap[at], heap[least]] = [heap[least], heap[at]];
    at = least;
  }
}

function rise(heap, at) {
  while (at > 0 && heap[at].end < heap[(at - 1) >> 1].end) {
    const above = (at - 1) >> 1;
    [heap[at], heap[above]] = [heap[above], heap[at]];
    at = above;
  }
}

// The lines of each requester, in the order of the requesters' numbers. Operations of one requester that overlap stand on
// several lines, and no two that overlap on one. The spans come in the order of their starts.
function rowsOf(spans) {
  const requesters = new Map();
  for (const span of spans) {
    if (!requesters.has(span.src)) requesters.set(span.src, { lines: [], heap: [] });
    const { lines, heap } = requesters.get(span.src);
    if (heap.length > 0 && heap[0].end < span.start) {
      lines[heap[0].line].push(span);
      heap[0].end = span.end;
      sink(heap, 0);
    } else {
      heap.push({ line: lines.length, end: span.end });
      lines.push([span]);
      rise(heap, heap.length - 1);
    }
  }
  const numbers = [...requesters.keys()].sort((a, b) => a - b);
  return numbers.flatMap((src) => requesters.get(src).lines.map((line, number) => ({ src, number, spans: line })));
}

// Where a time stands in a view of this width, in pixels.
function columnOf(view, width, time) {
  return (Number(time - view.from) / Number(view.to - view.from)) * width;
}

// The bars of a row that are in view. Those that are too short to be told apart are one block, but for those that are kept.
function barsOf(row, view, width, kept) {
  const SHORT = 4;
  const bars = [];
  let block = null;
  for (const span of row.spans) {
    if (span.end < view.from || span.start > view.to) continue;
    const left = Math.max(columnOf(view, width, span.start), 0);
    const right = span.end > view.to ? width : columnOf(view, width, span.end);
    const short = right - left < SHORT && !kept.has(span.place);
    if (short && block !== null && left - block.right < SHORT) {
      block.right = Math.max(block.right, right);
      block.places.push(span.place);
      continue;
    }
    const bar = { places: [span.place], left, right, isOpen: span.end === OPEN };
    bars.push(bar);
    block = short ? bar : null;
  }
  return bars;
}

// The part of a view from one fraction of it to another, at least one unit of time long and within the range of a time.
function viewOf(from, to) {
  const first = from < 0n ? 0n : from > OPEN - 1n ? OPEN - 1n : from;
  const last = to > OPEN ? OPEN : to;
  return { from: first, to: last > first ? last : first + 1n };
}

// The view zoomed about a fraction of its width: numerator to denominator is how long it then is.
function zoomed(view, fraction, numerator, denominator) {
  const span = view.to - view.from;
  let length = (span * BigInt(numerator)) / BigInt(denominator);
  if (length < 1n) length = 1n;
  if (length === span && numerator > denominator) length += 1n;
  const before = (length * BigInt(Math.round(fraction * 4096))) / 4096n;
  const fixed = view.from + (span * BigInt(Math.round(fraction * 4096))) / 4096n;
  return viewOf(fixed - before, fixed - before + length);
}

// The view moved by a fraction of its width.
function panned(view, fraction) {
  const span = view.to - view.from;
  let by = (span * BigInt(Math.round(fraction * 4096))) / 4096n;
  if (by === 0n && fraction !== 0) by = fraction < 0 ? -1n : 1n;
  const from = view.from + by < 0n ? 0n : view.from + by > OPEN - span ? OPEN - span : view.from + by;
  return viewOf(from, from + span);
}

// The view that begins with the last operations before a time and ends a little after it.
function viewBefore(spans, time, count) {
  const earlier = spans.filter((span) => span.start <= time);
  const first = earlier[Math.max(earlier.length - count, 0)];
  const from = first === undefined ? 0n : first.start;
  return viewOf(from, time + (time - from) / 8n + 1n);
}

// Times at even steps in a view, no more than so many.
function ticksOf(view, most) {
  const span = view.to - view.from;
  let step = 1n;
  for (let factor = 0; span / step >= BigInt(most); factor += 1) step = [1n, 2n, 5n][(factor + 1) % 3] * 10n ** BigInt(Math.floor((factor + 1) / 3));
  const ticks = [];
  for (let time = ((view.from + step - 1n) / step) * step; time <= view.to; time += step) ticks.push(time);
  return ticks;
}

// The bytes that hex digits stand for, each as two of them.
function bytesOf(digits) {
  return digits.match(/../g) || [];
}

// The 16 lanes of an operation's packet: the byte that was sent, whether it is enabled, what the lane is for, and the byte
// that came back. Lane L is the byte at the aligned 16 bytes' address plus L.
function lanesOf(op) {
  const first = parseInt(op.addr[15], 16);
  const isCompare = op.name === "AtomicCompare";
  const window = isCompare ? first - (first % (2 * op.len)) : first;
  const sent = bytesOf(op.lanes);
  const returned = op.reply === null || op.reply === "comp" ? null : bytesOf(op.reply);
  return sent.map((byte, lane) => {
    const isOperand = lane >= first && lane < first + op.len;
    const isSwap = isCompare && !isOperand && lane >= window && lane < window + 2 * op.len;
    const use = isSwap ? "swap" : !isOperand ? "" : isCompare ? "compare" : "operand";
    return {
      lane,
      addr: op.addr.slice(0, 15) + lane.toString(16),
      sent: op.name === "ReadNoSnp" ? null : byte,
      enabled: ((op.be >> lane) & 1) === 1,
      use,
      returned: isOperand && returned !== null ? returned[lane] : null,
    };
  });
}

// The bytes of some lanes in address order.
function textOf(lanes, member) {
  return lanes.map((lane) => lane[member]).join("");
}

// What was sent for an operation, and what came back, as the rows of an answer have it; a byte that is not enabled is --.
function sentOf(op) {
  const used = (use) => lanesOf(op).filter((lane) => lane.use === use);
  if (op.name === "ReadNoSnp") return "";
  if (op.name === "AtomicCompare") return `${textOf(used("compare"), "sent")} swap ${textOf(used("swap"), "sent")}`;
  if (op.name === "WriteNoSnpPtl") return used("operand").map((lane) => (lane.enabled ? lane.sent : "--")).join("");
  return textOf(used("operand"), "sent");
}

function returnedOf(op) {
  if (op.reply === null) return "no reply";
  return op.reply === "comp" ? "comp" : textOf(lanesOf(op).filter((lane) => lane.returned !== null), "returned");
}

function dataOf(op) {
  const sent = op.name === "ReadNoSnp" ? "" : `${op.name === "AtomicCompare" ? "compare" : "sent"} ${sentOf(op)} `;
  return `${sent}${op.reply === null || op.reply === "comp" ? "" : "returned "}${returnedOf(op)}`;
}

// Where its operand stands in the granule, and how long that is.
function operandOf(op) {
  return `+${parseInt(op.addr[15], 16) % 8} L${op.len}`;
}

// When an operation was under way.
function timeOf(op) {
  return op.end === null ? `from ${op.start} on` : `${op.start} to ${op.end}`;
}

// The number that bytes are in the operation's byte order.
function valueOf(op, digits) {
  const bytes = bytesOf(digits);
  return BigInt("0x" + (op.endian === 1 ? bytes : bytes.reverse()).join(""));
}

// The granules as they are listed: those that are not explained first, and of each kind by address.
function listedGranules(granules) {
  return [...granules].sort((a, b) => FINDINGS.indexOf(a.finding) - FINDINGS.indexOf(b.finding) || (a.granule < b.granule ? -1 : 1));
}

if (typeof module !== "undefined") {
  module.exports = { OPEN, barsOf, columnOf, dataOf, granuleOf, lanesOf, listedGranules, operandOf, panned, placesByGranule, rangeOf, returnedOf, rowsOf, sentOf, spansOf, textOf, ticksOf, timeOf, valueOf, traceOf, viewBefore, zoomed };
}
"#;
