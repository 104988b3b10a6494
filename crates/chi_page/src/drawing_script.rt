//! The script's part that draws operations: page/drawing.js, made by `.ci/page write`.

/// The script's part that draws operations.
pub const DRAWING: &str = r#"
// The drawing of one granule's operations: a row for each line of a requester, and a bar for each operation.

const ROW = 26;

// An element with a class, with text in it where there is some. Text is never read as markup.
function element(name, className, text) {
  const made = document.createElement(name);
  if (className) made.className = className;
  if (text !== undefined) made.textContent = text;
  return made;
}

// What is drawn: `choose` is told of the operation that is chosen.
function makeDrawing(trace, choose) {
  const ruler = element("div", "ruler");
  const names = element("div", "names");
  const canvas = element("div", "canvas");
  const body = element("div", "body");
  const scroller = element("div", "scroller");
  canvas.setAttribute("role", "group");
  canvas.tabIndex = -1;
  canvas.setAttribute("aria-label", "Operations by requester over time");
  body.append(names, canvas);
  scroller.append(body);
  const root = element("section", "drawing");
  root.append(ruler, scroller);
  const drawing = { trace, choose, root, ruler, names, canvas, scroller, spans: [], rows: [], rowOf: new Map(), numbers: new Map(), kept: new Set(), marks: new Map(), view: rangeOf([]) };
  listen(drawing);
  return drawing;
}

// The marks of a granule's operations: the one that is blamed, and those that were open with it.
function marksOf(trace, granule) {
  const marks = new Map();
  if (trace.blame === null || trace.blame.granule !== granule) return marks;
  for (const place of trace.blame.open) marks.set(place, "open");
  marks.set(trace.blame.place, "blamed");
  return marks;
}

// Shows a granule: all of it, or of many operations those before the one that is blamed.
function showGranule(drawing, granule, places) {
  const MANY = 60;
  const { trace } = drawing;
  drawing.spans = spansOf(trace.operations, places);
  drawing.rows = rowsOf(drawing.spans);
  drawing.rowOf = new Map();
  drawing.rows.forEach((row, number) => row.spans.forEach((span) => drawing.rowOf.set(span.place, number)));
  drawing.numbers = new Map(granule.steps.map((step, number) => [step.place, number + 1]));
  drawing.marks = marksOf(trace, granule.granule);
  drawing.kept = new Set(drawing.marks.keys());
  drawing.whole = rangeOf(drawing.spans);
  const isBlamed = drawing.marks.size > 0 && drawing.spans.length > MANY;
  drawing.view = isBlamed ? viewBefore(drawing.spans, BigInt(trace.blame.time), MANY / 2) : drawing.whole;
  drawing.selected = isBlamed || drawing.marks.size > 0 ? trace.blame.place : places[0];
  drawing.scroller.scrollTop = 0;
  draw(drawing);
  reveal(drawing);
}

// What is said of a bar to who cannot see it.
function labelOf(drawing, place) {
  const op = drawing.trace.operations[place];
  const mark = { blamed: "blamed, ", open: "open with the blamed one, " }[drawing.marks.get(place)] || "";
  const order = drawing.numbers.has(place) ? `, number ${drawing.numbers.get(place)} in the order` : ", not in the order";
  return `${mark}request ${op.request}, ${op.name} by requester ${op.src}, ${timeOf(op)}, ${dataOf(op)}${order}`;
}

// The bar of one operation, or the block of several.
function makeBar(drawing, bar, top) {
  const made = element("div", "bar");
  made.style.left = `${bar.left}px`;
  made.style.top = `${top}px`;
  made.style.width = `${Math.max(bar.right - bar.left, 3)}px`;
  if (bar.places.length > 1) {
    made.classList.add("block");
    made.dataset.count = bar.places.length;
    made.title = `${bar.places.length} operations: zoom in to see them`;
    return made;
  }
  const place = bar.places[0];
  const op = drawing.trace.operations[place];
  const mark = drawing.marks.get(place);
  const sign = { blamed: "!", open: "o" }[mark] || "";
  made.append(element("span", "", `${sign}${op.request} ${op.name} ${dataOf(op)}`));
  made.dataset.place = place;
  made.dataset.count = 1;
  made.title = labelOf(drawing, place);
  made.setAttribute("role", "button");
  made.setAttribute("aria-label", labelOf(drawing, place));
  made.tabIndex = place === drawing.selected ? 0 : -1;
  if (mark) made.classList.add(mark);
  if (bar.isOpen) made.classList.add("endless");
  if (!drawing.numbers.has(place)) made.classList.add("unordered");
  if (place === drawing.selected) made.classList.add("selected");
  return made;
}

// The rows that can be seen, one more above and one below. In print all can.
function seenRows(drawing) {
  const MOST_PRINTED = 200;
  if (drawing.isPrinted) return [0, Math.min(drawing.rows.length, MOST_PRINTED)];
  const first = Math.max(Math.floor(drawing.scroller.scrollTop / ROW) - 1, 0);
  const count = Math.ceil(drawing.scroller.clientHeight / ROW) + 2;
  return [first, Math.min(first + count, drawing.rows.length)];
}

function drawRuler(drawing, width) {
  const ticks = ticksOf(drawing.view, Math.max(Math.floor(width / 90), 2)).map((time) => {
    const tick = element("span", "tick", String(time));
    tick.style.left = `${columnOf(drawing.view, width, time)}px`;
    return tick;
  });
  drawing.ruler.replaceChildren(...ticks);
}

// Draws what is in view.
function draw(drawing) {
  const width = drawing.canvas.clientWidth;
  drawing.width = width;
  const [first, last] = seenRows(drawing);
  const height = `${(drawing.isPrinted ? last : drawing.rows.length) * ROW}px`;
  drawing.canvas.style.height = height;
  drawing.names.style.height = height;
  const names = [];
  const bars = [];
  for (let number = first; number < last; number += 1) {
    const row = drawing.rows[number];
    const name = element("div", "name", row.number === 0 ? `requester ${row.src}` : "");
    name.style.top = `${number * ROW}px`;
    names.push(name);
    for (const bar of barsOf(row, drawing.view, width, drawing.kept)) bars.push(makeBar(drawing, bar, number * ROW + 2));
  }
  const hadFocus = drawing.canvas.contains(document.activeElement);
  drawing.names.replaceChildren(...names);
  drawing.canvas.replaceChildren(...bars);
  drawRuler(drawing, width);
  if (hadFocus) focusSelected(drawing);
}

// Where the selected operation is not in view, the keys are heard by what it would stand in.
function focusSelected(drawing) {
  const bar = drawing.canvas.querySelector(".selected") || drawing.canvas;
  bar.focus({ preventScroll: true });
}

function setView(drawing, view) {
  drawing.view = view;
  draw(drawing);
}

// Brings the selected operation into view.
function reveal(drawing) {
  const span = drawing.spans.find((it) => it.place === drawing.selected);
  if (span === undefined) return;
  const length = drawing.view.to - drawing.view.from;
  if (span.start >= drawing.view.to || span.end < drawing.view.from) drawing.view = viewOf(span.start - length / 4n, span.start - length / 4n + length);
  const top = drawing.rowOf.get(span.place) * ROW;
  const { scroller } = drawing;
  if (top < scroller.scrollTop) scroller.scrollTop = top;
  if (top + ROW > scroller.scrollTop + scroller.clientHeight) scroller.scrollTop = top + ROW - scroller.clientHeight;
  draw(drawing);
}
"#;
