//! The script's part that moves the drawing: page/moving.js, made by `.ci/page write`.

/// The script's part that moves the drawing.
pub const MOVING: &str = r#"
// How the drawing is moved and an operation of it chosen: by keys, mouse and wheel.

const STEP = 0.2;

// Chooses an operation.
function select(drawing, place, isFocused) {
  drawing.kept.delete(drawing.selected);
  for (const marked of drawing.marks.keys()) drawing.kept.add(marked);
  drawing.selected = place;
  drawing.kept.add(place);
  reveal(drawing);
  if (isFocused) focusSelected(drawing);
  drawing.choose(place);
}

// The operation beside the selected one: before or after it on its line, or the nearest one on another line.
function beside(drawing, across, along) {
  const number = drawing.rowOf.get(drawing.selected);
  const { spans } = drawing.rows[number];
  const at = spans.findIndex((span) => span.place === drawing.selected);
  if (across === 0) return (spans[at + along] || spans[at]).place;
  const other = drawing.rows[number + across];
  if (other === undefined) return drawing.selected;
  const far = (span) => (span.start > spans[at].start ? span.start - spans[at].start : spans[at].start - span.start);
  return other.spans.reduce((near, span) => (far(span) < far(near) ? span : near)).place;
}

// Where keys zoom about: the start of the selected operation, or the middle where that is not in view.
function middleOf(drawing) {
  const { start } = drawing.spans.find((span) => span.place === drawing.selected);
  const fraction = columnOf(drawing.view, 1, start);
  return fraction >= 0 && fraction <= 1 ? fraction : 0.5;
}

// What a key does to the drawing, or nothing.
function keyed(drawing, key) {
  const { view } = drawing;
  const moves = {
    ArrowLeft: () => select(drawing, beside(drawing, 0, -1), true),
    ArrowRight: () => select(drawing, beside(drawing, 0, 1), true),
    ArrowUp: () => select(drawing, beside(drawing, -1, 0), true),
    ArrowDown: () => select(drawing, beside(drawing, 1, 0), true),
    Enter: () => select(drawing, drawing.selected, true),
    " ": () => select(drawing, drawing.selected, true),
    "+": () => setView(drawing, zoomed(view, middleOf(drawing), 1, 2)),
    "=": () => setView(drawing, zoomed(view, middleOf(drawing), 1, 2)),
    "-": () => setView(drawing, zoomed(view, middleOf(drawing), 2, 1)),
    "<": () => setView(drawing, panned(view, -STEP)),
    ">": () => setView(drawing, panned(view, STEP)),
    PageUp: () => setView(drawing, panned(view, -1)),
    PageDown: () => setView(drawing, panned(view, 1)),
    0: () => setView(drawing, drawing.whole),
  };
  return moves[key];
}

// Zooms with the wheel about the pointer; with Shift it moves in time, and with Alt the rows move.
function onWheel(drawing, event) {
  if (event.altKey) return;
  event.preventDefault();
  const box = drawing.canvas.getBoundingClientRect();
  const fraction = Math.min(Math.max((event.clientX - box.left) / box.width, 0), 1);
  const delta = event.deltaY || event.deltaX;
  if (event.shiftKey) setView(drawing, panned(drawing.view, delta > 0 ? STEP : -STEP));
  else setView(drawing, delta > 0 ? zoomed(drawing.view, fraction, 5, 4) : zoomed(drawing.view, fraction, 4, 5));
}

// Drags the drawing along.
function onPointerDown(drawing, event) {
  if (event.button !== 0) return;
  const { view } = drawing;
  const width = drawing.canvas.clientWidth;
  const move = (now) => setView(drawing, panned(view, (event.clientX - now.clientX) / width));
  const end = () => {
    window.removeEventListener("pointermove", move);
    window.removeEventListener("pointerup", end);
  };
  window.addEventListener("pointermove", move);
  window.addEventListener("pointerup", end);
}

// The operation that a click is on.
function onClick(drawing, event) {
  const bar = event.target.closest(".bar");
  if (bar === null) return;
  if (bar.dataset.place !== undefined) select(drawing, Number(bar.dataset.place), true);
  else zoomInto(drawing, bar);
}

// Shows the operations of a block.
function zoomInto(drawing, bar) {
  const box = drawing.canvas.getBoundingClientRect();
  const middle = bar.getBoundingClientRect();
  setView(drawing, zoomed(drawing.view, ((middle.left + middle.right) / 2 - box.left) / box.width, 1, 4));
}

// Hears what is done with the drawing.
function listen(drawing) {
  drawing.canvas.addEventListener("wheel", (event) => onWheel(drawing, event), { passive: false });
  drawing.canvas.addEventListener("pointerdown", (event) => onPointerDown(drawing, event));
  drawing.canvas.addEventListener("click", (event) => onClick(drawing, event));
  drawing.scroller.addEventListener("scroll", () => draw(drawing));
  drawing.canvas.addEventListener("keydown", (event) => {
    const move = event.ctrlKey || event.altKey || event.metaKey ? undefined : keyed(drawing, event.key);
    if (move === undefined) return;
    event.preventDefault();
    move();
  });
  new ResizeObserver(() => {
    if (drawing.canvas.clientWidth !== drawing.width) draw(drawing);
  }).observe(drawing.canvas);
  window.addEventListener("beforeprint", () => setPrinted(drawing, true));
  window.addEventListener("afterprint", () => setPrinted(drawing, false));
}

function setPrinted(drawing, isPrinted) {
  drawing.isPrinted = isPrinted;
  draw(drawing);
}
"#;
