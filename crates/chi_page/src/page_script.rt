//! The script's part that builds the page: page/page.js, made by `.ci/page write`.

/// The script's part that builds the page.
pub const PAGE: &str = r#"
// The page: the list of granules, the drawing of the one that is chosen, and what is shown beside it.

const SIGNS = { "not explained": "x", undecided: "?", explained: "=" };
const LEGEND = "N its request or line, as in the answer   ! blamed   o open with the blamed one   dotted: not in the order found   ragged right edge: no end was seen   hatched: several operations, zoom in";
const HELP = "Keys: arrows go from operation to operation, + and - zoom, < and > move in time, PageUp and PageDown by a whole view, 0 shows all, Enter shows the packet. Mouse: wheel zooms, Shift and wheel or dragging moves, Alt and wheel scrolls the rows.";

// What is said of the whole trace.
function summaryOf(trace) {
  const counts = FINDINGS.map((finding) => `${trace.granules.filter((it) => it.finding === finding).length} ${finding}`);
  const where = trace.blame === null ? "" : ` Blamed at time ${trace.blame.time}: granule ${trace.blame.granule}.`;
  return `${trace.operations.length} operations; granules: ${counts.join(", ")}.${where}`;
}

// What is said of a granule above its drawing.
function headingOf(trace, granule) {
  const blame = trace.blame !== null && trace.blame.granule === granule.granule ? trace.blame : null;
  if (blame === null) return `granule ${granule.granule}: ${granule.finding}`;
  const words = blame.words === null ? "" : ` Before that it can hold ${blame.words.slice(0, 16).join(", ")}${blame.words.length > 16 ? ", .." : ""}.`;
  return `granule ${granule.granule}: ${granule.finding}, up to time ${blame.time}.${words}`;
}

// The list of the granules, so many at a time; `show` is told of the one that is chosen.
function makeList(granules, show) {
  const MOST = 200;
  const listed = listedGranules(granules);
  const root = element("nav", "granules");
  const items = element("div");
  const note = element("span", "note");
  let first = 0;
  let chosen = listed[0];
  const fill = () => {
    const shown = listed.slice(first, first + MOST);
    items.replaceChildren(...shown.map((granule) => {
      const button = element("button", "granule", `${SIGNS[granule.finding]} ${granule.granule} ${granule.finding}`);
      button.dataset.granule = granule.granule;
      button.classList.toggle("selected", granule === chosen);
      button.setAttribute("aria-pressed", String(granule === chosen));
      button.addEventListener("click", () => choose(granule));
      return button;
    }));
    note.textContent = ` ${Math.min(first + 1, listed.length)} to ${first + shown.length} of ${listed.length}`;
  };
  const choose = (granule) => {
    chosen = granule;
    for (const button of items.children) {
      button.classList.toggle("selected", button.dataset.granule === granule.granule);
      button.setAttribute("aria-pressed", String(button.dataset.granule === granule.granule));
    }
    show(granule);
  };
  const turn = (by) => {
    first = Math.max(Math.min(first + by, Math.floor((listed.length - 1) / MOST) * MOST), 0);
    fill();
  };
  items.addEventListener("keydown", (event) => {
    const next = { ArrowDown: "nextElementSibling", ArrowUp: "previousElementSibling" }[event.key];
    if (next === undefined || document.activeElement[next] === null) return;
    event.preventDefault();
    document.activeElement[next].focus();
  });
  root.append(element("h2", "", "Granules"));
  if (listed.length > MOST) {
    for (const [text, by] of [["earlier", -MOST], ["later", MOST]]) {
      const button = element("button", "", text);
      button.addEventListener("click", () => turn(by));
      root.append(button);
    }
    root.append(note);
  }
  root.append(items);
  fill();
  return { root, listed };
}

// Builds the page from the trace's data.
function start() {
  const trace = traceOf(JSON.parse(document.getElementById("trace").textContent));
  const places = placesByGranule(trace.operations);
  const heading = element("h2", "heading");
  const details = element("section", "details");
  const steps = element("section", "order");
  let granule = null;
  const choose = (place) => {
    showDetails(details, drawing, place);
    const number = drawing.numbers.get(place);
    showSteps(steps, drawing, granule, number === undefined ? granule.steps.length : number - 25);
  };
  const drawing = makeDrawing(trace, choose);
  const show = (chosen) => {
    granule = chosen;
    heading.textContent = headingOf(trace, granule);
    details.replaceChildren();
    showGranule(drawing, granule, places.get(granule.granule) || []);
    if (drawing.selected === undefined) showSteps(steps, drawing, granule, 0);
    else choose(drawing.selected);
  };
  const list = makeList(trace.granules, show);
  const content = element("main", "content");
  content.append(heading, element("p", "legend", LEGEND), drawing.root, element("p", "help", HELP), details, steps);
  const columns = element("div", "columns");
  columns.append(list.root, content);
  document.body.append(element("h1", "", "chicheck explain"), element("p", "summary", summaryOf(trace)), columns);
  const blamed = trace.blame === null ? undefined : list.listed.find((it) => it.granule === trace.blame.granule);
  const first = blamed || list.listed[0];
  if (first !== undefined) list.root.querySelector(`[data-granule="${first.granule}"]`).click();
}

start();
"#;
