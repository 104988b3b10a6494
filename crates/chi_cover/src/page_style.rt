//! The style of the page: page/cover.css, made by `.ci/page write`.

/// The style of the page.
pub const STYLE: &str = r#"
/* The page of a coverage: beside its colour, what is missing has a thick border and bold digits, and what is excluded a dashed border. */
:root { color-scheme: light dark; --missing: moccasin; --line: lightgray; --note: dimgray; }
@media (prefers-color-scheme: dark) {
  :root { --missing: saddlebrown; --line: dimgray; --note: darkgray; }
}
* { box-sizing: border-box; }
body { margin: 12px; color: CanvasText; background: Canvas; font: 14px/1.4 sans-serif; }
h1 { margin: 0; font-size: 18px; }
h2 { margin: 16px 0 4px; font-size: 15px; }
h3 { margin: 8px 0 4px; font-size: 14px; }
p { margin: 4px 0; }
:focus-visible { outline: 3px solid CanvasText; outline-offset: 1px; }

.summary { font-weight: bold; }
.legend { color: var(--note); }
.choice { display: inline-block; margin: 4px 0; }
nav ul { display: flex; flex-wrap: wrap; gap: 4px 16px; margin: 4px 0; padding: 0; list-style: none; }

table { border-collapse: separate; border-spacing: 0; margin: 4px 0; border: solid var(--line); border-width: 1px 0 0 1px; }
th, td { padding: 1px 6px; border: solid var(--line); border-width: 0 1px 1px 0; background: Canvas; }
th { text-align: left; font-weight: normal; white-space: nowrap; }
thead th { color: var(--note); }
thead tr:last-child th { position: sticky; top: 0; z-index: 1; }
td { text-align: center; font-family: monospace; }
td.missing { outline: 2px solid CanvasText; outline-offset: -1px; font-weight: bold; background: var(--missing); }
td.excluded { outline: 1px dashed var(--note); outline-offset: -2px; color: var(--note); }
.plan td { text-align: left; font-family: inherit; white-space: pre-wrap; overflow-wrap: anywhere; }
tbody tr:hover th { text-decoration: underline; }
.bins { columns: 24em; margin: 4px 0; padding-left: 20px; }
.only-missing .whole { display: none; }

@media print {
  nav, .choice { display: none; }
  td.missing { print-color-adjust: exact; -webkit-print-color-adjust: exact; }
}
"#;
