//! The style of the page: page/page.css, made by `.ci/page write`.

/// The style of the page.
pub const STYLE: &str = r#"
/* The page of a trace: what is marked has a letter or a pattern beside its colour. */
* { box-sizing: border-box; }
html { overflow-y: scroll; }
body { margin: 12px; color: black; background: white; font: 14px/1.4 sans-serif; }
h1 { margin: 0; font-size: 18px; }
h2 { margin: 8px 0 4px; font-size: 15px; }
p { margin: 4px 0; }
code, .steps td, .packet td, .packet th { font-family: monospace; }
button { font: inherit; color: inherit; background: white; border: 1px solid gray; cursor: pointer; }
:focus-visible { outline: 3px solid black; outline-offset: 1px; }

.columns { display: flex; gap: 16px; align-items: flex-start; }
.granules { flex: none; width: 290px; max-height: 92vh; overflow-y: auto; position: sticky; top: 8px; }
.granule { display: block; width: 100%; margin: 2px 0; padding: 2px 6px; text-align: left; font-family: monospace; white-space: pre; }
.granule.selected { border: 2px solid black; font-weight: bold; }
.content { flex: 1; min-width: 0; }
.legend, .help, .note { color: dimgray; font-size: 12px; white-space: pre-wrap; }

.drawing { border: 1px solid gray; }
.ruler { position: relative; height: 20px; margin-left: 110px; margin-right: 16px; border-bottom: 1px solid gray; overflow: hidden; }
.tick { position: absolute; top: 0; padding-left: 3px; border-left: 1px solid gray; font-size: 11px; white-space: nowrap; }
.scroller { max-height: min(46vh, 460px); overflow-y: scroll; }
.body { position: relative; display: flex; }
.names { position: relative; flex: none; width: 110px; }
.name { position: absolute; left: 4px; height: 26px; line-height: 26px; font-size: 12px; white-space: nowrap; }
.canvas { position: relative; flex: 1; min-height: 100%; overflow: hidden; touch-action: none; border-left: 1px solid gray; }

.bar { position: absolute; height: 22px; overflow: hidden; border: 1px solid black; background: lightsteelblue; font-size: 11px; line-height: 20px; white-space: nowrap; cursor: pointer; }
.bar span { padding-left: 3px; }
.bar.unordered { background: white; border-style: dotted; }
.bar.block { border-color: gray; background: repeating-linear-gradient(45deg, gray 0 2px, white 2px 5px); }
.bar.open { border: 2px dashed black; background: moccasin; line-height: 18px; }
.bar.blamed { border: 4px double black; background: lightcoral; font-weight: bold; line-height: 14px; z-index: 1; overflow: visible; }
.bar.endless { border-right: none; clip-path: polygon(0 0, 100% 0, calc(100% - 5px) 25%, 100% 50%, calc(100% - 5px) 75%, 100% 100%, 0 100%); }
.bar.selected { box-shadow: inset 0 0 0 2px black; z-index: 2; }
.bar:focus { outline: 3px solid black; outline-offset: 0; z-index: 3; overflow: visible; }

dl { display: grid; grid-template-columns: max-content 1fr; gap: 0 12px; margin: 4px 0; }
dt { color: dimgray; }
dd { margin: 0; font-family: monospace; overflow-wrap: anywhere; }
table { border-collapse: collapse; margin: 6px 0; }
th, td { padding: 1px 6px; border: 1px solid lightgray; text-align: left; font-weight: normal; }
.packet .used { border: 2px solid black; font-weight: bold; }
.steps td { white-space: nowrap; }
.steps tr.selected { outline: 2px solid black; }
.word b { text-decoration: underline; }
.link { padding: 0; border: none; text-decoration: underline; font-family: monospace; }

@media print {
  .granules, .help, .content button:not(.link) { display: none; }
  .scroller { height: auto; max-height: none; overflow: visible; }
  .bar { print-color-adjust: exact; -webkit-print-color-adjust: exact; }
}
"#;
