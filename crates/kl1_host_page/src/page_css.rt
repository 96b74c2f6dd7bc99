// page.css of crates/kl1_host_page/web, as tools/write_page wrote it.

/// The bytes of `page.css`.
pub const TEXT: &str = r#":root {
  --ground: #f6f6f3; --card: #ffffff; --ink: #1c1f22; --soft: #5a6168; --line: #d5d8d4;
  --accent: #0b5cad; --on-accent: #ffffff; --bad: #a3231a; --warn: #8a5a00; --good: #1d6b3a;
  --mono: ui-monospace, "DejaVu Sans Mono", Menlo, Consolas, monospace;
}
@media (prefers-color-scheme: dark) {
  :root {
    --ground: #15181b; --card: #1e2226; --ink: #e7e9ea; --soft: #a2abb3; --line: #3a4147;
    --accent: #7db7f0; --on-accent: #10202e; --bad: #ff9a90; --warn: #f0c060; --good: #8bd6a5;
  }
}
* { box-sizing: border-box; }
html { font: 16px/1.45 system-ui, "DejaVu Sans", sans-serif; background: var(--ground); color: var(--ink); }
body { margin: 0; }
h1 { font-size: 1.15rem; margin: 0; }
h2 { font-size: 1rem; margin: 0 0 .6rem; }
[hidden] { display: none !important; }
.hidden { position: absolute; width: 1px; height: 1px; overflow: hidden; clip-path: inset(50%); }
.skip { position: absolute; left: -99rem; }
.skip:focus { left: .5rem; top: .5rem; background: var(--card); padding: .3rem .6rem; z-index: 2; }
:focus-visible { outline: 3px solid var(--accent); outline-offset: 1px; }

header { display: flex; align-items: center; gap: .75rem; padding: .6rem 1rem; border-bottom: 1px solid var(--line); background: var(--card); position: sticky; top: 0; z-index: 1; }
.who { font-weight: 600; }
.gap { flex: 1; }
.notice { margin: .75rem 1rem 0; padding: .5rem .75rem; border-left: 4px solid var(--warn); background: var(--card); }
.notice.bad { border-color: var(--bad); }

main, .column { display: grid; gap: 1rem; grid-template-columns: minmax(0, 1fr); align-items: start; }
main { padding: 1rem; }
@media (min-width: 900px) {
  main#main { grid-template-columns: minmax(0, 1fr) minmax(0, 1fr); }
  .wide { grid-column: 1 / -1; }
}
.card { background: var(--card); border: 1px solid var(--line); border-radius: .4rem; padding: .9rem 1rem; min-width: 0; }
.narrow { max-width: 24rem; margin: 8vh auto; width: 100%; }
.empty { color: var(--soft); margin: 0; }
#value { margin: 0 0 .5rem; font-size: .85rem; color: var(--soft); }
#value code { color: var(--ink); }
.row { display: flex; flex-wrap: wrap; gap: .6rem; align-items: end; margin-top: .6rem; }
.grow { flex: 1 1 14rem; }

label { display: block; font-size: .85rem; color: var(--soft); margin-top: .5rem; }
.row > label { margin-top: 0; }
input, textarea, button { font: inherit; color: inherit; }
input:not([type=checkbox]):not([type=file]), textarea { width: 100%; background: var(--ground); border: 1px solid var(--line); border-radius: .25rem; padding: .4rem .5rem; font-family: var(--mono); font-size: .9rem; color: var(--ink); }
input:invalid:not(:placeholder-shown):not(:focus) { border-color: var(--bad); }
button { min-height: 2.2rem; padding: .25rem .8rem; border: 1px solid var(--accent); border-radius: .25rem; background: var(--accent); color: var(--on-accent); cursor: pointer; }
button.quiet { background: transparent; color: var(--accent); }
button.danger { background: transparent; color: var(--bad); border-color: var(--bad); }
button:disabled { opacity: .5; cursor: default; }
::file-selector-button { font: inherit; min-height: 2.2rem; padding: .25rem .8rem; margin-right: .5rem; border: 1px solid var(--accent); border-radius: .25rem; background: transparent; color: var(--accent); cursor: pointer; }
#login button { margin-top: 1rem; width: 100%; }

.badge { font-size: .75rem; border: 1px solid currentColor; border-radius: 1rem; padding: 0 .55rem; white-space: nowrap; }
.running, .terminated { color: var(--good); }
.stopped, .exhausted { color: var(--warn); }
.aborted, .bad { color: var(--bad); }

.tree, .plain { list-style: none; margin: 0; padding: 0; }
.tree .tree { margin-left: 1.1rem; border-left: 2px solid var(--line); padding-left: .6rem; }
.shoen { display: flex; flex-wrap: wrap; gap: .5rem; align-items: center; padding: .3rem 0; }
.shoen .choose { min-height: 0; padding: 0 .3rem; }
.shoen .choose[aria-pressed=true] { outline: 2px solid var(--accent); }
.shoen meter { width: 7rem; }
.shoen .figures { font-size: .8rem; color: var(--soft); font-variant-numeric: tabular-nums; }
.acts { display: inline-flex; flex-wrap: wrap; gap: .3rem; }
.acts button { min-height: 1.8rem; padding: 0 .5rem; font-size: .8rem; }
meter { accent-color: var(--accent); }

.log { margin: 0; padding: 0; list-style: none; max-height: 22rem; overflow: auto; font-family: var(--mono); font-size: .85rem; overflow-wrap: anywhere; }
.log li { padding: .15rem 0; border-bottom: 1px dotted var(--line); }
.log .sent { color: var(--soft); }
.log form { margin: .3rem 0 .6rem; display: flex; flex-wrap: wrap; gap: .4rem; align-items: end; font-family: system-ui, sans-serif; }
.log form label { flex: 1 1 12rem; margin: 0; }

.editor { display: flex; border: 1px solid var(--line); border-radius: .25rem; overflow: hidden; }
.editor pre { margin: 0; padding: .4rem .5rem; text-align: right; color: var(--soft); user-select: none; overflow: hidden; font: .9rem/1.45 var(--mono); border-right: 1px solid var(--line); }
.editor pre .at { color: var(--bad); font-weight: 700; }
.editor textarea { border: 0; border-radius: 0; resize: vertical; white-space: pre; line-height: 1.45; }
.reasons { margin: .6rem 0 0; padding: 0; list-style: none; }
.reasons button { min-height: 0; text-align: left; border: 0; background: transparent; color: var(--bad); padding: .2rem 0; }
.reasons .hint { color: var(--soft); font-size: .85rem; }

table { border-collapse: collapse; width: 100%; font-size: .85rem; }
th { text-align: left; font-weight: 500; padding: .15rem .5rem .15rem 0; }
td { padding: .15rem 0; font-variant-numeric: tabular-nums; }
td:last-child { text-align: right; color: var(--soft); }

#waits-picture svg { display: block; max-width: 100%; color: var(--soft); }
#waits-picture text { font: 12px var(--mono); fill: var(--ink); }
#waits-picture .goal { fill: var(--ground); stroke: var(--accent); }
#waits-picture .variable { fill: var(--card); stroke: var(--warn); stroke-dasharray: 3 2; }
#waits-picture .waits { stroke: var(--warn); fill: none; }
#waits-picture .has { stroke: var(--accent); fill: none; stroke-dasharray: 4 3; }
code { font-family: var(--mono); font-size: .85rem; overflow-wrap: anywhere; }
@media (prefers-reduced-motion: no-preference) { .shoen meter { transition: none; } }
"#;
