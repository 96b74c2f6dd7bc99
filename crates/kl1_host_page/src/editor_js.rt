// editor.js of crates/kl1_host_page/web, as tools/write_page wrote it.

/// The bytes of `editor.js`.
pub const TEXT: &str =
    r#"// The editor of a module: its lines are numbered, and reasons of a refused load lead to theirs.

import * as api from "./api.js";
import { $, make, tell } from "./dom.js";

const MOST_BYTES = 65536;
let reasons = [];

function showNumbers() {
  const source = $("source");
  const bad = new Set(reasons.map((reason) => reason.line));
  const count = source.value.split("\n").length;
  const lines = [];
  for (let line = 1; line <= count; line++) {
    lines.push(bad.has(line) ? make("span", { class: "at" }, `${line}`) : `${line}`, "\n");
  }
  $("numbers").replaceChildren(...lines);
  $("numbers").scrollTop = source.scrollTop;
}

/** Puts the caret at a line and a column, both from 1. */
function goTo({ line, column }) {
  const source = $("source");
  const before = source.value.split("\n").slice(0, line - 1);
  const place = before.reduce((sum, text) => sum + text.length + 1, 0) + column - 1;
  source.focus();
  source.setSelectionRange(place, place + 1);
  const height = parseFloat(getComputedStyle(source).lineHeight);
  source.scrollTop = Math.max(0, (line - 4) * height);
}

function showReasons() {
  $("reasons").replaceChildren(
    ...reasons.map((reason) =>
      make(
        "li",
        {},
        make("button", { type: "button", onclick: () => goTo(reason) }, `Line ${reason.line}, column ${reason.column}: ${reason.why}`),
        reason.hint ? make("div", { class: "hint" }, reason.hint) : null,
      ),
    ),
  );
  $("source").setAttribute("aria-invalid", String(reasons.length > 0));
  showNumbers();
}

async function loadSource(refresh) {
  const text = $("source").value;
  $("loaded").textContent = "";
  if (new TextEncoder().encode(text).length > MOST_BYTES) return tell("A module has at most 65,536 bytes.", true);
  try {
    const { reply, reasons: found } = await api.load(text);
    reasons = found ?? [];
    const [first] = reply;
    $("loaded").textContent = first.startsWith("+") ? first.slice(2) : `refused: ${first.slice(2)}`;
    tell(null);
  } catch (refused) {
    tell(refused.message, true);
  }
  showReasons();
  refresh();
}

export function startEditor(refresh) {
  const source = $("source");
  source.addEventListener("input", showNumbers);
  source.addEventListener("scroll", () => ($("numbers").scrollTop = source.scrollTop));
  $("module").addEventListener("submit", (event) => {
    event.preventDefault();
    loadSource(refresh);
  });
  $("file").addEventListener("change", async ({ target }) => {
    if (!target.files.length) return;
    source.value = await target.files[0].text();
    target.value = "";
    reasons = [];
    showReasons();
  });
  showNumbers();
}
"#;
