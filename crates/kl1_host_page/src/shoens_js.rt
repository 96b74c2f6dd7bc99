// shoens.js of crates/kl1_host_page/web, as tools/write_page wrote it.

/// The bytes of `shoens.js`.
pub const TEXT: &str =
    r#"// The tree of shoens with what can be done to each, and the reports of the one that is chosen.

import * as api from "./api.js";
import { $, fill, make, tell } from "./dom.js";

let chosen = null;
let reports = [];
// Whether all reports that came are on the page: while an answer is written there, none are put beside it.
let isShown = true;
let refresh = () => {};

export function startShoens(again) {
  refresh = again;
}

/** Forgets what was shown, as after a reset or a logout. */
export function forgetShoens() {
  chosen = null;
  reports = [];
  showReports();
  showValue(null);
}

/** Sends a command, tells a refusal, and looks again. */
async function act(line) {
  try {
    const [first] = await api.command(line);
    tell(first.startsWith("-") ? `${line}: ${first.slice(2)}` : null, true);
  } catch (refused) {
    tell(refused.message, true);
  }
  refresh();
}

const MOST = "9223372036854775807";
const ENDED = ["terminated", "aborted"];

/** The buttons of a shoen that the console started. */
function acts(shoen) {
  if (shoen.parent !== null || ENDED.includes(shoen.condition)) return null;
  const button = (word, line) =>
    make("button", { type: "button", class: "quiet", "data-key": `${word} ${shoen.number}`, "aria-label": `${word} shoen ${shoen.number}`, onclick: () => act(line) }, word);
  return make(
    "span",
    { class: "acts" },
    shoen.condition === "stopped" ? button("Resume", `resume ${shoen.number}`) : button("Stop", `stop ${shoen.number}`),
    button("Allow 1,000,000 more", `allow ${shoen.number} 1000000`),
    button("Abort", `abort ${shoen.number}`),
  );
}

function line(shoen) {
  const number = make(
    "button",
    {
      type: "button",
      class: "quiet choose",
      "data-key": `shoen ${shoen.number}`,
      "aria-pressed": String(shoen.number === chosen),
      disabled: shoen.parent !== null,
      onclick: () => choose(shoen.number),
    },
    `Shoen ${shoen.number}`,
  );
  // Charges and allowances come as texts, since they may be greater than a number here is exact.
  const allowance = shoen.allowance === MOST ? "" : ` of ${BigInt(shoen.allowance).toLocaleString("en")}`;
  const used = `${BigInt(shoen.charged).toLocaleString("en")}${allowance} reductions, ${shoen.alive.toLocaleString("en")} ${shoen.alive === 1 ? "goal" : "goals"}`;
  return make(
    "div",
    { class: "shoen" },
    number,
    make("span", { class: `badge ${shoen.condition}` }, shoen.condition),
    make("meter", { min: 0, max: Math.max(1, Number(shoen.allowance)), value: Number(shoen.charged), "aria-label": `Charge of shoen ${shoen.number}` }),
    make("span", { class: "figures" }, used),
    acts(shoen),
  );
}

/** Shows these shoens as a tree. */
export function showShoens(shoens) {
  $("no-shoens").hidden = shoens.length > 0;
  const below = Map.groupBy ? Map.groupBy(shoens, (shoen) => shoen.parent) : grouped(shoens);
  const listed = new Set(shoens.map((shoen) => shoen.number));
  if (chosen !== null && !listed.has(chosen)) forgetShoens();
  const item = (shoen) => {
    const children = (below.get(shoen.number) ?? []).map(item);
    return make("li", {}, line(shoen), children.length ? make("ul", { class: "tree" }, ...children) : null);
  };
  // One whose parent is on no page that was read stands as a root.
  const roots = shoens.filter((shoen) => shoen.parent === null || !listed.has(shoen.parent));
  fill($("shoens"), roots.map(item));
  if (chosen === null && roots.length) choose(roots[roots.length - 1].number);
}

function grouped(shoens) {
  const found = new Map();
  for (const shoen of shoens) found.set(shoen.parent, [...(found.get(shoen.parent) ?? []), shoen]);
  return found;
}

function choose(number) {
  chosen = number;
  reports = [];
  showReports();
  showValue(null);
  refresh();
}

function showValue(text) {
  $("value").hidden = text === null;
  $("value").querySelector("code").textContent = text ?? "";
}

/** Asks for the reports that have come since, and for the goal as it is now. */
export async function readReports() {
  if (chosen === null) return;
  const asked = chosen;
  const [more, [value]] = await Promise.all([api.reports(asked, reports.length + 1), api.command(`value ${asked}`)]);
  if (asked !== chosen) return;
  showValue(value.startsWith("+ ") ? value.slice(2) : null);
  if (more.length === 0 && isShown) return;
  reports.push(...more);
  showReports();
}

/** An exception's form: a goal in place of the one that failed. */
function answerForm(place) {
  const shoen = chosen;
  const goal = make("input", { autocomplete: "off", spellcheck: "false", required: true, placeholder: "X = 1" });
  const send = async (event) => {
    event.preventDefault();
    goal.blur();
    await act(`answer ${shoen} ${place} ${goal.value}`);
  };
  return make(
    "form",
    { onsubmit: send },
    make("label", {}, "Put this goal in its place ", goal),
    make("button", { type: "submit", "data-key": `answer ${place}` }, "Answer"),
  );
}

function showReports() {
  $("reports-of").textContent = chosen === null ? "" : `of shoen ${chosen}`;
  $("no-reports").hidden = chosen !== null;
  const list = $("reports");
  const atEnd = list.scrollTop + list.clientHeight >= list.scrollHeight - 4;
  isShown = fill(
    list,
    reports.map((text, place) =>
      make("li", {}, `${place + 1}  ${text}`, text.startsWith("exception(") ? answerForm(place + 1) : null),
    ),
  );
  if (isShown && atEnd) list.scrollTop = list.scrollHeight;
}
"#;
