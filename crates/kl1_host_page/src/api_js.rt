// api.js of crates/kl1_host_page/web, as tools/write_page wrote it.

/// The bytes of `api.js`.
pub const TEXT: &str =
    r#"// What the host is asked: each answer is JSON, and each request carries the token that came with the login. A cookie goes to every port of
// a host's name, so it alone lets in to nothing. The token is kept for this page's scheme, name and port, and all tabs have it.

const KEPT_AS = "kl1-token";
const kept = () => localStorage.getItem(KEPT_AS);
const keep = (token) => localStorage.setItem(KEPT_AS, token);
const forget = () => localStorage.removeItem(KEPT_AS);

/** Has something done when another tab logs in or out. */
export const whenChanged = (again) => addEventListener("storage", ({ key }) => key === KEPT_AS && again());

/** An answer that is a refusal, with the words that the host gave. */
export class Refused extends Error {
  constructor(status, words) {
    super(words);
    this.status = status;
  }
}

async function ask(path, { headers, ...options } = {}) {
  const token = kept();
  const all = token === null ? headers : { ...headers, "x-kl1-token": token };
  let answer;
  try {
    answer = await fetch(path, { credentials: "same-origin", cache: "no-store", headers: all, ...options });
  } catch {
    throw new Refused(0, "The host can't be reached.");
  }
  // The session has ended, unless another has begun since.
  if (answer.status === 403 && token === kept()) forget();
  const body = await answer.json().catch(() => ({}));
  if (!answer.ok) throw new Refused(answer.status, body.error ?? `The host answered ${answer.status}.`);
  return body;
}

const post = (path, value) =>
  ask(path, { method: "POST", headers: { "content-type": "application/json" }, body: JSON.stringify(value) });

/** Who is logged in by the token and the cookie of this browser; fails with status 403 if nobody is. */
export async function whoami() {
  if (kept() === null) throw new Refused(403, "Nobody is logged in.");
  return (await ask("/api/session")).name;
}

export async function login(name, key) {
  const session = await post("/api/login", { name, key });
  keep(session.token);
  return session.name;
}

export const logout = () => post("/api/logout", {}).finally(forget);

/** The lines of the reply to a command. */
export const command = async (line) => (await post("/api/command", { line })).reply;

/** The lines of the reply to a load, and the reasons if it was refused. */
export const load = (text) => post("/api/load", { text });

export const account = () => ask("/api/account");
export const shoens = (from) => ask(`/api/shoens?from=${from}`);
export const waiting = () => ask("/api/waiting");

/** The reports of a shoen from one on, page by page. */
export async function reports(shoen, from) {
  const found = [];
  for (;;) {
    const [first, ...page] = await command(`reports ${shoen} ${from + found.length}`);
    if (!first.startsWith("+")) throw new Refused(0, first);
    found.push(...page);
    if (page.length < 64 || found.length >= 1024) return found;
  }
}
"#;
