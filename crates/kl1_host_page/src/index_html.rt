// index.html of crates/kl1_host_page/web, as tools/write_page wrote it.

/// The bytes of `index.html`.
pub const TEXT: &str = r##"<!doctype html>
<html lang="en">
<head>
<meta charset="utf-8">
<meta name="viewport" content="width=device-width, initial-scale=1">
<meta name="color-scheme" content="light dark">
<title>KL1</title>
<link rel="icon" href="data:,">
<link rel="stylesheet" href="/page.css">
<script type="module" src="/page.js"></script>
</head>
<body>
<a class="skip" href="#main">To the account</a>
<header>
  <h1>KL1</h1>
  <span id="who" class="who"></span>
  <span id="state" class="badge" hidden></span>
  <span class="gap"></span>
  <button id="logout" type="button" hidden>Log out</button>
</header>
<p id="notice" class="notice" role="status" aria-live="polite" hidden></p>

<main id="login-page" hidden>
  <form id="login" class="card narrow">
    <h2>Log in</h2>
    <label>Account <input name="name" autocomplete="username" required maxlength="16" pattern="[a-z][a-z0-9]*" autofocus></label>
    <label>Key <input name="key" type="password" autocomplete="current-password" required></label>
    <button type="submit">Log in</button>
  </form>
</main>

<main id="main" hidden>
  <div class="column">
  <section class="card" aria-labelledby="shoens-title">
    <h2 id="shoens-title">Shoens</h2>
    <p class="empty" id="no-shoens">None yet: load a module, and start a goal.</p>
    <ul id="shoens" class="tree"></ul>
    <button id="more-shoens" type="button" hidden>Show more</button>
  </section>

  <section class="card" aria-labelledby="reports-title">
    <h2 id="reports-title">Reports <span id="reports-of"></span></h2>
    <p class="empty" id="no-reports">Start a goal, or choose a shoen that was started so, to see its reports.</p>
    <p id="value" hidden>Its goal with what is bound: <code></code></p>
    <ol id="reports" class="log"></ol>
  </section>

  <section class="card" aria-labelledby="waits-title">
    <h2 id="waits-title">Goals that wait</h2>
    <p class="empty" id="no-waits">No goal waits.</p>
    <div id="waits-picture"></div>
    <ul id="waits" class="plain"></ul>
  </section>

  </div>
  <div class="column">
  <section class="card" aria-labelledby="module-title">
    <h2 id="module-title">Module</h2>
    <form id="module">
      <label for="source">Source</label>
      <div class="editor">
        <pre id="numbers" aria-hidden="true"></pre>
        <textarea id="source" spellcheck="false" autocapitalize="off" autocomplete="off" wrap="off" rows="14" aria-describedby="reasons"></textarea>
      </div>
      <div class="row">
        <button type="submit">Load</button>
        <label class="file">Open a file <input id="file" type="file" accept=".kl1,text/plain"></label>
        <span id="loaded"></span>
      </div>
      <ol id="reasons" class="reasons" aria-live="polite"></ol>
    </form>
  </section>

  <section class="card" aria-labelledby="start-title">
    <h2 id="start-title">Goal</h2>
    <form id="start">
      <label>Goal <input name="goal" placeholder="app:app([1],[2],R)" required autocomplete="off" spellcheck="false"></label>
      <div class="row">
        <label>Allowance <input name="allowance" inputmode="numeric" pattern="[0-9]{1,19}" value="1000000" required></label>
        <button type="submit">Start</button>
      </div>
    </form>
  </section>

  <section class="card" aria-labelledby="limits-title">
    <h2 id="limits-title">Account</h2>
    <table id="limits"><caption class="hidden">What the account has of what is limited</caption><tbody></tbody></table>
    <form id="reset" class="row">
      <label><input type="checkbox" required> Begin anew: shoens, modules and the journal go</label>
      <button type="submit" class="danger">Reset</button>
    </form>
  </section>

  </div>
  <section class="card wide" aria-labelledby="console-title">
    <h2 id="console-title">Console</h2>
    <ol id="console" class="log" aria-live="polite"></ol>
    <form id="line" class="row">
      <label class="grow">Command <input name="line" autocomplete="off" spellcheck="false" placeholder="status 1"></label>
      <button type="submit">Send</button>
    </form>
  </section>
</main>
<noscript><p class="notice">This page needs JavaScript. The same account can be used by kl1_client.</p></noscript>
</body>
</html>
"##;
