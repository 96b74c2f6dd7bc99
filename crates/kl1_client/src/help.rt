// What the client knows of commands.

/// The commands, those of the client first: of each its form, and what it does.
const COMMANDS: [&str; 23] = [
    "load FILE         load the module in FILE",
    "save FILE         write the whole journal to FILE, which is new, empty or a journal",
    "wait S [SECONDS]  wait until shoen S has ended, or can't go on, or SECONDS are over",
    "watch S           show the reports of shoen S as they come, until it has ended",
    "help [COMMAND]    tell the commands, or one of them",
    "quit              end the session and the client",
    "start A L H GOAL  start GOAL in a shoen with allowance A and priorities from L to H",
    "value S           show the goal of shoen S with what is bound now",
    "status S          tell the state of shoen S, its charge, its allowance and its goals",
    "reports S N       show the reports of shoen S from the Nth on",
    "stop S            let shoen S stand still",
    "resume S          let shoen S go on",
    "abort S           end shoen S",
    "allow S N         raise the allowance of shoen S by N",
    "answer S N GOAL   put GOAL in the place of the goal of report N of shoen S",
    "forget S N        let the first N reports of shoen S go, or by 0 the shoen itself, if it has ended",
    "modules           list the modules",
    "journal F N       show N lines of the journal from the Fth on",
    "quiet             tell whether no goal can step",
    "run K             do at most K steps now",
    "reduce G C        let goal G take clause C",
    "reset             begin the account anew",
    "logout            end the session, and show the server's farewell",
];

/// Whether a line is that of the command with this first word.
fn is_of(line: &str, word: &[u8]) -> bool {
    match line.split(" ").next() {
        Some(first) => first.as_bytes() == word,
        None => false,
    }
}

/// Tells the command with this first word, or all commands if none has it.
pub fn tell(rt: &HostRuntime, word: &[u8]) {
    let is_known = COMMANDS.iter().any(|line| is_of(line, word));
    for line in &COMMANDS {
        if !is_known || is_of(line, word) {
            let _ = eprintln!(rt; "{line}");
        }
    }
}
