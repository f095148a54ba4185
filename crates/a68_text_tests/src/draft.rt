//! Calls as a parser makes them, and the nodes by hand.
use crate::table::{agrees, holds};
use a68_base::{NoMemory, find};
use a68_nodes::{Draft, Drafting};
use a68_symbols::{Sym, Token};
use a68_tree::NodeKind;
use std::alloc::Global;
use std::panic::Expect;
use std::process::Abort;
use std::string::String;

/// How many symbols a text has, the calls that read it, and its nodes, one a line: the kind, how many symbols are left where
/// it begins, behind it and at its name, and its parts. A dot reads a symbol, `+` a sign, and a bracket a bracket; a kind
/// wraps what was read, and behind `@` it is set aside.
const CALLS: &[(usize, &str, &str)] = &[
    (
        5,
        "open . Tag leave + open . Tag leave + open . Tag leave Formula",
        "\
Tag [5, 4, 5] []
Tag [3, 2, 3] []
Tag [1, 0, 1] []
Sign [2, 1, 2] []
Sign [4, 3, 4] []
Formula [5, 0, 5] [0, 4, 1, 3, 2]
",
    ),
    (
        4,
        "forget open . @Declarer open share . Variable leave . open share . Variable leave Joined",
        "\
Declarer [4, 3, 4] []
Variable [3, 2, 3] [0]
Variable [1, 0, 1] [0]
Joined [4, 0, 4] [1, 2]
",
    ),
    (
        5,
        "( open . Tag leave . open . Tag leave ) Collateral",
        "\
Tag [4, 3, 4] []
Tag [2, 1, 2] []
Collateral [5, 0, 5] [0, 1]
",
    ),
    (
        3,
        "open . Tag leave . open . Tag leave IS",
        "\
Tag [3, 2, 3] []
Tag [1, 0, 1] []
Identity [3, 0, 2] [0, 1]
",
    ),
    (
        4,
        ". open . . LONG leave . Formula",
        "\
LongDenotation [3, 1, 2] []
Formula [4, 0, 4] [0]
",
    ),
    (
        5,
        ". open . . . GOTO leave . Formula",
        "\
GoTo [4, 1, 2] []
Formula [5, 0, 5] [0]
",
    ),
    (
        6,
        "+ ( + open . Tag leave ) + Formula",
        "\
Tag [3, 2, 3] []
Sign [1, 0, 1] []
Sign [4, 3, 4] []
Sign [6, 5, 6] []
Formula [6, 0, 6] [3, 2, 0, 1]
",
    ),
    (
        4,
        "open . @Plan ( open . @Declarer share ) share Joined",
        "\
Plan [4, 3, 4] []
Declarer [2, 1, 2] []
Joined [4, 0, 4] [0, 1, 0]
",
    ),
    (
        3,
        "open . @Plan open share . Tag Variable open . @Declarer share leave share Joined",
        "\
Plan [3, 2, 3] []
Tag [2, 1, 2] [0]
Variable [2, 1, 2] [1]
Declarer [1, 0, 1] []
Joined [3, 0, 3] [2, 0, 3, 0, 3]
",
    ),
    (
        4,
        "open . @Heap open . @Declarer open share . leave forget open share . leave Joined",
        "\
Heap [4, 3, 4] []
Declarer [3, 2, 3] []
Joined [4, 0, 4] [0, 1]
",
    ),
];

const KINDS: &[(&str, NodeKind)] = &[
    ("Tag", NodeKind::Tag),
    ("Formula", NodeKind::Formula),
    ("Declarer", NodeKind::Declarer),
    ("Variable", NodeKind::Variable),
    ("Joined", NodeKind::Joined),
    ("Collateral", NodeKind::Collateral),
    ("Plan", NodeKind::Plan),
    ("Heap", NodeKind::Heap),
];

/// As many symbols as a text has at most.
const TEXT: &[Sym] = &[Sym::Is(Token::Tag); 9];

// What a word calls.
#[derive(Clone, Copy)]
enum Call {
    Read,
    Sign,
    Bracket,
    Unbracket,
    Open,
    Leave,
    Share,
    Forget,
    Identity,
    Long,
    Jump,
}

const WORDS: &[(&str, Call)] = &[
    (".", Call::Read),
    ("+", Call::Sign),
    ("(", Call::Bracket),
    (")", Call::Unbracket),
    ("open", Call::Open),
    ("leave", Call::Leave),
    ("share", Call::Share),
    ("forget", Call::Forget),
    ("IS", Call::Identity),
    ("LONG", Call::Long),
    ("GOTO", Call::Jump),
];

fn make_call(
    alloc: Global,
    drafting: &mut Drafting,
    call: Call,
    rest: &[Sym],
) -> Result<(), NoMemory> {
    match call {
        Call::Read => {}
        Call::Sign => return drafting.sign(rest),
        Call::Bracket => return drafting.bracket(rest),
        Call::Unbracket => drafting.unbracket(),
        Call::Open => return drafting.open(rest),
        Call::Leave => drafting.leave(),
        Call::Share => return drafting.share(),
        Call::Forget => drafting.forget(),
        Call::Identity => return drafting.wrap_identity(alloc, rest),
        Call::Long => return drafting.wrap_long(alloc, rest),
        Call::Jump => return drafting.wrap_jump(alloc, rest),
    }
    Ok(())
}

fn kind(rt: &impl Abort, name: &str) -> NodeKind {
    find(KINDS, name.as_bytes()).expect(rt, "a kind")
}

fn node(
    rt: &impl Abort,
    alloc: Global,
    drafting: &mut Drafting,
    word: &str,
    rest: &[Sym],
) -> Result<(), NoMemory> {
    match word.strip_prefix('@') {
        Some(name) => drafting.set_aside(alloc, kind(rt, name), rest),
        None => drafting.wrap(alloc, kind(rt, word), rest),
    }
}

// What is left behind this word. A word of one character reads a symbol.
fn read<'a>(
    rt: &impl Abort,
    alloc: Global,
    drafting: &mut Drafting,
    word: &str,
    text: &'a [Sym],
) -> &'a [Sym] {
    let mut rest = text;
    if word.len() == 1 {
        rest = text.get(1..).expect(rt, "a symbol");
    }
    let done = match find(WORDS, word.as_bytes()) {
        Some(call) => make_call(alloc, drafting, call, rest),
        None => node(rt, alloc, drafting, word, rest),
    };
    done.expect(rt, "memory");
    rest
}

// Reads all of a text by these calls.
fn read_all(rt: &impl Abort, alloc: Global, drafting: &mut Drafting, words: &str, text: &[Sym]) {
    let mut rest = text;
    for word in words.split(' ') {
        rest = read(rt, alloc, drafting, word, rest);
    }
    holds(rt, rest.len() == 0, words);
}

// What a text gives that is read by these calls.
fn drafted(rt: &impl Abort, alloc: Global, words: &str, text: &[Sym]) -> Vec<Draft> {
    let mut drafting = Drafting::new(alloc, text).expect(rt, "memory");
    read_all(rt, alloc, &mut drafting, words, text);
    drafting.finish()
}

// The line of a node.
fn add_line(rt: &impl Abort, lines: &mut String, draft: &Draft) {
    let places = [draft.before, draft.after, draft.named];
    let parts = &draft.parts;
    write!(lines, "{:?} {places:?} {parts:?}\n", draft.kind).expect(rt, "memory");
}

fn shown(rt: &impl Abort, alloc: Global, drafts: &[Draft]) -> String {
    let mut lines = String::new(alloc);
    for draft in drafts {
        add_line(rt, &mut lines, draft);
    }
    lines
}

// A text of so many symbols that is read by these calls has these nodes.
fn has_nodes(rt: &impl Abort, alloc: Global, count: usize, words: &str, wanted: &str) {
    let text = TEXT.get(..count).expect(rt, "symbols");
    let drafts = drafted(rt, alloc, words, text);
    let shown = shown(rt, alloc, &drafts);
    drop(drafts);
    agrees(rt, &shown, wanted, words);
}

#[test]
fn calls_and_their_nodes(rt: HostRuntime) {
    for (count, words, wanted) in CALLS {
        has_nodes(&rt, rt.alloc(), *count, words, wanted);
    }
}
