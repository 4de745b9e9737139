//! The forms of the commands as they are told: their operands and options, and what is said of each.

use crate::command::Command;
use crate::options::Options;

/// The commands in the order in which they are told.
pub const COMMANDS: [Command; 9] = [
    Command::Table,
    Command::Run,
    Command::Closure,
    Command::Compare,
    Command::Crowd,
    Command::Serve,
    Command::Compact,
    Command::Encode,
    Command::Decode,
];

/// A command, an operand or an option as it is spelled, and what is said about it.
#[derive(Clone, Copy)]
pub struct Part<'a> {
    /// As it is spelled.
    pub name: &'a str,
    /// What is said about it.
    pub about: &'a str,
}

/// The form of a command.
#[derive(Clone, Copy)]
pub struct Form<'a> {
    /// The command.
    pub command: Part<'a>,
    /// Its operands, all of which it wants; it may have none.
    pub operands: &'a [Part<'a>],
    /// Its options apart from `--help`.
    pub options: &'a [Part<'a>],
    /// What stands at the end of its help.
    pub more: &'a str,
}

/// The operand that names a network.
pub const NET: Part<'static> = Part {
    name: "<NET>",
    about: "The number of the network",
};

/// The operand that names a slot.
pub const SLOT: Part<'static> = Part {
    name: "<SLOT>",
    about: "The slot",
};

/// The operand that names a node.
pub const NODE: Part<'static> = Part {
    name: "<NODE>",
    about: "The name of the node",
};

const SCRIPT: Part<'static> = Part {
    name: "<SCRIPT>",
    about: "The script, or - for the standard input",
};

const FIRST: Part<'static> = Part {
    name: "<SCRIPT1>",
    about: "The first script, or - for the standard input",
};

const SECOND: Part<'static> = Part {
    name: "<SCRIPT2>",
    about: "The second script, or - for the standard input",
};

const FILE: Part<'static> = Part {
    name: "<FILE>",
    about: "The table file, or - for the standard input",
};

const JOURNAL_FILE: Part<'static> = Part {
    name: "<FILE>",
    about: "The journal, or - for the standard input",
};

const FROM_NODE: Part<'static> = Part {
    name: "<FROM>",
    about: "The name of the sender",
};

const SLICES: Part<'static> = Part {
    name: "<SLICES>",
    about: "The slices of the sender",
};

const STATEMENT: Part<'static> = Part {
    name: "<STATEMENT>",
    about: "The statement",
};

const HEX: Part<'static> = Part {
    name: "<HEX>",
    about: "The bytes in lower-case hexadecimal, or - for none",
};

/// The option that says how many workers there are.
pub const WORKERS: Part<'static> = Part {
    name: "--workers <N>",
    about: "Runs the events as jobs of N workers, 1 to 64; without it, in order",
};

/// The option that says in which form a report is.
pub const FORMAT: Part<'static> = Part {
    name: "--format <FORM>",
    about: "The form of the report: text, dot or svg; text where it is left out",
};

const EXPLAIN: Part<'static> = Part {
    name: "--explain",
    about: "Shows both sides of a difference, with files and lines; explains a bad line",
};

const HOST_WORKERS: Part<'static> = Part {
    name: "--workers <N>",
    about: "Shares the networks out among so many workers, 1 to 64",
};

/// The option that names a journal.
pub const JOURNAL: Part<'static> = Part {
    name: "--journal <FILE>",
    about: "Keeps each line on the disk before it is answered, and goes on from FILE",
};

/// The option that asks what the lines of a journal were answered.
pub const FROM: Part<'static> = Part {
    name: "--from <L|open>",
    about: "Prints what FILE's lines were answered, from L or the first open slot on",
};

const BYTES: Part<'static> = Part {
    name: "--bytes",
    about: "Prints what is emitted as the bytes of its envelope, in hexadecimal",
};

const EXPLAIN_LINES: Part<'static> = Part {
    name: "--explain",
    about: "Explains each bad line on the standard error, with its column",
};

const EXPLAIN_LINE: Part<'static> = Part {
    name: "--explain",
    about: "Explains a bad line on the standard error, with its column",
};

/// `table FILE`.
const TABLE: Form<'static> = Form {
    command: Part {
        name: "table",
        about: "Runs the lines of a table file",
    },
    operands: &[FILE],
    options: &[EXPLAIN_LINE],
    more: "A table file names one node, its slot and its slices, then offers envelopes and asks.
For example:
  self A 1 2[A,B]
  put B 2[A,B] prep(1:x,-,0,0,0)
  reach",
};

/// `run SCRIPT`.
const RUN: Form<'static> = Form {
    command: Part {
        name: "run",
        about: "Runs the lines of a script of networks",
    },
    operands: &[SCRIPT],
    options: &[WORKERS, EXPLAIN_LINE],
    more: "These lines are taken, N being a network and I a slot; empty ones and comments are passed over:
  net N events E bytes B slots S, with `served` behind it or without
  node N NODE SLICES
  roster N own O pair P bytes B opens S NODE,NODE,..
  open N I, or close N I
  propose N I NODE VALUE
  deliver N NODE HEX
  say N NODE FROM I SLICES STATEMENT
  hear N I NODE FROM nom K, or bal in place of nom
  ntimer N I NODE R, or btimer N I NODE C
  reslice N I NODE SLICES
  settle N I, which lets nodes hear one another until none emits any more
  drop N, which takes a served network back
In a served network each event is heard by the others, lines that hear and settle are bad, and with
* for NODE, `deliver` and `say` go to each hosted node.

An event is answered `ok` and what the node gives out, or `refused K NAME`, and then nothing changed:
  1 NoSuchNetwork   2 NoSuchNode        3 SlotNotOpen   4 SlotOpenAlready   5 TooManySlots
  6 BadEnvelope     7 HostedSender      8 NotEmitted    9 JournalFull      10 BytesFull
 11 BadValue       12 ProposedAlready  13 NoMemory     15 ShareFull        16 ShareBytesFull
The status is 0 at the end of the script, 2 if it cannot be read or has a bad line, 3 if memory is
short, and 4 if an answer cannot be written. For example:
  net 1 events 10 bytes 0 slots 1
  node 1 A 1[A]
  open 1 1

With --workers the slots are opened first, and all other events are jobs, taken in any order; what
a node emits is heard by the others of its network. Lines that settle or close a slot are bad then,
and no event is run where a line is bad. It prints what each node has externalized, how many entries
each journal has, and how many jobs were applied, refused and not run. For example:
  scphost run nets.txt --workers 4
  scphost run --workers=4 nets.txt",
};

/// `closure SCRIPT NET SLOT NODE`.
const CLOSURE: Form<'static> = Form {
    command: Part {
        name: "closure",
        about: "Reports whom a node depends on, after a script",
    },
    operands: &[SCRIPT, NET, SLOT, NODE],
    options: &[FORMAT, EXPLAIN_LINE],
    more: "The script is run without printing. Then there is a line for each node that NODE depends on at
SLOT of network NET, with who named it, and one for each hosted one of them, with those single
nodes that block its slices. For example:
  scphost closure nets.txt 1 1 A
  scphost closure nets.txt 1 1 A --format svg
  scphost closure --format=dot nets.txt 1 1 A",
};

/// `compare SCRIPT1 SCRIPT2 NET SLOT NODE`.
const COMPARE: Form<'static> = Form {
    command: Part {
        name: "compare",
        about: "Compares what concerns a node in two scripts, and what it gave out",
    },
    operands: &[FIRST, SECOND, NET, SLOT, NODE],
    options: &[EXPLAIN],
    more: "Both scripts are run without printing. Where what concerns NODE at SLOT of network NET is the same
in both, so is what each hosted node on which it depends gave out: `same` and these. Else the
first difference is named, and the status is 1. For example:
  scphost compare quiet.txt flooded.txt 1 1 A
  scphost compare quiet.txt flooded.txt 1 1 A --explain
  scphost compare --explain quiet.txt flooded.txt 1 1 A",
};

/// `crowd SCRIPT1 SCRIPT2 NET SLOT NODE`.
const CROWD: Form<'static> = Form {
    command: Part {
        name: "crowd",
        about: "Compares what was submitted for a node in two scripts, and the answers",
    },
    operands: &[FIRST, SECOND, NET, SLOT, NODE],
    options: &[EXPLAIN_LINE],
    more: "Both scripts are run without printing. Where the nodes on which NODE depends at SLOT of network NET
stand on one roster, and the same was submitted for them, applied or refused, so are the answers:
`same` and these. Else the first difference is named, and the status is 1. For example:
  scphost crowd quiet.txt flooded.txt 1 1 A
  scphost crowd -- quiet.txt flooded.txt 1 1 A
  scphost crowd - flooded.txt 1 1 A",
};

/// `serve`.
const SERVE: Form<'static> = Form {
    command: Part {
        name: "serve",
        about: "Hosts networks live: answers each line of the standard input as it comes",
    },
    operands: &[],
    options: &[HOST_WORKERS, JOURNAL, FROM, BYTES, EXPLAIN_LINES],
    more: "These lines are taken, N being a network and I a slot; empty ones and comments are passed over:
  net N events E bytes B slots S served
  node N NODE SLICES
  roster N own O pair P bytes B opens S NODE,NODE,..
  open N I, or close N I
  propose N I NODE VALUE
  deliver N NODE HEX
  say N NODE FROM I SLICES STATEMENT
  ntimer N I NODE R, or btimer N I NODE C
  reslice N I NODE SLICES
  drop N, which takes the network back
  left N, which tells what is left of its budgets
  show N I NODE, which tells what the node knows at the slot
With * for NODE, `deliver` and `say` go to each hosted node. What a node emits is heard by the
others of its network.

With --journal each line is in FILE, and on the disk, before it is answered; one that changed
nothing may be an empty line there. At the start FILE is made, or its lines are run. Of these only
those are answered again that --from asks for: from line L on, or from the line on that opened the
first slot still open. Then `resumed L` says how many lines FILE has, and the next is L + 1.

Line L is answered by a block. It has a line for each step that gave something out, the event's own
first, and for each hearing that was refused, or what `left` and `show` tell:
  L N I NODE OUTS
  L N I NODE refused K NAME
Then one line ends it:
  L ok               it was done
  L stale            it was applied, and nothing changed
  L refused K NAME   it was refused, and nothing changed
  L bad              it cannot be taken, and nothing changed
The status is 0 at the end of the input, 2 if it cannot be read, 3 if memory is short, and 4 if an
answer cannot be written; with FILE also 2 if it cannot be read, is in use or has a bad line, and 4
if it cannot be written. For example:
  scphost serve --workers 4 < lines.txt
  scphost serve --bytes --explain
  scphost serve --journal host.txt --from open < lines.txt",
};

/// `compact FILE`.
const COMPACT: Form<'static> = Form {
    command: Part {
        name: "compact",
        about: "Prints a shorter journal with the same future",
    },
    operands: &[JOURNAL_FILE],
    options: &[],
    more: "What is printed has the same future as the journal FILE: a live host that starts from it answers
all further lines alike, but for their numbers. FILE is not changed. For example:
  scphost compact host.txt > shorter.txt
  scphost compact - < host.txt > shorter.txt",
};

/// `encode FROM SLOT SLICES STATEMENT`.
const ENCODE: Form<'static> = Form {
    command: Part {
        name: "encode",
        about: "Prints the bytes of an envelope in words",
    },
    operands: &[FROM_NODE, SLOT, SLICES, STATEMENT],
    options: &[],
    more: "The words are those of a line `say`, and the bytes those that it delivers, in hexadecimal.
`decode` prints the words again. For example:
  scphost encode A 1 '1[A]' 'nom(x+y|x)'
  scphost encode B 1 '2[A,1[B,C]]' 'prep(9:m,9:m,6,0,0)'",
};

/// `decode HEX`.
const DECODE: Form<'static> = Form {
    command: Part {
        name: "decode",
        about: "Prints the words of an envelope in bytes, or the fault of the bytes",
    },
    operands: &[HEX],
    options: &[],
    more: "The words are FROM, SLOT, SLICES and STATEMENT, of which `encode` prints the bytes again. Of bytes
that are no envelope it prints `bad`, the number of their fault and its name, and the status is 1.
For example:
  scphost decode 0101
  scphost decode $(scphost encode A 1 '1[A]' 'nom(x|)')",
};

/// The form of a command.
pub fn form_of(command: Command) -> Form<'static> {
    match command {
        Command::Table => TABLE,
        Command::Run => RUN,
        Command::Closure => CLOSURE,
        Command::Compare => COMPARE,
        Command::Crowd => CROWD,
        Command::Serve => SERVE,
        Command::Compact => COMPACT,
        Command::Encode => ENCODE,
        Command::Decode => DECODE,
    }
}
