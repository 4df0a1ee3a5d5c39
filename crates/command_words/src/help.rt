// What the help of the program and of its subcommands says.

// The program's version, which `--version` prints.
pub const VERSION: &str = "0.1.0";

pub const ABOUT: &str =
    "Replays scripts of reset events on a network of nodes, and writes an answer to each event.";

pub const LONG_ABOUT: &str = "\
Replays scripts of reset events on a network of nodes, and writes an answer to each event.

A reset restarts all nodes of a network while they run: a request travels up a spanning
tree to its leader, the leader opens a new session, and the session travels down the tree.

Without a subcommand the program reads one text from standard input: a topology, a line
that is `---`, and a script. `reset-service replay --help` describes these.";

pub const AFTER_HELP: &str = "\
Examples:
  reset-service replay examples/first/one-wave/topology.toml examples/first/one-wave/script
  { cat topology.toml; echo ---; cat script; } | reset-service

Exit status:
  0  good, refused commands included
  1  the subcommand `check` found faults, or with `--whole` an invariant that fails; `verify`, `picture`,
     `page` or `session` found an entry that isn't allowed, `replay --strict` a refusal, or `explore` an
     order that never ends
  2  a bad topology, script, history or command line
  3  a file or a standard stream could not be read or written, or a thread could not be started
  4  out of memory

With --verbose among the words, or RESET_VERBOSE=1 in the environment, standard error says of a
file that is bad where it is, and why.

With --progress among the words, standard error says each second how far a long run has come. On a
terminal it says so in any case.";

pub const TOPOLOGY_HELP: &str =
    "A file in TOML that names the nodes, the links between them, and the application";

pub const SCRIPT_HELP: &str = "A file with one command a line";

pub const HISTORY_HELP: &str = "A file with the history, one entry a line";

// What `--help` says of a subcommand.
pub struct Help {
    pub about: &'static str,
    pub long_about: &'static str,
    pub after_help: &'static str,
}

pub const REPLAY_HELP: Help = Help {
    about: "Runs a script on a topology, from its booted configuration",
    long_about: "\
Runs a script on a topology, from its booted configuration.

Each command writes its answer to standard output. A command that is refused changes
nothing, and the run goes on; a bad line ends it.

With `--number` the number of its line stands before each answer: `12: refused NotEnabled`. With
`--strict` the first refusal ends the run, with exit status 1.",
    after_help: "\
A topology:
  nodes = [1, 2, 3]
  links = [[1, 2], [2, 3]]
  app = \"token\"
These three keys are needed; the application is \"idle\", \"token\", \"mutex\" or \"routes\".
A fourth, `modulus`, may stand: the number modulo which sessions are counted, from 2 to 4294967296,
and without the key 4294967296.

The commands of a script, at node I with its neighbour J and its child C:
  claim I, follow I, adopt I J
  request I, relay I C, open I, join I, finish I, mend I
  act I CASE, act I CASE J
  show, show I, newest, enabled I, ready
  check, check I, alarm I, watch I, moves, moves I, invariant, snapshot
  fault tree I ROOT FATHER DIST, fault wave I PHASE SESSION, fault local I TEXT
  fault down A B, fault up A B, fault off I, fault on I, draw SEED
A CASE is the name of an action of the application, or its number. They are
  act I pass J, act I take J    of token
  act I enter, act I leave      of mutex
  act I pull J                  of routes
A PHASE is normal, initiate or reset.
Words have one space between them. An empty line, or one that begins with #, does nothing.
In any other line a tab, a space at either end, a carriage return, a command in capital
letters, a zero before a number or a comment behind the command makes the line bad;
`cat -A SCRIPT` shows what the eye misses.

Example:
  reset-service replay examples/first/one-wave/topology.toml examples/first/one-wave/script",
};

pub const CHECK_HELP: Help = Help {
    about: "Runs a script on a topology, and checks the network that it leaves",
    long_about: "\
Runs a script on a topology, and checks the network that it leaves.

The script is run as `replay` runs it. Then each link whose ends contradict each other is named
in a line `link AT OTHER FAMILY ROW`: the node, its neighbour (or the node itself), which table
(tree, wave or app) and which of its rows; `reset-service tables` prints the tables. After these comes
`faults COUNT`, and the exit status is 1 where COUNT isn't 0. After a bad line nothing is checked.

With `--repair` each row of tree and wave that fails is followed by the command that repairs it, as
`link 4 5 tree 7 -> adopt 4 5`. To repair the first one again and again may never end: `plan` writes
repairs that do.

With `--whole` there follows, for each component, a line `invariant LEADER holds` or `invariant LEADER
fails WHAT COUNT`: what its nodes do together, which no single link shows. An application's invariant
is about the newest session; a node that hasn't joined it counts as started. WHAT is `tokens` (their
number isn't 1), `in without its turn` (nodes) or `routes without a way` (entries of tables). The exit
status is 1 where one fails.",
    after_help: "\
Examples:
  reset-service check examples/reset/sound-network/topology.toml examples/reset/sound-network/script
  reset-service check --repair examples/repair/planned-repair/topology.toml examples/repair/planned-repair/damage",
};

pub const PLAN_HELP: Help = Help {
    about: "Plans how a damaged network is repaired and restarted, and writes that as a script",
    long_about: "\
Plans how a damaged network is repaired and restarted, and writes that as a script.

The script is run as `replay` runs it, but its answers aren't written. The plan is for the network
that it leaves, whatever its registers and local states are. It is a comment `# R repairs` and the
repairs, after which no row of tree and wave fails, and then a comment `# S steps of a reset` and the
steps of a reset of each component, after which each node is normal, in one session of its component,
and has its start state. There is one command a line, and each is applied when `replay` comes to it.
There are no repairs where `check` prints no row of tree or wave, and at most K + 4 for each node;
there are at most 5 steps for each node. Many damaged nodes may make a plan of over 1 MiB, which is more
than a script may have: a session takes it. A bad line of the script is answered as by `replay`, and the
exit status is 2.",
    after_help: "\
Example:
  reset-service plan examples/repair/planned-repair/topology.toml examples/repair/planned-repair/damage > plan
  cat examples/repair/planned-repair/damage plan > script
  reset-service replay examples/repair/planned-repair/topology.toml script",
};

pub const EXPLORE_HELP: Help = Help {
    about: "Visits every configuration that some order of the enabled events leads to",
    long_about: "\
Visits every configuration that some order of the enabled events leads to, and counts them.

The script is run as `replay` runs it, but its answers aren't written. From the configuration that it
leaves each enabled event is taken, and each that is enabled then, and so on: claims, follows, adopts,
mends, joins, finishes, opens and relays, and with --acts the application's actions, but no requests.
It prints `configurations N`, how many were reached; `steps N`, how many pairs of one of them and an
event that is enabled there; `ends N`, in how many no event is enabled; `whole N`, in how many of these
no row of tree and wave fails; and `longest N`, how many steps the longest order has, and
`completions A to B`, how many resets an order that ends completes. Where some order never ends, it
prints `endless` in place of the last two. Where there are more configurations than N of --most, it
prints `more than N configurations` alone, and the exit status is 2.

With --history a history that shows this is written to FILE, from the opening on: the entries of the
script, and then those of a longest order, or of one that goes round. Then `endless` is printed as
`endless from P to Q`: after P entries and after Q the configuration is the same. `verify`, `picture`
and `page` accept FILE. It is written to FILE.part, which takes the place of FILE at the end: a run
that stops, or that leaves no history, leaves FILE as it was.

With `--until check` it looks for a configuration in which `check` finds a row, and with
`--until invariant` for one in which the application's invariant fails, and stops at the first by number
of steps. It prints `found after N` alone, how many steps the shortest order to one has, and the history is
that of this order. Where no order leads to one, it prints `found nowhere` and `configurations N`, and
writes no history.",
    after_help: "\
The exit status is 0 where every order ends and every end is whole, and else 1. With --until it is 0
where nothing is found, and else 1.

Example:
  reset-service explore examples/reset/every-order/topology.toml examples/reset/every-order/script --history history
  reset-service verify examples/reset/every-order/topology.toml history",
};

pub const EXPLORE_SCRIPT_HELP: &str =
    "A file with one command a line, which is run before; without it nothing is";

pub const ACTS_HELP: &str = "Explores the application's actions too";

pub const MOST_HELP: &str =
    "How many configurations are visited at most, from 1 to 100000000; 1000000 where this is left out";

pub const TARGET_HELP: &str =
    "What is looked for: `check`, a row that fails, or `invariant`, where the application's invariant fails";

pub const SHOWN_HISTORY_HELP: &str =
    "The file that a history which shows the result is written to, \
in place of what it has; it can't be an input";

pub const SESSION_HELP: Help = Help {
    about: "Answers commands as they come, and keeps what happened in a file",
    long_about: "\
Answers commands as they come, and keeps what happened in a file.

Each line of standard input is a command, which is answered at once, as `replay` answers it, so that
the next line can depend on the answer. With --history each event that is applied and each fault that
is done is appended to FILE as an entry, and synced to the disk, before its answer is written. Where
FILE isn't empty, it is verified first, and the session goes on after its last entry. `verify`,
`picture` and `page` accept FILE.

The commands are those that `reset-service replay --help` lists, and three more: `help`, which lists
them all, `explain WORD`, which says what a word of an answer means, and `exit`, which ends the session
as the end of the input does. A bad line is answered by `bad line N`, and the session goes on.",
    after_help: "\
Example:
  reset-service session examples/first/one-wave/topology.toml --history history < examples/first/one-wave/script
  reset-service verify examples/first/one-wave/topology.toml history",
};

pub const SESSION_HISTORY_HELP: &str =
    "The file that entries are appended to, after what it has is verified; \
nothing is kept where this is left out";

pub const NO_SYNC_HELP: &str =
    "Leaves it to the system when an entry of --history reaches the disk, which is faster";

pub const PAGE_HELP: Help = Help {
    about: "Writes a page that plays a history forward and back, in HTML",
    long_about: "\
Writes a page that plays a history forward and back, in HTML, on standard output.

The page is one file that needs no other: a browser shows it without a network. At most 100,000 entries
are played: a longer history is answered by `bad history TooLongForPage`, and the exit status is 2.",
    after_help: "\
Example:
  reset-service page examples/history/verified-wave/topology.toml examples/history/verified-wave/history > page.html",
};

pub const TITLE_HELP: &str = "The title of the page; `Reset history` where this is left out";

pub const ROWS_HELP: &str =
    "Draws these entries alone, the first and the last counted from 1, as in 17..40; \
all where this is left out";

pub const DRAWN_NODES_HELP: &str =
    "Draws these nodes alone, as in 1,2,5; all where this is left out";

pub const FROM_HELP: &str =
    "A file with a snapshot, which it starts from in place of the booted configuration";

pub const NUMBER_HELP: &str = "Puts the number of its line before each answer";

pub const STRICT_HELP: &str = "Ends at the first refusal, with exit status 1";

pub const REPAIR_HELP: &str =
    "Puts behind each row of tree and wave that fails the command that repairs it";

pub const WHOLE_HELP: &str =
    "Prints for each component whether the application's invariant holds there";

pub const PLAN_SCRIPT_HELP: &str =
    "A file with one command a line, which is run before; none where this is left out";

pub const WHY_HELP: &str = "Says, where an entry isn't allowed, why it isn't";

pub const AT_HELP: &str = "Prints, as a snapshot, what the first P entries leave";

pub const VERIFY_HELP: Help = Help {
    about: "Checks that a history is possible, and prints which resets it completed",
    long_about: "\
Checks that a history is possible, and prints which resets it completed.

A history is what happened to a network, from the booted configuration of its topology on: each
event that a node took, and each fault. For each reset that was completed there is a line `report
NUMBER opened POSITION finished POSITION`: the number of the session, and the entries that opened
and finished it, counted from 1 (`-` where it wasn't opened since the last fault). The last line is
`verified E entries R reports`. A report is certain to mean that every node joined if no fault came
before it since the booted configuration, or since a `check` that printed no row of tree or wave.

Where an entry isn't allowed where it stands, the answer is `not enabled at POSITION` of the first
such entry, and the exit status is 1; in the file it is one line further down. With `--why` there
follow `entry COMMAND`, the line with which a script answers that command there, what the rows of its
event ask for where none is enabled, and the lines of the entry's node and of its neighbours there, as
`show` prints them. A file that isn't a history is answered by `bad history` and its first bad line,
and one that counts sessions modulo another number than the topology by `bad history OtherModulus`
and that number, both with exit status 2.

With `--at P` the answer is a snapshot: the configuration that the first P entries leave, those after
them are read alone. A history of N entries, fewer than P, is answered by `bad history EndsAfter N`.",
    after_help: "\
A history:
  reset-history 3 8
  request 3
  open 3
The first line is `reset-history 3 M`, where sessions are counted modulo M, the topology's
`modulus`. `reset-history 2 M` is read too, and `reset-history 1` as one with M = 4294967296; these
two have neither `fault off` nor `fault on`. Each line after the first is one entry, a command of a
script that `replay` answers with `applied`, `complete NUMBER` or `disturbed`, an action with the
number of its case; `reset-service replay --help` lists the commands. There are no comments, no
empty lines, no questions and no draws, and each line, the last one too, ends with a line feed.

Example:
  reset-service verify examples/history/verified-wave/topology.toml examples/history/verified-wave/history",
};

pub const RECORD_HELP: Help = Help {
    about: "Runs a script as `replay` does, and writes what happened as a history",
    long_about: "\
Runs a script as `replay` does, and writes what happened as a history.

Standard output and the exit status are those of `replay`. Before the first answer, each event that
is applied and each fault that is done is written to FILE as an entry, in order: the event or the
fault of a line, the fault that `draw` draws, and the request that `watch` makes after an alarm. What
is refused, questions and comments leave no entry, and a bad line ends the history too. `verify` and
`picture` accept it. A bad topology, a bad snapshot and a script that is too long leave no history.
The history is written to FILE.part, which takes the place of FILE at the end: a run that stops, or
that leaves no history, leaves FILE as it was.",
    after_help: "\
Example:
  reset-service record examples/first/one-wave/topology.toml examples/first/one-wave/script --history history
  reset-service verify examples/first/one-wave/topology.toml history",
};

pub const THREADS_HELP: Help = Help {
    about: "Runs a thread for each node, and writes what the nodes did as a history",
    long_about: "\
Runs a thread for each node, and writes what the nodes did as a history.

The network starts from the booted configuration of its topology. The node with the least
identifier, or the one that `--select` names, asks for a reset first. Then all nodes take turns at
the same time, N each with `--turns N`. In a turn a node does the first event that it may do,
requests left out, or nothing where a neighbour has changed what it saw. A node that may do none waits
until a neighbour has changed, and the turns end where every node that has turns left waits. With
`--until quiet` the turns end there alone: the applications `idle` and `routes` come to rest so, `token`
and `mutex` don't and need `--turns`. With `--resets N` the node that asked asks again when it has
finished the reset that it asked for, N times in all. What the nodes did is written to FILE as a history,
which `verify` accepts. It is written to FILE.part, which takes the place of FILE at the end: a run
that stops, or that leaves no history, leaves FILE as it was. At most 1,000,000 entries are kept: a
run that reaches this many ends there. Then one line is printed, `threads N nodes E entries R reports`:
the nodes, the entries of the history, and the resets that were completed.

A topology of over 64 nodes is answered by `bad topology TooManyForThreads`, and the exit status
is 2.",
    after_help: "\
Example:
  reset-service threads examples/first/one-wave/topology.toml --turns 100 --history history
  reset-service threads examples/first/one-wave/topology.toml --until quiet --resets 3 --history history
  reset-service verify examples/first/one-wave/topology.toml history",
};

pub const FEW_NODES_HELP: &str =
    "A file in TOML that names the nodes, at most 64, the links between them, and the application";

pub const TURNS_HELP: &str = "How many turns each node takes, from 1 to 100000";

pub const UNTIL_HELP: &str =
    "In place of `--turns`: the run goes on until no node has anything to do";

pub const SELECT_HELP: &str =
    "The node that asks for resets; where it isn't given, the least that is up";

pub const RESETS_HELP: &str =
    "How many resets it asks for, from 1 to 100000; 1 where it isn't given";

pub const HISTORY_FILE_HELP: &str =
    "The file that the history is written to, in place of what it has; it can't be an input";

pub const TABLES_ABOUT: &str = "Prints the tables that the nodes act by";

pub const TABLES_LONG_ABOUT: &str = "\
Prints the tables that the nodes act by: the tree table, by which they build and mend the
spanning tree, the wave table, by which resets travel on it, and the tables of the
applications token, mutex and routes; and then the link tables of these applications, whose
rows say what a fault of a link is.

A table is a line `table TITLE`, and then a line `NUMBER NAME | GUARD | EFFECT` for each
row. A node may take a row where its guard holds, and then its registers change as the
effect says. `enabled I` in a script gives the numbers of the rows that node I may take.
A row of a link table is asked at each end of a link: own is the end at which it is asked,
other the far end.";

pub const DRIVE_HELP: Help = Help {
    about: "Drives a network by a seeded scheduler, and writes what it did as a history",
    long_about: "\
Drives a network by a seeded scheduler, and writes what it did as a history.

The network starts from the booted configuration of its topology. At each of N steps the scheduler
draws a node among those that are ready (among all, where none is), and then one of the events that
are enabled there, requests included; or, in about P of a thousand steps, a fault. The same words
give the same history on every machine. A drawn fault may be refused, and then the step does
nothing. The history is written to FILE, and `verify` accepts it. It is written to FILE.part, which
takes the place of FILE at the end: a run that stops, or that leaves no history, leaves FILE as it
was. Then one line is printed, `drove E entries R reports`: the entries of the history, and the resets
that were completed.",
    after_help: "\
Example:
  reset-service drive examples/first/one-wave/topology.toml --steps 1000 --seed 7 --history history
  reset-service verify examples/first/one-wave/topology.toml history",
};

pub const STEPS_HELP: &str = "How many steps it takes, from 1 to 1000000";

pub const DRIVE_SEED_HELP: &str =
    "A number that the random words are drawn by, from 0 to 4294967295";

pub const FAULTS_HELP: &str =
    "How many of a thousand steps are faults, from 0 to 1000; none where this is left out";

pub const PICTURE_HELP: Help = Help {
    about: "Draws a history as a space-time diagram, in SVG",
    long_about: "\
Draws a history as a space-time diagram, in SVG, on standard output.

A node is a lane, the leader first, and time goes down the page: each entry is a mark on the lane of
its node, with its line as a text that shows where the pointer rests. A lane has the colour of the
node's phase, and behind it that of its session, so that a reset is seen to go down the tree and to
end. A line across the lanes of a component is a completed reset; a node that is down is hatched. At
most 64 nodes and 2,000 entries are drawn: of more, `--nodes` and `--rows` draw a part, with the
numbers that the entries have in the whole. What can't be drawn is answered in place of a picture: the
exit status tells.",
    after_help: "\
Examples:
  reset-service picture examples/history/verified-wave/topology.toml examples/history/verified-wave/history > wave.svg
  reset-service picture topology.toml history --rows 5000..5060 --nodes 1,2,5 > part.svg",
};

pub const SHAPE_HELP: Help = Help {
    about: "Writes the text of a topology of a standard shape",
    long_about: "\
Writes the text of a topology of a standard shape, with the nodes 1 to N.

  path    each node is linked with the next one
  ring    a path whose ends are linked
  star    node 1 is linked with each other one
  tree    a binary tree: node I is linked with the node at half of I
  grid    a near-square grid, each node linked with the next one and the one below
  random  each node is linked with one or two lesser ones, which are drawn by the seed

A name that isn't known is answered in place of the text, and the exit status is 2.",
    after_help: "\
Example:
  reset-service topology grid 16 --app mutex > topology.toml",
};

pub const SHAPE_NAME_HELP: &str = "ring, path, star, grid, tree or random";

pub const NODES_HELP: &str = "How many nodes it has, from 1 to 1024";

pub const SHAPE_SEED_HELP: &str =
    "A number that a random shape is drawn by, from 0 to 4294967295; 0 where this is left out";

pub const APP_HELP: &str = "idle, token, mutex or routes; idle where this is left out";

pub const EXPLAIN_HELP: Help = Help {
    about: "Explains a word that the program prints or reads, and says what to do",
    long_about: "\
Explains a word that the program prints or reads, and says what to do: a refusal, an error of a
topology or of a history, a command of a script, or a row that `check` names. Without a word it
lists the words that it knows.",
    after_help: "\
Examples:
  reset-service explain
  reset-service explain NotEnabled
  reset-service explain 'tree 7'",
};

pub const WORD_HELP: &str =
    "One word of an answer or of a script, as `NotEnabled` or `not`, or a row that `check` names, as `tree 7`";
