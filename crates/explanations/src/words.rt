// What the other words mean that the program prints and reads, and what to do: words, each with its text.

pub const WORDS: [(&str, &str); 57] = [
    // Commands of scripts.
    (
        "claim",
        "\
`claim I`: node I takes itself for the root of the tree. Allowed where its registers can't be\n\
right (tree rows 1 to 4).\n",
    ),
    (
        "follow",
        "\
`follow I`: node I takes over its father's root and distance (tree rows 5 and 6).\n",
    ),
    (
        "adopt",
        "\
`adopt I J`: node I takes its neighbour J as father, which knows a greater root or a shorter way\n\
(tree rows 7 and 8).\n",
    ),
    (
        "request",
        "\
`request I`: node I asks for a reset (wave row 1).\n",
    ),
    (
        "relay",
        "\
`relay I C`: node I passes on the request of its child C (wave row 2).\n",
    ),
    (
        "open",
        "\
`open I`: the root I opens the next session and restarts its application (wave row 3).\n",
    ),
    (
        "join",
        "\
`join I`: node I joins its father's session and restarts its application (wave rows 4 and 5).\n",
    ),
    (
        "finish",
        "\
`finish I`: node I and all its children have joined, and it goes on as normal; at the root, the\n\
reset is complete (wave rows 6 and 7).\n",
    ),
    (
        "mend",
        "\
`mend I`: node I takes over its father's phase and session, which a fault has set apart (wave\n\
rows 8 to 11).\n",
    ),
    (
        "act",
        "\
`act I CASE` or `act I CASE J`: node I takes an action of the application, by its name or\n\
number, toward the neighbour J where it is about one.\n",
    ),
    (
        "fault",
        "\
`fault tree`, `fault wave` and `fault local` set the registers or the local state of a node,\n\
`fault down` and `fault up` take a link down or bring one up, `fault off` and `fault on` a node.\n\
`reset-service replay --help` has their words.\n",
    ),
    (
        "draw",
        "\
`draw SEED`: a random fault, the same for the same seed.\n",
    ),
    (
        "show",
        "\
`show` or `show I`: the registers and the local state of all nodes that are up, or of node I.\n",
    ),
    (
        "newest",
        "\
`newest`: the local states in the newest session of each part of the network, `unjoined` where a\n\
node has yet to join it.\n",
    ),
    (
        "enabled",
        "\
`enabled I`: the numbers of the rows of each table that node I may take now.\n",
    ),
    (
        "ready",
        "\
`ready`: the nodes that have something to do beside asking for a reset.\n",
    ),
    (
        "check",
        "\
`check` or `check I`: the rows that fail at all nodes, or at node I. The subcommand `check` does\n\
so at the end of a script, with status 1 where some row fails; `check --repair` puts the command that\n\
repairs it behind each row of tree and wave. To repair the first one again and again may never end:\n\
`plan` writes repairs that do.\n",
    ),
    (
        "alarm",
        "\
`alarm I`: the first fault of the application that node I sees at its links, or `quiet`. As an\n\
answer: at this node, toward that neighbour, this row of the application's link table fails.\n",
    ),
    (
        "watch",
        "\
`watch I`: as `alarm I`, and after an alarm node I asks for a reset.\n",
    ),
    (
        "moves",
        "\
`moves` or `moves I`: the commands that are allowed now, at each node or at node I, one a line as\n\
`move COMMAND`.\n",
    ),
    (
        "snapshot",
        "\
`snapshot`: writes the whole configuration, the lines of `show` and a line `link A B` for each link. Put\n\
these into a file, and `--from FILE` starts `replay`, `check`, `plan`, `explore`, `session`, `verify`,\n\
`picture`, `page`, `record`, `threads` or `drive` there.\n",
    ),
    (
        "plan",
        "\
`reset-service plan TOPOLOGY [SCRIPT]`: writes a script that repairs the network that SCRIPT leaves,\n\
after `# R repairs`, and then restarts each part of it, after `# S steps of a reset`. Run it by\n\
`replay` after SCRIPT: each of its commands is applied. With `--from SNAPSHOT` it starts there. One of over\n\
1 MiB, of many damaged nodes, is carried out by `session`, which has no limit.\n",
    ),
    (
        "help",
        "\
`help`: the commands of a session, a line each. Scripts don't have it.\n",
    ),
    (
        "explain",
        "\
`explain WORD`: what a word means that an answer or a command has, and `explain` alone: which words\n\
it knows. In a session a command, and else a subcommand.\n",
    ),
    (
        "exit",
        "\
`exit`: ends the session, as the end of the input does. Scripts don't have it.\n",
    ),
    // Explorations and plans.
    (
        "configurations",
        "\
`configurations N`: how many configurations are reached by some order of the enabled events, the\n\
first one among them. `more than N configurations` stands alone where `--most` is too small.\n",
    ),
    (
        "more",
        "\
`more than N configurations`: `explore` reached more than the N of `--most`, which is 1,000,000 where it\n\
isn't given. Give a greater N, up to 100,000,000, or a smaller network or `modulus`.\n\
`more than 1000000 entries`: the file of its `--history` would have more entries than a history may\n\
have; without it the result is printed. Status 2, and no history is left.\n",
    ),
    (
        "steps",
        "\
`steps N`: how many pairs there are of a configuration that is reached and an event that is enabled\n\
there. In a plan `# S steps of a reset` comes before the commands of a reset.\n",
    ),
    (
        "ends",
        "\
`ends N`: in how many of the configurations no event is enabled.\n",
    ),
    (
        "whole",
        "\
`whole N`: in how many of the ends no row of the tree or of the wave fails: in all of them. An order\n\
that ends leaves a network that needs no repair.\n",
    ),
    (
        "longest",
        "\
`longest N`: every order ends, and the longest one has N steps.\n",
    ),
    (
        "completions",
        "\
`completions A to B`: how many resets an order that ends completes, at least A and at most B.\n",
    ),
    (
        "endless",
        "\
`endless`: some order never ends. `endless from P to Q`: it is in the history, and the configuration\n\
after P entries is the one after Q. `plan` writes repairs that end.\n",
    ),
    (
        "found",
        "\
`found after N`: with `--until` some order of N steps leads to what is looked for, and no order leads\n\
there by fewer. `found nowhere`: no order does, and the next line says how many configurations there are.\n",
    ),
    (
        "nowhere",
        "\
`found nowhere`: no order of the events leads to what `explore --until` looks for.\n",
    ),
    (
        "repair",
        "\
What a node does about registers that can't be right: `claim`, `follow`, `adopt` or `mend`.\n\
`reset-service check --repair` prints each behind the row that calls for it.\n",
    ),
    (
        "repairs",
        "\
`# R repairs`: what a plan does before the reset, by `claim`, `follow`, `adopt` and `mend`. To repair\n\
what `check` prints first, again and again, may never end.\n",
    ),
    // Other subcommands.
    (
        "replay",
        "\
`reset-service replay TOPOLOGY SCRIPT`: runs a script, and answers each of its commands. `replay: N\n\
commands, ..`, on a terminal alone: how many there were, and how many of them were refused.\n",
    ),
    (
        "explore",
        "\
`reset-service explore TOPOLOGY [SCRIPT]`: visits each configuration that some order of the enabled events\n\
leads to. `explore: N configurations, ..`, on standard error: how far it has come.\n",
    ),
    (
        "verify",
        "\
`reset-service verify TOPOLOGY HISTORY`: whether a history is possible, and which resets it completes.\n\
`verify: N s`, on standard error: for how many seconds it has been running.\n",
    ),
    (
        "picture",
        "\
`reset-service picture TOPOLOGY HISTORY`: draws a history as an SVG, a lane for each node and a row for\n\
each entry.\n",
    ),
    (
        "page",
        "\
`reset-service page TOPOLOGY HISTORY`: writes a page that plays a history forward and back. `page: N s`, on\n\
standard error: for how many seconds it has been running.\n",
    ),
    (
        "record",
        "\
`reset-service record TOPOLOGY SCRIPT --history FILE`: answers a script as `replay` does, and writes the\n\
history of what it did.\n",
    ),
    (
        "drive",
        "\
`reset-service drive TOPOLOGY --steps N --seed S --history FILE`: takes random steps, the same for the\n\
same seed, and writes their history. `drive: N %, ..`, on standard error: how far it has come.\n",
    ),
    (
        "topology",
        "\
`reset-service topology SHAPE N`: writes the topology text of a shape, as `ring` or `grid`. `bad topology`:\n\
the one that was given isn't taken; the word behind it says why.\n",
    ),
    (
        "tables",
        "\
`reset-service tables`: prints the tables that the nodes act by, a row a line.\n",
    ),
    // Registers, phases and families of faults.
    (
        "root",
        "\
The first of the tree registers: the node that this one takes for its leader. In a sound network it is\n\
the greatest node that links lead to.\n",
    ),
    (
        "father",
        "\
The second of the tree registers: the next node on the way to the root, or the node itself.\n",
    ),
    (
        "distance",
        "\
The third of the tree registers: how many links the root is off.\n",
    ),
    (
        "K",
        "\
The number of all nodes of the topology, those that are down included. A distance of K or more is too\n\
far to be true.\n",
    ),
    (
        "normal",
        "\
The phase of a node that takes part in no reset.\n",
    ),
    (
        "initiate",
        "\
The phase of a node that has asked for a reset, or passed a request on.\n",
    ),
    (
        "reset",
        "\
The phase of a node that has joined a session whose reset hasn't ended below it.\n",
    ),
    (
        "tree",
        "\
The tree registers of a node: root, father, distance. As a family of faults: a row of the tree\n\
table.\n",
    ),
    (
        "wave",
        "\
The wave registers of a node: phase and session. As a family of faults: a row of the wave table.\n",
    ),
    (
        "app",
        "\
As a family of faults: a row of the application's link table.\n",
    ),
    (
        "local",
        "\
The local state of the application at a node, as a text.\n",
    ),
];
