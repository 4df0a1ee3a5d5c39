// What the words of answers mean: words, each with its text.

pub const ANSWERS: [(&str, &str); 25] = [
    (
        "bad",
        "\
`bad topology`, `bad snapshot`, `bad script`, `bad history`, `bad rows`, `bad nodes` and `bad line`: the\n\
text isn't one that the program takes. The word behind it says why: `explain` it, and of `bad line N`\n\
the word `line`. Status 2, but a session goes on after a bad line.\n",
    ),
    (
        "node",
        "\
`node I tree ROOT FATHER DIST wave PHASE SESSION local TEXT`: the registers of node I, and its
local state.\n",
    ),
    (
        "session",
        "\
The number of a reset. Processes communicate only where theirs are equal; the newest of a part of
the network is that of the part's leader, the greatest of the nodes that links lead to. Resets are
counted modulo M, the topology's `modulus`: after session M - 1 comes 0.\n",
    ),
    (
        "threads",
        "\
`threads N nodes E entries R reports`: what node threads did, the entries of the history that they
keep, and the resets that were completed.\n",
    ),
    (
        "applied",
        "\
The command was allowed, and was done.\n",
    ),
    (
        "complete",
        "\
The reset with this session number is complete: every node that links lead to from the one that\n\
finished has joined its session. After a fault that is sure again of resets that open where\n\
`check` prints no row of tree or wave.\n",
    ),
    (
        "refused",
        "\
The command was not allowed where it stood, and changed nothing. The word behind it says why:\n\
`explain` it.\n",
    ),
    (
        "disturbed",
        "\
The fault was done.\n",
    ),
    (
        "drawn",
        "\
The fault that the seed draws, as a command; it is done as that command is.\n",
    ),
    (
        "move",
        "\
`move COMMAND`: the command is allowed now. `moves` prints these lines.\n",
    ),
    (
        "quiet",
        "\
The node sees no fault of the application at its links.\n",
    ),
    (
        "unjoined",
        "\
The node hasn't joined the newest session of its part of the network, so its local state counts as\n\
just started.\n",
    ),
    (
        "link",
        "\
`link AT OTHER FAMILY ROW`: at node AT the row of the table that FAMILY names fails, toward\n\
OTHER, or of AT itself. `reset-service tables` prints the rows; the repairs are `claim`,\n\
`follow`, `adopt` and `mend`.\n",
    ),
    (
        "faults",
        "\
How many rows fail, node by node and link by link. With 0, tree and wave are whole. Of the\n\
application each link is looked at by itself: two tokens far apart are no fault, nor is none.\n",
    ),
    (
        "verified",
        "\
The history could happen from the booted configuration, or from the snapshot of `--from`: so many\n\
entries, of which so many complete a reset.\n",
    ),
    (
        "entry",
        "\
`entry COMMAND`: the first entry of a history that isn't allowed where it stands, of `verify --why`.\n\
Below it are the refusal of COMMAND there, what the rows of its event ask for, where none is\n\
enabled, and what its node and the neighbours have there.\n",
    ),
    (
        "row",
        "\
`row NUMBER NAME: GUARD`, of `verify --why`: a row by which the event of the entry may happen, and\n\
what it asks for. None of these rows is enabled there. `tables` prints them all.\n",
    ),
    (
        "report",
        "\
A reset that was completed: its session number, and the entries that opened and finished it (`-`\n\
where it wasn't opened since the last fault). What is sure after a fault: see `complete`.\n",
    ),
    (
        "drove",
        "\
What a seeded scheduler did: the entries of the history that it wrote, and the resets that were\n\
completed.\n",
    ),
    (
        "resumed",
        "\
`resumed E entries R reports`: the session goes on after a history with so many entries, of which so\n\
many complete a reset.\n",
    ),
    (
        "opened",
        "\
`opened P` of a line `report`: entry P of the history opened the session. `opened -`: between the last\n\
fault and the end of the reset its node didn't open one.\n",
    ),
    (
        "finished",
        "\
`finished P` of a line `report`: entry P of the history completed the reset.\n",
    ),
    (
        "entries",
        "\
How many events and faults a history has, a line for each. Refused commands leave none, and entry P is\n\
line P + 1 of the file.\n",
    ),
    (
        "reports",
        "\
How many resets a history completes. `verify` prints a line `report` for each.\n",
    ),
    (
        "table",
        "\
`table TITLE`, of `tables`: the rows below belong to this table. Each has its number and its name, what it\n\
asks for, and what it does.\n",
    ),
];
