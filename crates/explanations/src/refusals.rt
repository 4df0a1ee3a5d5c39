// What the refusals of events and of faults mean, and the errors of texts, and what to do: words, each with its text.

pub const REFUSALS: [(&str, &str); 55] = [
    // Refusals of events and of faults.
    (
        "StrangeNode",
        "\
The number isn't a node of the topology, or it is one that is down, or a link of the topology's text\n\
ends at a number that isn't among its nodes. Name a node that `show` prints, bring it up by\n\
`fault on I`, or add it to `nodes`.\n",
    ),
    (
        "StrangeNeighbour",
        "\
The second number isn't a neighbour of the node. The links of the topology's text say who is; a\n\
link that is down is none, and a node that went down has lost its links.\n",
    ),
    (
        "NoSuchCase",
        "\
The application has no action of this name or number. `reset-service tables` prints the actions\n\
of each application, `enabled I` those that node I may take.\n",
    ),
    (
        "WantsNeighbour",
        "\
The action is about one neighbour, which has to be named: `act I CASE J`.\n",
    ),
    (
        "TakesNoNeighbour",
        "\
The action is about no neighbour: `act I CASE`, with nothing behind it.\n",
    ),
    (
        "Disagrees",
        "\
The action reads the neighbour with this number, which is in another session: processes\n\
communicate only where their session numbers are equal. Let the reset go on (`join`), and try\n\
again.\n",
    ),
    (
        "NotEnabled",
        "\
No row of the tables that stands behind the command holds at the node now. `enabled I` tells\n\
which rows do, `reset-service tables` prints their guards, `show I` the registers that they read.\n",
    ),
    (
        "BadValue",
        "\
A root or a father is outside 1 to 65535, or a link would go from a node to itself or be one\n\
more than 8,192.\n",
    ),
    (
        "BadLocal",
        "\
No local state of the application has this text, or it has more than 200 bytes. `show` prints\n\
the texts; docs/formats.md defines them.\n",
    ),
    (
        "NoSuchLink",
        "\
There is no link of these two nodes that could be taken down.\n",
    ),
    (
        "LinkIsThere",
        "\
The link that should come up is there already.\n",
    ),
    (
        "NodeIsUp",
        "\
The node that should come up is up already.\n",
    ),
    (
        "BookFull",
        "\
The history that the session keeps has 1,000,000 entries, and takes no more. Begin another one by\n\
`snapshot`, and a session with `--from` and a new file.\n",
    ),
    // Errors of topologies and of their texts.
    (
        "TextTooLong",
        "\
The topology's text has more than 1,048,576 bytes.\n",
    ),
    (
        "NotToml",
        "\
The topology's text is no TOML document, or isn't UTF-8. Where a text comes on standard input, a\n\
line `---` has to stand between the topology and the script.\n",
    ),
    (
        "MissingKey",
        "\
A topology needs the three keys `nodes`, `links` and `app`; one of them isn't there.\n",
    ),
    (
        "UnknownKey",
        "\
A topology has the keys `nodes`, `links` and `app`, may have `modulus`, and has no others.\n",
    ),
    (
        "WrongKind",
        "\
`nodes` is an array of numbers from 0 to 4294967295, `links` one of pairs of such numbers, `app` a\n\
string, and `modulus` a number from 2 to 4294967296; one of them is something else.\n",
    ),
    (
        "UnknownApp",
        "\
The application is `idle`, `token`, `mutex` or `routes`.\n",
    ),
    (
        "UnknownShape",
        "\
The shape is `ring`, `path`, `star`, `grid`, `tree` or `random`.\n",
    ),
    (
        "NoNodes",
        "\
A topology has at least one node.\n",
    ),
    (
        "TooManyNodes",
        "\
A topology has at most 1,024 nodes.\n",
    ),
    (
        "BadId",
        "\
A node's number is from 1 to 65535. Those of `--nodes` are separated by commas without spaces, with none\n\
at the end: `1,2`, not `1, 2` or `1,2,`.\n",
    ),
    (
        "TwiceNode",
        "\
The number stands twice in `nodes`, or two lines of a snapshot are of this node.\n",
    ),
    (
        "TooManyLinks",
        "\
A topology has at most 8,192 links, and so does a snapshot.\n",
    ),
    (
        "SelfLink",
        "\
A link goes from the node with this number to itself.\n",
    ),
    (
        "TwiceLink",
        "\
The link of these two nodes stands twice, in a topology or in a snapshot; a link and its reverse are\n\
one link.\n",
    ),
    (
        "TooManyForThreads",
        "\
`threads` runs one thread for each node that is up, for at most 64 of them.\n",
    ),
    (
        "TooManyForPicture",
        "\
`picture` draws at most 64 nodes; `--nodes` says which.\n",
    ),
    (
        "BadRange",
        "\
The rows of `picture --rows` are two numbers with two dots between them, as in 17..40: the first entry\n\
that is drawn, from 1 on, and the last.\n",
    ),
    // Texts, their keys and their first lines.
    (
        "script",
        "\
A text with one command a line; an empty line, or one that begins with `#`, does nothing. `bad script\n\
TooLong`: it has more bytes than a script may have.\n",
    ),
    (
        "nodes",
        "\
The key of a topology that lists its nodes, as in `nodes = [1, 2, 3]`. `bad nodes`: `picture --nodes` can't\n\
draw the ones that it was given; the word behind it says why.\n",
    ),
    (
        "links",
        "\
The key of a topology that lists its links, as in `links = [[1, 2], [2, 3]]`. A link joins both of its\n\
ends, whichever is named first.\n",
    ),
    (
        "modulus",
        "\
The key of a topology with the number of sessions that there are, from 2 to 4294967296, which it is where\n\
the key is left out. With 8, session 0 comes after session 7.\n",
    ),
    (
        "rows",
        "\
`bad rows BadRange`: what `picture --rows` was given isn't two numbers as in 17..40.\n",
    ),
    (
        "reset-snapshot",
        "\
`reset-snapshot 1`: the first line of a snapshot, with the version of its form.\n",
    ),
    (
        "reset-history",
        "\
`reset-history 3 M`: the first line of a history, with the version of its form, and M, the number of\n\
sessions that there are. Each line after it is an entry.\n",
    ),
    // Errors of scripts, histories and devices.
    (
        "TooLong",
        "\
A script has at most 1,048,576 bytes, a history at most 1,000,000 entries, and a snapshot at most\n\
67,108,864 bytes.\n",
    ),
    (
        "TooLongForPicture",
        "\
`picture` draws at most 2,000 entries; of a longer history `--rows 1..2000` draws the first ones.\n",
    ),
    (
        "TooLongForPage",
        "\
`page` plays at most 100,000 entries; of a longer history `head -n 100001 HISTORY` prints the first\n\
ones, with the first line of the file, as a history of their own.\n",
    ),
    (
        "BadLine",
        "\
The line with this number is no entry of a history, has over 256 bytes or lacks its line feed. A\n\
history has no comments, no empty lines, no questions and no carriage returns. Its first line is\n\
`reset-history 3 M` or `reset-history 2 M` with M from 2 to 4294967296, or `reset-history 1`; an\n\
empty file has none. `fault off` and `fault on` are lines of version 3 alone.\n\
Of a snapshot: the line is neither one that `snapshot` writes nor a comment, or has over 65,536 bytes.\n",
    ),
    (
        "BadVersion",
        "\
The first line names a version of histories that this program doesn't read. It reads versions 1,\n\
2 and 3: `reset-history 1`, `reset-history 2 M` and `reset-history 3 M`; a session goes on with one of\n\
version 3 alone. Of snapshots it reads version 1: `reset-snapshot 1`.\n",
    ),
    (
        "OtherModulus",
        "\
The history counts sessions modulo this number, and the topology modulo another. A history's is\n\
the M of its first line `reset-history 3 M`, a topology's its `modulus`; where there is none, it is\n\
4294967296. A history can have happened to topologies of its own number alone.\n",
    ),
    (
        "line",
        "\
`bad line N`: the line with this number is no command. The run of a script ended there; a session goes\n\
on. Commands are in small letters and have all their words, as `reset-service replay --help` lists\n\
them, with one space between two; numbers have no zero in front, and cases are at most 255. `cat -A`\n\
shows what the eye misses. Of a history see `BadLine`, as an answer of `check` see `link`.\n",
    ),
    (
        "not",
        "\
`not enabled at P`: entry P, which is line P + 1 of the file, isn't allowed where it stands. To see\n\
why, ask `verify --why`; `verify --at` prints the whole network as it was before it.\n",
    ),
    (
        "EndsAfter",
        "\
`bad history EndsAfter N`: the history has N entries, fewer than the P of `verify --at P` or of\n\
`picture --rows P..Q`.\n",
    ),
    (
        "history",
        "\
`history is an input`: the FILE of `--history` is the topology, the script or the snapshot too.\n\
`history is the output`: standard output goes to it. Nothing was written; name another FILE. Status 2.\n\
`history: the last line had no end and was cut off`: a crash left a part of a line in the FILE of a\n\
session, which goes on after the lines before it.\n",
    ),
    (
        "read",
        "\
`read fault`: the topology, the script, the history or the standard input couldn't be opened or\n\
read. Are the paths right, are they files, and may you read them? Status 3.\n",
    ),
    (
        "write",
        "\
`write fault`: the file for the history or the standard output couldn't be created or written.\n\
Is the folder there, may you write to it, and has the device room? Status 3.\n",
    ),
    (
        "thread",
        "\
`thread fault`: the system refused to start a thread. Status 3; try fewer nodes, or later.\n",
    ),
    (
        "memory",
        "\
`out of memory`: the system refused a request for memory. Status 4; what was written before is\n\
right.\n",
    ),
    (
        "lists",
        "\
`lists differ`: what the node threads kept isn't what each of them was told. No run is known\n\
that ends so; please report it.\n",
    ),
    (
        "no",
        "\
`no such word`: `explain` knows nothing of it. Without a word it lists those that it knows. Status 2.\n",
    ),
    (
        "error",
        "\
`error: ..`: the program doesn't take these words of the command line; what follows says why. Status 2,\n\
and nothing was done.\n",
    ),
    (
        "reset-service",
        "\
`reset-service: FILE: REASON`: which file was bad, where, and why. The word `--verbose` asks for it, and\n\
so does RESET_VERBOSE=1 in the environment; `plan`, `explore`, `session` and `page` say it in any case.\n",
    ),
];
