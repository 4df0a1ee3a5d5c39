// The applications, their actions, local states and invariants, and their link tables: words, each with its text.

pub const APPLICATIONS: [(&str, &str); 20] = [
    (
        "invariant",
        "\
`invariant`: says of each part of the network, whose leader is G, `invariant G holds` or\n\
`invariant G fails WHAT COUNT`: what its nodes do together, by the newest session. `check --whole`\n\
prints the same lines of what a script leaves. WHAT is `tokens`, which is to be 1,\n\
`in without its turn`, the nodes that are in and shouldn't be, or `routes without a way`, the\n\
entries that lead nowhere. A reset of the part makes it hold again.\n",
    ),
    (
        "holds",
        "\
`invariant G holds`: what the nodes of the application do together is right in the part of the network\n\
whose leader is G. It stays so until a fault, where `check` prints no row of tree or wave.\n",
    ),
    (
        "fails",
        "\
`invariant G fails WHAT COUNT`: what the nodes of the application do together isn't right in the part of\n\
the network whose leader is G. WHAT says what is wrong there, as `tokens`; a reset of the part mends it.\n",
    ),
    (
        "tokens",
        "\
`invariant G fails tokens N`: the part of the network whose leader is G has N tokens, held or on their\n\
way over a link, in place of one.\n",
    ),
    (
        "idle",
        "\
The application that has nothing to do.\n",
    ),
    (
        "token",
        "\
The application in which one node at a time holds a token, in each part of the network one:\n\
`pass J` and `take J`.\n",
    ),
    (
        "mutex",
        "\
The application in which no two neighbours are in at once: `enter` and `leave`.\n",
    ),
    (
        "routes",
        "\
The application in which each node learns ways to the others that it can reach: `pull J`.\n",
    ),
    (
        "pass",
        "\
`act I pass J` (token): node I, which holds the token, hands it to its neighbour J.\n",
    ),
    (
        "take",
        "\
`act I take J` (token): node I takes the token that its neighbour J has handed over.\n",
    ),
    (
        "enter",
        "\
`act I enter` (mutex): node I goes in, where it has the turn of each of its links.\n",
    ),
    (
        "leave",
        "\
`act I leave` (mutex): node I goes out, and hands the turn of each link over.\n",
    ),
    (
        "pull",
        "\
`act I pull J` (routes): node I takes its neighbour J's better ways.\n",
    ),
    (
        "hold",
        "\
As a local state of `token`, `hold/GIVEN/TAKEN`: the node holds the token. GIVEN and TAKEN have the\n\
numbers for which its given bit and its taken bit are one, or `-`.\n",
    ),
    (
        "free",
        "\
As a local state of `token`, `free/GIVEN/TAKEN`: the node doesn't hold the token. It is on its way to the\n\
node from a neighbour where that one's given bit isn't this one's taken bit.\n",
    ),
    (
        "in",
        "\
As a local state of `mutex`, `in/BIT`: the node is in. `invariant G fails in without its turn N`: N nodes\n\
are in and lack the turn of one of their links.\n",
    ),
    (
        "out",
        "\
As a local state of `mutex`, `out/BIT`: the node isn't in. As the end of a run, `out of memory`: see\n\
`memory`.\n",
    ),
    (
        "token-links",
        "\
`table token-links`: what is wrong at a link of `token`, as both ends with a token. `check` names its\n\
rows `app 1` to `app 3`.\n",
    ),
    (
        "mutex-links",
        "\
`table mutex-links`: what is wrong at a link of `mutex`, both ends in or one without its turn. `check`\n\
names its rows `app 1` and `app 2`.\n",
    ),
    (
        "routes-links",
        "\
`table routes-links`: what is wrong at a link of `routes`, a way over it that the other end doesn't know\n\
or isn't nearer on. `check` names its rows `app 1` and `app 2`.\n",
    ),
];
