// What the rows of tree and wave mean, and those of the link tables as `check` names them (`app 1`): each with its text.

pub const ROWS: [(&str, &str); 22] = [
    (
        "tree 1",
        "\
Row 1 of the tree table, `claim-low`: node AT takes a node for root that is less than itself.\n\
The repair is `claim AT`.\n",
    ),
    (
        "tree 2",
        "\
Row 2 of the tree table, `claim-self`: node AT is its own father, and not its own root at\n\
distance 0. The repair is `claim AT`.\n",
    ),
    (
        "tree 3",
        "\
Row 3 of the tree table, `claim-stray`: the father of node AT is neither itself nor a neighbour.\n\
The repair is `claim AT`.\n",
    ),
    (
        "tree 4",
        "\
Row 4 of the tree table, `claim-far`: the distance of node AT is K or more, too far to be true.\n\
The repair is `claim AT`.\n",
    ),
    (
        "tree 5",
        "\
Row 5 of the tree table, `follow-root`: the father of node AT has another root. The repair is\n\
`follow AT`.\n",
    ),
    (
        "tree 6",
        "\
Row 6 of the tree table, `follow-dist`: node AT has its father's root, but not its father's\n\
distance and one. The repair is `follow AT`.\n",
    ),
    (
        "tree 7",
        "\
Row 7 of the tree table, `adopt-root`: the neighbour OTHER, whose distance is less than K, has a\n\
greater root. The repair is `adopt AT OTHER`.\n",
    ),
    (
        "tree 8",
        "\
Row 8 of the tree table, `adopt-short`: the neighbour OTHER has the same root, and its distance\n\
and one is less than AT's. The repair is `adopt AT OTHER`.\n",
    ),
    (
        "wave 1",
        "\
Row 1 of the wave table, `request`: a node that is normal may ask for a reset. It is no fault.\n",
    ),
    (
        "wave 2",
        "\
Row 2 of the wave table, `relay`: a node that is normal may pass on the request of a child. It\n\
is no fault.\n",
    ),
    (
        "wave 3",
        "\
Row 3 of the wave table, `open`: a root that has asked, or been asked, may open a session. It is\n\
no fault.\n",
    ),
    (
        "wave 4",
        "\
Row 4 of the wave table, `join-normal`: a normal node may join the next session, if its father\n\
is in the reset of that. It is no fault.\n",
    ),
    (
        "wave 5",
        "\
Row 5 of the wave table, `join-asked`: the same, of a node that has asked for a reset. It is no\n\
fault.\n",
    ),
    (
        "wave 6",
        "\
Row 6 of the wave table, `finish`: a node in a reset, whose children have all joined and\n\
finished, may finish. It is no fault.\n",
    ),
    (
        "wave 7",
        "\
Row 7 of the wave table, `finish-root`: the same, of a root: its reset is complete. It is no\n\
fault.\n",
    ),
    (
        "wave 8",
        "\
Row 8 of the wave table, `mend-reset`: node AT is in a reset, and its father isn't. The repair\n\
is `mend AT`.\n",
    ),
    (
        "wave 9",
        "\
Row 9 of the wave table, `mend-number`: neither AT nor its father is in a reset, and their\n\
sessions differ. The repair is `mend AT`.\n",
    ),
    (
        "wave 10",
        "\
Row 10 of the wave table, `mend-both`: AT and its father are in resets of different sessions.\n\
The repair is `mend AT`.\n",
    ),
    (
        "wave 11",
        "\
Row 11 of the wave table, `mend-late`: AT isn't in a reset, and its father is in one, neither of\n\
AT's session nor of the next. The repair is `mend AT`.\n",
    ),
    (
        "app 1",
        "\
Row 1 of the application's link table. `token` (two-hold): both ends hold the token. `mutex`\n\
(two-in): both are in. `routes` (no-entry): AT has a way through OTHER, which has none to there.\n\
A reset restarts both ends.\n",
    ),
    (
        "app 2",
        "\
Row 2 of the application's link table. `token` (hold-and-flight): an end holds the token, and\n\
one is on its way over the link. `mutex` (no-turn): AT is in without the turn of this link.\n\
`routes` (not-nearer): AT has a way through OTHER that is shorter than OTHER's own and one link.\n\
A reset restarts both ends.\n",
    ),
    (
        "app 3",
        "\
Row 3 of the application's link table, of `token` alone (two-flights): a token is on its way in\n\
both directions. A reset restarts both ends.\n",
    ),
];
