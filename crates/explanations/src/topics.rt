// The words that have an explanation, by topic.

/// The words that have an explanation, by topic, in lines.
pub const TOPICS: &str = "\
`explain WORD` says what one of these words means, and what to do.

commands that take a step or do a fault
  claim follow adopt request relay open join finish mend act fault draw
commands that ask
  show newest enabled ready moves check invariant alarm watch snapshot
of sessions alone
  help explain exit
answers
  applied complete refused disturbed drawn move quiet unjoined link faults
  holds fails tokens verified report opened finished entry entries reports
  row drove threads resumed table bad
refusals
  StrangeNode StrangeNeighbour NoSuchCase WantsNeighbour TakesNoNeighbour
  Disagrees NotEnabled BadValue BadLocal NoSuchLink LinkIsThere NodeIsUp
  BookFull
errors of topologies, snapshots, scripts and histories
  TextTooLong NotToml MissingKey UnknownKey WrongKind UnknownApp
  UnknownShape NoNodes TooManyNodes BadId TwiceNode TooManyLinks SelfLink
  TwiceLink TooManyForThreads TooManyForPicture BadRange TooLong
  TooLongForPicture TooLongForPage BadLine BadVersion OtherModulus
what a run may end by
  line not no error EndsAfter history read write thread memory lists
  reset-service
plans and explorations
  plan repair repairs configurations more steps ends whole longest
  completions endless found nowhere
other subcommands
  replay explore verify picture page record drive topology tables
texts, their keys and their first lines
  script nodes links modulus rows reset-snapshot reset-history
registers
  node tree root father distance K wave normal initiate reset session
  local app
applications, their actions, local states and link tables
  idle token pass take hold free token-links mutex enter leave in out
  mutex-links routes pull routes-links
rows of the tables, each one word (a shell wants quotes around it)
  tree 1 to tree 8, wave 1 to wave 11, app 1 to app 3
";
