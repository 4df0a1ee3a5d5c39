// The events of a configuration.

/// What a node may do, and which node does it. Nodes are named by their identifiers.
#[derive(Clone, Copy, Debug, PartialEq, Eq)]
pub enum Event {
    /// The node makes itself a root, where its tree registers contradict its neighbourhood.
    Claim {
        at: u32,
    },
    /// The node takes over its father's root and a distance one more than its father's.
    Follow {
        at: u32,
    },
    /// The node takes this neighbour as its father, for a greater root or a shorter way to the root.
    Adopt {
        at: u32,
        from: u32,
    },
    /// The node asks for a reset.
    Request {
        at: u32,
    },
    /// The node relays the request of one of its children.
    Relay {
        at: u32,
        child: u32,
    },
    /// The node, a root, opens a session.
    Open {
        at: u32,
    },
    /// The node joins its father's session.
    Join {
        at: u32,
    },
    /// The node finishes, after its children.
    Finish {
        at: u32,
    },
    /// The node takes over its father's registers, where they contradict the wave.
    Mend {
        at: u32,
    },
    /// The node takes a case of the application, toward this neighbour where the case names one.
    Act {
        at: u32,
        case: u8,
        with: Option<u32>,
    },
}

impl Event {
    ghost use Rattle.std.specs.Prelude.{◌≡◌};
    ghost use Rattle.reset_model.specs.Steps.{event_node, named_node};
    ghost use Rattle.reset_model.specs.LocalSteps.{cases_of};

    /// The identifier of the node at which the event happens, which alone it changes.
    pub fn node(self) -> u32
        ensures { result ≡ event_node self }
    {
        match self {
            Event::Claim { at }
            | Event::Follow { at }
            | Event::Adopt { at, .. }
            | Event::Request { at }
            | Event::Relay { at, .. }
            | Event::Open { at }
            | Event::Join { at }
            | Event::Finish { at }
            | Event::Mend { at }
            | Event::Act { at, .. } => at,
        }
    }

    /// The identifier of the other node that the event names, if it names one.
    pub fn named(self) -> Option<u32>
        ensures { result ≡ named_node self }
    {
        match self {
            Event::Adopt { from, .. } => Some(from),
            Event::Relay { child, .. } => Some(child),
            Event::Act { with, .. } => with,
            Event::Claim { .. }
            | Event::Follow { .. }
            | Event::Request { .. }
            | Event::Open { .. }
            | Event::Join { .. }
            | Event::Finish { .. }
            | Event::Mend { .. } => None,
        }
    }

    /// The rows of its layer's table that stand behind the event. An action has none.
    pub fn cases(self) -> &'static [u8]
        ensures { result.now ≡ cases_of self }
    {
        match self {
            Event::Claim { .. } => &[1, 2, 3, 4],
            Event::Follow { .. } => &[5, 6],
            Event::Adopt { .. } => &[7, 8],
            Event::Request { .. } => &[1],
            Event::Relay { .. } => &[2],
            Event::Open { .. } => &[3],
            Event::Join { .. } => &[4, 5],
            Event::Finish { .. } => &[6, 7],
            Event::Mend { .. } => &[8, 9, 10, 11],
            Event::Act { .. } => &[],
        }
    }
}
