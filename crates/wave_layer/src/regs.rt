// The registers of the wave layer, and what a fired row leaves in them.

ghost use Rattle.std.specs.Prelude.{◌≡◌};

/// What a node is doing in the wave.
#[derive(Clone, Copy, Debug, PartialEq, Eq)]
pub enum Phase {
    /// The node knows of no reset.
    Normal,
    /// The node has asked for a reset.
    Initiate,
    /// The node has restarted and waits for its children.
    Reset,
}

impl Phase {
    ghost use Rattle.wave_layer.specs.Names.{phase_name};
    ghost use Rattle.wave_layer.specs.WaveTable.{is_initiate, is_normal, is_reset};

    /// Its name, as lines of text have it.
    pub fn name(self) -> &'static str
        ensures { result.now ≡ phase_name self }
    {
        match self {
            Phase::Normal => "normal",
            Phase::Initiate => "initiate",
            Phase::Reset => "reset",
        }
    }

    pub(crate) fn is_normal(self) -> bool
        ensures { result ≡ is_normal self }
    {
        match self {
            Phase::Normal => true,
            Phase::Initiate | Phase::Reset => false,
        }
    }

    pub(crate) fn is_initiate(self) -> bool
        ensures { result ≡ is_initiate self }
    {
        match self {
            Phase::Initiate => true,
            Phase::Normal | Phase::Reset => false,
        }
    }

    pub(crate) fn is_reset(self) -> bool
        ensures { result ≡ is_reset self }
    {
        match self {
            Phase::Reset => true,
            Phase::Normal | Phase::Initiate => false,
        }
    }
}

/// The wave registers of a node.
#[derive(Clone, Copy, Debug, PartialEq, Eq)]
pub struct WaveRegs {
    pub phase: Phase,
    pub session: u32,
}

impl WaveRegs {
    ghost use Rattle.wave_layer.specs.WaveTable.{is_done};

    /// Whether a child with these registers is done, where its father has this session: it isn't
    /// reset, and has the session too.
    pub fn is_done(self, session: u32) -> bool
        ensures { result ≡ is_done session self }
    {
        !self.phase.is_reset() & (self.session == session)
    }
}

/// What a node's father register names.
#[derive(Clone, Copy, Debug, PartialEq, Eq)]
pub enum FatherSeen {
    /// The node itself: it is a root.
    Itself,
    /// Neither the node nor a neighbour.
    Lost,
    /// A neighbour, with these wave registers.
    Is(WaveRegs),
}

impl FatherSeen {
    ghost use Rattle.wave_layer.specs.WaveTable.{father_awake, father_regs, father_reset, is_root};

    // Whether the node is a root.
    pub(crate) fn is_root(self) -> bool
        ensures { result ≡ is_root self }
    {
        match self {
            FatherSeen::Itself => true,
            FatherSeen::Lost | FatherSeen::Is(_) => false,
        }
    }

    // Whether the father is a neighbour that is reset.
    pub(crate) fn is_reset(self) -> bool
        ensures { result ≡ father_reset self }
    {
        match self {
            FatherSeen::Is(up) => up.phase.is_reset(),
            FatherSeen::Itself | FatherSeen::Lost => false,
        }
    }

    // Whether the father is a neighbour that is not reset.
    pub(crate) fn is_awake(self) -> bool
        ensures { result ≡ father_awake self }
    {
        match self {
            FatherSeen::Is(up) => !up.phase.is_reset(),
            FatherSeen::Itself | FatherSeen::Lost => false,
        }
    }

    // The father's registers, or the node's own where the father is no neighbour.
    pub(crate) fn regs_or(self, own: WaveRegs) -> WaveRegs
        ensures { result ≡ father_regs own self }
    {
        match self {
            FatherSeen::Is(up) => up,
            FatherSeen::Itself | FatherSeen::Lost => own,
        }
    }
}

/// What firing a row does.
#[derive(Clone, Copy, Debug, PartialEq, Eq)]
pub struct WaveMove {
    /// The node's registers afterwards.
    pub regs: WaveRegs,
    /// Whether the node's local state becomes its declared start state.
    pub restarts: bool,
    /// Whether the reset is complete.
    pub completes: bool,
}

/// Why a row wasn't fired, in the order in which refusals are given.
#[derive(Clone, Copy, Debug, PartialEq, Eq)]
pub enum WaveRefusal {
    /// The number isn't from 1 to 11.
    NoSuchCase,
    /// Row 2 names no child of the node, or another row names one.
    NotChild,
    /// The row's guard is false.
    NotEnabled,
}
