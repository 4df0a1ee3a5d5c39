// The kinds of events, and the commands that their lines begin with.
ghost use Rattle.std.specs.Prelude.{◌≡◌, ℕ, List, ◌∷◌, ◌++◌, IfNone, IfSome, option_map};
ghost use Rattle.reset_model.specs.EventCommands.{IsAfter, command_of};
ghost use Rattle.reset_model.specs.declared.event_kind.EventKind.{EventKind};

/// What kind an event is of, whatever its numbers.
#[derive(Clone, Copy, Debug, PartialEq, Eq)]
pub enum EventKind {
    Claim,
    Follow,
    Adopt,
    Request,
    Relay,
    Open,
    Join,
    Finish,
    Mend,
    Act,
}

// The kind of event whose command and a space a line begins with, and what follows them. Each command is one
// comparison with a constant, so the first byte that differs ends it; the commands of a wave come first.
#[inline(always)]
pub fn cut_kind(line: &[u8]) -> Option<(EventKind, &[u8])>
    ensures found { IfSome result (λ parts. line.now ≡ command_of parts.0 ++ 32 ∷ parts.1.now) }
    ensures only { IfNone result
        ((kind : EventKind) (rest : List ℕ) → line.now ≡ command_of kind ++ 32 ∷ rest → ⊥) }
{
    if let Some(rest) = after_finish(line) {
        return Some((EventKind::Finish, rest));
    }
    if let Some(rest) = after_relay(line) {
        return Some((EventKind::Relay, rest));
    }
    if let Some(rest) = after_join(line) {
        return Some((EventKind::Join, rest));
    }
    if let Some(rest) = after_request(line) {
        return Some((EventKind::Request, rest));
    }
    if let Some(rest) = after_open(line) {
        return Some((EventKind::Open, rest));
    }
    if let Some(rest) = after_act(line) {
        return Some((EventKind::Act, rest));
    }
    if let Some(rest) = after_adopt(line) {
        return Some((EventKind::Adopt, rest));
    }
    if let Some(rest) = after_claim(line) {
        return Some((EventKind::Claim, rest));
    }
    if let Some(rest) = after_follow(line) {
        return Some((EventKind::Follow, rest));
    }
    let rest = after_mend(line)?;
    Some((EventKind::Mend, rest))
}

// What follows `claim` and a space.
#[inline(always)]
fn after_claim(line: &[u8]) -> Option<&[u8]>
    ensures { IsAfter EventKind.Claim line.now (option_map (λ rest. rest.now) result) }
{
    match line {
        [b'c', b'l', b'a', b'i', b'm', b' ', rest @ ..] => Some(rest),
        _ => None,
    }
}

// What follows `follow` and a space.
#[inline(always)]
fn after_follow(line: &[u8]) -> Option<&[u8]>
    ensures { IsAfter EventKind.Follow line.now (option_map (λ rest. rest.now) result) }
{
    match line {
        [b'f', b'o', b'l', b'l', b'o', b'w', b' ', rest @ ..] => Some(rest),
        _ => None,
    }
}

// What follows `adopt` and a space.
#[inline(always)]
fn after_adopt(line: &[u8]) -> Option<&[u8]>
    ensures { IsAfter EventKind.Adopt line.now (option_map (λ rest. rest.now) result) }
{
    match line {
        [b'a', b'd', b'o', b'p', b't', b' ', rest @ ..] => Some(rest),
        _ => None,
    }
}

// What follows `request` and a space.
#[inline(always)]
pub(crate) fn after_request(line: &[u8]) -> Option<&[u8]>
    ensures { IsAfter EventKind.Request line.now (option_map (λ rest. rest.now) result) }
{
    match line {
        [b'r', b'e', b'q', b'u', b'e', b's', b't', b' ', rest @ ..] => Some(rest),
        _ => None,
    }
}

// What follows `relay` and a space.
#[inline(always)]
pub(crate) fn after_relay(line: &[u8]) -> Option<&[u8]>
    ensures { IsAfter EventKind.Relay line.now (option_map (λ rest. rest.now) result) }
{
    match line {
        [b'r', b'e', b'l', b'a', b'y', b' ', rest @ ..] => Some(rest),
        _ => None,
    }
}

// What follows `open` and a space.
#[inline(always)]
pub(crate) fn after_open(line: &[u8]) -> Option<&[u8]>
    ensures { IsAfter EventKind.Open line.now (option_map (λ rest. rest.now) result) }
{
    match line {
        [b'o', b'p', b'e', b'n', b' ', rest @ ..] => Some(rest),
        _ => None,
    }
}

// What follows `join` and a space.
#[inline(always)]
pub(crate) fn after_join(line: &[u8]) -> Option<&[u8]>
    ensures { IsAfter EventKind.Join line.now (option_map (λ rest. rest.now) result) }
{
    match line {
        [b'j', b'o', b'i', b'n', b' ', rest @ ..] => Some(rest),
        _ => None,
    }
}

// What follows `finish` and a space.
#[inline(always)]
pub(crate) fn after_finish(line: &[u8]) -> Option<&[u8]>
    ensures { IsAfter EventKind.Finish line.now (option_map (λ rest. rest.now) result) }
{
    match line {
        [b'f', b'i', b'n', b'i', b's', b'h', b' ', rest @ ..] => Some(rest),
        _ => None,
    }
}

// What follows `mend` and a space.
#[inline(always)]
fn after_mend(line: &[u8]) -> Option<&[u8]>
    ensures { IsAfter EventKind.Mend line.now (option_map (λ rest. rest.now) result) }
{
    match line {
        [b'm', b'e', b'n', b'd', b' ', rest @ ..] => Some(rest),
        _ => None,
    }
}

// What follows `act` and a space.
#[inline(always)]
fn after_act(line: &[u8]) -> Option<&[u8]>
    ensures { IsAfter EventKind.Act line.now (option_map (λ rest. rest.now) result) }
{
    match line {
        [b'a', b'c', b't', b' ', rest @ ..] => Some(rest),
        _ => None,
    }
}
