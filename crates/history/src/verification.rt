// Whether entries are a history.

ghost use Rattle.std.specs.Prelude.{◌≡◌, ◌≤◌, [], length, take, IfOk, IfErr, IsSome, List, OnOk, Some, Result, ℕ};
ghost use Rattle.std.specs.Io.KnownBytes.{IsAtEnd};
ghost use Rattle.reset_model.specs.Configuration.{Configuration};
ghost use Rattle.history.specs.declared.entry.Report.{Report};
ghost use Rattle.history.specs.declared.entry.Summary.{Summary};
ghost use Rattle.history.specs.declared.verification.ReaderFault.{ReaderFault};
ghost use Rattle.history.specs.declared.entry.Entry.{Entry};
ghost use Rattle.history.specs.Entries.{IsFirstRefused, replayed};
ghost use Rattle.history.specs.HistoryText.{IsReadWhole};
ghost use Rattle.history.specs.Played.{HasVerified, verify_fault_of};
ghost use Rattle.history.specs.Reading.{HasRead};
ghost use Rattle.history.specs.Reports.{reports_of};
ghost use Rattle.history.specs.Verdict.{IsJudgement, IsJudgementOfFirst, IsResumption, IsVerdict, reader_fault_of};
ghost use Rattle.history.specs.Verdict.{verdict_of};

use crate::book::MAX_ENTRIES;
use crate::entry::{Entry, Summary, VerifyFault};
use crate::lines::{CHUNK, Reading};
use crate::player::{PlayFault, Player};
use crate::text::BookFault;
use crate::verifier::Verifier;
use app_interface::Application;
use reset_machine::Config;
use std::alloc::Global;
use std::io::Read;

/// What the entries of a history leave, and what they come to.
#[derive(Drop)]
pub struct Resumed<P: Application> {
    /// The configuration after the last entry.
    pub config: Config<P>,
    pub summary: Summary,
}

/// The first entry of a history that isn't allowed where it stands.
#[derive(Drop)]
pub struct Refused<P: Application> {
    /// Its position. Positions count from 1.
    pub position: usize,
    pub entry: Entry,
    /// The configuration that the entries before it leave.
    pub config: Config<P>,
}

/// As [`ReaderFault`], with the entry that isn't allowed.
#[derive(Drop)]
pub enum JudgeFault<P: Application> {
    /// The text is none, or can't be read.
    Text(BookFault),
    /// The text has this modulus, and the opening another one.
    OtherModulus(u64),
    /// An entry isn't allowed where it stands.
    Refused(Refused<P>),
    /// An allocation failed.
    NoMemory,
}

/// Why what a reader gives isn't a history.
#[derive(Clone, Copy, Debug, PartialEq, Eq)]
pub enum ReaderFault {
    /// The text is none, or can't be read.
    Text(BookFault),
    /// The text has this modulus, and the opening another one.
    OtherModulus(u64),
    /// An entry isn't allowed where it stands, or an allocation failed.
    Entries(VerifyFault),
}

/// Whoever reads a text from an opening, and however often: no two answers differ in what they say of it.
pub fn one_verdict_a_text<P: Application>()
    ensures { (c : Configuration P.Local) (text : List ℕ) (r s : Result Summary ReaderFault)
        (v w : Result (ℕ × List Report) ReaderFault)
        → IsVerdict P.app P.from_text c text r → IsVerdict P.app P.from_text c text s
        → verdict_of r ≡ Some v → verdict_of s ≡ Some w → v ≡ w }
{}

/// Reads a history to its end, plays its entries as they are read, from the opening on, and returns what they come
/// to. A fault of the text comes before another modulus than the opening's, and that before an entry that isn't
/// allowed, wherever they stand: so after such an entry it reads on, and plays no more. It keeps the entries of one read at a time, of at most 4,096 bytes.
pub fn verify_reader<P: Application, R: Read>(
    alloc: Global,
    opening: Config<P>,
    reader: &mut R,
) -> Result<Summary, ReaderFault>
    ensures told { (text : List ℕ) × IsReadWhole (R.remaining reader.old) text
        × IsVerdict P.app P.from_text opening text result }
    ensures end { OnOk result (IsAtEnd (R.remaining reader.new)) }
{
    match resume_reader(alloc, opening, reader) {
        Ok(resumed) => Ok(summary_of(resumed)),
        Err(refused) => Err(refused),
    }
}

// What a resumed history comes to, without its configuration.
fn summary_of<P: Application>(resumed: Resumed<P>) -> Summary
    ensures { result ≡ resumed.summary }
{
    let Resumed { config, summary } = resumed;
    drop(config);
    summary
}

/// As `verify_reader`, with the configuration that the entries leave, for whoever goes on from there.
pub fn resume_reader<P: Application, R: Read>(
    alloc: Global,
    opening: Config<P>,
    reader: &mut R,
) -> Result<Resumed<P>, ReaderFault>
    ensures told { (text : List ℕ) × IsReadWhole (R.remaining reader.old) text
        × IsResumption P.app P.from_text opening text result }
    ensures end { OnOk result (IsAtEnd (R.remaining reader.new)) }
{
    match judge_reader(alloc, opening, reader) {
        Ok(resumed) => Ok(resumed),
        Err(fault) => Err(reader_fault(fault)),
    }
}

// The fault without the configuration that an entry is refused in.
fn reader_fault<P: Application>(fault: JudgeFault<P>) -> ReaderFault
    ensures { result ≡ reader_fault_of fault }
{
    match fault {
        JudgeFault::Text(fault) => ReaderFault::Text(fault),
        JudgeFault::OtherModulus(modulus) => ReaderFault::OtherModulus(modulus),
        JudgeFault::Refused(refused) => {
            let position = refused.position;
            drop(refused);
            ReaderFault::Entries(VerifyFault::NotEnabledAt(position))
        }
        JudgeFault::NoMemory => ReaderFault::Entries(VerifyFault::NoMemory),
    }
}

/// As `resume_reader`, and where an entry isn't allowed, with that entry and the configuration there, for whoever asks
/// why.
pub fn judge_reader<P: Application, R: Read>(
    alloc: Global,
    opening: Config<P>,
    reader: &mut R,
) -> Result<Resumed<P>, JudgeFault<P>>
    ensures told { (text : List ℕ) × IsReadWhole (R.remaining reader.old) text
        × IsJudgement P.app P.from_text opening text result }
    ensures end { OnOk result (IsAtEnd (R.remaining reader.new)) }
{
    judge_first(alloc, opening, MAX_ENTRIES, reader)
}

/// As `judge_reader`, of the first entries, at most so many: the others are read, and not played.
pub fn judge_first<P: Application, R: Read>(
    alloc: Global,
    opening: Config<P>,
    most: usize,
    reader: &mut R,
) -> Result<Resumed<P>, JudgeFault<P>>
    ensures told { (text : List ℕ) × IsReadWhole (R.remaining reader.old) text
        × IsJudgementOfFirst most P.app P.from_text opening text result }
    ensures end { OnOk result (IsAtEnd (R.remaining reader.new)) }
{
    let modulus = opening.modulus().get();
    let mut verifier = Verifier::new(alloc, opening);
    let mut reading = Reading::new(alloc);
    let mut played = 0;
    let mut room = [0; CHUNK];
    // No reader gives so much: a bound, so that the reading is seen to end.
    for _ in 0..u64::MAX {
        match reading.read_on(alloc, reader, &mut room) {
            Ok(true) => {}
            Ok(false) => return verdict(modulus, verifier, played, &reading),
            Err(fault) => return Err(JudgeFault::Text(fault)),
        }
        let first = first_entries(reading.entries(), most - played);
        verifier.take(alloc, played, first);
        played += first.len();
        reading.forget();
    }
    Err(JudgeFault::Text(BookFault::ReadFailed))
}

// The first of these entries, at most so many.
fn first_entries(entries: &[Entry], most: usize) -> &[Entry]
    ensures first { result.now ≡ take most entries.now }
    ensures few { length result.now ≤ most }
{
    if entries.len() <= most {
        return entries;
    }
    &entries[..most]
}

// What the text comes to that ends here, whose first entries were taken, so many, where the opening has this modulus.
fn verdict<P: Application>(
    modulus: u64,
    verifier: Verifier<P>,
    played: usize,
    reading: &Reading,
) -> Result<Resumed<P>, JudgeFault<P>>
    requires { reading.now.lines.entries.items ≡ [] }
    ensures { (c : Configuration P.Local) (n : ℕ) (es : List Entry) (text : List ℕ) → c.modulus ≡ modulus
        → HasVerified P.app P.from_text c (take n es) verifier → played ≡ length (take n es)
        → HasRead reading.now es text → IsJudgementOfFirst n P.app P.from_text c text result }
{
    match reading.end() {
        Ok(other) if other == modulus => verifier.judged(played),
        Ok(other) => {
            drop(verifier);
            Err(JudgeFault::OtherModulus(other))
        }
        Err(fault) => {
            drop(verifier);
            Err(JudgeFault::Text(fault))
        }
    }
}

/// Plays the entries from the opening, and returns what they come to, or names the first that isn't
/// allowed where it stands. An entry for which an allocation fails is `NoMemory`.
pub fn verify<P: Application>(
    alloc: Global,
    opening: Config<P>,
    entries: &[Entry],
) -> Result<Summary, VerifyFault>
    ensures allowed { IfOk result (λ s. IsSome (replayed P.app P.from_text opening entries.now)) }
    ensures entries { IfOk result (λ s. s.entries ≡ length entries.now) }
    ensures reports { IfOk result (λ s. s.reports.items ≡ reports_of P.app P.from_text opening entries.now) }
    ensures err { IfErr result (λ f. (position : ℕ) → f ≡ VerifyFault.NotEnabledAt position
        → IsFirstRefused P.app P.from_text opening entries.now position) }
{
    let mut player = Player::new(alloc, opening);
    let played = player.play(alloc, 0, entries);
    let reports = player.into_reports();
    match played {
        Ok(()) => Ok(Summary {
            entries: entries.len(),
            reports,
        }),
        Err(fault) => Err(verify_fault(fault)),
    }
}

// The fault without the entry.
fn verify_fault(fault: PlayFault<'_>) -> VerifyFault
    ensures { result ≡ verify_fault_of fault.entry }
{
    match fault {
        PlayFault::Refused { position, .. } => VerifyFault::NotEnabledAt(position),
        PlayFault::NoMemory => VerifyFault::NoMemory,
    }
}
