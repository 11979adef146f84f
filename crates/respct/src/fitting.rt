//! Whether an image fits the script that is to go on from it.

ghost use Rattle.std.specs.Prelude.{◌≡◌, map};
ghost use Rattle.power_cut.specs.Image.{sizes_in};
ghost use Rattle.script_text.specs.Program.{program_of};
ghost use Rattle.respct.specs.Misfits.{unless_same, unless_within, position_misfit, positions_misfit, unless_below, sizes_misfit, first_misfit, FittingLaw};

use image_check::Recovered;
use power_cut::Image;
use script_text::Script;
use seq_object::{Command, Settings, Sizes};
use std::fmt;

/// The first epoch from which no life goes on.
const EPOCH_END: u64 = 4_278_190_080;

/// What of an image does not fit.
#[derive(Clone, Copy, Debug, PartialEq, Eq)]
pub enum MisfitKind {
    /// How many threads there are.
    Threads,
    /// How many shards the map has.
    Shards,
    /// How many lines each map room and the queue room have.
    Lines,
    /// The position of this thread, counted from 0, is past its script's end.
    Position(u32),
    /// The epoch is too large for another life.
    Epoch,
}

/// What does not fit, by two numbers.
#[derive(Clone, Copy, Debug, PartialEq, Eq)]
pub struct Misfit {
    /// What does not fit.
    pub kind: MisfitKind,
    /// The image's number.
    pub image: u64,
    /// The script's number: of a position the length of the thread's script, and of an epoch 4,278,190,080.
    pub script: u64,
}

/// The first misfit of an image and a script in this order: threads, shards, lines, the positions by thread, the epoch.
pub fn misfit_of(image: &Image, found: &Recovered, script: &Script) -> Option<Misfit>
    ensures { result ≡ first_misfit (sizes_in image.now) found.now.epoch found.now.positions.items (program_of script.now) }
{
    if let Some(misfit) = sizes_misfit(image.sizes(), &script.settings) {
        return Some(misfit);
    }
    let positions = found.positions.as_slice();
    if let Some(misfit) = positions_misfit(image.threads, positions, script.threads.as_slice()) {
        return Some(misfit);
    }
    unless_below(MisfitKind::Epoch, u64::from(found.epoch), EPOCH_END)
}

/// The first misfit of the sizes of an image.
fn sizes_misfit(sizes: Sizes, settings: &Settings) -> Option<Misfit>
    ensures { result ≡ sizes_misfit sizes settings.now }
{
    if let Some(misfit) = unless_same(MisfitKind::Threads, sizes.threads, settings.threads) {
        return Some(misfit);
    }
    if let Some(misfit) = unless_same(MisfitKind::Shards, sizes.shards, settings.shards) {
        return Some(misfit);
    }
    unless_same(MisfitKind::Lines, sizes.lines, settings.lines)
}

/// The misfit of two numbers that are to be the same.
fn unless_same(kind: MisfitKind, image: u32, script: u32) -> Option<Misfit>
    ensures { result ≡ unless_same kind image script }
{
    if image == script {
        return None;
    }
    Some(Misfit {
        kind,
        image: u64::from(image),
        script: u64::from(script),
    })
}

/// The misfit of a number that is to be at most another one.
fn unless_within(kind: MisfitKind, image: u64, script: u64) -> Option<Misfit>
    ensures { result ≡ unless_within kind image script }
{
    if image <= script {
        return None;
    }
    Some(Misfit {
        kind,
        image,
        script,
    })
}

/// The misfit of a number that is to be below another one.
fn unless_below(kind: MisfitKind, image: u64, script: u64) -> Option<Misfit>
    ensures { result ≡ unless_below kind image script }
{
    if image < script {
        return None;
    }
    Some(Misfit {
        kind,
        image,
        script,
    })
}

/// The first misfit of the positions of so many threads.
fn positions_misfit(threads: u32, positions: &[u64], scripts: &[Vec<Command>]) -> Option<Misfit>
    ensures { result ≡ positions_misfit positions.now (map (λ commands. commands.items) scripts.now) threads }
{
    for thread in 0..threads {
        if let Some(misfit) = position_misfit(thread, positions, scripts) {
            return Some(misfit);
        }
    }
    None
}

/// The misfit of the position of a thread.
fn position_misfit(thread: u32, positions: &[u64], scripts: &[Vec<Command>]) -> Option<Misfit>
    ensures { result ≡ position_misfit positions.now (map (λ commands. commands.items) scripts.now) thread }
{
    let position = match positions.get(thread as usize) {
        Some(&position) => position,
        None => 0,
    };
    let commands = match scripts.get(thread as usize) {
        Some(commands) => commands.len(),
        None => 0,
    };
    unless_within(MisfitKind::Position(thread), position, commands as u64)
}

/// An image without a misfit fits the script.
pub fn fitting_law()
    ensures { FittingLaw }
{}

impl fmt::Display for Misfit {
    ghost use Rattle.std.specs.Prelude.{Some};
    ghost use Rattle.respct.specs.Misfits.{misfit_text};

    ghost output = { λ misfit. Some (misfit_text misfit) };

    /// What does not fit, with the image's number and the script's.
    fn fmt<W: fmt::Write>(&self, f: &mut fmt::Formatter<W>) -> fmt::Result {
        let (image, script) = (self.image, self.script);
        match self.kind {
            MisfitKind::Threads => write!(f, "threads {image}, {script}"),
            MisfitKind::Shards => write!(f, "shards {image}, {script}"),
            MisfitKind::Lines => write!(f, "lines {image}, {script}"),
            MisfitKind::Position(thread) => {
                write!(f, "position of thread {thread} {image}, {script}")
            }
            MisfitKind::Epoch => write!(f, "epoch {image}, {script}"),
        }
    }
}
