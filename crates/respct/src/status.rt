//! How a call of the program ends, and the code and the text that tell it.

ghost use Rattle.std.specs.Prelude.{◌≡◌, ◌↔◌, IsTrue};
ghost use Rattle.respct.specs.Status.{code_of, status_of_end, status_of_unread, status_of_unloaded, status_of_unopened, status_of_refusal, status_of_life, status_of_check, status_of_drill, IsRefusal};

use crate::checking::NotChecked;
use crate::drilling::NotDrilled;
use crate::fitting::Misfit;
use crate::leading::NoReport;
use crate::loading::NotLoaded;
use crate::opening::NotOpened;
use crate::reading::NoScript;
use byte_ports::StoreRefusal;
use life_model::Outcome;
use power_cut::ImageFault;
use script_text::{ScriptFault, kind_name};
use std::fmt;

/// How a call of the program ended.
#[derive(Clone, Copy, Debug, PartialEq, Eq)]
pub enum Status {
    /// All scripts are used; or a check or a drill has written its text.
    Finished,
    /// The words after the program's name are none of the forms.
    Usage,
    /// The text that was read is no script: its first fault.
    Script(ScriptFault),
    /// Each thread is at its script's end or before a take of the empty queue.
    Stalled,
    /// The power was cut before the scripts were used.
    Cut,
    /// What the image store keeps under the name is no lawful image: its first fault.
    Image(ImageFault),
    /// The image that the store keeps under the name does not fit the script: the first misfit.
    Misfit(Misfit),
    /// The source could not be read.
    ReadFault,
    /// The text for standard output could not be written; a prefix of it may have been.
    WriteFault,
    /// The image store could not be used.
    StoreFault,
    /// The image store holds no image of the name.
    NoImage,
    /// Memory ran out.
    OutOfMemory,
    /// The source has more bytes than a script may have.
    TooLong,
}

impl Status {
    /// The status of a life.
    pub fn of_life(ended: Result<Outcome, NoReport>) -> Status
        ensures { result ≡ status_of_life ended }
    {
        match ended {
            Ok(outcome) => Status::of_end(outcome),
            Err(refusal) => Status::of_refusal(refusal),
        }
    }

    /// The status of a check.
    pub fn of_check(ended: Result<(), NotChecked>) -> Status
        ensures { result ≡ status_of_check ended }
    {
        match ended {
            Ok(()) => Status::Finished,
            Err(NotChecked::Unloaded(refusal)) => Status::of_unloaded(refusal),
            Err(NotChecked::Unwritten(StoreRefusal::Failed)) => Status::WriteFault,
            Err(NotChecked::Unwritten(StoreRefusal::OutOfMemory)) => Status::OutOfMemory,
        }
    }

    /// The status of a drill.
    pub fn of_drill(ended: Result<(), NotDrilled>) -> Status
        ensures { result ≡ status_of_drill ended }
    {
        match ended {
            Ok(()) => Status::Finished,
            Err(NotDrilled::Unwritten(StoreRefusal::Failed)) => Status::WriteFault,
            Err(NotDrilled::Untold) | Err(NotDrilled::Unwritten(StoreRefusal::OutOfMemory)) =>
                Status::OutOfMemory,
        }
    }

    /// The status of a life that ended so.
    fn of_end(outcome: Outcome) -> Status
        ensures { result ≡ status_of_end outcome }
    {
        match outcome {
            Outcome::Finished => Status::Finished,
            Outcome::Stalled => Status::Stalled,
            Outcome::Cut => Status::Cut,
            Outcome::Starved => Status::OutOfMemory,
        }
    }

    /// The status of a life without its report.
    fn of_refusal(refusal: NoReport) -> Status
        ensures { result ≡ status_of_refusal refusal }
    {
        match refusal {
            NoReport::Unread(refusal) => Status::of_unread(refusal),
            NoReport::Unopened(refusal) => Status::of_unopened(refusal),
            NoReport::Unsaved(StoreRefusal::Failed) => Status::StoreFault,
            NoReport::Unwritten(StoreRefusal::Failed) => Status::WriteFault,
            NoReport::Untold
            | NoReport::Unsaved(StoreRefusal::OutOfMemory)
            | NoReport::Unwritten(StoreRefusal::OutOfMemory) => Status::OutOfMemory,
        }
    }

    /// The status of a life without a script.
    fn of_unread(refusal: NoScript) -> Status
        ensures { result ≡ status_of_unread refusal }
    {
        match refusal {
            NoScript::Failed => Status::ReadFault,
            NoScript::TooLong => Status::TooLong,
            NoScript::Fault(fault) => Status::Script(fault),
            NoScript::OutOfMemory => Status::OutOfMemory,
        }
    }

    /// The status of a life without a memory over which it may begin.
    fn of_unopened(refusal: NotOpened) -> Status
        ensures { result ≡ status_of_unopened refusal }
    {
        match refusal {
            NotOpened::Unloaded(refusal) => Status::of_unloaded(refusal),
            NotOpened::Misfit(misfit) => Status::Misfit(misfit),
            NotOpened::OutOfMemory => Status::OutOfMemory,
        }
    }

    /// The status of a call that loads an image and has none.
    fn of_unloaded(refusal: NotLoaded) -> Status
        ensures { result ≡ status_of_unloaded refusal }
    {
        match refusal {
            NotLoaded::Fault(fault) => Status::Image(fault),
            NotLoaded::Missing => Status::NoImage,
            NotLoaded::Failed => Status::StoreFault,
            NotLoaded::OutOfMemory => Status::OutOfMemory,
        }
    }

    /// The code with which the program exits, from 0 to 12.
    pub fn code(&self) -> u8
        ensures { result ≡ code_of self.now }
    {
        match self {
            Status::Finished => 0,
            Status::Usage => 1,
            Status::Script(_) => 2,
            Status::Stalled => 3,
            Status::Cut => 4,
            Status::Image(_) => 5,
            Status::Misfit(_) => 6,
            Status::ReadFault => 7,
            Status::WriteFault => 8,
            Status::StoreFault => 9,
            Status::NoImage => 10,
            Status::OutOfMemory => 11,
            Status::TooLong => 12,
        }
    }

    /// Whether the program says on standard error why it was refused.
    pub fn is_refusal(&self) -> bool
        ensures { IsTrue result ↔ IsRefusal self.now }
    {
        !matches!(self, Status::Finished | Status::Stalled | Status::Cut)
    }
}

impl fmt::Display for Status {
    ghost use Rattle.std.specs.Prelude.{Some};
    ghost use Rattle.respct.specs.Status.{status_text};

    ghost output = { λ status. Some (status_text status) };

    /// The line for standard error, without its end.
    fn fmt<W: fmt::Write>(&self, f: &mut fmt::Formatter<W>) -> fmt::Result {
        match self {
            Status::Finished => f.write_str("finished"),
            Status::Usage => f.write_str(
                "usage: respct start, resume or check with --image NAME, or respct drill N",
            ),
            Status::Script(fault) => write!(
                f,
                "script: line {}: {}",
                fault.line,
                kind_name(fault.kind)
            ),
            Status::Stalled => f.write_str("stalled"),
            Status::Cut => f.write_str("cut"),
            Status::Image(fault) => write!(f, "image: {fault}"),
            Status::Misfit(misfit) => write!(f, "misfit: {misfit}"),
            Status::ReadFault => f.write_str("cannot read the script"),
            Status::WriteFault => f.write_str("cannot write the report"),
            Status::StoreFault => f.write_str("cannot use the image store"),
            Status::NoImage => f.write_str("no such image"),
            Status::OutOfMemory => f.write_str("out of memory"),
            Status::TooLong => f.write_str("script too long"),
        }
    }
}
