//! respct: carries out a script of map and queue commands on simulated persistent memory, and reports what was done; judges the images that a
//! power cut left; and runs drills, which are nine lives of one memory, made from a number.
#![tactic(auto)]

mod answer;
mod checking;
mod drilling;
mod fitting;
mod leading;
mod living;
mod loading;
mod opening;
mod reading;
pub mod runs;
mod saving;
mod status;
#[cfg(test)]
mod tests;
#[cfg(test)]
mod tests_drills;
#[cfg(test)]
mod tests_images;
#[cfg(test)]
mod tests_resumes;
mod top;
mod writing;

ghost use Rattle.std.specs.Prelude.{◌≡◌, ◌⊎◌, IfErr};
ghost use Rattle.respct.specs.declared.status.Status.TheVariants.{Usage, OutOfMemory};

use byte_ports::{FileImages, StdinSource, StdoutSink};
use line_memory::Memory;
use status::Status;
use std::env;
use std::io::{ErrorKind, Input};
use std::process::ExitCode;

fn main(rt: HostRuntime) -> ExitCode {
    let mut source = StdinSource::new(rt.reader());
    let mut sink = StdoutSink::new(&rt);
    let mut images = FileImages::new(rt);
    let mut memory = Memory::empty(rt.alloc());
    let status = match words_of(&rt) {
        Ok(words) => top::respct(
            &rt,
            &words,
            &mut source,
            &mut images,
            &mut sink,
            &mut memory,
        ),
        Err(status) => status,
    };
    if status.is_refusal() {
        let _ = eprintln!(&rt; "{status}");
    }
    ExitCode::from(status.code())
}

// The words of the command line, without the program's name. A word that is no text belongs to no form.
fn words_of(rt: &HostRuntime) -> Result<Vec<String>, Status>
    ensures { IfErr result (λ status. (status ≡ Usage) ⊎ (status ≡ OutOfMemory)) }
{
    match env::args(rt) {
        Ok(words) => match words.skip(1).collect::<Vec<String>>(rt.alloc()) {
            Ok(words) => Ok(words),
            Err(_) => Err(Status::OutOfMemory),
        },
        Err(error) if error.kind() == ErrorKind::OutOfMemory => Err(Status::OutOfMemory),
        Err(_) => Err(Status::Usage),
    }
}
