//! The program: the words, standard input, the folder of the store and the exit status.
#![tactic(auto)]

#[cfg(test)]
mod cascades;
mod count;
#[cfg(test)]
mod ends;
#[cfg(test)]
mod fake_system;
mod fault;
mod file_place;
mod folder;
mod folder_site;
#[cfg(test)]
mod folder_tests;
#[cfg(test)]
mod openings;
#[cfg(test)]
mod runs;
mod std_source;
mod store_file;
#[cfg(test)]
mod tests;
mod transfer;

ghost use Rattle.std.specs.Prelude.{◌≡◌, ◌⊎◌, IfErr};
ghost use Rattle.std.specs.Process.{exit_status};
ghost use Rattle.chviews.specs.Statuses.{exit_status_of};
ghost use Rattle.chv_engine.specs.declared.Status.TheVariants as status;

use chv_engine::{Status, Words, chviews};
use fault::fault_of;
use folder_site::FolderSite;
use std::process::ExitCode;
use std::rt::{Env, Files};
use std::{env, io};
use std_source::StdSource;
use store_file::StoreFile;

const USAGE: &str = "usage: chviews run < script.sql
    runs the statements of a script on the store in ./chviews-data, and prints a reply to each";

/// The words behind the program's name.
fn words<R: Env + AllocGlobal>(rt: &R) -> Result<Words, Status>
    ensures { IfErr result (λ e. (e ≡ status.BadWords) ⊎ (e ≡ status.NoMemory)) }
{
    let mut args = match env::args(rt) {
        Ok(args) => args,
        Err(e) if e.kind() == io::ErrorKind::InvalidData => return Err(Status::BadWords),
        Err(_) => return Err(Status::NoMemory),
    };
    // The program's own path, which has to be UTF-8 too.
    args.next();
    match args.collect(rt.alloc()) {
        Ok(items) => Ok(Words { items }),
        Err(_) => Err(Status::NoMemory),
    }
}

/// How a run ended, and whether it found that another run has the store open.
#[derive(Clone, Copy)]
struct Ended {
    status: Status,
    is_taken: bool,
}

fn run<R: Env + Input + Files + Print + AllocGlobal>(rt: &R) -> Ended
where
    R::File: StoreFile,
{
    match words(rt) {
        Ok(words) => {
            let mut source = StdSource::new(rt.reader());
            let mut site = FolderSite::new(rt);
            let status = chviews(rt.alloc(), &words, &mut source, &mut site);
            // To the run it is one more call on files that failed; here the two are told apart.
            let is_taken = site.is_taken();
            Ended { status, is_taken }
        }
        Err(status) => Ended {
            status,
            is_taken: false,
        },
    }
}

/// Ends with a status. Why a run did not come to its end is said on standard error, and where that
/// fails, nobody is left to be told.
fn end<R: Eprint>(rt: &R, ended: Ended) -> ExitCode
    ensures { exit_status result ≡ exit_status_of ended.status }
{
    let Ended { status, is_taken } = ended;
    if let Some(fault) = fault_of(status, is_taken) {
        let _ = eprintln!(rt; "chviews: {fault}");
    }
    if status == Status::BadWords {
        let _ = eprintln!(rt; "{USAGE}");
    }
    ExitCode::from(status as u8)
}

fn main(rt: HostRuntime) -> ExitCode {
    let ended = run(&rt);
    end(&rt, ended)
}
