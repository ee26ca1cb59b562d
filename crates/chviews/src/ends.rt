// Whole runs of the program: the exit status, and what both streams have.
use crate::fake_system::{FakeSystem, Heard, Locking, QUIET, Told, is_text};
use crate::tests::{enter, leave};
use crate::{Ended, end, run};
use chv_engine::Status;
use std::io;
use std::process::ExitCode;
use std::test::Fail;

const SCRIPT: &'static [u8] = b"CREATE TABLE t (a UInt64) ENGINE = MergeTree ORDER BY a;
    INSERT INTO t VALUES (1); SELECT * FROM t;";

const BAD_WORDS: &str = "chviews: BadWords
usage: chviews run < script.sql
    runs the statements of a script on the store in ./chviews-data, and prints a reply to each
";

// What a run is told, and how it ends then.
#[derive(Clone, Copy)]
struct End {
    told: Told,
    status: u8,
    said: &'static str,
    complained: &'static str,
}

fn case(told: Told, status: u8, said: &'static str, complained: &'static str) -> End {
    End {
        told,
        status,
        said,
        complained,
    }
}

fn ends_so(rt: HostRuntime, want: End) -> io::Result<bool> {
    enter(&rt)?;
    let heard = Heard::new(rt.alloc());
    let system = FakeSystem {
        rt,
        told: want.told,
        heard: &heard,
    };
    let code = end(&system, run(&system));
    let is_heard = is_text(&heard.said, want.said) && is_text(&heard.complained, want.complained);
    leave(&rt)?;
    Ok(is_heard && code == ExitCode::from(want.status))
}

fn complains(rt: HostRuntime, status: Status, complaint: &str) -> bool {
    let heard = Heard::new(rt.alloc());
    let system = FakeSystem {
        rt,
        told: QUIET,
        heard: &heard,
    };
    let _ = end(
        &system,
        Ended {
            status,
            is_taken: false,
        },
    );
    is_text(&heard.complained, complaint)
}

#[test]
fn a_status_is_told_on_standard_error(rt: HostRuntime) -> Result<(), Fail> {
    for (status, complaint) in [
        (Status::Done, ""),
        (Status::SomeRefused, ""),
        (Status::BadWords, BAD_WORDS),
        (Status::DiskFault, "chviews: DiskFault\n"),
        (Status::SourceFault, "chviews: SourceFault\n"),
        (Status::SayFault, "chviews: SayFault\n"),
        (Status::Damaged, "chviews: Damaged\n"),
        (Status::NoMemory, "chviews: NoMemory\n"),
        (Status::TooLong, "chviews: TooLong\n"),
    ] {
        assert!(rt; complains(rt, status, complaint), "{complaint}");
    }
    Ok(())
}

fn words(words: &'static [&'static [u8]]) -> Told {
    Told { words, ..QUIET }
}

fn script(script: Option<&'static [u8]>) -> Told {
    Told { script, ..QUIET }
}

fn locking(locking: Locking) -> Told {
    Told {
        locking,
        ..script(Some(SCRIPT))
    }
}

fn failing(failing_say: u64) -> Told {
    Told {
        failing_say,
        ..script(Some(SCRIPT))
    }
}

const ALL: &str = "@0 Ok.\n@0 Ok. 1 written, 0 skipped\n1\n@0 Ok. 1 rows\n";

const TAKEN: &str = "chviews: DiskFault: another run has this store open\n";

#[test]
fn a_run_ends_with_its_status(rt: HostRuntime) -> Result<(), Fail> {
    let ends = [
        case(words(&[]), 2, "", BAD_WORDS),
        case(words(&[b"--help"]), 2, "", BAD_WORDS),
        case(words(&[b"run", b"run"]), 2, "", BAD_WORDS),
        case(words(&[b"\xff"]), 2, "", BAD_WORDS),
        case(script(None), 4, "", "chviews: SourceFault\n"),
        case(script(Some(SCRIPT)), 0, ALL, ""),
        case(script(Some(b"SELECT;")), 1, "@0 Refused 1 Syntax\n", ""),
        case(locking(Locking::IsTaken), 3, "", TAKEN),
        case(locking(Locking::Fails), 3, "", "chviews: DiskFault\n"),
        case(failing(1), 5, "", "chviews: SayFault\n"),
        case(failing(2), 5, "@0 Ok.\n", "chviews: SayFault\n"),
        case(
            failing(3),
            5,
            "@0 Ok.\n@0 Ok. 1 written, 0 skipped\n",
            "chviews: SayFault\n",
        ),
    ];
    for (at, want) in ends.into_iter().enumerate() {
        assert!(rt; ends_so(rt, want)?, "case {at}");
    }
    Ok(())
}
