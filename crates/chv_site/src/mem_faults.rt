// Which calls of a site in memory fail, and how often they did.
ghost use Rattle.std.specs.Prelude.{◌≡◌, ◌≤◌, ◌↔◌, IsTrue, IsOk, IsErr, OnOk, OnErr};
ghost use Rattle.chv_site.specs.Faults.{HasRisen};
ghost use Rattle.chv_site.specs.MemFaults.{uncounted, IsStopped, IsNextFailing, counted, disk_failed, say_failed, lacking};

use crate::{Failed, Fails};
use std::alloc::AllocError;

/// The calls of a site in memory, counted together from 1, and its counts of faults.
#[derive(Debug, Drop)]
pub struct MemFaults {
    pub fails: Fails,
    /// The first of the calls that fail from some call on.
    pub stop: Option<u64>,
    /// How many calls there were.
    pub calls: u64,
    /// How many calls on files failed.
    pub disk: u64,
    /// How many says failed.
    pub say: u64,
    /// How many calls found no memory.
    pub lacked: u64,
}

impl MemFaults {
    /// No call so far. The calls with the numbers of `fails` fail.
    pub fn new(fails: Fails) -> MemFaults
        ensures { result ≡ uncounted fails }
    {
        MemFaults {
            fails,
            stop: None,
            calls: 0,
            disk: 0,
            say: 0,
            lacked: 0,
        }
    }

    // Counts a call, and answers whether it is to fail.
    fn is_next_failing(&mut self) -> bool
        ensures failing { IsTrue result ↔ IsNextFailing self.old }
        ensures counted { self.new ≡ counted self.old }
    {
        self.calls = self.calls.saturating_add(1);
        self.fails.has(self.calls) || self.is_stopped()
    }

    // Whether the calls have come to the first of those that fail from some call on.
    fn is_stopped(&self) -> bool
        ensures { IsTrue result ↔ IsStopped self.now.stop self.now.calls }
    {
        match self.stop {
            Some(first) => first <= self.calls,
            None => false,
        }
    }

    // Notes that a call on files fails.
    fn fail_on_files(&mut self) -> Failed
        ensures failed { self.new ≡ disk_failed self.old }
        ensures keeps { self.old.disk ≤ self.new.disk }
        ensures risen { HasRisen self.old.disk self.new.disk }
    {
        self.disk = self.disk.saturating_add(1);
        Failed
    }

    // Notes that a say fails.
    fn fail_in_say(&mut self) -> Failed
        ensures failed { self.new ≡ say_failed self.old }
        ensures keeps { self.old.say ≤ self.new.say }
        ensures risen { HasRisen self.old.say self.new.say }
    {
        self.say = self.say.saturating_add(1);
        Failed
    }

    /// Notes that a call found no memory.
    pub fn lack(&mut self)
        ensures { self.new ≡ lacking self.old }
    {
        self.lacked = self.lacked.saturating_add(1);
    }

    /// Begins a call on files, which fails where it is told to.
    pub fn begin_on_files(&mut self) -> Result<(), Failed>
        ensures failing { IsErr result ↔ IsNextFailing self.old }
        ensures ok { OnOk result (self.new ≡ counted self.old) }
        ensures err { OnErr result (self.new ≡ disk_failed (counted self.old)) }
        ensures keeps { self.old.disk ≤ self.new.disk }
        ensures risen { OnErr result (HasRisen self.old.disk self.new.disk) }
    {
        if self.is_next_failing() {
            return Err(self.fail_on_files());
        }
        Ok(())
    }

    /// Begins a say, which fails where it is told to.
    pub fn begin_say(&mut self) -> Result<(), Failed>
        ensures failing { IsErr result ↔ IsNextFailing self.old }
        ensures ok { OnOk result (self.new ≡ counted self.old) }
        ensures err { OnErr result (self.new ≡ say_failed (counted self.old)) }
        ensures keeps { self.old.say ≤ self.new.say }
        ensures risen { OnErr result (HasRisen self.old.say self.new.say) }
    {
        if self.is_next_failing() {
            return Err(self.fail_in_say());
        }
        Ok(())
    }

    /// Ends a call on files, which fails where it found no memory.
    pub fn end_on_files(&mut self, done: Result<(), AllocError>) -> Result<(), Failed>
        ensures answer { IsOk result ↔ IsOk done }
        ensures ok { OnOk result (self.new ≡ self.old) }
        ensures err { OnErr result (self.new ≡ lacking (disk_failed self.old)) }
        ensures keeps { self.old.disk ≤ self.new.disk }
        ensures risen { OnErr result (HasRisen self.old.disk self.new.disk) }
    {
        match done {
            Ok(()) => Ok(()),
            Err(_) => {
                self.lack();
                Err(self.fail_on_files())
            }
        }
    }

    /// Ends a say, which fails where it found no memory.
    pub fn end_say(&mut self, done: Result<(), AllocError>) -> Result<(), Failed>
        ensures answer { IsOk result ↔ IsOk done }
        ensures ok { OnOk result (self.new ≡ self.old) }
        ensures err { OnErr result (self.new ≡ lacking (say_failed self.old)) }
        ensures keeps { self.old.say ≤ self.new.say }
        ensures risen { OnErr result (HasRisen self.old.say self.new.say) }
    {
        match done {
            Ok(()) => Ok(()),
            Err(_) => {
                self.lack();
                Err(self.fail_in_say())
            }
        }
    }
}
