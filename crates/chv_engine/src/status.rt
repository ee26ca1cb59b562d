// How a run ends.

/// How a run ended. The numbers are the exit statuses of the program.
#[derive(Clone, Copy, Debug, PartialEq, Eq)]
pub enum Status {
    /// Each statement was answered.
    Done = 0,
    /// Each statement was answered, one or more of them by a refusal.
    SomeRefused = 1,
    /// The words have none of the forms. Nothing was pulled, said or changed.
    BadWords = 2,
    /// A call on files failed.
    DiskFault = 3,
    /// A pull failed. Nothing was said or changed.
    SourceFault = 4,
    /// A say failed.
    SayFault = 5,
    /// A file is damaged.
    Damaged = 6,
    /// There was no memory.
    NoMemory = 7,
    /// The script has more than 67,108,864 bytes. Nothing was said or changed.
    TooLong = 8,
}
