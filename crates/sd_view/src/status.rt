//! How a run ends.
ghost use Rattle.std.specs.Prelude.{◌≡◌};
ghost use Rattle.sd_view.specs.Views.{status_for};

use sd_outside::NoMemory;

/// The exit status of the program: 0 to 5, with the meanings that `tendrafiso` gives them.
#[derive(Clone, Copy, Debug, PartialEq, Eq)]
pub struct Status(pub u8);

/// How a run that wasn't cut short ended.
#[derive(Clone, Copy, Debug, PartialEq, Eq)]
pub(crate) enum Ended {
    /// All was done.
    Done,
    /// The input was refused.
    Refused,
    /// The arguments are unknown.
    Usage,
}

/// Why a run was cut short.
#[derive(Clone, Copy, Debug, PartialEq, Eq)]
pub(crate) enum Stop {
    /// The source failed.
    SourceFault,
    /// The sink failed.
    SinkFault,
    /// Out of memory.
    NoMemory,
}

impl From<NoMemory> for Stop {
    ghost use Rattle.std.specs.Prelude.{◌≡◌};
    ghost use Rattle.sd_view.specs.declared.status.Stop.TheVariants as stop;

    ghost from_gives = { λ _ e. e ≡ stop.NoMemory };

    fn from(_: NoMemory) -> Self {
        Stop::NoMemory
    }
}

/// The status of a run.
pub(crate) fn status_of(ended: Result<Ended, Stop>) -> Status
    ensures { result ≡ status_for ended }
{
    match ended {
        Ok(Ended::Done) => Status(0),
        Ok(Ended::Refused) => Status(1),
        Ok(Ended::Usage) => Status(2),
        Err(Stop::SourceFault) => Status(3),
        Err(Stop::SinkFault) => Status(4),
        Err(Stop::NoMemory) => Status(5),
    }
}
