//! Why a run breaks off.
ghost use Rattle.std.specs.Prelude.{◌≡◌};
ghost use Rattle.budget_top.specs.Stops.{stop_of, stop_status, device_stop_status};
ghost use Rattle.budget_top.specs.declared.stop.Stop.TheVariants.{Memory as OutOfMemory, Sink as SinkFailed};
ghost use Rattle.budget_top.specs.declared.stop.DeviceStop.TheVariants.{Run as AnyRun};

use crate::dispatch::{KEEPER_FAILED, NO_MEMORY, SINK_FAILED};
use budget_ports::{Failed, PortFault};
use field_values::NoMemory;

/// Why a run breaks off while it deals with a line.
#[derive(Clone, Copy, Debug, PartialEq, Eq)]
pub enum Stop {
    /// Memory ran out.
    Memory,
    /// The sink failed.
    Sink,
}

impl From<NoMemory> for Stop {
    ghost from_gives = { λ _ stop. stop ≡ OutOfMemory };

    fn from(_error: NoMemory) -> Stop {
        Stop::Memory
    }
}

impl From<Failed> for Stop {
    ghost from_gives = { λ _ stop. stop ≡ SinkFailed };

    fn from(_error: Failed) -> Stop {
        Stop::Sink
    }
}

impl Stop {
    /// The status of a run that breaks off so.
    pub fn status(self) -> u8
        ensures { result ≡ stop_status self }
    {
        match self {
            Stop::Memory => NO_MEMORY,
            Stop::Sink => SINK_FAILED,
        }
    }
}

/// Why a device's run breaks off while it deals with a line.
#[derive(Clone, Copy, Debug, PartialEq, Eq)]
pub enum DeviceStop {
    /// For what any run breaks off for.
    Run(Stop),
    /// The keeper failed.
    Keeper,
}

impl From<NoMemory> for DeviceStop {
    ghost from_gives = { λ _ stop. stop ≡ AnyRun OutOfMemory };

    fn from(_error: NoMemory) -> DeviceStop {
        DeviceStop::Run(Stop::Memory)
    }
}

impl From<Failed> for DeviceStop {
    ghost from_gives = { λ _ stop. stop ≡ AnyRun SinkFailed };

    fn from(_error: Failed) -> DeviceStop {
        DeviceStop::Run(Stop::Sink)
    }
}

impl From<PortFault> for DeviceStop {
    ghost from_gives = { λ fault stop. stop ≡ stop_of fault };

    fn from(fault: PortFault) -> DeviceStop {
        match fault {
            PortFault::Failed => DeviceStop::Keeper,
            PortFault::NoMemory => DeviceStop::Run(Stop::Memory),
        }
    }
}

impl DeviceStop {
    /// The status of a run that breaks off so.
    pub fn status(self) -> u8
        ensures { result ≡ device_stop_status self }
    {
        match self {
            DeviceStop::Run(stop) => stop.status(),
            DeviceStop::Keeper => KEEPER_FAILED,
        }
    }
}
