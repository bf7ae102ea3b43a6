// Events that a session asked for, before all their replies have come.

use crate::job_log::LogId;
use crate::pipeline::{Handed, Pipeline};
use crate::unanswered::Unanswered;
use silt_desk::Trace;
use silt_disk::Disk;
use std::marker::Model;

/// Events that were asked for, with the replies that have come, and with what was handed over for the others.
#[derive(Drop)]
pub struct AskedEvents<D: Disk, T: Trace, N: LogId> {
    pub(crate) pipeline: Pipeline<D, T>,
    pub(crate) handed: Result<Handed<D, T, N>, Unanswered>,
}

impl<D: Disk, T: Trace, N: LogId> Model for AskedEvents<D, T, N> {
    ghost use Rattle.silt_session.specs.Asked.{AskedState};
    ghost use Rattle.silt_session.specs.Pipelines.{HasRoom};

    ghost Value = { AskedState D T N D.Fault };

    ghost view = { λ a. record { pipeline = a.pipeline; handed = a.handed } };

    ghost invariant = { λ a. HasRoom a.pipeline 0 };
}
