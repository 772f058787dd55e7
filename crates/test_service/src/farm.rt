//! A service with all that its opening gave.

ghost use Rattle.std.specs.Prelude.{◌≡◌, ◌≤◌};
ghost use Rattle.farm_service.specs.Services.{IsItsOperator};
ghost use Rattle.token_queue.specs.Passes.{AreItsPasses};

use crate::plans::{TrialPlan, plan_of};
use crate::sized::{Size, sized_plan};
use crate::watch::Watch;
use farm_service::{Closed, NotClosed, Opened, Service, UserPass, WorkerPass};
use plan_rules::AcceptedPlan;
use std::alloc::{AllocError, Global};
use std::sync::Wait;
use switch_table::OperatorSeat;

/// A service with its workers' passes and its operator's seat.
#[derive(Drop)]
pub struct OpenedFarm {
    pub service: Service,
    pub passes: Vec<WorkerPass>,
    pub operator: OperatorSeat,
    ghost its_passes: { AreItsPasses service.plan service.queue passes.items },
    ghost its_operator: { IsItsOperator service operator },
}

/// A plan of a trial.
#[derive(Clone, Copy)]
pub enum Ground {
    /// One that is listed.
    Listed(TrialPlan),
    /// That of a size.
    Sized(Size),
}

impl Ground {
    // The plan, unless memory runs out.
    fn plan_once(self, alloc: Global) -> Option<AcceptedPlan> {
        match self {
            Ground::Listed(plan) => plan_of(alloc, plan).ok(),
            Ground::Sized(size) => sized_plan(alloc, size).ok(),
        }
    }

    /// The plan, unless memory runs out twice.
    pub fn plan(self, alloc: Global) -> Option<AcceptedPlan> {
        match self.plan_once(alloc) {
            None => self.plan_once(alloc),
            plan => plan,
        }
    }
}

// Opens once.
fn open_once<R: Wait>(
    rt: &R,
    alloc: Global,
    ground: Ground,
    workers: u8,
) -> Option<(OpenedFarm, Vec<UserPass>, Watch)> {
    let plan = ground.plan(alloc)?;
    let watch = Watch::of(&plan);
    match Service::open(rt, alloc, plan, workers.clamp(1, 8)) {
        Ok(
            Opened {
                service,
                passes,
                users,
                operator,
            },
        ) => {
            let farm = OpenedFarm {
                service,
                passes,
                operator,
            };
            Some((farm, users, watch))
        }
        Err(_) => None,
    }
}

/// The service of a plan for 1 to 8 workers, its users' passes in plan order, and what an operator may see; `None` if memory
/// runs out twice.
pub fn open<R: Wait>(
    rt: &R,
    alloc: Global,
    ground: Ground,
    workers: u8,
) -> Option<(OpenedFarm, Vec<UserPass>, Watch)> {
    match open_once(rt, alloc, ground, workers) {
        None => open_once(rt, alloc, ground, workers),
        opened => opened,
    }
}

/// What is left of a farm.
///
/// # Errors
///
/// `AllocError` if memory runs out twice.
pub fn close<R: Wait>(
    rt: &R,
    alloc: Global,
    farm: OpenedFarm,
    users: Vec<UserPass>,
) -> Result<Closed, AllocError> {
    let OpenedFarm {
        service,
        passes,
        operator: _,
    } = farm;
    match service.close(rt, alloc, passes, users) {
        Ok(closed) => Ok(closed),
        Err(
            NotClosed {
                service,
                passes,
                users,
            },
        ) => service
            .close(rt, alloc, passes, users)
            .map_err(|_| AllocError),
    }
}
