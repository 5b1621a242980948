//! The shell of an engine.

ghost use Rattle.std.specs.Prelude.{◌≡◌, None, Err};
ghost use Rattle.lazy_plans.specs.Shell.{shell_most, shell_held, shell_ended, IsNewShell, HandsOut, shell_answer, shell_keeps};

use crate::stop::{Ending, Stop};
use symk_task::Plan;

/// Engine shell: what an engine over a space has beside its search and its queue. It hands out a plan only once the space
/// was tidied; else the plan is held, and the engine stops.
#[derive(Drop)]
pub struct Shell {
    /// The greatest cost that is wanted, if there is one.
    most: Option<u64>,
    /// A plan that was found when the space could not be tidied.
    held: Option<Plan>,
    /// How it ended.
    ended: Option<Ending>,
}

impl Shell {
    /// The shell of an engine that goes on, where no plan that costs more than `most` is wanted.
    pub fn new(most: Option<u64>) -> Shell
        ensures { IsNewShell most result }
    {
        Shell {
            most,
            held: None,
            ended: None,
        }
    }

    /// The greatest cost that is wanted, if there is one.
    pub fn most(&self) -> Option<u64>
        ensures { result ≡ shell_most self.now }
    {
        self.most
    }

    /// How the engine ended; None while it goes on.
    pub fn ended(&self) -> Option<Ending>
        ensures { result ≡ shell_ended self.now }
    {
        self.ended
    }

    /// Ends the engine, and answers why.
    pub fn stop(&mut self, stop: Stop) -> Result<Option<Plan>, Stop>
        ensures answer { result ≡ Err stop }
        ensures hands { HandsOut self.old self.new (Err stop) (shell_held self.old) }
    {
        self.ended = Some(Ending::StoppedBy(stop));
        Err(stop)
    }

    /// Hands out what was found, where the space was tidied then; else it is held, and the engine ends, out of memory.
    pub fn hand_out(&mut self, found: Option<Plan>, tidied: bool) -> Result<Option<Plan>, Stop>
        requires goes_on { shell_ended self.old ≡ None }
        requires free { shell_held self.old ≡ None }
        ensures answer { result ≡ shell_answer found tidied }
        ensures hands { HandsOut self.old self.new (shell_answer found tidied) (shell_keeps found tidied) }
    {
        if !tidied {
            self.held = found;
            return self.stop(Stop::Memory);
        }
        if found.is_none() {
            self.ended = Some(Ending::Exhausted);
        }
        Ok(found)
    }
}
