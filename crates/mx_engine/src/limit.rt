//! The limit on the nodes of a chain.
ghost use Rattle.std.specs.Prelude.{◌≡◌, ◌↔◌, IsOk, OnErr, OnOk};
ghost use Rattle.mx_answers.specs.Answers.{IsLimit};

use crate::engine::Engine;
use crate::refusal::BadLimit;

/// The greatest limit.
const GREATEST: u32 = 100_000;

impl Engine {
    /// Sets how many nodes a chain may have. What is held stays. A limit that is refused changes nothing.
    pub fn set_limit(&mut self, limit: u32) -> Result<(), BadLimit>
        ensures exact { IsOk result ↔ IsLimit limit }
        ensures accepted { OnOk result (self.new ≡ record self.old { limit = limit }) }
        ensures refused { OnErr result (self.new ≡ self.old) }
    {
        mx_state::laws::laws();
        if limit < 1 {
            return Err(BadLimit);
        }
        if limit > GREATEST {
            return Err(BadLimit);
        }
        self.limit = limit as usize;
        return Ok(());
    }
}
