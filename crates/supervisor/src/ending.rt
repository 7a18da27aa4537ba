// The ends stage of a tick: a timed order's time runs out.
ghost use Rattle.std.specs.Prelude.{◌≡◌};
ghost use Rattle.supervisor.specs.State.{HasMasks};
ghost use Rattle.supervisor.specs.Ending.{ended};

use crate::state::State;

impl State {
    // Ends.
    #[tactic(auto, using(modules::proofs::StageLaws::requested_none), unfolding(crate::specs::Ending::ended))]
    pub(crate) fn end_stage(mut self) -> State
        requires { HasMasks self }
        ensures { result ≡ ended self }
    {
        let over = self.ends.over();
        self.ends = self.ends.fall();
        if over == 0 {
            return self;
        }
        self.without_requests(over)
    }
}
